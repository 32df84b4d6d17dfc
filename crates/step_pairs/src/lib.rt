// Step 3 of a bit's conversion, with a record of each value (document 02, A.8).
// No branch, index, comparison, division or remainder depends on a share, a bit or a random word.
#![tactic(auto)]

ghost use Rattle.std.specs.Prelude.{◌≡◌, ◌+◌, ◌-◌, ◌≤◌, ◌<◌, length};
ghost use Rattle.buffers.specs.Positions.{at, after, Below};
ghost use Rattle.conversion.specs.Conversion.{pairs, transfer, refresh_share, refresh};
ghost use Rattle.conversion.specs.Arrays.{Drawn, Modulus};
ghost use Rattle.records.specs.Records.{FitsIn, RecordedBy};
ghost use Rattle.steps.specs.Steps.{pair_steps, refresh_share_steps, refresh_steps};

use records::Kind;
use residue::Word;
use text::Writer;

// The pair of the shares i and m takes the word r: share i gains r, share m loses r.
fn refresh_pair(
    list: &mut [Word; 8],
    i: usize,
    m: usize,
    r: Word,
    q: Word,
    bit: u8,
    pair: u8,
    out: &mut Writer<'_>,
)
    requires { (i < m) × (m < 8) × (r < q) × Modulus q × (length list.old ≡ 8) × (at list.old i < q) × (at list.old m < q) × FitsIn out.old (pair_steps bit pair i m (transfer q i m r (at list.old))) }
    ensures { (length list.new ≡ 8) × (at list.new ≡ transfer q i m r (at list.old)) × RecordedBy out.old (pair_steps bit pair i m (transfer q i m r (at list.old))) out.new }
{
    let modulus = residue::widen(q);
    let word = residue::widen(r);
    let lower = residue::narrow(residue::add(residue::widen(list[i]), word, modulus), q);
    let higher = residue::narrow(residue::sub(residue::widen(list[m]), word, modulus), q);
    list[i] = lower;
    list[m] = higher;
    records::write_record(out, bit, pair, (i + 1) as u8, Kind::Pair as u8, lower);
    records::write_record(out, bit, pair, (m + 1) as u8, Kind::Pair as u8, higher);
}

// The pairs of share i with the shares behind it, up to n, the first of them numbered `pair`, take the words from `start` on.
fn refresh_share_steps(
    list: &mut [Word; 8],
    i: usize,
    n: usize,
    q: Word,
    words: &[Word],
    start: usize,
    bit: u8,
    pair: usize,
    out: &mut Writer<'_>,
)
    requires { (i < n) × (n ≤ 8) × (pair ≤ 29) × Modulus q × (length list.old ≡ 8) × Below q n (at list.old) × Drawn q start (n - (i + 1)) words.now × FitsIn out.old (refresh_share_steps q bit pair i (i + 1) (n - (i + 1)) (after start (at words.now)) (at list.old)) }
    ensures { (length list.new ≡ 8) × (at list.new ≡ refresh_share q i (i + 1) (n - (i + 1)) (after start (at words.now)) (at list.old)) × RecordedBy out.old (refresh_share_steps q bit pair i (i + 1) (n - (i + 1)) (after start (at words.now)) (at list.old)) out.new }
{
    for m in i + 1..n {
        let turn = m - (i + 1);
        let r = words[start + turn];
        refresh_pair(list, i, m, r, q, bit, (pair + turn) as u8, out);
    }
}

// Every pair of the n shares of the list takes a word from `start` on.
pub fn refresh_steps(
    list: &mut [Word; 8],
    n: usize,
    q: Word,
    words: &[Word],
    start: usize,
    bit: u8,
    out: &mut Writer<'_>,
)
    requires { (n ≤ 8) × Modulus q × (length list.old ≡ 8) × Below q n (at list.old) × Drawn q start (pairs n) words.now × FitsIn out.old (refresh_steps q bit 1 0 n (after start (at words.now)) (at list.old)) }
    ensures { (length list.new ≡ 8) × (at list.new ≡ refresh q n (after start (at words.now)) (at list.old)) × RecordedBy out.old (refresh_steps q bit 1 0 n (after start (at words.now)) (at list.old)) out.new }
{
    let mut done = 0;
    for i in 0..n {
        refresh_share_steps(list, i, n, q, &words[..], start + done, bit, 1 + done, out);
        done += n - (i + 1);
    }
}
