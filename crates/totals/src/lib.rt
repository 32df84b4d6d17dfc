// The shares of a sample (document 01, 'The sample'): running totals over its bits.
// No branch, index, comparison, division or remainder depends on a share, a bit or a random word.
#![tactic(auto)]

ghost use Rattle.std.specs.Prelude.{◌≡◌, ◌+◌, ◌*◌, ◌≤◌, length, drop};
ghost use Rattle.buffers.specs.Overwrite.{overwrite};
ghost use Rattle.buffers.specs.Positions.{at, table, after, Same, Below};
ghost use Rattle.conversion.specs.Conversion.{bit_words};
ghost use Rattle.conversion.specs.Arrays.{Drawn, Modulus};
ghost use Rattle.totals.specs.Sample.{sample_words, sample_shares};
ghost use Rattle.totals.specs.Totals.{with_row, totals_of};

use residue::Word;

// A bit's n shares added to the totals or, for a string that counts as negative, taken off. To add a share, q less it is taken off.
pub fn add_row(row: &[Word; 8], n: usize, q: Word, negative: bool, work: &mut [Word])
    requires { (n ≤ 8) × Modulus q × Below q n (at row.now) × (n ≤ length work.old) × Below q n (at work.old) }
    ensures { work.new ≡ overwrite work.old 0 (table n (with_row q negative work.old (at row.now))) }
{
    let modulus = residue::widen(q);
    for (i, word) in row[..n].iter().enumerate() {
        let total = residue::widen(work[i]);
        let share = residue::widen(*word);
        let other = if negative { share } else { modulus - share };
        work[i] = residue::narrow(residue::sub(total, other, modulus), q);
    }
}

// The rows of a string's k bits, added to the totals in front of the work area or taken off. Each bit takes the next n(n - 1) words from `start`
// on. The string's shares stand in front of the array. Answers the position after the last word.
fn add_string(
    shares: &[u16; 8],
    n: usize,
    k: usize,
    q: Word,
    words: &[Word],
    start: usize,
    negative: bool,
    work: &mut [Word],
) -> usize
    requires { (2 ≤ n) × (n ≤ 8) × (k ≤ 16) × Modulus q × Drawn q start (k * bit_words n) words.now × (n ≤ length work.old) × Below q n (at work.old) }
    ensures { (work.new ≡ overwrite work.old 0 (table n (totals_of n q negative (at shares.now) (after start (at words.now)) work.old k))) × (result ≡ start + k * bit_words n) }
{
    let mut p = start;
    let mut row: [Word; 8] = [0; 8];
    for bit in 0..k {
        let bits = conversion::bits_at(shares, bit);
        p = conversion::convert_at(&bits, n, q, words, p, &mut row);
        add_row(&row, n, q, negative, work);
    }
    p
}

// The n totals go to the output, and zeros stand in their place.
pub fn move_totals(work: &mut [Word], n: usize, out: &mut [Word])
    requires { (n ≤ length work.old) × (n ≤ length out.old) }
    ensures { (work.new ≡ overwrite work.old 0 (table n (λ i. 0))) × (out.new ≡ overwrite out.old 0 (table n (at work.old))) }
{
    // One loop: a copy and a fill of n words are two calls of the system's.
    for i in 0..n {
        out[i] = work[i];
        work[i] = 0;
    }
}

// The sample of the strings whose n shares stand in front of x and y, with the words from `start` on. The totals are made in front of the work
// area, which has n zeros there before and after. Answers the position after the last word.
// `&words[..]`: docs/DECISIONS.md, 'A slice is handed on by its parts'.
pub fn write_sample(
    n: usize,
    k: usize,
    q: Word,
    x: &[u16; 8],
    y: &[u16; 8],
    words: &[Word],
    start: usize,
    out: &mut [Word],
    work: &mut [Word],
) -> usize
    requires { (2 ≤ n) × (n ≤ 8) × (k ≤ 16) × Modulus q × Drawn q start (sample_words n k) words.now × (n ≤ length out.old) × (n ≤ length work.old) × Same n (at work.old) (λ i. 0) }
    ensures { (out.new ≡ overwrite out.old 0 (sample_shares n k q x.now y.now (drop start words.now))) × (work.new ≡ work.old) × (result ≡ start + sample_words n k) }
{
    let half = add_string(x, n, k, q, &words[..], start, false, work);
    let end = add_string(y, n, k, q, &words[..], half, true, work);
    move_totals(work, n, out);
    end
}
