// The masked binomial sampler with a record of each step (document 02, A.8).
// No branch, index, comparison, division or remainder depends on a share, a bit or a random word behind the checks.
#![tactic(auto)]

ghost use Rattle.std.specs.Prelude.{◌≡◌, ◌+◌, ◌*◌, ◌≤◌, ◌<◌, length};
ghost use Rattle.buffers.specs.Overwrite.{overwrite};
ghost use Rattle.buffers.specs.Positions.{at, table, after, Same, Below};
ghost use Rattle.checks.specs.Checks.{checked};
ghost use Rattle.checks.specs.Answers.{reading, outcome};
ghost use Rattle.conversion.specs.Conversion.{bits_at, bit_words, convert_bit};
ghost use Rattle.conversion.specs.Arrays.{Holds, Drawn, Modulus};
ghost use Rattle.totals.specs.Sample.{sample_shares, sample_words};
ghost use Rattle.totals.specs.Totals.{with_row, totals_of};
ghost use Rattle.sampler.specs.Sampler.{both};
ghost use Rattle.records.specs.Records.{Fits, FitsIn, RecordedBy, bytes};
ghost use Rattle.steps.specs.Steps.{convert_steps, bit_steps, string_steps, step_records};
ghost use Rattle.sample_steps.specs.SampleSteps.{step_checks, lists, steps_sampled};

use checks::{Reason, Refusal};
use records::Kind;
use residue::Word;
use text::Writer;

// Steps 1, 2 and 3 of a bit, with the n(n - 1) words at `start`. Its n shares stand in front of the list.
// `&words[..]`: docs/DECISIONS.md, 'A slice is handed on by its parts'.
fn convert_bit_steps(
    bits: &[Word; 8],
    n: usize,
    q: Word,
    words: &[Word],
    start: usize,
    bit: u8,
    out: &mut Writer<'_>,
) -> [Word; 8]
    requires { (1 ≤ n) × (n ≤ 8) × Below 2 n (at bits.now) × Modulus q × Drawn q start (bit_words n) words.now × FitsIn out.old (convert_steps q bit n (at bits.now) (after start (at words.now))) }
    ensures { Holds n (convert_bit q n (at bits.now) (after start (at words.now))) result × RecordedBy out.old (convert_steps q bit n (at bits.now) (after start (at words.now))) out.new }
{
    let first = step_rounds::convert_steps(bits, n, q, &words[..], start, bit, out);
    let mut list = first.list;
    step_pairs::refresh_steps(&mut list, n, q, words, first.next, bit, out);
    list
}

// Bit t of a string, whose records have the number `bit`: its row is added to the totals or taken off, and their records follow its own.
fn add_bit_steps(
    shares: &[u16; 8],
    t: usize,
    n: usize,
    q: Word,
    words: &[Word],
    start: usize,
    negative: bool,
    work: &mut [Word],
    bit: u8,
    out: &mut Writer<'_>,
)
    requires { (t < 16) × (1 ≤ n) × (n ≤ 8) × Modulus q × Drawn q start (bit_words n) words.now × (n ≤ length work.old) × Below q n (at work.old) × FitsIn out.old (bit_steps q bit n (bits_at (at shares.now) t) (after start (at words.now)) (with_row q negative work.old (convert_bit q n (bits_at (at shares.now) t) (after start (at words.now))))) }
    ensures work_after { work.new ≡ overwrite work.old 0 (table n (with_row q negative work.old (convert_bit q n (bits_at (at shares.now) t) (after start (at words.now))))) }
    ensures recorded { RecordedBy out.old (bit_steps q bit n (bits_at (at shares.now) t) (after start (at words.now)) (with_row q negative work.old (convert_bit q n (bits_at (at shares.now) t) (after start (at words.now))))) out.new }
{
    let bits = conversion::bits_at(shares, t);
    let list = convert_bit_steps(&bits, n, q, words, start, bit, out);
    totals::add_row(&list, n, q, negative, work);
    records::write_group(out, bit, 0, Kind::Total as u8, n, work);
}

// The k bits of a string, numbered from `first` on, whose shares stand in front of the array. Each bit takes the next n(n - 1) words from `start` on.
fn add_string_steps(
    shares: &[u16; 8],
    n: usize,
    k: usize,
    q: Word,
    words: &[Word],
    start: usize,
    negative: bool,
    work: &mut [Word],
    first: usize,
    out: &mut Writer<'_>,
)
    requires { (2 ≤ n) × (n ≤ 8) × (k ≤ 16) × (first ≤ 16) × Modulus q × Drawn q start (k * bit_words n) words.now × (n ≤ length work.old) × Below q n (at work.old) × FitsIn out.old (string_steps q n k first (at shares.now) (after start (at words.now)) (totals_of n q negative (at shares.now) (after start (at words.now)) work.old)) }
    ensures work_after { work.new ≡ overwrite work.old 0 (table n (totals_of n q negative (at shares.now) (after start (at words.now)) work.old k)) }
    ensures recorded { RecordedBy out.old (string_steps q n k first (at shares.now) (after start (at words.now)) (totals_of n q negative (at shares.now) (after start (at words.now)) work.old)) out.new }
{
    let per = n * (n - 1);
    for t in 0..k {
        add_bit_steps(
            shares,
            t,
            n,
            q,
            &words[..],
            start + t * per,
            negative,
            work,
            (first + t) as u8,
            out,
        );
    }
}

// The sample of the strings whose n shares stand in front of x and y, with the words from position 0 on, and all its records. The totals are made
// in front of the work area, which has n zeros there before and after.
fn write_steps(
    n: usize,
    k: usize,
    q: Word,
    x: &[u16; 8],
    y: &[u16; 8],
    words: &[Word],
    out: &mut [Word],
    work: &mut [Word],
    records: &mut [u8],
)
    requires { (2 ≤ n) × (n ≤ 8) × (k ≤ 16) × Modulus q × Drawn q 0 (sample_words n k) words.now × (n ≤ length out.old) × (n ≤ length work.old) × Same n (at work.old) (λ i. 0) × Fits records.old 0 (step_records n k q x.now y.now words.now) }
    ensures { (out.new ≡ overwrite out.old 0 (sample_shares n k q x.now y.now words.now)) × (work.new ≡ work.old) × (records.new ≡ overwrite records.old 0 (bytes (step_records n k q x.now y.now words.now))) }
{
    let mut writer = Writer {
        text: records,
        end: 0,
    };
    add_string_steps(x, n, k, q, &words[..], 0, false, work, 0, &mut writer);
    add_string_steps(
        y,
        n,
        k,
        q,
        &words[..],
        k * (n * (n - 1)),
        true,
        work,
        k,
        &mut writer,
    );
    totals::move_totals(work, n, out);
}

// The sampler's checks, then 26.
fn check_steps(
    n: usize,
    k: usize,
    q: Word,
    x: &[u16],
    y: &[u16],
    words: &[Word],
    room: usize,
    area: usize,
    size: usize,
) -> Result<(), Refusal>
    ensures { reading result ≡ checked (step_checks n k q x.now y.now words.now room area size) }
{
    sampler::check_sample(n, k, q, x, y, words, 0, room, area)?;
    let per = 5 * n * (n + 1) / 2 - 3;
    if size < records::RECORD_BYTES * (2 * k * per) {
        return checks::refuse(Reason::RecordRoom.into(), 0);
    }
    Ok(())
}

// Samples as the sampler does, with the first 2kn(n - 1) words, and writes a record of each step in front of `records`. Answers 2kn(n - 1). What
// is past those words is neither read nor judged. Output and work positions past n and bytes past the last record keep their content; the first n
// work words are zero afterwards.
// Refuses 1 to 11 as the sampler; 26 (fewer bytes than those of 2k(5n(n + 1)/2 - 3) records).
pub fn sample_steps(
    n: usize,
    k: usize,
    q: Word,
    x: &[u16],
    y: &[u16],
    words: &[Word],
    out: &mut [Word],
    work: &mut [Word],
    records: &mut [u8],
) -> Result<usize, Refusal>
    ensures { outcome result (lists (both out.new work.new) records.new) ≡ steps_sampled n k q x.now y.now words.now out.old work.old records.old }
{
    check_steps(n, k, q, x, y, words, out.len(), work.len(), records.len())?;
    let mut a = [0u16; 8];
    let mut b = [0u16; 8];
    buffers::copy_eight(&mut a, x);
    buffers::copy_eight(&mut b, y);
    buffers::zero(work, n);
    write_steps(n, k, q, &a, &b, words, out, work, records);
    Ok(2 * k * (n * (n - 1)))
}
