// Why a call is refused, and the tests that several calls share.
#![tactic(auto, using(crate::specs::Laws::first_position), unfolding(crate::specs::Checks::verdict))]

ghost use Rattle.std.specs.Prelude.{◌≡◌, ◌+◌, ◌*◌, ◌^◌, ◌≤◌, leb, ltb, length, take, drop, position, not};
ghost use Rattle.checks.specs.Search.{first_from, first_not_below};
ghost use Rattle.checks.specs.Checks.{refused, checked, within, parameter_checks, share_checks, word_checks, output_checks, buffer_checks};
ghost use Rattle.checks.specs.Answers.{code, reading};

use residue::Word;

// Document 01's numbers, by what is unfit.
#[derive(Clone, Copy, PartialEq, Eq)]
pub enum Reason {
    // n is not from 2 to 8.
    ShareCount = 1,
    // k is not from 1 to 16.
    StringLength = 2,
    // q is too small.
    Modulus = 3,
    // The list of Boolean shares, of x where there are two, has not exactly n words, or mn for a polynomial.
    XCount = 4,
    // The list of the shares of y has not exactly n words, or mn for a polynomial.
    YCount = 5,
    // A Boolean share, of x where there are two, has a bit at k or above.
    XWidth = 6,
    // A share of y has a bit at k or above.
    YWidth = 7,
    // There are too few random words.
    WordCount = 8,
    // A random word is not below q.
    WordRange = 9,
    // The output is too short.
    OutputRoom = 10,
    // The work area is too short.
    WorkRoom = 11,
    // An opened string has a bit at k or above.
    ValueWidth = 12,
    // There are not exactly n - 1 masks.
    MaskCount = 13,
    // A mask has a bit at k or above.
    MaskWidth = 14,
    // The list of arithmetic shares has not exactly n words.
    ArithmeticCount = 15,
    // An arithmetic share is not below q.
    ArithmeticRange = 16,
    // An opened residue is not below q.
    ResidueRange = 17,
    // A lesson file has a mark that is not allowed where it stands.
    Mark = 18,
    // A lesson file ends within a record or a sample.
    CutShort = 19,
    // A lesson file's count of random words is above 1,792.
    WordLimit = 20,
    // A lesson file has more than 60,000 bytes.
    FileLength = 21,
    // No published parameter set has this number.
    SetNumber = 22,
    // m, the number of coefficients, is not from 1 to 256.
    CoefficientCount = 23,
    // The parameter set is published, but is not 1 or 2, which are ML-KEM's.
    NoiseSet = 24,
    // There are not n strings of 64 * k noise bytes.
    NoiseLength = 25,
    // There are too few bytes for the step records.
    RecordRoom = 26,
}

// Document 01's number for a refused call, as `Reason` names it, and the position (its 'place') of what is unfit.
#[derive(Clone, Copy, PartialEq, Eq)]
pub struct Refusal {
    pub code: u32,
    pub position: usize,
}

impl From<Reason> for u32 {
    ghost from_gives = { λ reason number. number ≡ code reason };

    fn from(reason: Reason) -> u32 {
        reason as u32
    }
}

pub fn refuse<T>(code: u32, position: usize) -> Result<T, Refusal>
    ensures { reading result ≡ refused code position }
{
    Err(Refusal { code, position })
}

// low ≤ x ≤ high.
pub fn within(low: usize, high: usize, x: usize) -> bool
    ensures { result ≡ within low high x }
{
    low <= x && x <= high
}

// Checks 1, 2 and 3 of the sampler.
pub fn check_parameters(n: usize, k: usize, q: Word) -> Result<(), Refusal>
    ensures { reading result ≡ checked (parameter_checks n k q) }
{
    if !within(2, 8, n) {
        return refuse(Reason::ShareCount.into(), 0);
    }
    if !within(1, 16, k) {
        return refuse(Reason::StringLength.into(), 0);
    }
    if residue::to_usize(q) < 2 * k + 1 {
        return refuse(Reason::Modulus.into(), 0);
    }
    Ok(())
}

// No bit at k or above. A word has sixteen bits, so a k of 16 or more leaves none to judge.
pub fn is_narrow(value: u16, k: usize) -> bool
    ensures { result ≡ ltb value (2 ^ k) }
{
    u32::from(value) < 1 << k.min(16)
}

// The first share with a bit at k or above.
pub fn first_wide(shares: &[u16], k: usize) -> Option<usize>
    ensures { result ≡ position (λ x. not (ltb x (2 ^ k))) shares.now }
{
    shares.iter().position(|share| !is_narrow(*share, k))
}

// Checks 4 to 7: x and y are lists of `count` shares of k bits.
pub fn check_shares(count: usize, k: usize, x: &[u16], y: &[u16]) -> Result<(), Refusal>
    ensures { reading result ≡ checked (share_checks count k x.now y.now) }
{
    if x.len() != count {
        return refuse(Reason::XCount.into(), 0);
    }
    if y.len() != count {
        return refuse(Reason::YCount.into(), 0);
    }
    if let Some(i) = first_wide(x, k) {
        return refuse(Reason::XWidth.into(), i);
    }
    if let Some(i) = first_wide(y, k) {
        return refuse(Reason::YWidth.into(), i);
    }
    Ok(())
}

// The first of the words from `start` on that is not below q, going over the bits and, within a bit, over its words: document 01 names the labelled
// loops.
pub fn first_not_below(
    words: &[Word],
    start: usize,
    bits: usize,
    per: usize,
    q: Word,
) -> Option<usize>
    requires { start + bits * per ≤ length words.now }
    ensures { result ≡ first_from q start (take (bits * per) (drop start words.now)) }
{
    let mut found = None;
    let mut at = start;
    'bits: for b in 0..bits {
        for i in 0..per {
            if words[at] >= q {
                found = Some(at);
                break 'bits;
            }
            at += 1;
        }
    }
    found
}

// start + count ≤ length, also where the sum is too large for a usize.
fn has_room(start: usize, count: usize, length: usize) -> bool
    ensures { result ≡ leb (start + count) length }
{
    start <= length && count <= length - start
}

// Checks 8 and 9 of a call that takes `per` words from `start` on for each of its bits. Both numbers have 32 bits, so that their product fits
// a usize.
fn check_words(words: &[Word], start: usize, bits: u32, per: u32, q: Word) -> Result<(), Refusal>
    ensures { reading result ≡ checked (word_checks start (bits * per) q words.now) }
{
    if !has_room(start, (bits as usize) * (per as usize), words.len()) {
        return refuse(Reason::WordCount.into(), 0);
    }
    if let Some(i) = first_not_below(words, start, bits as usize, per as usize, q) {
        return refuse(Reason::WordRange.into(), i);
    }
    Ok(())
}

// Checks 8 to 10: the words of a call that takes `per` from `start` on for each of its bits, and room in the output for `shares` words.
pub fn check_output(
    words: &[Word],
    start: usize,
    bits: u32,
    per: u32,
    q: Word,
    shares: usize,
    room: usize,
) -> Result<(), Refusal>
    ensures { reading result ≡ checked (output_checks start (bits * per) q words.now shares room) }
{
    check_words(words, start, bits, per, q)?;
    if room < shares {
        return refuse(Reason::OutputRoom.into(), 0);
    }
    Ok(())
}

// Checks 8 to 11: those of `check_output`, and room in the work area for `totals` words.
pub fn check_buffers(
    words: &[Word],
    start: usize,
    bits: u32,
    per: u32,
    q: Word,
    shares: usize,
    room: usize,
    totals: usize,
    area: usize,
) -> Result<(), Refusal>
    ensures { reading result ≡ checked (buffer_checks start (bits * per) q words.now shares room totals area) }
{
    check_output(words, start, bits, per, q, shares, room)?;
    if area < totals {
        return refuse(Reason::WorkRoom.into(), 0);
    }
    Ok(())
}
