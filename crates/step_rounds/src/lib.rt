// Steps 1 and 2 of a bit's conversion, with a record of each value (document 02, A.8).
// No branch, index, comparison, division or remainder depends on a share, a bit or a random word.
#![tactic(auto)]

ghost use Rattle.std.specs.Prelude.{◌≡◌, ◌+◌, ◌≤◌, ◌<◌, length};
ghost use Rattle.residue.specs.Residue.{mul};
ghost use Rattle.buffers.specs.Positions.{at, after, Below};
ghost use Rattle.conversion.specs.Conversion.{pairs, extend, xor_bit, xor_share, convert};
ghost use Rattle.conversion.specs.Arrays.{Holds, Drawn, Modulus};
ghost use Rattle.records.specs.Records.{across, FitsIn, RecordedBy};
ghost use Rattle.steps.specs.Steps.{list_steps, added_steps, round_steps};

use conversion::Unrefreshed;
use records::Kind;
use residue::{Wide, Word};
use text::Writer;

// B of round j + 1: the list for j shares less the j words at `start`, and behind it the sum of the words.
fn extend(a: [Word; 8], j: usize, q: Word, words: &[Word], start: usize) -> [Word; 8]
    requires { (j < 8) × Modulus q × Below q j (at a) × Drawn q start j words.now }
    ensures { Holds (j + 1) (extend q j (at a) (after start (at words.now))) result }
{
    let modulus = residue::widen(q);
    let mut list: [Word; 8] = [0; 8];
    let mut sum: Wide = 0;
    for (i, word) in words[start..start + j].iter().enumerate() {
        let r = residue::widen(*word);
        list[i] = residue::narrow(residue::sub(residue::widen(a[i]), r, modulus), q);
        sum = residue::add(sum, r, modulus);
    }
    list[j] = residue::narrow(sum, q);
    list
}

// The products of the first n of the list with a bit: below q without a reduction.
fn multiply(list: [Word; 8], n: usize, bit: Word, q: Word) -> [Word; 8]
    requires { (n ≤ 8) × (bit < 2) × Below q n (at list) }
    ensures { Holds n (λ i. mul q (at list i) bit) result }
{
    let b = residue::widen(bit);
    let mut products: [Word; 8] = [0; 8];
    for (i, word) in list[..n].iter().enumerate() {
        products[i] = residue::narrow(residue::widen(*word) * b, q);
    }
    products
}

// C, from the first n of B: B - 2Bb, and b is added to the first.
fn xor_bit(list: [Word; 8], n: usize, bit: Word, q: Word) -> [Word; 8]
    requires { (1 ≤ n) × (n ≤ 8) × (bit < 2) × Modulus q × Below q n (at list) }
    ensures { Holds n (xor_bit q bit (at list)) result }
{
    let b = residue::widen(bit);
    let mut c: [Word; 8] = [0; 8];
    for (i, word) in list[..n].iter().enumerate() {
        c[i] = conversion::less_twice(residue::widen(*word), 0, b, q);
    }
    c[0] = residue::add_words(c[0], bit, q);
    c
}

// The records of round j + 1, with the share b of the bit and three lists.
fn write_round(
    out: &mut Writer<'_>,
    bit: u8,
    j: usize,
    b: Word,
    extended: &[Word],
    products: &[Word],
    list: &[Word],
)
    requires { (j < 8) × (j < length extended.now) × (j < length products.now) × (j < length list.now) × FitsIn out.old (list_steps bit j b (at extended.now) (at products.now) (at list.now)) }
    ensures { RecordedBy out.old (list_steps bit j b (at extended.now) (at products.now) (at list.now)) out.new }
{
    let round = (j + 1) as u8;
    records::write_record(out, bit, round, round, Kind::Share as u8, b);
    records::write_group(out, bit, round, Kind::Extended as u8, j + 1, extended);
    records::write_group(out, bit, round, Kind::Product as u8, j + 1, products);
    records::write_group(out, bit, round, Kind::Converted as u8, j + 1, list);
}

// Round j + 1, from the list for j shares, the j words at `start` and the next share b of the bit.
fn add_round(
    a: [Word; 8],
    j: usize,
    b: Word,
    q: Word,
    words: &[Word],
    start: usize,
    bit: u8,
    out: &mut Writer<'_>,
) -> Unrefreshed
    requires { (j < 8) × (b < 2) × Modulus q × Below q j (at a) × Drawn q start j words.now × FitsIn out.old (added_steps q bit j b (extend q j (at a) (after start (at words.now)))) }
    ensures { Holds (j + 1) (xor_share q j (at a) (after start (at words.now)) b) result.list × (result.next ≡ start + j) × RecordedBy out.old (added_steps q bit j b (extend q j (at a) (after start (at words.now)))) out.new }
{
    let extended = extend(a, j, q, words, start);
    let products = multiply(extended, j + 1, b, q);
    let list = xor_bit(extended, j + 1, b, q);
    write_round(out, bit, j, b, &extended, &products, &list);
    Unrefreshed {
        list,
        next: start + j,
    }
}

// Steps 1 and 2: the list for the first j shares of a bit, with the j(j - 1)/2 words at `start`, and the records of its rounds.
#[cycle(add_share_steps_convert_steps)]
pub fn convert_steps(
    bits: &[Word; 8],
    j: usize,
    q: Word,
    words: &[Word],
    start: usize,
    bit: u8,
    out: &mut Writer<'_>,
) -> Unrefreshed
    requires { (1 ≤ j) × (j ≤ 8) × Below 2 j (at bits.now) × Modulus q × Drawn q start (pairs j) words.now × FitsIn out.old (across j (round_steps q bit (at bits.now) (after start (at words.now)))) }
    ensures { Holds j (convert q j (at bits.now) (after start (at words.now))) result.list × (result.next ≡ start + pairs j) × RecordedBy out.old (across j (round_steps q bit (at bits.now) (after start (at words.now)))) out.new }
{
    if j == 1 {
        let list = conversion::one_share(bits[0]);
        records::write_record(out, bit, 1, 1, Kind::Share as u8, bits[0]);
        return Unrefreshed { list, next: start };
    }
    add_share_steps(bits, j - 1, q, words, start, bit, out)
}

// The same for j + 1 shares: the first j are converted first, and the next round takes its words from where they end.
// `&words[..]`: docs/DECISIONS.md, 'A slice is handed on by its parts'.
#[cycle(add_share_steps_convert_steps)]
fn add_share_steps(
    bits: &[Word; 8],
    j: usize,
    q: Word,
    words: &[Word],
    start: usize,
    bit: u8,
    out: &mut Writer<'_>,
) -> Unrefreshed
    requires { (1 ≤ j) × (j < 8) × Below 2 (j + 1) (at bits.now) × Modulus q × Drawn q start (pairs (j + 1)) words.now × FitsIn out.old (across (j + 1) (round_steps q bit (at bits.now) (after start (at words.now)))) }
    ensures { Holds (j + 1) (convert q (j + 1) (at bits.now) (after start (at words.now))) result.list × (result.next ≡ start + pairs (j + 1)) × RecordedBy out.old (across (j + 1) (round_steps q bit (at bits.now) (after start (at words.now)))) out.new }
{
    let b = bits[j];
    let first = convert_steps(bits, j, q, &words[..], start, bit, out);
    add_round(first.list, j, b, q, words, first.next, bit, out)
}
