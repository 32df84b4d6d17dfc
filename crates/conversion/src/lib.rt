// One shared bit to n shares modulo q (document 01, 'From one shared bit to n numbers'; source 003, Algorithm 5).
// No branch, index, comparison, division or remainder depends on a share, a bit or a random word behind the checks.
#![tactic(auto)]

ghost use Rattle.std.specs.Prelude.{◌≡◌, ◌+◌, ◌-◌, ◌^◌, ◌≤◌, ◌<◌, length};
ghost use Rattle.residue.specs.Residue.{sub};
ghost use Rattle.buffers.specs.Overwrite.{overwrite};
ghost use Rattle.buffers.specs.Positions.{at, table, after, Same, Below};
ghost use Rattle.checks.specs.Checks.{checked};
ghost use Rattle.checks.specs.Answers.{reading, outcome};
ghost use Rattle.conversion.specs.Conversion.{pairs, less_twice, xor_share, bits_at, convert, refresh_share, refresh, convert_bit, bit_words, value_checks, converted};
ghost use Rattle.conversion.specs.Secrecy.{BitSecrecy};
ghost use Rattle.conversion.specs.Arrays.{Holds, Drawn, Modulus};

use checks::{Reason, Refusal};
use residue::{Wide, Word};

// B - 2Bb modulo q for B = a - r and a bit b: a - r, or r - a where b is 1.
pub fn less_twice(a: Wide, r: Wide, b: Wide, q: Word) -> Word
    requires { (a < q) × (r < q) × (b < 2) × (q < 2 ^ 31) }
    ensures { result ≡ less_twice q b (sub q a r) }
{
    residue::narrow(residue::cswap_sub(a, r, b, residue::widen(q)), q)
}

// Step 2: the list for j + 1 shares of the bit, from the list for j, the j words at `start` and the next share of the bit.
fn xor_share(a: [Word; 8], j: usize, bit: Word, q: Word, words: &[Word], start: usize) -> [Word; 8]
    requires { (j < 8) × (bit < 2) × Modulus q × Below q j (at a) × Drawn q start j words.now }
    ensures { Holds (j + 1) (xor_share q j (at a) (after start (at words.now)) bit) result }
{
    let modulus = residue::widen(q);
    let b = residue::widen(bit);
    let mut c: [Word; 8] = [0; 8];
    let mut sum: Wide = 0;
    // Eight turns whatever j is, so that the loop can be unrolled.
    for i in 0..8 {
        if i < j {
            let r = residue::widen(words[start + i]);
            c[i] = less_twice(residue::widen(a[i]), r, b, q);
            sum = residue::add(sum, r, modulus);
        } else if i == j {
            c[i] = less_twice(sum, 0, b, q);
        }
    }
    c[0] = residue::narrow(residue::add(residue::widen(c[0]), b, modulus), q);
    c
}

// Bit t of each share.
pub fn bits_at(shares: &[u16; 8], t: usize) -> [Word; 8]
    requires { t < 16 }
    ensures { Holds 8 (bits_at (at shares.now) t) result }
{
    let mut bits: [Word; 8] = [0; 8];
    for (i, share) in shares.iter().enumerate() {
        bits[i] = residue::from_u16((*share >> t) & 1);
    }
    bits
}

// Step 1: the list for one share.
pub fn one_share(bit: Word) -> [Word; 8]
    ensures { Holds 1 (λ i. bit) result }
{
    [bit, 0, 0, 0, 0, 0, 0, 0]
}

// A list that steps 1 and 2 made, and the position after their last word.
#[derive(Clone, Copy)]
pub struct Unrefreshed {
    pub list: [Word; 8],
    pub next: usize,
}

// Steps 1 and 2: the list for the first j shares of a bit, with the j(j - 1)/2 words at `start`.
#[cycle(add_share_convert)]
fn convert(bits: &[Word; 8], j: usize, q: Word, words: &[Word], start: usize) -> Unrefreshed
    requires { (1 ≤ j) × (j ≤ 8) × Below 2 j (at bits.now) × Modulus q × Drawn q start (pairs j) words.now }
    ensures { Holds j (convert q j (at bits.now) (after start (at words.now))) result.list × (result.next ≡ start + pairs j) }
{
    if j == 1 {
        return Unrefreshed {
            list: one_share(bits[0]),
            next: start,
        };
    }
    add_share(bits, j - 1, q, words, start)
}

// The list for j + 1 shares: the first j are converted first, and step 2 takes its words from where they end.
// `&words[..]`: docs/DECISIONS.md, 'A slice is handed on by its parts'.
#[cycle(add_share_convert)]
fn add_share(bits: &[Word; 8], j: usize, q: Word, words: &[Word], start: usize) -> Unrefreshed
    requires { (1 ≤ j) × (j < 8) × Below 2 (j + 1) (at bits.now) × Modulus q × Drawn q start (pairs (j + 1)) words.now }
    ensures { Holds (j + 1) (convert q (j + 1) (at bits.now) (after start (at words.now))) result.list × (result.next ≡ start + pairs (j + 1)) }
{
    let bit = bits[j];
    let first = convert(bits, j, q, &words[..], start);
    let list = xor_share(first.list, j, bit, q, words, first.next);
    Unrefreshed {
        list,
        next: first.next + j,
    }
}

// Step 3 for share i: its pairs with the shares behind it, up to n, take the words from `start` on. Answers the position after the last word.
fn refresh_share(
    list: &mut [Word; 8],
    i: usize,
    n: usize,
    q: Word,
    words: &[Word],
    start: usize,
) -> usize
    requires { (i < n) × (n ≤ 8) × Modulus q × (length list.old ≡ 8) × Below q (n - i) (after i (at list.old)) × Drawn q start (n - (i + 1)) words.now }
    ensures { (length list.new ≡ 8) × Same (n - i) (after i (at list.new)) (after i (refresh_share q i (i + 1) (n - (i + 1)) (after start (at words.now)) (at list.old))) × (result ≡ start + (n - (i + 1))) }
{
    let modulus = residue::widen(q);
    let end = start + (n - (i + 1));
    let mut own = residue::widen(list[i]);
    for (t, word) in words[start..end].iter().enumerate() {
        let m = i + 1 + t;
        let r = residue::widen(*word);
        own = residue::add(own, r, modulus);
        list[m] = residue::narrow(residue::sub(residue::widen(list[m]), r, modulus), q);
    }
    list[i] = residue::narrow(own, q);
    end
}

// Step 3: every pair of the n shares of the list, which is used up, takes a word from `start` on. The shares come to stand in front of the row.
// Answers the position after the last word.
fn refresh(
    list: &mut [Word; 8],
    n: usize,
    q: Word,
    words: &[Word],
    start: usize,
    row: &mut [Word],
) -> usize
    requires { (n ≤ 8) × Modulus q × (length list.old ≡ 8) × Below q n (at list.old) × Drawn q start (pairs n) words.now × (n ≤ length row.old) }
    ensures { (row.new ≡ overwrite row.old 0 (table n (refresh q n (after start (at words.now)) (at list.old)))) × (result ≡ start + pairs n) }
{
    let mut p = start;
    // By the number of the share, which says where its pairs begin.
    for i in 0..n {
        p = refresh_share(list, i, n, q, words, p);
        row[i] = list[i];
    }
    p
}

// The n shares of a bit, by steps 1, 2 and 3 with the n(n - 1) words at `start`. They come to stand in front of the row. Answers the position
// after the last word. There are two shares at least, so the last is added to those before it.
pub fn convert_at(
    bits: &[Word; 8],
    n: usize,
    q: Word,
    words: &[Word],
    start: usize,
    row: &mut [Word],
) -> usize
    requires { (2 ≤ n) × (n ≤ 8) × Below 2 n (at bits.now) × Modulus q × Drawn q start (bit_words n) words.now × (n ≤ length row.old) }
    ensures { (row.new ≡ overwrite row.old 0 (table n (convert_bit q n (at bits.now) (after start (at words.now))))) × (result ≡ start + bit_words n) }
{
    let mut first = add_share(bits, n - 1, q, &words[..], start);
    let next = first.next;
    refresh(&mut first.list, n, q, words, next, row)
}

// The checks of a call that converts the k bits of n shares, with k times n(n - 1) words from `start` on: 1; 2; 3 (q below 3); 4; 6; 8 to 10.
#[tactic(auto, unfolding(checks::specs::Checks::verdict))]
pub fn check_value(
    n: usize,
    k: usize,
    q: Word,
    shares: &[u16],
    words: &[Word],
    start: usize,
    room: usize,
) -> Result<(), Refusal>
    ensures { reading result ≡ checked (value_checks n k q shares.now words.now start room) }
{
    if !checks::within(2, 8, n) {
        return checks::refuse(Reason::ShareCount.into(), 0);
    }
    if !checks::within(1, 16, k) {
        return checks::refuse(Reason::StringLength.into(), 0);
    }
    if q < 3 {
        return checks::refuse(Reason::Modulus.into(), 0);
    }
    if shares.len() != n {
        return checks::refuse(Reason::XCount.into(), 0);
    }
    if let Some(i) = checks::first_wide(shares, k) {
        return checks::refuse(Reason::XWidth.into(), i);
    }
    checks::check_output(words, start, k as u32, (n * (n - 1)) as u32, q, n, room)
}

// Converts one shared bit to n shares modulo q, with the n(n - 1) words at `start`, and answers the position after the last of them. The words
// around them are neither read nor judged. Output positions past n keep their content.
// Refuses 1, 3 (q below 3), 4, 6 with the share's position, 8 (fewer than start + n(n - 1) words), 9 with the word's position, 10. A bit is checked
// as a string of one, for which 2 holds.
pub fn convert_bit(
    n: usize,
    q: Word,
    bits: &[u16],
    words: &[Word],
    start: usize,
    out: &mut [Word],
) -> Result<usize, Refusal>
    ensures out_after { outcome result out.new ≡ converted n q bits.now words.now start out.old }
    ensures secrecy { BitSecrecy n q }
{
    check_value(n, 1, q, bits, words, start, out.len())?;
    let mut array = [0u16; 8];
    buffers::copy_eight(&mut array, bits);
    let lowest = bits_at(&array, 0);
    Ok(convert_at(&lowest, n, q, words, start, out))
}
