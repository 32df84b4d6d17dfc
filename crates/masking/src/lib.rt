// Boolean and arithmetic sharings: making and opening them.
// A refused call changes nothing.
#![tactic(auto, using(checks::specs::Laws::first_position), unfolding(checks::specs::Checks::verdict, crate::specs::Sharing::masked, crate::specs::Sharing::opened_string, crate::specs::Sharing::opened_residue))]

ghost use Rattle.std.specs.Prelude.{◌≡◌, ◌^◌, ◌<◌, length};
ghost use Rattle.residue.specs.Residue.{reduce, total, EachBelow};
ghost use Rattle.buffers.specs.Overwrite.{overwrite};
ghost use Rattle.checks.specs.Checks.{checked};
ghost use Rattle.checks.specs.Answers.{reading, outcome};
ghost use Rattle.masking.specs.Sharing.{xor_all, mask_shares, mask_checks, masked, open_string_checks, opened_string, open_residue_checks, opened_residue};
ghost use Rattle.masking.specs.Answers.{string_reading, residue_reading};

use checks::{Reason, Refusal};
use residue::Word;

// The string that a Boolean sharing holds, opened.
#[derive(Clone, Copy)]
pub struct OpenedString(pub u16);

// The residue that an arithmetic sharing holds, opened.
#[derive(Clone, Copy)]
pub struct OpenedResidue(pub Word);

fn check_mask(n: usize, k: usize, value: u16, masks: &[u16], room: usize) -> Result<(), Refusal>
    ensures { reading result ≡ checked (mask_checks n k value masks.now room) }
{
    if !checks::within(2, 8, n) {
        return checks::refuse(Reason::ShareCount.into(), 0);
    }
    if !checks::within(1, 16, k) {
        return checks::refuse(Reason::StringLength.into(), 0);
    }
    if !checks::is_narrow(value, k) {
        return checks::refuse(Reason::ValueWidth.into(), 0);
    }
    if masks.len() != n - 1 {
        return checks::refuse(Reason::MaskCount.into(), 0);
    }
    if let Some(i) = checks::first_wide(masks, k) {
        return checks::refuse(Reason::MaskWidth.into(), i);
    }
    if room < n {
        return checks::refuse(Reason::OutputRoom.into(), 0);
    }
    Ok(())
}

// The masks in their order, and then the value XOR all of them.
fn write_shares(value: u16, masks: &[u16], out: &mut [u16])
    requires { (0 < length masks.now) × (length masks.now < length out.old) }
    ensures { out.new ≡ overwrite out.old 0 (mask_shares value masks.now) }
{
    let last = value ^ xor_all(masks);
    for (i, mask) in masks.iter().enumerate() {
        out[i] = *mask;
    }
    out[masks.len()] = last;
}

// Makes n Boolean shares of the value out of n - 1 masks, and answers n. Output positions past n keep their content.
// Refuses 1, 2, 12, 13, 14 with the mask's position, 10.
pub fn mask(
    n: usize,
    k: usize,
    value: OpenedString,
    masks: &[u16],
    out: &mut [u16],
) -> Result<usize, Refusal>
    ensures { outcome result out.new ≡ masked n k value.0 masks.now out.old }
{
    check_mask(n, k, value.0, masks, out.len())?;
    write_shares(value.0, masks, out);
    Ok(n)
}

fn check_open_string(n: usize, k: usize, shares: &[u16]) -> Result<(), Refusal>
    ensures { reading result ≡ checked (open_string_checks n k shares.now) }
{
    if !checks::within(2, 8, n) {
        return checks::refuse(Reason::ShareCount.into(), 0);
    }
    if !checks::within(1, 16, k) {
        return checks::refuse(Reason::StringLength.into(), 0);
    }
    if shares.len() != n {
        return checks::refuse(Reason::XCount.into(), 0);
    }
    if let Some(i) = checks::first_wide(shares, k) {
        return checks::refuse(Reason::XWidth.into(), i);
    }
    Ok(())
}

// The XOR of a list.
fn xor_all(list: &[u16]) -> u16
    requires { 0 < length list.now }
    ensures { result ≡ xor_all list.now }
{
    let mut all: u16 = 0;
    for share in list {
        all ^= *share;
    }
    all
}

// Opens a Boolean sharing: the XOR of its n shares.
// Refuses 1, 2, 4, 6 with the share's position.
pub fn open_string(n: usize, k: usize, shares: &[u16]) -> Result<OpenedString, Refusal>
    ensures { string_reading result ≡ opened_string n k shares.now }
{
    check_open_string(n, k, shares)?;
    Ok(OpenedString(xor_all(shares)))
}

fn check_open_residue(n: usize, q: Word, shares: &[Word]) -> Result<(), Refusal>
    ensures { reading result ≡ checked (open_residue_checks n q shares.now) }
{
    if !checks::within(2, 8, n) {
        return checks::refuse(Reason::ShareCount.into(), 0);
    }
    if q < 3 {
        return checks::refuse(Reason::Modulus.into(), 0);
    }
    if shares.len() != n {
        return checks::refuse(Reason::ArithmeticCount.into(), 0);
    }
    if let Some(i) = checks::first_not_below(shares, 0, 1, n, q) {
        return checks::refuse(Reason::ArithmeticRange.into(), i);
    }
    Ok(())
}

// The sum of a list modulo q.
fn sum_all(list: &[Word], q: Word) -> Word
    requires { (0 < length list.now) × (0 < q) × (q < 2 ^ 31) × EachBelow q list.now }
    ensures { result ≡ reduce q (total list.now) }
{
    let mut sum: Word = 0;
    for word in list {
        sum = residue::add_words(sum, *word, q);
    }
    sum
}

// Opens an arithmetic sharing: the sum of its n shares modulo q.
// Refuses 1, 3 (q below 3), 15, 16 with the share's position.
pub fn open_residue(n: usize, q: Word, shares: &[Word]) -> Result<OpenedResidue, Refusal>
    ensures { residue_reading result ≡ opened_residue n q shares.now }
{
    check_open_residue(n, q, shares)?;
    Ok(OpenedResidue(sum_all(shares, q)))
}
