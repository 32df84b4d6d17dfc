// The binomial sample unmasked, which is the weight difference of two opened strings; the centred value of an opened residue; the published
// parameter sets.
#![tactic(auto)]

ghost use Rattle.std.specs.Prelude.{◌≡◌, ◌<◌};
ghost use Rattle.checks.specs.Checks.{checked};
ghost use Rattle.checks.specs.Answers.{reading};
ghost use Rattle.binomial.specs.Signed.{centred_value, centre_checks, centred, weight, weight_checks, weight_difference};
ghost use Rattle.binomial.specs.Sets.{parameter_set};

use checks::{Reason, Refusal};
use masking::{OpenedResidue, OpenedString};
use residue::Word;

// A string length k and a modulus q.
#[derive(Clone, Copy, PartialEq, Eq)]
pub struct ParameterSet {
    pub k: usize,
    pub q: Word,
}

#[tactic(auto, unfolding(checks::specs::Checks::verdict))]
fn check_centre(q: Word, r: Word) -> Result<(), Refusal>
    ensures { reading result ≡ checked (centre_checks q r) }
{
    if q < 3 {
        return checks::refuse(Reason::Modulus.into(), 0);
    }
    if r >= q {
        return checks::refuse(Reason::ResidueRange.into(), 0);
    }
    Ok(())
}

fn centred_value(q: Word, r: Word) -> i32
    requires { r < q }
    ensures { result ≡ centred_value q r }
{
    if 2 * residue::widen(r) <= residue::widen(q) {
        residue::difference(r, 0)
    } else {
        residue::difference(r, q)
    }
}

// The centred value of a residue: r where 2r is at most q, else r - q.
// Refuses 3 (q below 3), 17.
pub fn centre(q: Word, opened: OpenedResidue) -> Result<i32, Refusal>
    ensures { reading result ≡ centred q opened.0 }
{
    check_centre(q, opened.0)?;
    Ok(centred_value(q, opened.0))
}

#[tactic(auto, unfolding(checks::specs::Checks::verdict))]
fn check_weights(k: usize, x: u16, y: u16) -> Result<(), Refusal>
    ensures { reading result ≡ checked (weight_checks k x y) }
{
    if !checks::within(1, 16, k) {
        return checks::refuse(Reason::StringLength.into(), 0);
    }
    if !checks::is_narrow(x, k) {
        return checks::refuse(Reason::ValueWidth.into(), 0);
    }
    if !checks::is_narrow(y, k) {
        return checks::refuse(Reason::ValueWidth.into(), 1);
    }
    Ok(())
}

fn weight(x: u16) -> u16
    ensures { result ≡ weight x }
{
    u16::count_ones(x) as u16
}

// The weight of x less the weight of y.
// Refuses 2, 12 with position 0 for x and 1 for y.
pub fn weight_difference(k: usize, x: OpenedString, y: OpenedString) -> Result<i32, Refusal>
    ensures { reading result ≡ weight_difference k x.0 y.0 }
{
    check_weights(k, x.0, y.0)?;
    let wx = residue::from_u16(weight(x.0));
    let wy = residue::from_u16(weight(y.0));
    Ok(residue::difference(wx, wy))
}

// ML-KEM (FIPS 203) twice, NewHope twice, the Saber family three times.
const SETS: [ParameterSet; 7] = [
    ParameterSet { k: 2, q: 3329 },
    ParameterSet { k: 3, q: 3329 },
    ParameterSet { k: 8, q: 12289 },
    ParameterSet { k: 16, q: 12289 },
    ParameterSet { k: 5, q: 8192 },
    ParameterSet { k: 4, q: 8192 },
    ParameterSet { k: 3, q: 8192 },
];

// The published parameter set of a number from 1 to 7.
// Refuses 22.
pub fn parameter_set(number: usize) -> Result<ParameterSet, Refusal>
    ensures { reading result ≡ parameter_set number }
{
    if !checks::within(1, SETS.len(), number) {
        return checks::refuse(Reason::SetNumber.into(), 0);
    }
    Ok(SETS[number - 1])
}
