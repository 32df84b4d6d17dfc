// The calls for C, as include/tinplateau.h declares them. A slice is a pointer and a length there.
#![tactic(auto)]

mod answers;

ghost use Rattle.std.specs.Prelude.{◌≡◌};
ghost use Rattle.masking.specs.Sharing.{masked, opened_string, opened_residue};
ghost use Rattle.binomial.specs.Signed.{centred, weight_difference};
ghost use Rattle.binomial.specs.Sets.{parameter_set};
ghost use Rattle.conversion.specs.Conversion.{converted};
ghost use Rattle.conversion.specs.Secrecy.{BitSecrecy};
ghost use Rattle.values.specs.Values.{converted_value};
ghost use Rattle.values.specs.Secrecy.{ValueSecrecy};
ghost use Rattle.sampler.specs.Sampler.{both, sampled};
ghost use Rattle.sampler.specs.Secrecy.{Secrecy};
ghost use Rattle.sample_steps.specs.SampleSteps.{lists, steps_sampled};
ghost use Rattle.polynomial.specs.Polynomial.{sampled_polynomial};
ghost use Rattle.polynomial.specs.Secrecy.{PolynomialSecrecy};
ghost use Rattle.noise.specs.Split.{targets, noise_split};
ghost use Rattle.capi.specs.Structs.{answer_of, string_of, residue_of, signed_of, parameters_of, returned, answered};
ghost use Rattle.capi.specs.FileText.{words_and_text, lesson_text_written, report_text_written};

pub use answers::{
    TpAnswer, TpOpenedResidue, TpOpenedString, TpParameters, TpResidue, TpSigned, TpString,
};
use masking::{OpenedResidue, OpenedString};
use residue::Word;

#[unsafe(no_mangle)]
pub extern "C" fn tp_mask(
    n: usize,
    k: usize,
    value: TpString,
    masks: &[u16],
    out: &mut [u16],
) -> TpAnswer
    ensures { returned result out.new ≡ answered (masked n k value.bits masks.now out.old) }
{
    masking::mask(n, k, OpenedString(value.bits), masks, out).into()
}

#[unsafe(no_mangle)]
pub extern "C" fn tp_open_string(n: usize, k: usize, shares: &[u16]) -> TpOpenedString
    ensures { result ≡ string_of (opened_string n k shares.now) }
{
    masking::open_string(n, k, shares).into()
}

#[unsafe(no_mangle)]
pub extern "C" fn tp_open_residue(n: usize, q: Word, shares: &[Word]) -> TpOpenedResidue
    ensures { result ≡ residue_of (opened_residue n q shares.now) }
{
    masking::open_residue(n, q, shares).into()
}

#[unsafe(no_mangle)]
pub extern "C" fn tp_centred(q: Word, r: TpResidue) -> TpSigned
    ensures { result ≡ signed_of (centred q r.value) }
{
    binomial::centre(q, OpenedResidue(r.value)).into()
}

#[unsafe(no_mangle)]
pub extern "C" fn tp_weight_difference(k: usize, x: TpString, y: TpString) -> TpSigned
    ensures { result ≡ signed_of (weight_difference k x.bits y.bits) }
{
    binomial::weight_difference(k, OpenedString(x.bits), OpenedString(y.bits)).into()
}

#[unsafe(no_mangle)]
pub extern "C" fn tp_parameter_set(number: usize) -> TpParameters
    ensures { result ≡ parameters_of (parameter_set number) }
{
    binomial::parameter_set(number).into()
}

#[unsafe(no_mangle)]
pub extern "C" fn tp_convert_bit(
    n: usize,
    q: Word,
    bits: &[u16],
    words: &[Word],
    start: usize,
    out: &mut [Word],
) -> TpAnswer
    ensures out_after { returned result out.new ≡ answered (converted n q bits.now words.now start out.old) }
    ensures secrecy { BitSecrecy n q }
{
    conversion::convert_bit(n, q, bits, words, start, out).into()
}

#[unsafe(no_mangle)]
pub extern "C" fn tp_convert_value(
    n: usize,
    k: usize,
    q: Word,
    shares: &[u16],
    words: &[Word],
    out: &mut [Word],
) -> TpAnswer
    ensures out_after { returned result out.new ≡ answered (converted_value n k q shares.now words.now out.old) }
    ensures secrecy { ValueSecrecy n k q }
{
    values::convert_value(n, k, q, shares, words, out).into()
}

// `&words[..]`: docs/DECISIONS.md, 'A slice is handed on by its parts'.
#[unsafe(no_mangle)]
pub extern "C" fn tp_sample(
    n: usize,
    k: usize,
    q: Word,
    x: &[u16],
    y: &[u16],
    words: &[Word],
    start: usize,
    out: &mut [Word],
    work: &mut [Word],
) -> TpAnswer
    ensures work_after { returned result (both out.new work.new) ≡ answered (sampled n k q x.now y.now words.now start out.old work.old) }
    ensures secrecy { Secrecy n k q }
{
    sampler::sample(n, k, q, x, y, &words[..], start, out, work).into()
}

#[unsafe(no_mangle)]
pub extern "C" fn tp_sample_steps(
    n: usize,
    k: usize,
    q: Word,
    x: &[u16],
    y: &[u16],
    words: &[Word],
    out: &mut [Word],
    work: &mut [Word],
    records: &mut [u8],
) -> TpAnswer
    ensures { returned result (lists (both out.new work.new) records.new) ≡ answered (steps_sampled n k q x.now y.now words.now out.old work.old records.old) }
{
    sample_steps::sample_steps(n, k, q, x, y, words, out, work, records).into()
}

#[unsafe(no_mangle)]
pub extern "C" fn tp_sample_polynomial(
    n: usize,
    k: usize,
    q: Word,
    m: usize,
    x: &[u16],
    y: &[u16],
    words: &[Word],
    out: &mut [Word],
    work: &mut [Word],
) -> TpAnswer
    ensures work_after { returned result (both out.new work.new) ≡ answered (sampled_polynomial n k q m x.now y.now words.now out.old work.old) }
    ensures secrecy { PolynomialSecrecy n k q m }
{
    polynomial::sample_polynomial(n, k, q, m, x, y, words, out, work).into()
}

#[unsafe(no_mangle)]
pub extern "C" fn tp_split_noise(
    n: usize,
    set: usize,
    bytes: &[u8],
    x: &mut [u16],
    y: &mut [u16],
) -> TpAnswer
    ensures { returned result (targets x.new y.new) ≡ answered (noise_split n set bytes.now x.old y.old) }
{
    noise::split_noise(n, set, bytes, x, y).into()
}

// The output and the work area of the samples are the call's own, here and in the next.
#[unsafe(no_mangle)]
pub extern "C" fn tp_lesson_text(file: &[u8], words: &mut [Word], text: &mut [u8]) -> TpAnswer
    ensures { returned result (words_and_text words.new text.new) ≡ answered (lesson_text_written file.now words.old text.old) }
{
    let mut out: [Word; 8] = [0; 8];
    let mut work: [Word; 8] = [0; 8];
    lesson::write_text(file, words, &mut out, &mut work, text).into()
}

#[unsafe(no_mangle)]
pub extern "C" fn tp_report_text(file: &[u8], words: &mut [Word], text: &mut [u8]) -> TpAnswer
    ensures { returned result (words_and_text words.new text.new) ≡ answered (report_text_written file.now words.old text.old) }
{
    let mut out: [Word; 8] = [0; 8];
    let mut work: [Word; 8] = [0; 8];
    report::write_text(file, words, &mut out, &mut work, text).into()
}
