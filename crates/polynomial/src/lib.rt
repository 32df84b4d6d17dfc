// Whole polynomials (document 02, A.1): m samples in one call, coefficient after coefficient.
// No branch, index, comparison, division or remainder depends on a share, a bit or a random word behind the checks.
#![tactic(auto, unfolding(checks::specs::Checks::verdict))]

ghost use Rattle.std.specs.Prelude.{◌≡◌, ◌+◌, ◌*◌, ◌≤◌, length};
ghost use Rattle.buffers.specs.Overwrite.{overwrite};
ghost use Rattle.buffers.specs.Positions.{at, Same};
ghost use Rattle.checks.specs.Checks.{checked};
ghost use Rattle.checks.specs.Answers.{reading, outcome};
ghost use Rattle.conversion.specs.Arrays.{Drawn, Modulus};
ghost use Rattle.totals.specs.Sample.{sample_words};
ghost use Rattle.sampler.specs.Sampler.{both};
ghost use Rattle.polynomial.specs.Polynomial.{coefficient_shares, polynomial_shares, polynomial_words, strings_checks, polynomial_checks, sampled_polynomial};
ghost use Rattle.polynomial.specs.Secrecy.{PolynomialSecrecy};

use checks::{Reason, Refusal};
use residue::Word;

// The sample of coefficient t, from the blocks t of x and y and that of the words, which begins at `start`, to block t of the output. The
// work area has n zeros in front, before and after. Answers the position after the last word.
// `&words[..]`: docs/DECISIONS.md, 'A slice is handed on by its parts'.
fn write_coefficient(
    n: usize,
    k: usize,
    q: Word,
    t: usize,
    x: &[u16],
    y: &[u16],
    words: &[Word],
    start: usize,
    out: &mut [Word],
    work: &mut [Word],
) -> usize
    requires { (2 ≤ n) × (n ≤ 8) × (k ≤ 16) × Modulus q × (t * n + n ≤ length x.now) × (t * n + n ≤ length y.now) × Drawn q start (sample_words n k) words.now × (start ≡ t * sample_words n k) × (t * n + n ≤ length out.old) × (n ≤ length work.old) × Same n (at work.old) (λ i. 0) }
    ensures { (out.new ≡ overwrite out.old (t * n) (coefficient_shares n k q x.now y.now words.now t)) × (work.new ≡ work.old) × (result ≡ start + sample_words n k) }
{
    let i = t * n;
    let j = i + n;
    let mut a = [0u16; 8];
    let mut b = [0u16; 8];
    buffers::copy_eight(&mut a, &x[i..j]);
    buffers::copy_eight(&mut b, &y[i..j]);
    totals::write_sample(n, k, q, &a, &b, &words[..], start, &mut out[i..j], work)
}

// The samples of all coefficients, with the words from the front of the list. Answers the position after the last word.
fn write_coefficients(
    n: usize,
    k: usize,
    q: Word,
    m: usize,
    x: &[u16],
    y: &[u16],
    words: &[Word],
    out: &mut [Word],
    work: &mut [Word],
) -> usize
    requires { (2 ≤ n) × (n ≤ 8) × (k ≤ 16) × Modulus q × (length x.now ≡ m * n) × (length y.now ≡ m * n) × Drawn q 0 (polynomial_words n k m) words.now × (m * n ≤ length out.old) × (n ≤ length work.old) × Same n (at work.old) (λ i. 0) }
    ensures { (out.new ≡ overwrite out.old 0 (polynomial_shares n k q m x.now y.now words.now)) × (work.new ≡ work.old) × (result ≡ polynomial_words n k m) }
{
    let mut p = 0;
    for t in 0..m {
        p = write_coefficient(n, k, q, t, x, y, words, p, out, work);
    }
    p
}

fn check_strings(n: usize, k: usize, q: Word, m: usize, x: &[u16], y: &[u16]) -> Result<(), Refusal>
    ensures { reading result ≡ checked (strings_checks n k q m x.now y.now) }
{
    checks::check_parameters(n, k, q)?;
    if !checks::within(1, 256, m) {
        return checks::refuse(Reason::CoefficientCount.into(), 0);
    }
    checks::check_shares(m * n, k, x, y)
}

fn check_polynomial(
    n: usize,
    k: usize,
    q: Word,
    m: usize,
    x: &[u16],
    y: &[u16],
    words: &[Word],
    room: usize,
    area: usize,
) -> Result<(), Refusal>
    ensures { reading result ≡ checked (polynomial_checks n k q m x.now y.now words.now room area) }
{
    check_strings(n, k, q, m, x, y)?;
    let bits = (m * (2 * k)) as u32;
    let per = (n * (n - 1)) as u32;
    checks::check_buffers(words, 0, bits, per, q, m * n, room, n, area)
}

// Samples m coefficients: n shares modulo q of each, of the weight of its x less the weight of its y. Every list holds coefficient after
// coefficient. Answers m times 2kn(n - 1), the number of words it takes from the front of the list. Output positions past mn and work
// positions past n keep their content; the first n work words are zero afterwards.
// Refuses 1; 2; 3 (q below 2k + 1); 23; 4; 5; 6 and 7 with the share's position; 8; 9 with the word's position; 10; 11. Each check is put to
// all coefficients before the next, and positions count from the start of the whole list.
pub fn sample_polynomial(
    n: usize,
    k: usize,
    q: Word,
    m: usize,
    x: &[u16],
    y: &[u16],
    words: &[Word],
    out: &mut [Word],
    work: &mut [Word],
) -> Result<usize, Refusal>
    ensures work_after { outcome result (both out.new work.new) ≡ sampled_polynomial n k q m x.now y.now words.now out.old work.old }
    ensures secrecy { PolynomialSecrecy n k q m }
{
    check_polynomial(n, k, q, m, x, y, words, out.len(), work.len())?;
    buffers::zero(work, n);
    Ok(write_coefficients(n, k, q, m, x, y, words, out, work))
}
