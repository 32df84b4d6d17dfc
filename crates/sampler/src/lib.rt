// The masked binomial sampler (document 01, 'The sample'; source 003, Algorithm 10).
// No branch, index, comparison, division or remainder depends on a share, a bit or a random word behind the checks.
#![tactic(auto, unfolding(checks::specs::Checks::verdict))]

ghost use Rattle.std.specs.Prelude.{◌≡◌};
ghost use Rattle.checks.specs.Checks.{checked};
ghost use Rattle.checks.specs.Answers.{reading, outcome};
ghost use Rattle.sampler.specs.Sampler.{pair_checks, sample_checks, both, sampled};
ghost use Rattle.sampler.specs.Secrecy.{Secrecy};

use checks::Refusal;
use residue::Word;

fn check_pair(n: usize, k: usize, q: Word, x: &[u16], y: &[u16]) -> Result<(), Refusal>
    ensures { reading result ≡ checked (pair_checks n k q x.now y.now) }
{
    checks::check_parameters(n, k, q)?;
    checks::check_shares(n, k, x, y)
}

pub fn check_sample(
    n: usize,
    k: usize,
    q: Word,
    x: &[u16],
    y: &[u16],
    words: &[Word],
    start: usize,
    room: usize,
    area: usize,
) -> Result<(), Refusal>
    ensures { reading result ≡ checked (sample_checks n k q x.now y.now words.now start room area) }
{
    check_pair(n, k, q, x, y)?;
    let bits = (2 * k) as u32;
    let per = (n * (n - 1)) as u32;
    checks::check_buffers(words, start, bits, per, q, n, room, n, area)
}

// Samples: n shares modulo q of the weight of x less the weight of y, with the 2kn(n - 1) words at `start`. Answers the position after the last
// of them. The words around them are neither read nor judged. Output and work positions past n keep their content; the first n work words
// are zero afterwards.
// Refuses 1; 2; 3 (q below 2k + 1); 4; 5; 6 and 7 with the share's position; 8 (fewer than start + 2kn(n - 1) words); 9 with the word's
// position; 10; 11.
pub fn sample(
    n: usize,
    k: usize,
    q: Word,
    x: &[u16],
    y: &[u16],
    words: &[Word],
    start: usize,
    out: &mut [Word],
    work: &mut [Word],
) -> Result<usize, Refusal>
    ensures work_after { outcome result (both out.new work.new) ≡ sampled n k q x.now y.now words.now start out.old work.old }
    ensures secrecy { Secrecy n k q }
{
    check_sample(n, k, q, x, y, words, start, out.len(), work.len())?;
    let mut a = [0u16; 8];
    let mut b = [0u16; 8];
    buffers::copy_eight(&mut a, x);
    buffers::copy_eight(&mut b, y);
    buffers::zero(work, n);
    Ok(totals::write_sample(n, k, q, &a, &b, &words[..], start, out, work))
}
