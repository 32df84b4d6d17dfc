// The number of a shared string to n shares modulo q (document 02, A.7; source 003, Algorithm 9).
// No branch, index, comparison, division or remainder depends on a share, a bit or a random word behind the checks.
#![tactic(auto)]

ghost use Rattle.std.specs.Prelude.{◌≡◌, ◌+◌, ◌≤◌, length};
ghost use Rattle.buffers.specs.Overwrite.{overwrite};
ghost use Rattle.buffers.specs.Positions.{at, table, after, Below};
ghost use Rattle.checks.specs.Answers.{outcome};
ghost use Rattle.conversion.specs.Conversion.{value_words};
ghost use Rattle.conversion.specs.Arrays.{Drawn, Modulus};
ghost use Rattle.values.specs.Values.{value_share, converted_value};
ghost use Rattle.values.specs.Doubling.{doubled};
ghost use Rattle.values.specs.Secrecy.{ValueSecrecy};

use checks::Refusal;
use residue::Word;

// Each of the n totals doubled, and the row's share added. Eight turns whatever n is, so that the loop can be unrolled.
fn double_and_add(row: &[Word; 8], n: usize, q: Word, totals: &mut [Word])
    requires { (n ≤ 8) × Modulus q × Below q n (at row.now) × (n ≤ length totals.old) × Below q n (at totals.old) }
    ensures { totals.new ≡ overwrite totals.old 0 (table n (λ i. doubled q (at totals.old i) (at row.now i))) }
{
    let modulus = residue::widen(q);
    for i in 0..8 {
        if i < n {
            let total = residue::widen(totals[i]);
            let twice = residue::add(total, total, modulus);
            totals[i] = residue::narrow(residue::add(twice, residue::widen(row[i]), modulus), q);
        }
    }
}

// The n shares of the number of the string whose shares stand in front of the array, to the front of the output. Bit t takes the n(n - 1)
// words from start + t * n(n - 1) on. The bits are converted from the highest down, so that doubling gives each its power of two. Answers
// the position after the last word.
pub fn write_value(
    n: usize,
    k: usize,
    q: Word,
    shares: &[u16; 8],
    words: &[Word],
    start: usize,
    out: &mut [Word],
) -> usize
    requires { (2 ≤ n) × (n ≤ 8) × (k ≤ 16) × Modulus q × Drawn q start (value_words n k) words.now × (n ≤ length out.old) }
    ensures { (out.new ≡ overwrite out.old 0 (table n (value_share q n k (at shares.now) (after start (at words.now))))) × (result ≡ start + value_words n k) }
{
    let per = n * (n - 1);
    let mut row: [Word; 8] = [0; 8];
    buffers::zero(out, n);
    for t in (0..k).rev() {
        let bits = conversion::bits_at(shares, t);
        conversion::convert_at(&bits, n, q, words, start + t * per, &mut row);
        double_and_add(&row, n, q, out);
    }
    start + k * per
}

// Converts a shared string of k bits to n shares modulo q whose residue is the string's number modulo q, with the first kn(n - 1) words, and
// answers how many these are. Words behind them are neither read nor judged. Output positions past n keep their content.
// Refuses 1; 2; 3 (q below 3); 4; 6 with the share's position; 8; 9 with the word's position; 10.
pub fn convert_value(
    n: usize,
    k: usize,
    q: Word,
    shares: &[u16],
    words: &[Word],
    out: &mut [Word],
) -> Result<usize, Refusal>
    ensures out_after { outcome result out.new ≡ converted_value n k q shares.now words.now out.old }
    ensures secrecy { ValueSecrecy n k q }
{
    conversion::check_value(n, k, q, shares, words, 0, out.len())?;
    let mut array = [0u16; 8];
    buffers::copy_eight(&mut array, shares);
    Ok(write_value(n, k, q, &array, words, 0, out))
}
