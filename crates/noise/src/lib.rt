// ML-KEM noise bytes (document 02, A.5), split into the shares of 256 coefficients.
// No branch, index, comparison, division or remainder depends on a byte.
#![tactic(auto)]

ghost use Rattle.std.specs.Prelude.{◌≡◌, ◌+◌, ◌*◌, ◌/◌, ◌%◌, ◌^◌, ◌≤◌, ◌<◌, length};
ghost use Rattle.buffers.specs.Overwrite.{overwrite};
ghost use Rattle.buffers.specs.Columns.{stored};
ghost use Rattle.checks.specs.Checks.{checked};
ghost use Rattle.checks.specs.Answers.{reading, outcome};
ghost use Rattle.noise.specs.Split.{noise_string, word_at, x_bit, y_bit, noise_shares, set_of, list_checks, noise_checks, targets, noise_split};

use checks::{Reason, Refusal};

// The k bytes from `start` on as one number, the lowest first.
fn read_group(bytes: &[u8], start: usize, k: usize) -> u32
    requires { (2 ≤ k) × (k ≤ 3) × (start + k ≤ length bytes.now) }
    ensures { result ≡ word_at (8 * k) bytes.now (8 * start) }
{
    let low = u32::from(bytes[start]) + u32::from(bytes[start + 1]) * 256;
    if k == 2 {
        low
    } else {
        low + u32::from(bytes[start + 2]) * 65536
    }
}

// The k lowest bits.
fn low_bits(group: u32, k: usize) -> u16
    requires { k ≤ 3 }
    ensures { result ≡ group % 2 ^ k }
{
    (group & ((1 << k) - 1)) as u16
}

// Stores the words of a group's four coefficients, n positions apart.
fn store_group(group: u32, n: usize, k: usize, first: usize, x: &mut [u16], y: &mut [u16])
    requires { (n ≤ 8) × (k ≤ 3) × (first < 2048) × (first + 3 * n < length x.old) × (first + 3 * n < length y.old) }
    ensures { (x.new ≡ stored (λ c. first + c * n) (λ c. group / 2 ^ (2 * k * c) % 2 ^ k) 4 x.old) × (y.new ≡ stored (λ c. first + c * n) (λ c. group / 2 ^ (2 * k * c + k) % 2 ^ k) 4 y.old) }
{
    let mut rest = group;
    for c in 0..4 {
        let p = first + c * n;
        let above = rest >> k;
        x[p] = low_bits(rest, k);
        y[p] = low_bits(above, k);
        rest = above >> k;
    }
}

// String i, whose words are share i of every coefficient. Four coefficients lie in k bytes.
fn split_string(bytes: &[u8], n: usize, k: usize, i: usize, x: &mut [u16], y: &mut [u16])
    requires { (n ≤ 8) × (2 ≤ k) × (k ≤ 3) × (i < n) × (n * (64 * k) ≤ length bytes.now) × (256 * n ≤ length x.old) × (256 * n ≤ length y.old) }
    ensures { (x.new ≡ stored (λ t. t * n + i) (λ t. word_at k (noise_string k bytes.now i) (x_bit k t)) 256 x.old) × (y.new ≡ stored (λ t. t * n + i) (λ t. word_at k (noise_string k bytes.now i) (y_bit k t)) 256 y.old) }
{
    let string = i * (64 * k);
    for g in 0..64 {
        let group = read_group(bytes, string + g * k, k);
        store_group(group, n, k, 4 * g * n + i, x, y);
    }
}

fn split_strings(bytes: &[u8], n: usize, k: usize, x: &mut [u16], y: &mut [u16])
    requires { (n ≤ 8) × (2 ≤ k) × (k ≤ 3) × (n * (64 * k) ≤ length bytes.now) × (256 * n ≤ length x.old) × (256 * n ≤ length y.old) }
    ensures { (x.new ≡ overwrite x.old 0 (noise_shares x_bit n k bytes.now)) × (y.new ≡ overwrite y.old 0 (noise_shares y_bit n k bytes.now)) }
{
    for i in 0..n {
        split_string(bytes, n, k, i, x, y);
    }
}

// k of a parameter set, and 0 where there is none.
fn bits_of(set: usize) -> usize
    ensures { result ≡ (set_of set).k }
{
    binomial::parameter_set(set).map_or(0, |s| s.k)
}

#[tactic(auto, unfolding(checks::specs::Checks::verdict))]
fn check_lists(
    n: usize,
    set: usize,
    k: usize,
    bytes: &[u8],
    xroom: usize,
    yroom: usize,
) -> Result<(), Refusal>
    requires { (n ≤ 8) × (k ≤ 16) }
    ensures { reading result ≡ checked (list_checks n set k bytes.now xroom yroom) }
{
    if !checks::within(1, 2, set) {
        return checks::refuse(Reason::NoiseSet.into(), 0);
    }
    if bytes.len() != n * (64 * k) {
        return checks::refuse(Reason::NoiseLength.into(), 0);
    }
    if xroom < 256 * n || yroom < 256 * n {
        return checks::refuse(Reason::OutputRoom.into(), 0);
    }
    Ok(())
}

fn check_noise(
    n: usize,
    set: usize,
    bytes: &[u8],
    xroom: usize,
    yroom: usize,
) -> Result<(), Refusal>
    ensures { reading result ≡ checked (noise_checks n set bytes.now xroom yroom) }
{
    if !checks::within(2, 8, n) {
        return checks::refuse(Reason::ShareCount.into(), 0);
    }
    let s = binomial::parameter_set(set)?;
    check_lists(n, set, s.k, bytes, xroom, yroom)
}

// Splits n strings of 64 * k bytes, one after the other, into the x and y shares of 256 coefficients, as sample_polynomial takes them with the k and q
// of the set. Bit j of x in coefficient t is bit 2tk + j of the string, bit j of y is bit 2tk + k + j, the lowest of each byte first; share i comes
// from string i. Answers 256n, the words written to each list. Positions past 256n keep their content.
// Refuses 1; 22; 24 (a set that is not 1 or 2); 25 (not exactly n * 64 * k bytes); 10 (for x or y).
pub fn split_noise(
    n: usize,
    set: usize,
    bytes: &[u8],
    x: &mut [u16],
    y: &mut [u16],
) -> Result<usize, Refusal>
    ensures { outcome result (targets x.new y.new) ≡ noise_split n set bytes.now x.old y.old }
{
    check_noise(n, set, bytes, x.len(), y.len())?;
    split_strings(bytes, n, bits_of(set), x, y);
    Ok(256 * n)
}
