// The exact distribution of the sample over all pairs of strings of k bits, for the parameter sets of FIPS 203. Each pair is masked, sampled,
// opened and centred in three shares. The lists have room for k up to 16.
ghost use Rattle.std.specs.Prelude.{◌≤◌};

use crate::print::{Field, Refused, Signed, Spaced, print};
use checks::Refusal;
use masking::OpenedString;
use residue::Word;
use std::io;

// The number behind `number` in a plain sequence: masks and words need only vary here.
fn next(number: u16) -> u16 {
    number.wrapping_add(40503)
}

// A number of 16 bits, scaled to below q.
fn scale(number: u16, q: Word) -> Word {
    let product = u32::from(number) * residue::widen(q);
    residue::from_u16((product >> 16) as u16)
}

// The words are scaled from the numbers behind `number`. Gives the last of these.
fn draw_words(number: u16, q: Word, words: &mut [Word; 192]) -> u16 {
    let mut last = number;
    for word in words {
        last = next(last);
        *word = scale(last, q);
    }
    last
}

// Masks a string of k bits with the first k bits of two numbers.
fn mask(k: usize, string: u16, a: u16, b: u16) -> Result<[u16; 3], Refusal>
    requires low { 1 ≤ k }
    requires high { k ≤ 16 }
{
    let masks: [u16; 2] = [a >> (16 - k), b >> (16 - k)];
    let mut out: [u16; 3] = [0; 3];
    masking::mask(3, k, OpenedString(string), &masks, &mut out)?;
    Ok(out)
}

fn sample(
    k: usize,
    q: Word,
    x: &[u16; 3],
    y: &[u16; 3],
    words: &[Word; 192],
) -> Result<i32, Refusal> {
    let mut out: [Word; 3] = [0; 3];
    let mut work: [Word; 3] = [0; 3];
    sampler::sample(3, k, q, x, y, words, 0, &mut out, &mut work)?;
    let opened = masking::open_residue(3, q, &out)?;
    binomial::centre(q, opened)
}

// Masks two strings with `number` and the three numbers behind it, and samples.
fn sample_pair(
    k: usize,
    q: Word,
    x: u16,
    y: u16,
    number: u16,
    words: &[Word; 192],
) -> Result<i32, Refusal>
    requires low { 1 ≤ k }
    requires high { k ≤ 16 }
{
    let a = next(number);
    let b = next(a);
    let x_shares = mask(k, x, number, a)?;
    let y_shares = mask(k, y, b, next(b))?;
    sample(k, q, &x_shares, &y_shares, words)
}

// A sample z counts at position k + z. One that is not from -k to k is printed instead. There are at most 2^32 pairs, so that no count wraps.
fn count(rt: &impl Print, k: usize, z: i32, counts: &mut [usize; 33]) -> io::Result<()>
    requires { k ≤ 16 }
{
    if z.unsigned_abs() > k as u32 {
        return print(rt, Signed(" outside", Ok(z)));
    }
    let i = (k as i32 + z) as usize;
    counts[i] = counts[i].wrapping_add(1);
    Ok(())
}

// Counts the sample of a pair of strings, or prints its refusal. Gives the last number that its words took.
fn count_pair(
    rt: &impl Print,
    k: usize,
    q: Word,
    x: u16,
    y: u16,
    number: u16,
    counts: &mut [usize; 33],
) -> io::Result<u16>
    requires low { 1 ≤ k }
    requires high { k ≤ 16 }
{
    let mut words: [Word; 192] = [0; 192];
    let last = draw_words(number, q, &mut words);
    match sample_pair(k, q, x, y, last, &words) {
        Ok(z) => count(rt, k, z, counts)?,
        Err(r) => print(rt, Refused(r))?,
    }
    Ok(last)
}

fn count_pairs(rt: &impl Print, k: usize, q: Word, counts: &mut [usize; 33]) -> io::Result<()>
    requires low { 1 ≤ k }
    requires high { k ≤ 16 }
{
    let highest = u16::MAX >> (16 - k);
    let mut number: u16 = 203;
    for x in 0..=highest {
        for y in 0..=highest {
            number = count_pair(rt, k, q, x, y, number, counts)?;
        }
    }
    Ok(())
}

fn distribution(rt: &impl Print, k: usize, q: Word) -> io::Result<()>
    requires low { 1 ≤ k }
    requires high { k ≤ 16 }
{
    print(rt, format_args!("{}{}", Field(" k", k), Field(" q", q)))?;
    let mut counts: [usize; 33] = [0; 33];
    count_pairs(rt, k, q, &mut counts)?;
    let pairs = 1usize << (2 * k);
    print(
        rt,
        format_args!(
            " n 3 samples -{k}{} pairs{}{}",
            Field(" to", k),
            Spaced(&counts[..2 * k + 1]),
            Field(" of", pairs)
        ),
    )
}

pub fn print_set(rt: &impl Print, number: usize) -> io::Result<()> {
    print(rt, Field("fips203 set", number))?;
    match binomial::parameter_set(number) {
        Ok(s) => distribution(rt, s.k, s.q)?,
        Err(r) => print(rt, Refused(r))?,
    }
    println!(rt)
}
