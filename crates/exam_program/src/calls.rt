// A line for each call: the value's letter, the call, and what the library gives.
use crate::print::{Field, Given, Signed, Spaced, print};
use masking::{OpenedResidue, OpenedString};
use residue::Word;
use std::io;

// The output has the n positions of the shares.
pub fn sample(
    rt: &impl Print,
    letter: char,
    n: usize,
    k: usize,
    q: Word,
    x: &[u16],
    y: &[u16],
    words: &[Word],
    out: &mut [Word],
) -> io::Result<()> {
    let mut work: [Word; 8] = [65535; 8];
    let count = sampler::sample(n, k, q, x, y, words, 0, out, &mut work);
    print(
        rt,
        format_args!(
            "{letter} sample{}{}{} x{} y{} words{}{}",
            Field(" n", n),
            Field(" k", k),
            Field(" q", q),
            Spaced(x),
            Spaced(y),
            Spaced(words),
            Given(" gives", count)
        ),
    )?;
    if count.is_ok() {
        print_opened(rt, n, q, out)?;
    }
    println!(rt)
}

fn print_opened(rt: &impl Print, n: usize, q: Word, shares: &[Word]) -> io::Result<()> {
    let opened = masking::open_residue(n, q, shares);
    let residue = opened.map(|r| r.0);
    print(
        rt,
        format_args!(" shares{}{}", Spaced(shares), Given(" residue", residue)),
    )?;
    if let Ok(r) = opened {
        print(rt, Signed(" centred", binomial::centre(q, r)))?;
    }
    Ok(())
}

pub fn centre(rt: &impl Print, letter: char, q: Word, r: Word) -> io::Result<()> {
    let value = binomial::centre(q, OpenedResidue(r));
    print(
        rt,
        format_args!(
            "{letter} centre{}{}{}\n",
            Field(" q", q),
            Field(" residue", r),
            Signed(" gives", value)
        ),
    )
}

// The output has the n positions of the shares.
pub fn mask(
    rt: &impl Print,
    letter: char,
    n: usize,
    k: usize,
    value: u16,
    masks: &[u16],
    out: &mut [u16],
) -> io::Result<()> {
    let count = masking::mask(n, k, OpenedString(value), masks, out);
    print(
        rt,
        format_args!(
            "{letter} mask{}{}{} masks{}{}",
            Field(" n", n),
            Field(" k", k),
            Field(" value", value),
            Spaced(masks),
            Given(" gives", count)
        ),
    )?;
    if count.is_ok() {
        let opened = masking::open_string(n, k, out).map(|s| s.0);
        print(
            rt,
            format_args!(" shares{}{}", Spaced(out), Given(" opened", opened)),
        )?;
    }
    println!(rt)
}
