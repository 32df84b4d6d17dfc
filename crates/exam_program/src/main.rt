// The exam sheet: every reference value of documents 01 and 02, and the distribution of the sample for the parameter sets of FIPS 203, as the
// library gives them.
#![tactic(auto)]

mod calls;
mod fips203;
mod print;

use residue::Word;
use std::io;

fn two_shares(
    rt: &impl Print,
    letter: char,
    n: usize,
    k: usize,
    q: Word,
    x: [u16; 2],
    y: [u16; 2],
    words: &[Word],
) -> io::Result<()> {
    let mut out: [Word; 2] = [65535; 2];
    calls::sample(rt, letter, n, k, q, &x, &y, words, &mut out)
}

// As a, with another n, k or list of words.
fn as_a(rt: &impl Print, letter: char, n: usize, k: usize, words: &[Word]) -> io::Result<()> {
    two_shares(rt, letter, n, k, 17, [1, 0], [1, 1], words)
}

// As a, with another n or k.
fn a_sized(rt: &impl Print, letter: char, n: usize, k: usize) -> io::Result<()> {
    as_a(rt, letter, n, k, &[5, 3, 10, 16])
}

fn b(rt: &impl Print) -> io::Result<()> {
    two_shares(rt, 'b', 2, 1, 17, [0, 0], [0, 1], &[5, 3, 10, 14])
}

fn c(rt: &impl Print) -> io::Result<()> {
    two_shares(rt, 'c', 2, 1, 3, [1, 1], [1, 0], &[0; 4])
}

fn d(rt: &impl Print) -> io::Result<()> {
    let words: [Word; 12] = [1, 2, 3, 4, 5, 6, 0, 0, 0, 0, 0, 0];
    let mut out: [Word; 3] = [65535; 3];
    calls::sample(rt, 'd', 3, 1, 17, &[1, 0, 1], &[0; 3], &words, &mut out)
}

fn e(rt: &impl Print) -> io::Result<()> {
    let mut out: [u16; 3] = [65535; 3];
    calls::mask(rt, 'e', 3, 4, 10, &[3, 12], &mut out)
}

fn h(rt: &impl Print, q: Word) -> io::Result<()> {
    two_shares(rt, 'h', 2, 16, q, [0; 2], [0; 2], &[0; 64])
}

fn i(rt: &impl Print) -> io::Result<()> {
    as_a(rt, 'i', 2, 1, &[5, 3, 17, 16])
}

// As a, with a share of x that has more than k bits.
fn wide_share(rt: &impl Print) -> io::Result<()> {
    two_shares(rt, 'j', 2, 1, 17, [2, 0], [1, 1], &[5, 3, 10, 16])
}

fn three_words(rt: &impl Print) -> io::Result<()> {
    as_a(rt, 'j', 2, 1, &[5, 3, 10])
}

fn j(rt: &impl Print) -> io::Result<()> {
    for (n, k) in [(1, 1), (9, 1), (2, 0), (2, 17)] {
        a_sized(rt, 'j', n, k)?;
    }
    wide_share(rt)?;
    three_words(rt)?;
    a_sized(rt, 'j', 1, 0)
}

fn main(rt: HostRuntime) -> io::Result<()> {
    a_sized(&rt, 'a', 2, 1)?;
    b(&rt)?;
    c(&rt)?;
    d(&rt)?;
    e(&rt)?;
    calls::centre(&rt, 'f', 33, 16)?;
    calls::centre(&rt, 'f', 33, 17)?;
    calls::centre(&rt, 'g', 8, 3)?;
    calls::centre(&rt, 'g', 8, 4)?;
    h(&rt, 32)?;
    h(&rt, 33)?;
    i(&rt)?;
    j(&rt)?;
    fips203::print_set(&rt, 1)?;
    fips203::print_set(&rt, 2)
}
