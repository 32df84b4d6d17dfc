// Arithmetic modulo q. Sums and differences have no division, remainder, comparison or branch on their operands.
// Every cast to or from Word stands here.
#![tactic(auto)]

ghost use Rattle.std.specs.Prelude.{◌≡◌, ◌+◌, ◌^◌, ◌≤◌, ◌<◌, pos, ◌-ℤ◌, nat_abs};
ghost use Rattle.residue.specs.Residue.{add, sub, cswap_sub};

// The type of a modulus, a random word and an arithmetic share.
pub type Word = u16;

// The type of a sum of two words.
pub type Wide = u32;

// (a - b) mod q, or (b - a) mod q where `swap` is 1. That many times the 32-bit difference is negated.
// Its bit 31 then says whether it is below zero, and q is added that many times.
fn wrapping_sub(a: u64, b: u64, swap: u64, q: u64) -> u32
    requires { (b + swap ≤ q) × (a < q + b) × (swap < 2) × (q < 2 ^ 31) }
    ensures { result ≡ cswap_sub q swap a b }
{
    let s = (a + 0x100000000 - b) & 0xffffffff;
    let d = ((s ^ (swap * 0xffffffff)) + swap) & 0xffffffff;
    ((d + q * (d >> 31)) & 0xffffffff) as u32
}

// (a - b) mod q.
pub fn sub(a: Wide, b: Wide, q: Wide) -> Wide
    requires { (b ≤ q) × (a < q + b) × (q < 2 ^ 31) }
    ensures { result ≡ sub q a b }
{
    wrapping_sub(u64::from(a), u64::from(b), 0, u64::from(q)) as Wide
}

// (a - b) mod q, or (b - a) mod q where `swap` is 1.
pub fn cswap_sub(a: Wide, b: Wide, swap: Wide, q: Wide) -> Wide
    requires { (a < q) × (b < q) × (swap < 2) × (q < 2 ^ 31) }
    ensures { result ≡ cswap_sub q swap a b }
{
    wrapping_sub(u64::from(a), u64::from(b), u64::from(swap), u64::from(q)) as Wide
}

// (a + b) mod q.
pub fn add(a: Wide, b: Wide, q: Wide) -> Wide
    requires { (a < q) × (b < q) × (q < 2 ^ 31) }
    ensures { result ≡ add q a b }
{
    sub(a + b, q, q)
}

pub fn widen(x: Word) -> Wide
    ensures { result ≡ x }
{
    Wide::from(x)
}

// Loses nothing: what is below a Word fits a Word.
pub fn narrow(x: Wide, q: Word) -> Word
    requires { x < q }
    ensures { result ≡ x }
{
    x as Word
}

// (a + b) mod q, on words.
pub fn add_words(a: Word, b: Word, q: Word) -> Word
    requires { (a < q) × (b < q) × (q < 2 ^ 31) }
    ensures { result ≡ add q a b }
{
    narrow(add(widen(a), widen(b), widen(q)), q)
}

pub fn from_u16(number: u16) -> Word
    ensures { result ≡ number }
{
    number as Word
}

pub fn to_usize(x: Word) -> usize
    ensures { result ≡ x }
{
    x as usize
}

// a - b, with its sign.
pub fn difference(a: Word, b: Word) -> i32
    requires { (a < 2 ^ 31) × (b < 2 ^ 31) }
    ensures { result ≡ pos a -ℤ pos b }
{
    (a as i32) - (b as i32)
}

// z without its sign.
pub fn magnitude(z: i32) -> u32
    ensures { result ≡ nat_abs z }
{
    z.unsigned_abs()
}
