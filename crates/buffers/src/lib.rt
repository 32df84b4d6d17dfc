// Writing a part of a list. What lies before and behind the part keeps its content.
#![tactic(auto)]

ghost use Rattle.std.specs.Prelude.{◌≡◌, ◌+◌, ◌≤◌, length, replicate, take};
ghost use Rattle.buffers.specs.Overwrite.{overwrite};

use residue::Word;

// The elements of `from`, at `start` and behind.
pub fn copy<T: Copy>(to: &mut [T], start: usize, from: &[T])
    requires { start + length from.now ≤ length to.old }
    ensures { to.new ≡ overwrite to.old start from.now }
{
    to[start..start + from.len()].copy_from_slice(from);
}

// The first eight elements of `from`, or all where there are fewer, in front. Eight turns, so that they are single stores and no call.
pub fn copy_eight(to: &mut [u16], from: &[u16])
    requires { 8 ≤ length to.old }
    ensures { to.new ≡ overwrite to.old 0 (take 8 from.now) }
{
    let count = from.len();
    for i in 0..8 {
        if i < count {
            to[i] = from[i];
        }
    }
}

// Zeros in the first `count` positions, eight at most. Eight turns, so that they are single stores and no call.
pub fn zero(to: &mut [Word], count: usize)
    requires { (count ≤ 8) × (count ≤ length to.old) }
    ensures { to.new ≡ overwrite to.old 0 (replicate count 0) }
{
    for j in 0..8 {
        if j < count {
            to[j] = 0;
        }
    }
}
