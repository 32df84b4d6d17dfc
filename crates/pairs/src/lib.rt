// How many pairs of k-bit strings have a given difference of weights.
#![tactic(auto)]

ghost use Rattle.std.specs.Prelude.{◌≡◌, ◌^◌, ◌≤◌};
ghost use Rattle.buffers.specs.Positions.{at, Below};
ghost use Rattle.pairs.specs.Rows.{pair_row, next_row};

// The row of strings that have one bit more.
fn next_row(row: [u64; 35]) -> [u64; 35]
    requires { Below (10 ^ 10) 35 (at row) }
    ensures { result ≡ next_row (at row) }
{
    let mut next = [0; 35];
    // By the index, since the neighbours overlap, and what lies behind an adapter of `iter_mut` has no proof.
    for j in 0..33 {
        next[1 + j] = row[j] + 2 * row[j + 1] + row[j + 2];
    }
    next
}

// The numbers of pairs for the differences from -17 to 17, at whose ends there is no pair.
pub fn count_pairs(k: usize) -> [u64; 35]
    requires { k ≤ 16 }
    ensures { result ≡ pair_row k }
{
    let mut row = [0; 35];
    row[17] = 1;
    for _bits in 0..k {
        row = next_row(row);
    }
    row
}

// The number of all pairs of k-bit strings.
pub fn power_of_four(k: usize) -> usize
    requires { k ≤ 16 }
    ensures { result ≡ 4 ^ k }
{
    1 << (2 * k)
}
