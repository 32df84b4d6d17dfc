// Samples counted: how often each came, their sum, the sum of their squares.
#![tactic(auto)]

ghost use Rattle.std.specs.Prelude.{◌≡◌, [], ◌≤◌, nat_abs};
ghost use Rattle.pairs.specs.Integers.{position};
ghost use Rattle.tally.specs.Tally.{square};
ghost use Rattle.tally.specs.Counted.{tally_of};
ghost use Rattle.tally.specs.Bounds.{Room};
ghost use Rattle.tally.specs.OneMore.{with_one};

// How often each sample from -16 to 16 came, their sum, the sum of their squares, how many they are, the k of the first, and whether another k came.
#[derive(Drop)]
pub struct Tally {
    pub counts: [u32; 33],
    pub sum: i32,
    pub squares: u32,
    pub total: u32,
    pub k: usize,
    pub mixed: bool,
}

// The position of a sample in the counts.
fn position(sample: i32) -> usize
    requires { nat_abs sample ≤ 16 }
    ensures { result ≡ position 16 sample }
{
    (16 + sample) as usize
}

fn square(sample: i32) -> u32
    requires { nat_abs sample ≤ 16 }
    ensures { result ≡ square sample }
{
    let magnitude = sample.unsigned_abs();
    magnitude * magnitude
}

impl Tally {
    // The tally of no samples.
    pub fn empty() -> Tally
        ensures { result ≡ tally_of [] [] }
    {
        Tally {
            counts: [0; 33],
            sum: 0,
            squares: 0,
            total: 0,
            k: 0,
            mixed: false,
        }
    }

    // One sample more, of k-bit strings.
    pub fn add(&mut self, k: usize, sample: i32)
        requires { (nat_abs sample ≤ 16) × Room self.old }
        ensures { self.new ≡ with_one self.old k sample }
    {
        self.counts[position(sample)] += 1;
        self.sum += sample;
        self.squares += square(sample);
        if self.total == 0 {
            self.k = k;
        }
        self.mixed |= k != self.k;
        self.total += 1;
    }
}
