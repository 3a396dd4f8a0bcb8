// What the crates of the bench are written with: numbers drawn from a seed, a text that grows at its end, and a read of a slice that cannot go wrong. Sums and
// products of the bench wrap, which no value of it comes near, and a difference is 0 where it would be negative: so no function needs a condition.
#![tactic(auto)]

ghost use Rattle.std.specs.Prelude.{◌≡◌, ◌+◌, ◌%◌, ◌^◌, ◌<◌, length, slice_index};
ghost use Rattle.plain.specs.Draws.{next_seed, drawn};

mod text;

pub use text::Text;

// The number at an index, and 0 past the end.
pub fn at(numbers: &[u64], i: usize) -> u64
    ensures { result ≡ slice_index numbers.now i }
{
    numbers.get(i).copied().unwrap_or(0)
}

// Draws numbers, by multiplying the seed modulo 2^31 - 1.
#[derive(Drop)]
pub struct Draws {
    seed: u64,
}

impl Draws {
    pub fn from_seed(seed: u64) -> Draws
        ensures { result.seed ≡ seed }
    {
        Draws { seed }
    }

    // A number from 0 to n - 1; 0 where n is 0.
    pub fn roll(&mut self, n: u64) -> u64
        ensures seed { self.new.seed ≡ next_seed self.old.seed }
        ensures value { result ≡ drawn self.new.seed n }
        ensures below { 0 < n → result < n }
    {
        self.seed = self.seed.wrapping_mul(48271) % 2147483647;
        (self.seed / 16).checked_rem(n).unwrap_or(0)
    }

    // One of n numbers, from the least on.
    pub fn roll_from(&mut self, least: u64, n: u64) -> u64
        ensures seed { self.new.seed ≡ next_seed self.old.seed }
        ensures value { result ≡ (drawn self.new.seed n + least) % 2 ^ 64 }
    {
        self.roll(n).wrapping_add(least)
    }

    // One of some bytes.
    pub fn pick(&mut self, bytes: &[u8]) -> u8
        ensures seed { self.new.seed ≡ next_seed self.old.seed }
        ensures value { result ≡ slice_index bytes.now (drawn self.new.seed (length bytes.now)) }
    {
        let i = self.roll(bytes.len() as u64);
        bytes.get(i as usize).copied().unwrap_or(0)
    }
}
