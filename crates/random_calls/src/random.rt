//! Numbers that look random, the same in each run: Marsaglia's xorshift of 64 bits, with the shifts 13, 7 and 17
//! ("Xorshift RNGs", Journal of Statistical Software 8, 2003).

ghost use Rattle.std.specs.Prelude.{◌<◌};

/// A sequence of numbers. It repeats after 2^64 - 1 steps and is no good for secrets.
#[derive(Drop)]
pub struct Random {
    state: u64,
}

impl Random {
    /// The sequence of a seed, any number; 0 has the sequence of a seed of its own too. It costs one
    /// multiplication.
    pub fn seeded(seed: u64) -> Self {
        // An odd factor spreads small seeds over all bits, and the sequence of 0 would be all 0.
        Random {
            state: seed.wrapping_mul(0x9E37_79B9_7F4A_7C15).max(1),
        }
    }

    /// The next number of the sequence, 1 to 2^64 - 1. It costs six operations on words.
    fn step(&mut self) -> u64 {
        let mut x = self.state;
        x ^= x << 13;
        x ^= x >> 7;
        x ^= x << 17;
        self.state = x;
        x
    }

    /// The next number without its low bits, brought below `n` by the remainder: the low bits of neighbours are alike
    /// where seeds are small, the high ones are not. Small numbers come a little more often where `n` is no power of
    /// two.
    pub fn high_below(&mut self, n: usize) -> usize
        requires { 0 < n }
        ensures { result < n }
    {
        (self.step() >> 11) as usize % n
    }

    /// True once in `n` times, as [`Random::high_below`] is 0.
    pub fn one_in(&mut self, n: usize) -> bool
        requires { 0 < n }
    {
        self.high_below(n) == 0
    }
}
