//! Numbers that look random, the same ones in every run.

/// A linear congruence modulo 2^64, with the factor and the increment of Knuth's MMIX. The high bits
/// of a state are the better ones.
#[derive(Drop)]
pub struct Random {
    state: u64,
}

impl Random {
    pub fn new(seed: u64) -> Self {
        Random { state: seed }
    }

    /// The next state.
    #[inline]
    pub fn next(&mut self) -> u64 {
        self.state = self
            .state
            .wrapping_mul(6364136223846793005)
            .wrapping_add(1442695040888963407);
        self.state
    }
}
