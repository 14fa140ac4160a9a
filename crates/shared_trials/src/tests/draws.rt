//! Numbers that a seed chooses.

/// A linear congruential generator, of which the high bits are taken.
#[derive(Clone, Copy, Drop)]
pub(crate) struct Draws {
    state: u64,
}

impl Draws {
    /// The numbers of a seed.
    pub(crate) fn new(seed: u64) -> Draws {
        Draws { state: seed }
    }

    /// The next number, below 2^33.
    pub(crate) fn draw(&mut self) -> u64 {
        self.state = self
            .state
            .wrapping_mul(6364136223846793005)
            .wrapping_add(1442695040888963407);
        self.state >> 31
    }
}
