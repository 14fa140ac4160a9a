//! A sink that keeps nothing.
ghost use Rattle.std.specs.Prelude.{◌≡◌, false};

use crate::{Failed, Sink};

/// A sink that drops what is written to it, and doesn't tell it. It never fails.
#[derive(Drop)]
pub struct Quiet {
    waits: bool,
}

impl Quiet {
    /// A sink to which nothing was written.
    pub fn new() -> Quiet
        ensures waits { ⟦<Quiet as Sink>⟧.waits result ≡ false }
    {
        Quiet { waits: false }
    }
}

impl Sink for Quiet {
    ghost use Rattle.std.specs.Prelude.{None};

    ghost held = { λ _. None };

    ghost faults = { λ _. 0 };

    ghost waits = { λ quiet. quiet.waits };

    fn is_waiting(&self) -> bool {
        self.waits
    }

    fn write(&mut self, piece: &[u8]) -> Result<usize, Failed> {
        self.waits |= !piece.is_empty();
        Ok(piece.len())
    }

    fn flush(&mut self) -> Result<(), Failed> {
        self.waits = false;
        Ok(())
    }
}
