//! A client's seat at a shared shelf.

ghost use Rattle.std.specs.Prelude.{◌≡◌, ◌<◌, [], ◌∷◌, slice_index};
ghost use Rattle.hook_api.specs.ShareSteps.{idle};

use crate::sights::Sight;
use atomic_table::Badge;

/// The right of one client to ask the boxes of a shared shelf. It has no lifetime, and may go to another thread.
///
/// It counts its own asks of each box, and those that the box refused.
#[derive(Drop)]
pub struct AskSeat {
    pub(crate) badge: Badge<Sight>,
    pub(crate) places: [u64; 32],
    pub(crate) refused: [u64; 32],
    ghost idle: { badge.views ≡ idle (record { refused = refused } ∷ []) ∷ [] },
}

impl AskSeat {
    /// The place of the seat's next ask of a box, counted from 0. It stays at the greatest `u64` once it is reached.
    pub fn place(&self, box_no: u32) -> u64
        requires inside { box_no < 32 }
        ensures { result ≡ slice_index self.now.places box_no }
    {
        self.places[box_no as usize]
    }

    /// How many of the seat's asks the box refused, planned refusals aside. It stays at 2^58 once it is reached.
    pub fn refused(&self, box_no: u32) -> u64
        requires inside { box_no < 32 }
        ensures { result ≡ slice_index self.now.refused box_no }
    {
        self.refused[box_no as usize]
    }
}

/// The seats of several clients.
pub type AskSeats = Vec<AskSeat>;
