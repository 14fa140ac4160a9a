//! A heap that threads share, and what one client has of it.
ghost use Rattle.std.specs.Prelude.{◌≡◌};
ghost use Rattle.std.specs.Arc.{arc_value};
ghost use Rattle.heap_runs.specs.Ways.{AreLocks};

use call_plan::Desk;
use chunk_table::ChunkTable;
use heap_shared::ArenaTurns;
use hook_api::AskSeat;
use std::alloc::Global;
use std::sync::Arc;
use turn_lock::{Pass, TurnLock};

/// The box that was given to each arena, by its index, where it was created.
pub(crate) type Boxes = [Option<u32>; 32];

/// 32 arenas, each under a turn lock of its own, the table of the chunks that they own, and which box was given to each that was
/// created. Threads share it by reference.
#[derive(Drop)]
pub struct SharedHeap {
    pub(crate) locks: Vec<TurnLock<ArenaTurns>>,
    pub(crate) table: Arc<ChunkTable, Global>,
    pub(crate) clients: u32,
    pub(crate) boxes: Boxes,
    ghost made: { AreLocks (arc_value table) clients locks.items },
}

/// What one client has of a heap: its desk, a pass of each arena, and its seat at the shared shelf. It has no lifetime, and may go
/// to another thread.
#[derive(Drop)]
pub struct Ctx {
    pub(crate) client: u32,
    pub(crate) desk: Desk,
    pub(crate) passes: Vec<Pass<ArenaTurns>>,
    pub(crate) seat: AskSeat,
}

impl Ctx {
    /// The client's number.
    pub fn client(&self) -> u32
        ensures { result ≡ self.now.client }
    {
        self.client
    }

    /// What the client has.
    pub fn desk(&self) -> &Desk
        ensures { result.now ≡ self.now.desk }
    {
        &self.desk
    }
}
