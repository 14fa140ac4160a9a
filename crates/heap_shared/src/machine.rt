//! The machine of an arena: an operation of a client is a step.
ghost use Rattle.std.specs.Prelude.{◌≡◌, [], length, OnErr, IfOk, IsOk, false};
ghost use Rattle.std.specs.Arc.{arc_value};
ghost use Rattle.chunk_table.specs.Tables.{failed, owned, share_of, IsSeatOf};
ghost use Rattle.arena_core.specs.Arenas.{opens};
ghost use Rattle.heap_shared.specs.Claims.{AreOthers, HasFound, OwnsMet};
ghost use Rattle.recorded_arena.specs.Records.{IsReplayed};
ghost use Rattle.heap_shared.specs.Shared.{Logs, MayStand, after_entry, live_counts, owned_by, seated_facts};

use crate::claims::Claims;
use chunk_table::{ChunkSeat, ChunkTable};
use deeds::{Deed, Doing, Told};
use hook_api::Journal;
use recorded_arena::Recorded;
use space_model::{Counts, Life, Reply};
use std::alloc::{AllocError as NoMemory, Global};
use std::marker::Model;
use std::snapshot::Snapshot;
use std::sync::Arc;
use turn_lock::Machine;

/// An arena with its journal, and its seat of the table that all arenas share.
#[derive(Drop)]
pub struct SharedArena {
    recorded: Recorded,
    claims: Claims,
}

impl Model for SharedArena {
    ghost use Rattle.std.specs.Arc.{arc_value};
    ghost use Rattle.chunk_table.specs.Tables.{share_of};
    ghost use Rattle.heap_shared.specs.Shared.{Facts, facts_of};
    ghost use Rattle.heap_shared.specs.Claims.{IsSettled};

    ghost Value = { Facts };

    ghost view = { λ s. facts_of s.recorded (share_of s.claims.seat).number (arc_value s.claims.table) };

    ghost invariant = { λ s. IsSettled s.claims.seat s.recorded.space s.recorded.kept };
}

impl SharedArena {
    /// The arena with an index as it is at the start. It claims no chunk yet.
    pub fn new(
        alloc: Global,
        index: u32,
        table: Arc<ChunkTable, Global>,
        seat: ChunkSeat,
    ) -> Result<SharedArena, NoMemory>
        requires seat { IsSeatOf (arc_value table) seat }
        requires none { owned seat ≡ [] }
        requires unfailed { failed seat ≡ [] }
        ensures { IfOk result (λ s. s ≡ seated_facts index (share_of seat).number (arc_value table)) }
    {
        Ok(SharedArena {
            recorded: Recorded::new(alloc, index)?,
            claims: Claims { table, seat },
        })
    }

    /// The journal and the seat, once no turn is to come. It owns just the chunks that extents of the arena meet, and its claims that
    /// failed are those by which entries of the journal found chunks in other arenas, and never name the arena itself.
    pub fn into_parts(self) -> (Journal, ChunkSeat)
        ensures index { result.0.index ≡ self.arena.index }
        ensures kept { result.0.kept ≡ self.arena.kept }
        ensures table { IsSeatOf self.table result.1 }
        ensures owned { OwnsMet result.1 self.arena.space }
        ensures found { HasFound result.1 result.0.kept }
        ensures number { (share_of result.1).number ≡ self.number }
        ensures others { AreOthers (share_of result.1) }
        ensures replayed { IsReplayed self.arena.index self.arena.kept self.arena.space }
    {
        let SharedArena { recorded, claims } = self;
        let Claims { seat, .. } = claims;
        (recorded.into_journal(), seat)
    }

    /// The counts of the arena, where it is live. They are kept and not summed up anew.
    pub fn counts(&self) -> Option<Counts>
        ensures { result ≡ live_counts self.now.arena.space }
    {
        let arena = self.recorded.arena();
        match arena.life() {
            Life::Live => Some(arena.counts()),
            _ => None,
        }
    }

    /// The step of an operation that may stand by what belongs to its client. The chunks that it takes are claimed in it,
    /// and those that no extent meets after it are released.
    fn take(&mut self, client: u32, doing: Doing) -> Result<(Snapshot<Deed>, Told), NoMemory>
        requires may { MayStand (owned_by self.old client) doing }
        ensures entry { IfOk result (λ r. Logs self.old client doing r.0) }
        ensures after { IfOk result (λ r. (self.new, r.1) ≡ after_entry self.old r.0) }
        ensures unchanged { OnErr result (self.new ≡ self.old) }
        ensures sure { opens doing.op ≡ false → IsOk result }
    {
        let Doing { op, asked } = doing;
        let op = self.claims.settle(self.recorded.arena(), op);
        let mut deed = Deed { client, op, asked };
        let made = Snapshot::of(&deed);
        let touch = Claims::touch(&deed.op);
        let mut reply = Reply::Noted;
        self.recorded
            .turn(client, &mut deed.op, &deed.asked, &mut reply)?;
        let arena = self.recorded.arena();
        self.claims.release(arena, touch.with(&reply));
        let box_no = arena.box_no();
        Ok((made, Told { reply, box_no }))
    }
}

/// What belongs to one client. No value of it is made.
pub struct OwnedBy {
    client: u32,
}

impl Model for OwnedBy {
    ghost use Rattle.heap_shared.specs.Shared.{Owned, nothing_owned};

    ghost Value = { Owned };

    ghost view = { λ _. nothing_owned };
}

/// The machine: its states are arenas, its operations those of their clients.
pub struct ArenaTurns;

impl Machine for ArenaTurns {
    ghost use Rattle.std.specs.Prelude.{◌∷◌, [], map, refl};
    ghost use Rattle.std.proofs.lemmas.List.{map-append};
    ghost use Rattle.heap_shared.specs.Shared.{seated_facts, snap, IsSure, Logs, MayStand, after_entry, owned_by};
    ghost use Rattle.arena_core.specs.Arenas.{entry_of};

    type State = SharedArena;

    type Op = Doing;

    type Entry = Snapshot<Deed>;

    type Reply = Told;

    type Own = OwnedBy;

    ghost logs = { Logs };

    ghost after = { after_entry };

    ghost own = { owned_by };

    ghost may = { MayStand };

    ghost sure = { IsSure };

    ghost kept = { λ s. map snap s.arena.kept };

    ghost start = { λ s. seated_facts s.arena.index s.number s.table };

    ghost keeps = { λ s n op e l. map-append snap s.arena.kept (record { entry = entry_of e.value.client e.value.op; asked = e.value.asked } ∷ []) };

    ghost starts = { λ s n op e l. refl };

    ghost others = { λ s n op e k l other. l.others k other };

    fn step(
        state: &mut SharedArena,
        number: u32,
        op: Doing,
    ) -> Result<(Snapshot<Deed>, Told), NoMemory> {
        state.take(number, op)
    }
}
