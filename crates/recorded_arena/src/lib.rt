//! An arena with its journal.
#![tactic(auto)]

ghost use Rattle.std.specs.Prelude.{◌≡◌, ◌≢◌, ◌+◌, ◌*◌, ◌<◌, ◌≤◌, ◌^◌, ℕ, false, true, [], ◌∷◌, ◌++◌, length, max, replicate, IsTrue, IsOk, IfOk, IfSome, OnOk, OnErr};
ghost use Rattle.arena_core.specs.Arenas.{all_rooms, entry_of, given_by, opens, room_of, rooms_after};
ghost use Rattle.hook_api.specs.Kept.{IsKept};
ghost use Rattle.recorded_arena.specs.Records.{IsReplayed, most_room, opening_record, record_after};
ghost use Rattle.space_model.specs.Own.{mine};
ghost use Rattle.space_model.specs.Step.{reply_to, space_after, stands};

use arena_core::{Arena, UNIT};
use hook_api::{Asked, Journal, Writing};
use space_model::{Op, Reply, Space};
use std::alloc::{AllocError as NoMemory, Global};
use std::marker::Model;

/// An arena with its journal. Each turn adds its entry, and a turn for which the arena takes no memory takes none for the
/// journal.
#[derive(Drop)]
pub struct Recorded {
    index: u32,
    arena: Arena,
    journal: Writing,
}

impl Model for Recorded {
    ghost use Rattle.recorded_arena.specs.Records.{IsRecorded, Record, shown};

    ghost Value = { Record };

    ghost view = { shown };

    ghost invariant = { IsRecorded };
}

/// How many operations without memory may follow an operation at most that takes memory, by all that it may empty.
fn most_room(op: &Op) -> Option<u64>
    ensures { IfSome result (λ room. room ≡ most_room op.now) }
{
    let given = match op {
        Op::Back { addrs } => addrs.as_slice().len() as u64,
        _ => 0,
    };
    UNIT.checked_mul(given.max(1))
}

/// How many operations of all clients there may be at most in an arena until each takes memory again: one that takes memory
/// and all that may follow it, and all that may follow others. `NoMemory` where that is no number.
pub fn places_for(arena: &Arena, op: &Op) -> Result<u64, NoMemory>
    ensures { IfOk result (λ places. places ≡ all_rooms arena.now.rooms + most_room op.now + 1) }
{
    let room = most_room(op).ok_or(NoMemory)?;
    let places = arena.room().checked_add(room).ok_or(NoMemory)?;
    places.checked_add(1).ok_or(NoMemory)
}

/// Makes places in a journal of an arena for a turn that takes memory, and for those that may follow it.
fn make_places(journal: &mut Writing, arena: &Arena, op: &Op) -> Result<(), NoMemory>
    ensures entries { journal.new.kept ≡ journal.old.kept }
    ensures kept { journal.old.spare ≤ journal.new.spare }
    ensures ok { OnOk result (opens op.now ≡ true → all_rooms arena.now.rooms + most_room op.now < journal.new.spare) }
    ensures sure { opens op.now ≡ false → IsOk result }
{
    if !Arena::opens(op) {
        return Ok(());
    }
    journal.reserve(places_for(arena, op)?)
}

impl Recorded {
    /// The arena with an index, with an empty journal: arena 0 is there, and no other.
    pub fn new(alloc: Global, index: u32) -> Result<Recorded, NoMemory>
        ensures { IfOk result (λ r. r ≡ opening_record index) }
    {
        let space = if index == 0 {
            Space::first(alloc)
        } else {
            Space::absent(alloc)
        };
        Ok(Recorded {
            index,
            arena: Arena::new(alloc, space)?,
            journal: Writing::new(alloc),
        })
    }

    /// The arena.
    pub fn arena(&self) -> &Arena
        ensures replayed { IsReplayed self.now.index self.now.kept self.now.space }
        ensures space { result.now.space ≡ self.now.space }
        ensures rooms { result.now.rooms ≡ self.now.rooms }
        ensures clients { length self.now.rooms ≡ 32 }
    {
        &self.arena
    }

    /// A turn of a client, whose entry joins the journal beside the ask that it carries, and may be taken out of its place for
    /// that. The reply is written into the place for it. Where memory is wanting, nothing else changes; that comes at the first
    /// turn of a unit alone.
    pub fn turn(
        &mut self,
        client: u32,
        op: &mut Op,
        asked: &Option<Asked>,
        reply: &mut Reply,
    ) -> Result<(), NoMemory>
        requires stands { IsTrue (stands self.old.space (entry_of client op.old)) }
        requires room { opens op.old ≡ false → 0 < room_of client self.old.rooms }
        requires kept { IsKept (entry_of client op.old) asked.now }
        ensures index { self.new.index ≡ self.old.index }
        ensures after { OnOk result (self.new ≡ record_after self.old client op.old asked.now) }
        ensures reply { OnOk result (reply.new ≡ reply_to self.old.space (entry_of client op.old)) }
        ensures replayed { IsReplayed self.new.index self.new.kept self.new.space }
        ensures few { OnOk result (length self.new.kept < 2 ^ 64) }
        ensures room { OnOk result (room_of client self.new.rooms ≤ all_rooms self.old.rooms + most_room op.old) }
        ensures err { OnErr result (self.new ≡ self.old) }
        ensures sure { opens op.old ≡ false → IsOk result }
        ensures others { (other : ℕ) → other ≢ client → mine other self.new.space ≡ mine other self.old.space }
    {
        make_places(&mut self.journal, &self.arena, op)?;
        *reply = self.arena.step(client, op)?;
        self.journal.push(client, op, asked);
        Ok(())
    }

    /// The journal, once no turn is to come.
    pub fn into_journal(self) -> Journal
        ensures index { result.index ≡ self.index }
        ensures kept { result.kept ≡ self.kept }
        ensures replayed { IsReplayed self.index self.kept self.space }
    {
        let Recorded { index, journal, .. } = self;
        Journal {
            index,
            kept: journal.into_kepts(),
        }
    }
}
