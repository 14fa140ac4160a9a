//! One arena, as its journal leaves it.

ghost use Rattle.std.specs.Prelude.{◌≡◌, ◌-◌, ◌<◌, ◌≤◌, ◌^◌, IfOk, IfSome, IsTrue, MatchOption, OnErr, OnOk};
ghost use Rattle.space_model.specs.Stepped.{is_live};
ghost use Rattle.arena_core.specs.Chunks.{HasNoChunkFrom, IsNextChunk};
ghost use Rattle.journal_check.specs.Apart.{last_chunk, owns};
ghost use Rattle.journal_check.specs.Logs.{end_of, entered, may_enter, unlogged};

use crate::verdicts::End;
use arena_core::Arena;
use space_model::{Entry, Space};
use std::alloc::{AllocError as NoMemory, Global};
use std::marker::Model;

/// An arena, and how many entries its journal has.
#[derive(Drop)]
pub struct Replica {
    arena: Arena,
    entries: u64,
}

impl Model for Replica {
    ghost use Rattle.space_model.specs.Sound.{Sound};
    ghost use Rattle.journal_check.specs.Logs.{Logged};

    ghost Value = { Logged };

    ghost view = { λ r. record { space = r.arena.space; entries = r.entries } };

    ghost invariant = { λ r. Sound r.arena.space };
}

impl Replica {
    /// The arena with an index before its first entry: arena 0 is there, and no other.
    #[tactic(auto, unfolding(crate::specs::Logs::unlogged))]
    pub fn new(alloc: Global, index: u32) -> Result<Replica, NoMemory>
        ensures { IfOk result (λ arena. arena ≡ unlogged index) }
    {
        let space = if index == 0 {
            Space::first(alloc)
        } else {
            Space::absent(alloc)
        };
        Ok(Replica {
            arena: Arena::new(alloc, space)?,
            entries: 0,
        })
    }

    /// Whether an entry may come next.
    #[tactic(auto, unfolding(crate::specs::Logs::may_enter))]
    pub fn may_enter(&self, entry: &Entry) -> bool
        ensures { result ≡ may_enter self.now entry.now }
    {
        self.arena.may_stand(entry.client, &entry.op)
    }

    /// Takes an entry in that may come next. Where memory is wanting, nothing changes that contracts see.
    #[tactic(auto, unfolding(crate::specs::Logs::may_enter, crate::specs::Logs::entered))]
    pub fn enter(&mut self, entry: &Entry) -> Result<(), NoMemory>
        requires stands { IsTrue (may_enter self.old entry.now) }
        requires few { self.old.entries < 2 ^ 64 - 1 }
        ensures ok { OnOk result (self.new ≡ entered self.old entry.now) }
        ensures err { OnErr result (self.new ≡ self.old) }
    {
        if !Arena::opens(&entry.op) {
            self.arena.make_room(entry.client)?;
        }
        self.arena.step(entry.client, &entry.op)?;
        self.entries += 1;
        Ok(())
    }

    /// Whether an extent of it meets a chunk.
    pub fn owns_chunk(&self, chunk: u64) -> bool
        ensures { result ≡ owns chunk self.now }
    {
        self.arena.owns_chunk(chunk)
    }

    /// The first chunk from this one on that an extent of it meets, if one does.
    pub fn next_chunk(&self, chunk: u64) -> Option<u64>
        ensures next { MatchOption result (HasNoChunkFrom self.now.space.parts chunk) (IsNextChunk self.now.space.parts chunk) }
        ensures bound { IfSome result (λ next. next ≤ last_chunk) }
    {
        self.arena.next_chunk(chunk)
    }

    /// Whether it serves requests.
    pub fn is_live(&self) -> bool
        ensures { result ≡ is_live self.now.space.life }
    {
        self.arena.life().is_live()
    }

    /// What is told of it at the end, under its index.
    #[tactic(auto, unfolding(crate::specs::Logs::end_of))]
    pub fn end(&self, index: u32) -> End
        ensures { result ≡ end_of index self.now }
    {
        End {
            index,
            entries: self.entries,
            counts: self.arena.counts(),
        }
    }
}
