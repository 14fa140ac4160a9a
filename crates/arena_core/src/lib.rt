//! One arena over its indexes: the step of `space_model`, by look-ups and never by scans.
#![tactic(auto)]

ghost use Rattle.std.specs.Prelude.{◌≡◌, ◌≢◌, ◌⊎◌, ◌<◌, ◌≤◌, ◌++◌, ◌∷◌, [], ℕ, false, true, replicate, IsTrue, IsOk, IfOk, IfSome, MatchOption, OnOk, OnErr};
ghost use Rattle.std.specs.List.{list_any};
ghost use Rattle.space_model.specs.Span.{chunk_span, has_page, max_series, meets};
ghost use Rattle.space_model.specs.Opening.{absent_space, first_space};
ghost use Rattle.space_model.specs.Step.{next_flight, reply_to, space_after, stands};
ghost use Rattle.space_model.specs.Sound.{Sound};
ghost use Rattle.space_model.specs.Journal.{Good};
ghost use Rattle.space_model.specs.Own.{mine};
ghost use Rattle.space_model.specs.Counts.{counts_of};
ghost use Rattle.space_model.specs.declared.TheConstants.{CHUNKS};
ghost use Rattle.arena_core.specs.Chunks.{HasNoChunkFrom, IsNextChunk};
ghost use Rattle.arena_core.specs.Arenas.{all_rooms, emptied_by_op, entry_of, given_by, opens, room_after, room_of, rooms_after, rooms_made};

mod ends;
mod fills;
mod frees;
mod holders;
mod indexes;
pub mod laws;
mod moves;
mod offer_list;
mod offers;
mod purges;
mod readers;
mod resizes;
mod rooms;
mod settings;
mod stands;
mod steps;

use decay_curve::Decay;
use indexes::Indexes;
use offer_list::OfferList;
use part_book::PartBook;
use region_book::RegionBook;
use rooms::Rooms;
use space_model::{Counts, Life, Op, Reply, Space, Span};
use std::alloc::{AllocError as NoMemory, Global};
use std::marker::Model;
use steps::Body;

/// How many operations that take no memory may follow one that makes room for them.
pub const UNIT: u64 = 16;

/// An arena: the only thing that moves its space.
///
/// Contracts see the space, and beside it the room of each of the 32 clients: how many more operations the client may
/// make that take no memory. A step moves no list and scans none; what it costs grows by the logarithms of the indexes
/// and by what the operation itself names (the addresses of a return, the chunks of an answered range, the slabs and
/// extents of a reset or a destroy).
#[derive(Drop)]
pub struct Arena {
    body: Body,
}

impl Model for Arena {
    ghost use Rattle.arena_core.specs.Arenas.{IsBody, Standing, standing_of};

    ghost Value = { Standing };

    ghost view = { λ arena. standing_of arena.body };

    ghost invariant = { λ arena. IsBody arena.body };
}

impl Arena {
    /// The arena of a space that is arena 0 at the start, or of an index without an arena. Nobody has room yet.
    pub fn new(alloc: Global, space: Space) -> Result<Arena, NoMemory>
        requires { (space ≡ absent_space) ⊎ (space ≡ first_space) }
        ensures { IfOk result (λ arena. arena ≡ record { space = space; rooms = replicate 32 0 }) }
    {
        Ok(Arena {
            body: Body {
                indexes: Indexes {
                    life: space.life,
                    extents: PartBook::new(alloc)?,
                    regions: RegionBook::new(alloc),
                    offers: OfferList::new(alloc),
                    bound: space.bound,
                    box_no: space.box_no,
                    dirty: Decay::new(alloc, space.dirty.ms, space.dirty.start)?,
                    muzzy: Decay::new(alloc, space.muzzy.ms, space.muzzy.start)?,
                    grow: space.grow,
                    grow_limit: space.grow_limit,
                    trims: space.trims,
                    alloc,
                },
                rooms: Rooms::none(),
                ready: 0,
            },
        })
    }

    /// The step of an operation that may stand. The first one of a unit takes memory for itself and for those that follow
    /// it in the unit, of which each uses one of its client's room up.
    ///
    /// Where memory is wanting, nothing changes; that comes at the first one of a unit alone.
    pub fn step(&mut self, client: u32, op: &Op) -> Result<Reply, NoMemory>
        requires stands { IsTrue (stands self.old.space (entry_of client op.now)) }
        requires room { opens op.now ≡ false → 0 < room_of client self.old.rooms }
        ensures after { OnOk result (self.new.space ≡ space_after self.old.space (entry_of client op.now)) }
        ensures reply { IfOk result (λ told. told ≡ reply_to self.old.space (entry_of client op.now)) }
        ensures room { OnOk result (room_of client self.new.rooms ≡ room_after self.old.space (room_of client self.old.rooms) client op.now) }
        ensures other_rooms { (other : ℕ) → other ≢ client → room_of other self.new.rooms ≡ room_of other self.old.rooms }
        ensures rooms { OnOk result (self.new.rooms ≡ rooms_after self.old client op.now) }
        ensures few { OnOk result (emptied_by_op client op.now self.old.space ≤ given_by op.now) }
        ensures err { OnErr result (self.new ≡ self.old) }
        ensures sure { opens op.now ≡ false → IsOk result }
        ensures sound { Sound self.new.space }
        ensures good { (turns : _) → Good turns self.old.space → IfOk result (λ told. Good (turns ++ (entry_of client op.now, told) ∷ []) self.new.space) }
        ensures others { (other : ℕ) → other ≢ client → mine other self.new.space ≡ mine other self.old.space }
    {
        steps::step(&mut self.body, client, op)
    }

    /// Whether an operation of a client may come next, by look-ups: what may stand, `step` carries out where the client has
    /// room for it.
    pub fn may_stand(&self, client: u32, op: &Op) -> bool
        ensures stands { result ≡ stands self.now.space (entry_of client op.now) }
        ensures client { IsTrue result → client < 32 }
    {
        stands::may_stand(&self.body.indexes, client, op)
    }

    /// Makes room for 16 operations of a client that take no memory, where it has no room left. The space stays, and the
    /// rooms of the other clients. Where memory is wanting, nothing changes.
    pub fn make_room(&mut self, client: u32) -> Result<(), NoMemory>
        requires { client < 32 }
        ensures space { self.new.space ≡ self.old.space }
        ensures room { OnOk result (0 < room_of client self.new.rooms) }
        ensures other_rooms { (other : ℕ) → other ≢ client → room_of other self.new.rooms ≡ room_of other self.old.rooms }
        ensures rooms { OnOk result (self.new.rooms ≡ rooms_made client self.old.rooms) }
        ensures err { OnErr result (self.new ≡ self.old) }
    {
        steps::make_room(&mut self.body, client)
    }

    /// Whether an operation is the first one of a unit, for which memory is taken.
    pub fn opens(op: &Op) -> bool
        ensures { result ≡ opens op.now }
    {
        steps::opens(op)
    }

    /// How many more operations that take no memory its clients may make, all together.
    pub fn room(&self) -> u64
        ensures { result ≡ all_rooms self.now.rooms }
    {
        self.body.rooms.total()
    }

    /// The counts, which are kept and not summed up anew.
    pub fn counts(&self) -> Counts
        ensures { result ≡ counts_of self.now.space }
    {
        readers::counts(&self.body.indexes)
    }

    /// Whether the arena is there.
    pub fn life(&self) -> Life
        ensures { result ≡ self.now.space.life }
    {
        self.body.indexes.life
    }

    /// The box of hooks that it asks, below 32.
    pub fn box_no(&self) -> u32
        ensures box_no { result ≡ self.now.space.box_no }
        ensures bound { result < 32 }
    {
        self.body.indexes.box_no
    }

    /// The decay times of its dirty and its muzzy extents in milliseconds, -1 for never.
    pub fn times(&self) -> (i64, i64)
        ensures { result ≡ (self.now.space.dirty.ms, self.now.space.muzzy.ms) }
    {
        let indexes = &self.body.indexes;
        (indexes.dirty.ms(), indexes.muzzy.ms())
    }

    /// The most chunks that it grows by where no request needs so many, from 1 to 16384.
    pub fn grow_limit(&self) -> u64
        ensures grow_limit { result ≡ self.now.space.grow_limit }
        ensures bound { result ≤ max_series }
    {
        self.body.indexes.grow_limit
    }

    /// Whether an extent meets a chunk.
    pub fn owns_chunk(&self, chunk: u64) -> bool
        ensures { result ≡ list_any (λ p. meets p.span (chunk_span chunk)) self.now.space.parts }
    {
        readers::owns_chunk(&self.body.indexes, chunk)
    }

    /// The first chunk from this one on that an extent meets, if one does: from chunk to chunk it walks through those that the
    /// arena owns.
    pub fn next_chunk(&self, chunk: u64) -> Option<u64>
        ensures next { MatchOption result (HasNoChunkFrom self.now.space.parts chunk) (IsNextChunk self.now.space.parts chunk) }
        ensures bound { IfSome result (λ next. next ≤ CHUNKS) }
    {
        readers::next_chunk(&self.body.indexes, chunk)
    }

    /// Whether an extent has a page.
    pub fn holds_page(&self, page: u64) -> bool
        ensures { result ≡ list_any (λ p. has_page page p.span) self.now.space.parts }
    {
        readers::holds_page(&self.body.indexes, page)
    }

    /// The span of the first extent that the client has in flight.
    pub fn next_flight(&self, client: u32) -> Option<Span>
        ensures { result ≡ next_flight client self.now.space.parts }
    {
        self.body.indexes.extents.next_flight(client)
    }
}
