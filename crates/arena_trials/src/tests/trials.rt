//! An arena beside its space, which is moved by scans: each operation is carried out in both, and has one reply.

ghost use Rattle.std.specs.Prelude.{◌≡◌, ◌⊎◌, ◌<◌, false, true, IsTrue};
ghost use Rattle.space_model.specs.Opening.{absent_space, first_space};
ghost use Rattle.space_model.specs.Step.{stands};
ghost use Rattle.space_model.specs.Sound.{Sound};
ghost use Rattle.arena_core.specs.Arenas.{opens, room_after, room_of};

use arena_core::Arena;
use plain_machine::{may_stand, plain_counts, plain_step};
use space_model::{Entry, Op, Reply, Space, Span};
use std::alloc::Global;
use std::marker::Model;
use std::process::Abort;

/// An arena and its space, which agree. They are let go by `drop`, which is proved far faster than the end of a scope.
#[derive(Drop)]
pub struct Trial {
    arena: Arena,
    space: Space,
}

impl Model for Trial {
    ghost use Rattle.std.specs.Prelude.{◌≡◌};
    ghost use Rattle.space_model.specs.declared.spaces.Space.{Space};
    ghost use Rattle.space_model.specs.Sound.{Sound};

    ghost Value = { Space };

    ghost view = { λ trial. trial.space };

    ghost invariant = { λ trial. (trial.arena.space ≡ trial.space) × Sound trial.space };
}

/// An operation that may stand is carried out in the arena and in the space, with one reply.
fn carry_out(rt: &impl Abort, arena: &mut Arena, space: &mut Space, entry: &Entry) -> Reply
    requires same { arena.old.space ≡ space.old }
    requires sound { Sound space.old }
    requires stands { IsTrue (stands space.old entry.now) }
    requires room { opens entry.now.op ≡ false → 0 < room_of entry.now.client arena.old.rooms }
    ensures same { arena.new.space ≡ space.new }
    ensures sound { Sound space.new }
    ensures room { room_of entry.now.client arena.new.rooms ≡ room_after arena.old.space (room_of entry.now.client arena.old.rooms) entry.now.client entry.now.op }
{
    let reply = arena
        .step(entry.client, &entry.op)
        .expect(rt, "memory for the arena");
    let told = plain_step(space, entry).expect(rt, "memory for the space");
    assert_eq!(rt; reply, told);
    reply
}

/// A look that nothing can serve makes room for an operation of a client. The answer is whether it may look.
fn make_room(rt: &impl Abort, arena: &mut Arena, space: &mut Space, client: u32) -> bool
    requires same { arena.old.space ≡ space.old }
    requires sound { Sound space.old }
    ensures same { arena.new.space ≡ space.new }
    ensures sound { Sound space.new }
    ensures room { result ≡ true → 0 < room_of client arena.new.rooms }
{
    let look = Entry {
        client,
        op: Op::Look {
            pages: 1 << 40,
            align: 1,
        },
    };
    if !may_stand(space, &look) {
        return false;
    }
    carry_out(rt, arena, space, &look);
    true
}

/// Whether an entry may stand, which the arena and the slow machine tell alike.
fn both_stand(rt: &impl Abort, arena: &Arena, space: &Space, entry: &Entry) -> bool
    requires { arena.now.space ≡ space.now }
    ensures stands { result ≡ stands space.now entry.now }
    ensures client { IsTrue result → entry.now.client < 32 }
{
    let stands = arena.may_stand(entry.client, &entry.op);
    assert_eq!(rt; stands, may_stand(space, entry), "{entry:?}");
    stands
}

/// The reply to an entry, if it may stand, as a reader of journals has it: who asks, makes room, and takes the step.
fn read(rt: &impl Abort, arena: &mut Arena, space: &mut Space, entry: &Entry) -> Option<Reply>
    requires same { arena.old.space ≡ space.old }
    requires sound { Sound space.old }
    ensures same { arena.new.space ≡ space.new }
    ensures sound { Sound space.new }
{
    if !both_stand(rt, arena, space, entry) {
        return None;
    }
    arena.make_room(entry.client).expect(rt, "memory for room");
    Some(carry_out(rt, arena, space, entry))
}

/// The reply to an entry, if it may stand. A client that may not even look may do nothing.
fn attempt(rt: &impl Abort, arena: &mut Arena, space: &mut Space, entry: &Entry) -> Option<Reply>
    requires same { arena.old.space ≡ space.old }
    requires sound { Sound space.old }
    ensures same { arena.new.space ≡ space.new }
    ensures sound { Sound space.new }
{
    if !make_room(rt, arena, space, entry.client) || !both_stand(rt, arena, space, entry) {
        return None;
    }
    Some(carry_out(rt, arena, space, entry))
}

impl Trial {
    /// The arena of a space beside that space.
    fn beside(rt: &impl Abort, alloc: Global, own: Space, space: Space) -> Self
        requires begins { (own ≡ absent_space) ⊎ (own ≡ first_space) }
        requires same { own ≡ space }
        requires sound { Sound space }
    {
        let arena = Arena::new(alloc, own).expect(rt, "memory for an arena");
        Trial { arena, space }
    }

    /// Arena 0 at the start.
    pub(crate) fn of_first(rt: &impl Abort, alloc: Global) -> Self {
        Trial::beside(rt, alloc, Space::first(alloc), Space::first(alloc))
    }

    /// An index without an arena.
    fn of_absent(rt: &impl Abort, alloc: Global) -> Self {
        Trial::beside(rt, alloc, Space::absent(alloc), Space::absent(alloc))
    }

    /// What a script begins with.
    pub(crate) fn of_script(rt: &impl Abort, alloc: Global, script: &str) -> Self {
        if script.starts_with("\nabsent\n") {
            Trial::of_absent(rt, alloc)
        } else {
            Trial::of_first(rt, alloc)
        }
    }

    /// The arena.
    pub(crate) fn arena(&self) -> &Arena {
        &self.arena
    }

    /// The space.
    pub(crate) fn space(&self) -> &Space
        ensures { Sound result.now }
    {
        &self.space
    }

    /// The reply to an operation of a client, if it may stand.
    pub(crate) fn attempt(&mut self, rt: &impl Abort, client: u32, op: Op) -> Option<Reply> {
        attempt(rt, &mut self.arena, &mut self.space, &Entry { client, op })
    }

    /// Whether an operation of a client may stand.
    pub(crate) fn stands(&self, rt: &impl Abort, client: u32, op: Op) -> bool {
        both_stand(rt, &self.arena, &self.space, &Entry { client, op })
    }

    /// The reply to an operation of a client, if it may stand, as a reader of journals has it.
    pub(crate) fn read(&mut self, rt: &impl Abort, client: u32, op: Op) -> Option<Reply> {
        read(rt, &mut self.arena, &mut self.space, &Entry { client, op })
    }

    /// The counts are those of a scan.
    pub(crate) fn counts_agree(&self, rt: &impl Abort) {
        assert_eq!(rt; self.arena.counts(), plain_counts(&self.space));
    }

    /// The span of the first extent that the client has in flight, or the first chunk.
    pub(crate) fn flight(&self, client: u32) -> Span {
        self.arena.next_flight(client).unwrap_or(super::ops::CHUNK)
    }
}
