//! One step of an arena: the operation, and the room that it makes or uses up.

ghost use Rattle.std.specs.Prelude.{◌≡◌, ℕ, ◌+◌, ◌*◌, ◌<◌, ◌≤◌, ◌^◌, false, true, length, max, IsTrue, IsOk, IfOk, OnOk, OnErr, slice_set};
ghost use Rattle.space_model.specs.Step.{op_stands, step_of};
ghost use Rattle.space_model.specs.Sound.{Sound};
ghost use Rattle.arena_core.specs.Arenas.{IsBody, IsReady, Turns, all_rooms, emptied_by_op, given_by, is_return, may_fail, opens, room_of, rooms_after, rooms_made, standing_of};
ghost use Rattle.arena_core.specs.Indexes.{Does, HasPlaces, space_of};
ghost use Rattle.arena_core.specs.Slabs.{CanFollow, IsBooked, slabs_begun, slabs_followed};

use crate::indexes::{self, Indexes};
use crate::rooms::Rooms;
use crate::{UNIT, ends, fills, frees, holders, moves, offers, purges, resizes, settings};
use space_model::{Addresses, Op, Reply};
use std::alloc::AllocError as NoMemory;

/// How many places are made beside those that are wanted, for the operations to come.
const MORE: u64 = 64;

/// An arena: its space in indexes, the rooms of its clients, and for how many operations each index has places, at least.
#[derive(Drop)]
pub struct Body {
    pub indexes: Indexes,
    pub rooms: Rooms,
    pub ready: u64,
}

/// Makes places for all rooms, of which the client's shall be this. Where memory is wanting nothing changes. The indexes
/// are asked only where there may be too few.
fn make_places(body: &mut Body, client: u32, room: u64) -> Result<(), NoMemory>
    requires client { client < 32 }
    requires ready { IsReady body.old }
    ensures standing { standing_of body.new ≡ standing_of body.old }
    ensures slabs { body.new.indexes.regions.slabs ≡ body.old.indexes.regions.slabs }
    ensures ready { IsReady body.new }
    ensures ok { OnOk result (all_rooms (slice_set body.old.rooms client room) ≤ body.new.ready) }
    ensures fits { OnOk result (all_rooms (slice_set body.old.rooms client room) < 2 ^ 64) }
{
    let wanted = body.rooms.total_with(client, room).ok_or(NoMemory)?;
    if wanted > body.ready {
        let places = wanted.saturating_add(MORE);
        indexes::reserve(&mut body.indexes, places)?;
        body.ready = places;
    }
    Ok(())
}

/// Makes room for 16 operations of a client that take no memory, where it has no room left. Where memory is wanting nothing
/// changes.
pub fn make_room(body: &mut Body, client: u32) -> Result<(), NoMemory>
    requires client { client < 32 }
    requires body { IsBody body.old }
    ensures body { IsBody body.new }
    ensures space { space_of body.new.indexes ≡ space_of body.old.indexes }
    ensures rooms { OnOk result (body.new.rooms ≡ rooms_made client body.old.rooms) }
    ensures err { OnErr result (standing_of body.new ≡ standing_of body.old) }
{
    if body.rooms.of(client) > 0 {
        return Ok(());
    }
    make_places(body, client, UNIT)?;
    body.rooms.set(client, UNIT);
    Ok(())
}

/// Whether an operation is the first one of a unit, for which memory is taken.
pub fn opens(op: &Op) -> bool
    ensures { result ≡ opens op.now }
{
    matches!(
        op,
        Op::Look { .. }
            | Op::Back { .. }
            | Op::Fill { .. }
            | Op::Advance { .. }
            | Op::PurgeTake { .. }
            | Op::Publish { .. }
            | Op::TakeOver { .. }
            | Op::Reset { .. }
            | Op::Destroy { .. }
            | Op::DestroyTake
            | Op::Counts
            | Op::Set(_)
            | Op::Widen { .. }
            | Op::Trim { .. }
    )
}

/// The first operation of a unit, if it isn't a return and takes no memory itself.
fn begin_surely(indexes: &mut Indexes, client: u32, op: &Op) -> Reply
    requires client { client < 32 }
    requires opens { opens op.now ≡ true }
    requires other { is_return op.now ≡ false }
    requires sure { may_fail op.now ≡ false }
    requires stands { IsTrue (op_stands (space_of indexes.old) client op.now) }
    requires sound { Sound (space_of indexes.old) }
    requires booked { IsBooked (space_of indexes.old) indexes.old.regions.slabs }
    ensures { Does indexes.old indexes.new (slabs_begun client (space_of indexes.old) op.now indexes.old.regions.slabs)
        (step_of (space_of indexes.old) client op.now) result }
{
    match op {
        Op::Look { pages, align } => moves::look(indexes, client, *pages, *align),
        Op::Advance { now } => settings::advance(indexes, *now),
        Op::Set(setting) => settings::set(indexes, client, *setting),
        Op::PurgeTake { rest, keep } => purges::purge_take(indexes, client, *rest, *keep),
        Op::Publish { addr } => holders::publish(indexes, client, *addr),
        Op::TakeOver { addr } => holders::take_over(indexes, client, *addr),
        Op::Reset { cached } => ends::reset(indexes, client, *cached),
        Op::Destroy { cached } => ends::destroy(indexes, client, *cached),
        Op::DestroyTake => ends::destroy_take(indexes),
        Op::Widen { addr, pages } => resizes::widen(indexes, client, *addr, *pages),
        Op::Trim { .. } => resizes::trim(indexes, client),
        _ => unreachable!(),
    }
}

/// The first operation of a unit, if it isn't a return. Where memory is wanting for it, the space stays.
fn begin(indexes: &mut Indexes, client: u32, op: &Op) -> Result<Reply, NoMemory>
    requires client { client < 32 }
    requires opens { opens op.now ≡ true }
    requires other { is_return op.now ≡ false }
    requires stands { IsTrue (op_stands (space_of indexes.old) client op.now) }
    requires sound { Sound (space_of indexes.old) }
    requires booked { IsBooked (space_of indexes.old) indexes.old.regions.slabs }
    ensures after { OnOk result (space_of indexes.new ≡ (step_of (space_of indexes.old) client op.now).after) }
    ensures reply { IfOk result (λ told. told ≡ (step_of (space_of indexes.old) client op.now).reply) }
    ensures err { OnErr result (space_of indexes.new ≡ space_of indexes.old) }
    ensures slabs { OnOk result (indexes.new.regions.slabs ≡ slabs_begun client (space_of indexes.old) op.now indexes.old.regions.slabs) }
    ensures same { OnErr result (indexes.new.regions.slabs ≡ indexes.old.regions.slabs) }
    ensures places { (n : ℕ) → HasPlaces indexes.old n → HasPlaces indexes.new n }
{
    match op {
        Op::Fill { class, count } => fills::fill(indexes, client, *class, *count),
        Op::Counts => settings::counted(indexes),
        _ => Ok(begin_surely(indexes, client, op)),
    }
}

/// The first operation of a unit, if it isn't a return, with room for 16 operations after it.
#[tactic(auto, using(crate::proofs::RoomSums::empties_nothing, crate::proofs::Books::booked_as))]
fn open_unit(body: &mut Body, client: u32, op: &Op) -> Result<Reply, NoMemory>
    requires client { client < 32 }
    requires opens { opens op.now ≡ true }
    requires other { is_return op.now ≡ false }
    requires stands { IsTrue (op_stands (space_of body.old.indexes) client op.now) }
    requires body { IsBody body.old }
    ensures after { OnOk result (space_of body.new.indexes ≡ (step_of (space_of body.old.indexes) client op.now).after) }
    ensures reply { IfOk result (λ told. told ≡ (step_of (space_of body.old.indexes) client op.now).reply) }
    ensures rooms { OnOk result (body.new.rooms ≡ rooms_after (standing_of body.old) client op.now) }
    ensures err { OnErr result (standing_of body.new ≡ standing_of body.old) }
    ensures ready { IsReady body.new }
    ensures booked { IsBooked (space_of body.new.indexes) body.new.indexes.regions.slabs }
{
    let room = body.rooms.of(client).max(UNIT);
    make_places(body, client, room)?;
    let reply = begin(&mut body.indexes, client, op)?;
    body.rooms.set(client, room);
    Ok(reply)
}

/// The room that the return of so many regions can need.
fn most_room(addrs: &[u64]) -> Result<u64, NoMemory>
    ensures { IfOk result (λ most. most ≡ 16 * length addrs.now) }
{
    UNIT.checked_mul(addrs.len() as u64).ok_or(NoMemory)
}

/// The client gives regions back, with room for 16 operations by each extent that is emptied.
#[tactic(auto, using(crate::proofs::Books::booked_as))]
fn give_back(body: &mut Body, client: u32, addrs: &Addresses) -> Result<Reply, NoMemory>
    requires client { client < 32 }
    requires stands { IsTrue (op_stands (space_of body.old.indexes) client (Op.Back addrs.now)) }
    requires body { IsBody body.old }
    ensures turns { Turns body.old body.new client (Op.Back addrs.now) result }
    ensures few { OnOk result (emptied_by_op client (Op.Back addrs.now) (space_of body.old.indexes) ≤ length addrs.now) }
{
    let least = body.rooms.of(client).max(UNIT);
    let addrs = addrs.as_slice();
    let most = most_room(addrs)?;
    make_places(body, client, least.max(most))?;
    let emptied = frees::give_back(&mut body.indexes, client, addrs);
    body.rooms.set(client, least.max(UNIT * emptied));
    Ok(Reply::Next(body.indexes.extents.next_flight(client)))
}

/// An operation for which no memory is taken.
#[tactic(auto, using(crate::proofs::RoomSums::places_fewer))]
fn follow(indexes: &mut Indexes, client: u32, op: &Op) -> Reply
    requires client { client < 32 }
    requires follows { opens op.now ≡ false }
    requires stands { IsTrue (op_stands (space_of indexes.old) client op.now) }
    requires sound { Sound (space_of indexes.old) }
    requires room { HasPlaces indexes.old 1 }
    requires may { CanFollow op.now indexes.old.regions.slabs }
    ensures after { space_of indexes.new ≡ (step_of (space_of indexes.old) client op.now).after }
    ensures reply { result ≡ (step_of (space_of indexes.old) client op.now).reply }
    ensures slabs { indexes.new.regions.slabs ≡ slabs_followed op.now indexes.old.regions.slabs }
    ensures places { (n : ℕ) → HasPlaces indexes.old (n + 1) → HasPlaces indexes.new n }
{
    match op {
        Op::CutDone { heard, keep_low } => moves::cut_done(indexes, client, *heard, *keep_low),
        Op::GrowDone { heard, found } => moves::grow_done(indexes, client, *heard, *found),
        Op::CommitDone { heard } => moves::commit_done(indexes, client, *heard),
        Op::Land { span, class, count } => moves::land_done(indexes, client, *span, *class, *count),
        Op::PutLook { span, tries } => frees::put_look(indexes, client, *span, *tries),
        Op::MergeDone { heard, own_low } => frees::merge_done(indexes, client, *heard, *own_low),
        Op::LazyDone { heard } => purges::lazy_done(indexes, client, *heard),
        Op::Offer { span } => offers::offer(indexes, client, *span),
        Op::OfferDone { heard, found } => offers::offer_done(indexes, client, *heard, *found),
        Op::DecommitDone { heard } => purges::decommit_done(indexes, client, *heard),
        Op::ForcedDone { .. } => Reply::Noted,
        Op::JoinDone { heard, class } => resizes::join_done(indexes, client, *heard, *class),
        Op::TrimDone { heard, class } => resizes::trim_done(indexes, client, *heard, *class),
        _ => unreachable!(),
    }
}

/// An operation for which no memory is taken: it uses one of the client's room up.
#[tactic(auto, using(crate::proofs::RoomSums::rooms_with))]
fn use_up(body: &mut Body, client: u32, op: &Op) -> Reply
    requires client { client < 32 }
    requires follows { opens op.now ≡ false }
    requires stands { IsTrue (op_stands (space_of body.old.indexes) client op.now) }
    requires room { 0 < room_of client body.old.rooms }
    requires body { IsBody body.old }
    ensures after { space_of body.new.indexes ≡ (step_of (space_of body.old.indexes) client op.now).after }
    ensures reply { result ≡ (step_of (space_of body.old.indexes) client op.now).reply }
    ensures rooms { body.new.rooms ≡ rooms_after (standing_of body.old) client op.now }
    ensures ready { IsReady body.new }
    ensures booked { IsBooked (space_of body.new.indexes) body.new.indexes.regions.slabs }
{
    let room = body.rooms.of(client);
    body.rooms.set(client, room - 1);
    body.ready -= 1;
    follow(&mut body.indexes, client, op)
}

/// What an operation does that may stand, and the room that it makes or uses up.
#[inline(always)]
pub fn step(body: &mut Body, client: u32, op: &Op) -> Result<Reply, NoMemory>
    requires client { client < 32 }
    requires stands { IsTrue (op_stands (space_of body.old.indexes) client op.now) }
    requires room { opens op.now ≡ false → 0 < room_of client body.old.rooms }
    requires body { IsBody body.old }
    ensures turns { Turns body.old body.new client op.now result }
    ensures few { OnOk result (emptied_by_op client op.now (space_of body.old.indexes) ≤ given_by op.now) }
    ensures sure { opens op.now ≡ false → IsOk result }
{
    if let Op::Back { addrs } = op {
        return give_back(body, client, addrs);
    }
    if opens(op) {
        return open_unit(body, client, op);
    }
    Ok(use_up(body, client, op))
}
