//! Clients take turns in arenas over one table of chunks, from one thread.
ghost use Rattle.std.specs.Prelude.{◌≡◌, ◌<◌, [], true};
ghost use Rattle.std.specs.Arc.{arc_value};
ghost use Rattle.chunk_table.specs.Tables.{arena_count, failed, owned, IsSeatOf};
ghost use Rattle.turn_lock.specs.Locks.{first, held, number, own_known, seat_count, spare, IsPassOf};
ghost use Rattle.heap_shared.specs.Shared.{after_entry, owned_by};

use crate::tests::heaps::rising;
use chunk_table::{ChunkSeat, ChunkTable};
use deeds::Doing;
use heap_shared::{ArenaTurns, SharedArena, turn};
use hook_api::{HookShelf, Journal, RisingHooks};
use space_model::{Ask, Op, Reply, Span, Why};
use std::alloc::{AllocError as NoMemory, Global};
use std::process::Abort;
use std::sync::{Arc, Wait};
use turn_lock::{Pass, Passes, TurnLock};

type Lock = TurnLock<ArenaTurns>;

type Client = Pass<ArenaTurns>;

type Table = Arc<ChunkTable, Global>;

/// The table of two arenas, and their seats.
fn two_seats(rt: &impl Abort, alloc: Global) -> (Table, ChunkSeat, ChunkSeat)
    ensures arenas { arena_count (arc_value result.0) ≡ 2 }
    ensures first { IsSeatOf (arc_value result.0) result.1 × (owned result.1 ≡ []) × (failed result.1 ≡ []) }
    ensures second { IsSeatOf (arc_value result.0) result.2 × (owned result.2 ≡ []) × (failed result.2 ≡ []) }
{
    let (table, mut seats) = ChunkTable::new(alloc, 2).expect(rt, "memory for a table");
    let table = Arc::new(alloc, table).expect(rt, "memory for a table");
    let second = seats.pop().expect(rt, "there is a second seat");
    let first = seats.pop().expect(rt, "there is a first seat");
    drop(seats);
    (table, first, second)
}

/// A lock for so many clients round arena 0 as it is at the start, and the pass of the first one.
fn locked(
    rt: &impl Abort,
    alloc: Global,
    table: &Table,
    seat: ChunkSeat,
    clients: u32,
) -> (Lock, Client)
    requires seat { IsSeatOf (arc_value table.now) seat }
    requires none { owned seat ≡ [] }
    requires unfailed { failed seat ≡ [] }
    requires clients { 0 < clients }
    ensures table { (first result.0).table ≡ arc_value table.now }
    ensures pass { IsPassOf result.0 result.1 × (number result.1 ≡ 0) }
    ensures clients { (seat_count result.0 ≡ clients) × (held result.1 ≡ clients) }
    ensures bound { (own_known after_entry owned_by result.0 result.1).has.bound ≡ true }
{
    let table = Arc::try_clone(table).expect(rt, "memory for a table");
    let arena = SharedArena::new(alloc, 0, table, seat).expect(rt, "memory for an arena");
    Lock::new(alloc, arena, clients).expect(rt, "memory for a lock")
}

/// The journal and the seat of the arena under a lock with one client.
fn parts_of(alloc: Global, lock: Lock, pass: Client) -> (Journal, ChunkSeat)
    requires lock { IsPassOf lock pass }
    requires alone { held pass ≡ seat_count lock }
    ensures { IsSeatOf (first lock).table result.1 }
{
    lock.close(pass, Passes::new(alloc)).into_parts()
}

/// Looks a hundred times for an extent of five pages, of which there is none.
fn look_often<R: Wait + Abort>(rt: &R, lock: &Lock, mut pass: Client) -> Client
    requires lock { IsPassOf lock.now pass }
    requires client { number pass < 32 }
    ensures { IsPassOf lock.now result × (number result ≡ number pass) × (spare result ≡ spare pass) }
{
    for _ in 0..100 {
        let op = Op::Look { pages: 5, align: 1 };
        turn(rt, lock, &mut pass, Doing { op, asked: None }).expect(rt, "memory for a turn");
    }
    pass
}

/// A client asks for the counts, which gives it room, and has its arena grow by the chunk that box 0 of the shelf places. What
/// speaks against that, if something does.
fn grow<R: Wait>(
    rt: &R,
    shelf: &mut HookShelf<RisingHooks>,
    lock: &Lock,
    pass: &mut Client,
) -> Result<Option<Why>, NoMemory>
    requires lock { IsPassOf lock.now pass.old }
    requires client { number pass.old < 32 }
    requires bound { (own_known after_entry owned_by lock.now pass.old).has.bound ≡ true }
    ensures lock { IsPassOf lock.now pass.new }
    ensures numbers { (number pass.new ≡ number pass.old) × (spare pass.new ≡ spare pass.old) }
{
    let op = Op::Counts;
    turn(rt, lock, pass, Doing { op, asked: None })?;
    let ask = Ask::Alloc {
        at: None,
        pages: 512,
        align: 512,
        commit: true,
    };
    let asked = shelf.ask(0, ask);
    let op = Op::GrowDone {
        heard: asked.heard(),
        found: None,
    };
    let asked = Some(asked);
    match turn(rt, lock, pass, Doing { op, asked })?.reply {
        Reply::Bad(why) => Ok(Some(why)),
        _ => Ok(None),
    }
}

#[test]
fn two_clients_take_turns(rt: HostRuntime) {
    let alloc = rt.alloc();
    let (table, seat, unused) = two_seats(&rt, alloc);
    let (lock, pass) = locked(&rt, alloc, &table, seat, 2);
    drop((table, unused));
    let (first, second) = lock.split_pass(pass);
    let first = look_often(&rt, &lock, first);
    let second = look_often(&rt, &lock, second);
    let first = look_often(&rt, &lock, first);
    let mut others = Passes::new(alloc);
    others.reserve(1).expect(&rt, "memory for a pass");
    others.push(second);
    let (journal, seat) = lock.close(first, others).into_parts();
    assert_eq!(rt; journal.kept.len(), 300);
    drop((journal, seat));
}

/// A client has its arena grow by the first chunk of a new shelf. What speaks against that, if something does.
fn grow_first<R: Wait + Abort>(rt: &R, alloc: Global, lock: &Lock, pass: &mut Client) -> Option<Why>
    requires lock { IsPassOf lock.now pass.old }
    requires client { number pass.old < 32 }
    requires bound { (own_known after_entry owned_by lock.now pass.old).has.bound ≡ true }
    ensures lock { IsPassOf lock.now pass.new }
    ensures numbers { (number pass.new ≡ number pass.old) × (spare pass.new ≡ spare pass.old) }
{
    let mut shelf = rising(rt, alloc);
    let why = grow(rt, &mut shelf, lock, pass);
    drop(shelf);
    why.expect(rt, "memory for a turn")
}

#[test]
fn a_chunk_of_another_arena_is_found(rt: HostRuntime) {
    let alloc = rt.alloc();
    let (table, first, second) = two_seats(&rt, alloc);
    let (first_lock, mut first) = locked(&rt, alloc, &table, first, 1);
    let (second_lock, mut second) = locked(&rt, alloc, &table, second, 1);
    assert_eq!(rt; grow_first(&rt, alloc, &first_lock, &mut first), None);
    let met = Why::Meets(Span {
        first: 512,
        pages: 512,
    });
    assert_eq!(rt;
        grow_first(&rt, alloc, &second_lock, &mut second),
        Some(met)
    );
    let (journal, mut first) = parts_of(alloc, first_lock, first);
    let (other, mut second) = parts_of(alloc, second_lock, second);
    drop((journal, other));
    assert!(rt; table.owns(&mut first, 1) && !table.owns(&mut second, 1));
    let seats = (vec![in alloc; first, second]).expect(&rt, "memory for seats");
    drop(table.gather(seats));
    drop(table);
}
