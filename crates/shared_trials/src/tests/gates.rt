//! A box that is asked while another client takes a turn of the same arena.

ghost use Rattle.heap_runs.specs.Heaps.{MayCall, shelf_id};

use super::boxes::fickle;
use super::flags::Gate;
use super::heaps::{Pair, Shelf, counts_of, share_two};
use call_plan::{Answered, Given};
use heap_runs::{Ctx, SharedHeap};
use space_model::Counts;
use std::alloc::Global;
use std::process::Abort;
use std::sync::{Arc, Wait};
use std::thread;

/// The client asks for a chunk.
fn ask<R: Wait>(rt: &R, alloc: Global, shelf: &Shelf, heap: &SharedHeap, mut ctx: Ctx) -> Answered
    requires { MayCall (shelf_id shelf.now) heap.now ctx }
{
    let answer = heap.malloc(rt, alloc, shelf, &mut ctx, 2097152);
    drop(ctx);
    answer
}

/// The client reads the counts of arena 0 while the box is asked, and tells the box that it did. There are none where the box isn't
/// entered in time.
fn look<R: Wait + Abort>(
    rt: &R,
    gate: &Gate,
    shelf: &Shelf,
    heap: &SharedHeap,
    mut ctx: Ctx,
) -> Option<Counts>
    requires { MayCall (shelf_id shelf.now) heap.now ctx }
{
    let mut counts = None;
    if gate.is_entered() {
        counts = Some(counts_of(rt, shelf, heap, &mut ctx, 0));
        gate.see();
    }
    drop(ctx);
    counts
}

#[test]
fn a_turn_is_taken_while_a_box_is_asked(rt: HostRuntime) {
    let alloc = rt.alloc();
    let gate = Arc::new(alloc, Gate::new()).expect(&rt, "memory for a gate");
    let same = Arc::try_clone(&gate).expect(&rt, "memory for a gate");
    let Pair {
        shelf,
        heap,
        one,
        other,
    } = share_two(&rt, alloc, fickle(&rt, alloc, 0, Some(same)));
    let (answer, counts) = thread::join(
        &rt,
        || -> Answered
            requires { MayCall (shelf_id shelf) heap one }
        { ask(&rt, alloc, &shelf, &heap, one) },
        || -> Option<Counts>
            requires { MayCall (shelf_id shelf) heap other }
        { look(&rt, &gate, &shelf, &heap, other) },
    );
    drop((shelf, heap, gate));
    assert!(rt; matches!(answer, Answered::Ok(Given::Region { .. })));
    let counts = counts.expect(&rt, "the box was entered");
    assert_eq!(rt; (counts.mapped, counts.allocated), (0, 0));
}
