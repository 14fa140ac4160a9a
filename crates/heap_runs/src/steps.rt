//! The steps of a client's call: turns of the arenas, and asks of their boxes.
ghost use Rattle.std.specs.Prelude.{◌≡◌, ◌<◌, ℕ, Option, None, false};
ghost use Rattle.call_plan.specs.Calls.{moment_at, named_call};
ghost use Rattle.call_plan.specs.Needs.{IsGiving, NeedIs};
ghost use Rattle.call_plan.specs.Reads.{ended_by};
ghost use Rattle.deeds.specs.Dids.{HasBox, asks_next};
ghost use Rattle.heap_runs.specs.Heaps.{IsCtxOf, Ran, Rests, Stands, Steps, shelf_id};

use crate::heaps::{Ctx, SharedHeap};
use call_plan::{Answered, Call, Item, Need, Turn};
use deeds::Doing;
use hook_api::{ExtentHooks, SharedShelf};
use space_model::Ask;
use std::alloc::{AllocError as NoMemory, Global};
use std::sync::Wait;

impl SharedHeap {
    /// The turn that a call wants, of its client's pass there. Where the turn finds no memory the call has ended. The box that the
    /// turn told comes back, or the one given where it found no memory.
    fn turn<R: Wait, H: ExtentHooks>(
        &self,
        rt: &R,
        alloc: Global,
        shelf: &SharedShelf<H>,
        ctx: &mut Ctx,
        call: &mut Call,
        turn: Turn,
        box_no: u32,
    ) -> u32
        requires box_no { box_no < 32 }
        requires ctx { IsCtxOf (shelf_id shelf.now) self.now ctx.old }
        requires stands { Stands self.now ctx.old call.old }
        requires needs { NeedIs call.old.client call.old.stage.arena (named_call ctx.old.desk.facts call.old).stage.next (Need.Turn turn) }
        ensures box_no { result < 32 }
        ensures ctx { IsCtxOf (shelf_id shelf.now) self.now ctx.new }
        ensures stands { Stands self.now ctx.new call.new }
        ensures steps { (last : Option (ℕ × ℕ)) → Steps shelf.now self.now ctx.old ctx.new (moment_at call.old ctx.old.desk.facts) last (moment_at call.new ctx.new.desk.facts) result }
    {
        let arena = turn.arena as usize;
        let doing = Doing {
            op: turn.op,
            asked: *call.heard(),
        };
        match self.locks[arena].turn(rt, &mut ctx.passes[arena], doing) {
            Ok(told) => {
                call.next(alloc, &mut ctx.desk, Item::Replied(&told.reply));
                told.box_no
            }
            Err(NoMemory) => {
                call.next(alloc, &mut ctx.desk, Item::Starved);
                box_no
            }
        }
    }

    /// The ask that a call wants, of the box that its last turn told.
    fn ask<R: Wait, H: ExtentHooks>(
        &self,
        rt: &R,
        alloc: Global,
        shelf: &SharedShelf<H>,
        ctx: &mut Ctx,
        call: &mut Call,
        ask: Ask,
        box_no: u32,
    )
        requires box_no { box_no < 32 }
        requires ctx { IsCtxOf (shelf_id shelf.now) self.now ctx.old }
        requires stands { Stands self.now ctx.old call.old }
        requires needs { NeedIs call.old.client call.old.stage.arena (named_call ctx.old.desk.facts call.old).stage.next (Need.Ask call.old.stage.arena ask) }
        ensures ctx { IsCtxOf (shelf_id shelf.now) self.now ctx.new }
        ensures stands { Stands self.now ctx.new call.new }
        ensures steps { (last : Option (ℕ × ℕ)) → HasBox (named_call ctx.old.desk.facts call.old).stage last box_no → Steps shelf.now self.now ctx.old ctx.new (moment_at call.old ctx.old.desk.facts) last (moment_at call.new ctx.new.desk.facts) box_no }
    {
        let asked = shelf.ask(rt, &mut ctx.seat, box_no, ask);
        call.next(alloc, &mut ctx.desk, Item::Told(&asked));
    }

    /// There is no memory to name the regions that a call gives back next, and it has ended.
    fn starve<H: ExtentHooks>(
        &self,
        alloc: Global,
        shelf: &SharedShelf<H>,
        ctx: &mut Ctx,
        call: &mut Call,
        box_no: u32,
    )
        requires ctx { IsCtxOf (shelf_id shelf.now) self.now ctx.old }
        requires stands { Stands self.now ctx.old call.old }
        requires starves { IsGiving (named_call ctx.old.desk.facts call.old).stage.next }
        ensures ctx { IsCtxOf (shelf_id shelf.now) self.now ctx.new }
        ensures stands { Stands self.now ctx.new call.new }
        ensures steps { (last : Option (ℕ × ℕ)) → Steps shelf.now self.now ctx.old ctx.new (moment_at call.old ctx.old.desk.facts) last (moment_at call.new ctx.new.desk.facts) box_no }
    {
        call.next(alloc, &mut ctx.desk, Item::Starved);
    }

    /// What a call wants next: a turn, or an ask. The box that the last turn told comes back.
    fn step<R: Wait, H: ExtentHooks>(
        &self,
        rt: &R,
        alloc: Global,
        shelf: &SharedShelf<H>,
        ctx: &mut Ctx,
        call: &mut Call,
        box_no: u32,
    ) -> u32
        requires box_no { box_no < 32 }
        requires ctx { IsCtxOf (shelf_id shelf.now) self.now ctx.old }
        requires stands { Stands self.now ctx.old call.old }
        requires open { ended_by call.old.stage.next ≡ None }
        ensures box_no { result < 32 }
        ensures ctx { IsCtxOf (shelf_id shelf.now) self.now ctx.new }
        ensures stands { Stands self.now ctx.new call.new }
        ensures steps { (last : Option (ℕ × ℕ)) → HasBox (named_call ctx.old.desk.facts call.old).stage last box_no → Steps shelf.now self.now ctx.old ctx.new (moment_at call.old ctx.old.desk.facts) last (moment_at call.new ctx.new.desk.facts) result }
    {
        let mut need = Need::Starved;
        call.put_need(alloc, &ctx.desk, &mut need);
        match need {
            Need::Turn(turn) => self.turn(rt, alloc, shelf, ctx, call, turn, box_no),
            Need::Ask { ask, .. } => {
                self.ask(rt, alloc, shelf, ctx, call, ask, box_no);
                box_no
            }
            Need::Starved => {
                self.starve(alloc, shelf, ctx, call, box_no);
                box_no
            }
            Need::Done(_) => unreachable!(),
        }
    }

    /// Carries an open call on until it has its answer.
    pub(crate) fn run<R: Wait, H: ExtentHooks>(
        &self,
        rt: &R,
        alloc: Global,
        shelf: &SharedShelf<H>,
        ctx: &mut Ctx,
        mut call: Call,
    ) -> Answered
        requires ctx { IsCtxOf (shelf_id shelf.now) self.now ctx.old }
        requires stands { Stands self.now ctx.old call }
        requires turns { asks_next (named_call ctx.old.desk.facts call).stage.next ≡ false }
        ensures ctx { IsCtxOf (shelf_id shelf.now) self.now ctx.new }
        ensures rests { Rests self.now ctx.new }
        ensures ran { Ran shelf.now self.now ctx.old ctx.new (moment_at call ctx.old.desk.facts) result }
    {
        let mut box_no = 0;
        for _ in rt.forever() {
            if let Some(answer) = call.answer() {
                return *answer;
            }
            box_no = self.step(rt, alloc, shelf, ctx, &mut call, box_no);
        }
        unreachable!()
    }
}
