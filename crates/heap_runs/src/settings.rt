//! The calls by which a heap is set up, and what is read of an arena.
ghost use Rattle.std.specs.Prelude.{◌≡◌, ◌<◌, true};
ghost use Rattle.atomic_table.specs.Seated.{TableId};
ghost use Rattle.space_model.specs.Purging.{is_purgeable};
ghost use Rattle.space_model.specs.Settings.{is_decay_time};
ghost use Rattle.heap_runs.specs.Heaps.{CallDid, MayCall, shelf_id};
ghost use Rattle.heap_runs.specs.Settings.{HasCounted, box_at, creating, with_box};
ghost use Rattle.heap_runs.specs.declared.heaps.Ctx.{Ctx};

use crate::heaps::{Boxes, Ctx, SharedHeap};
use call_plan::{Answered, Given, Request};
use deeds::Doing;
use hook_api::{ExtentHooks, SharedShelf};
use space_model::{Counts, DIRTY_MS, MUZZY_MS, Op, Reply, Rest};
use std::alloc::{AllocError as NoMemory, Global};
use std::sync::Wait;

/// The boxes of all arenas, once one was created, or not, as the answer says.
fn with_box(mut boxes: Boxes, box_no: u32, answer: &Answered) -> Boxes
    ensures { result ≡ with_box box_no answer.now boxes }
{
    match *answer {
        Answered::Ok(Given::Arena(index)) => {
            if index < 32 {
                boxes[index as usize] = Some(box_no);
            }
            boxes
        }
        _ => boxes,
    }
}

impl SharedHeap {
    /// `arenas.create`: an arena that asks the box with this number, from a moment in nanoseconds on. Its decay times are 10000 ms
    /// for dirty extents and 0 ms for muzzy ones.
    pub fn create<R: Wait, H: ExtentHooks>(
        &mut self,
        rt: &R,
        alloc: Global,
        shelf: &SharedShelf<H>,
        ctx: &mut Ctx,
        box_no: u32,
        now: u64,
    ) -> Answered
        requires may { MayCall (shelf_id shelf.now) self.old ctx.old }
        requires inside { box_no < 32 }
        ensures may { MayCall (shelf_id shelf.now) self.new ctx.new }
        ensures called { CallDid shelf.now self.old ctx.old ctx.new (creating box_no now) result }
        ensures others { (shelf : TableId) (other : Ctx) → MayCall shelf self.old other → MayCall shelf self.new other }
        ensures boxes { self.new.boxes ≡ with_box box_no result self.old.boxes }
    {
        let request = Request::Create {
            box_no,
            dirty_ms: DIRTY_MS,
            muzzy_ms: MUZZY_MS,
            now,
        };
        let answer = self.call(rt, alloc, shelf, ctx, &request);
        self.boxes = with_box(self.boxes, box_no, &answer);
        answer
    }

    /// `thread.arena`: the client allocates from the arena with this index from now on.
    pub fn bind<R: Wait, H: ExtentHooks>(
        &self,
        rt: &R,
        alloc: Global,
        shelf: &SharedShelf<H>,
        ctx: &mut Ctx,
        arena: u32,
    ) -> Answered
        requires may { MayCall (shelf_id shelf.now) self.now ctx.old }
        ensures may { MayCall (shelf_id shelf.now) self.now ctx.new }
        ensures called { CallDid shelf.now self.now ctx.old ctx.new (Request.Bind arena) result }
    {
        self.call(rt, alloc, shelf, ctx, &Request::Bind { arena })
    }

    /// `arena.<i>.dirty_decay_ms` or `arena.<i>.muzzy_decay_ms`: the decay time of the arena's dirty or muzzy extents in
    /// milliseconds, from -1, for never, to 1000000000, at a moment in nanoseconds.
    pub fn set_time<R: Wait, H: ExtentHooks>(
        &self,
        rt: &R,
        alloc: Global,
        shelf: &SharedShelf<H>,
        ctx: &mut Ctx,
        arena: u32,
        rest: Rest,
        ms: i64,
        now: u64,
    ) -> Answered
        requires may { MayCall (shelf_id shelf.now) self.now ctx.old }
        requires time { is_decay_time ms ≡ true }
        requires rest { is_purgeable rest ≡ true }
        ensures may { MayCall (shelf_id shelf.now) self.now ctx.new }
        ensures called { CallDid shelf.now self.now ctx.old ctx.new (Request.Time arena rest ms now) result }
    {
        let request = Request::Time {
            arena,
            rest,
            ms,
            now,
        };
        self.call(rt, alloc, shelf, ctx, &request)
    }

    /// The box that the arena with this index asks: 0 for arena 0, and for another one that which `create` gave it. `None` is exactly
    /// where the arena was never created. Waits for nobody, and takes no memory.
    pub fn box_no(&self, arena: u32) -> Option<u32>
        ensures { result ≡ box_at self.now.boxes arena }
    {
        *self.boxes.get(arena as usize)?
    }

    /// The counts of an arena (`stats.arenas.<i>` in the manual), as a turn of the client finds them. `NoArena` is the answer exactly
    /// where the arena isn't live at that turn or its index isn't below 32, and `NoMemory` where the turn finds no memory.
    pub fn counts<R: Wait, H: ExtentHooks>(
        &self,
        rt: &R,
        shelf: &SharedShelf<H>,
        ctx: &mut Ctx,
        arena: u32,
    ) -> Result<Counts, Answered>
        requires may { MayCall (shelf_id shelf.now) self.now ctx.old }
        ensures may { MayCall (shelf_id shelf.now) self.now ctx.new }
        ensures same { (ctx.new.desk ≡ ctx.old.desk) × (ctx.new.seat ≡ ctx.old.seat) }
        ensures counted { HasCounted shelf.now self.now arena ctx.old ctx.new result }
    {
        if arena >= 32 {
            return Err(Answered::NoArena(arena));
        }
        let doing = Doing {
            op: Op::Counts,
            asked: None,
        };
        let place = arena as usize;
        match self.locks[place].turn(rt, &mut ctx.passes[place], doing) {
            Ok(told) => match told.reply {
                Reply::Counted(counts) => Ok(*counts.get()),
                _ => Err(Answered::NoArena(arena)),
            },
            Err(NoMemory) => Err(Answered::NoMemory),
        }
    }
}
