//! The calls of a client, each by one loop over the table of calls.
ghost use Rattle.call_plan.specs.Laws.{IsInRange};
ghost use Rattle.heap_runs.specs.Heaps.{CallDid, MayCall, shelf_id};

use crate::heaps::{Ctx, SharedHeap};
use call_plan::{Answered, Call, Request};
use hook_api::{ExtentHooks, SharedShelf};
use std::alloc::{AllocError as NoMemory, Global};
use std::sync::Wait;

impl SharedHeap {
    /// Carries a request of a client out, by turns of the arenas and asks of the shelf's boxes, whatever other clients do meanwhile.
    ///
    /// The answer is that of the table of calls. `NoMemory` comes also where there was none to begin with: the client has then what
    /// it had. A free never publishes by itself: the holder of a region does that by a request of its own.
    pub fn call<R: Wait, H: ExtentHooks>(
        &self,
        rt: &R,
        alloc: Global,
        shelf: &SharedShelf<H>,
        ctx: &mut Ctx,
        request: &Request,
    ) -> Answered
        requires may { MayCall (shelf_id shelf.now) self.now ctx.old }
        requires range { IsInRange request.now }
        ensures may { MayCall (shelf_id shelf.now) self.now ctx.new }
        ensures called { CallDid shelf.now self.now ctx.old ctx.new request.now result }
    {
        let mut place = None;
        match Call::start(alloc, &mut place, ctx.client, &mut ctx.desk, request) {
            Err(NoMemory) => return Answered::NoMemory,
            Ok(Some(answer)) => return answer,
            Ok(None) => (),
        }
        let Some(call) = place else { unreachable!() };
        self.run(rt, alloc, shelf, ctx, call)
    }

    /// `malloc`: a region of at least `size` bytes, where 0 counts as 1, from the arena from which the client allocates.
    pub fn malloc<R: Wait, H: ExtentHooks>(
        &self,
        rt: &R,
        alloc: Global,
        shelf: &SharedShelf<H>,
        ctx: &mut Ctx,
        size: u64,
    ) -> Answered
        requires may { MayCall (shelf_id shelf.now) self.now ctx.old }
        ensures may { MayCall (shelf_id shelf.now) self.now ctx.new }
        ensures called { CallDid shelf.now self.now ctx.old ctx.new (Request.Malloc size) result }
    {
        self.call(rt, alloc, shelf, ctx, &Request::Malloc { size })
    }

    /// `aligned_alloc`: a region of at least `size` bytes, where 0 counts as 1, at a multiple of `align` bytes.
    pub fn memalign<R: Wait, H: ExtentHooks>(
        &self,
        rt: &R,
        alloc: Global,
        shelf: &SharedShelf<H>,
        ctx: &mut Ctx,
        align: u64,
        size: u64,
    ) -> Answered
        requires may { MayCall (shelf_id shelf.now) self.now ctx.old }
        ensures may { MayCall (shelf_id shelf.now) self.now ctx.new }
        ensures called { CallDid shelf.now self.now ctx.old ctx.new (Request.Memalign align size) result }
    {
        self.call(rt, alloc, shelf, ctx, &Request::Memalign { align, size })
    }

    /// `free`: the client gives the region back that it holds at the address. One that another client holds is `NotHeld`: its holder
    /// may publish it.
    pub fn free<R: Wait, H: ExtentHooks>(
        &self,
        rt: &R,
        alloc: Global,
        shelf: &SharedShelf<H>,
        ctx: &mut Ctx,
        addr: u64,
    ) -> Answered
        requires may { MayCall (shelf_id shelf.now) self.now ctx.old }
        ensures may { MayCall (shelf_id shelf.now) self.now ctx.new }
        ensures called { CallDid shelf.now self.now ctx.old ctx.new (Request.Free addr) result }
    {
        self.call(rt, alloc, shelf, ctx, &Request::Free { addr })
    }

    /// The client holds the region at the address no more, and another one may take it over.
    pub fn publish<R: Wait, H: ExtentHooks>(
        &self,
        rt: &R,
        alloc: Global,
        shelf: &SharedShelf<H>,
        ctx: &mut Ctx,
        addr: u64,
    ) -> Answered
        requires may { MayCall (shelf_id shelf.now) self.now ctx.old }
        ensures may { MayCall (shelf_id shelf.now) self.now ctx.new }
        ensures called { CallDid shelf.now self.now ctx.old ctx.new (Request.Publish addr) result }
    {
        self.call(rt, alloc, shelf, ctx, &Request::Publish { addr })
    }

    /// The client holds the region from now on that another one published at the address, in the arena with this index.
    pub fn take_over<R: Wait, H: ExtentHooks>(
        &self,
        rt: &R,
        alloc: Global,
        shelf: &SharedShelf<H>,
        ctx: &mut Ctx,
        addr: u64,
        arena: u32,
    ) -> Answered
        requires may { MayCall (shelf_id shelf.now) self.now ctx.old }
        ensures may { MayCall (shelf_id shelf.now) self.now ctx.new }
        ensures called { CallDid shelf.now self.now ctx.old ctx.new (Request.Take addr arena) result }
    {
        self.call(rt, alloc, shelf, ctx, &Request::Take { addr, arena })
    }

    /// `thread.tcache.flush`: all regions go back that the client has cached.
    pub fn flush<R: Wait, H: ExtentHooks>(
        &self,
        rt: &R,
        alloc: Global,
        shelf: &SharedShelf<H>,
        ctx: &mut Ctx,
    ) -> Answered
        requires may { MayCall (shelf_id shelf.now) self.now ctx.old }
        ensures may { MayCall (shelf_id shelf.now) self.now ctx.new }
        ensures called { CallDid shelf.now self.now ctx.old ctx.new Request.Flush result }
    {
        self.call(rt, alloc, shelf, ctx, &Request::Flush)
    }

    /// `thread.tcache.enabled`: the client's cache is on or off from now on. It is flushed before it is off.
    pub fn set_cache<R: Wait, H: ExtentHooks>(
        &self,
        rt: &R,
        alloc: Global,
        shelf: &SharedShelf<H>,
        ctx: &mut Ctx,
        on: bool,
    ) -> Answered
        requires may { MayCall (shelf_id shelf.now) self.now ctx.old }
        ensures may { MayCall (shelf_id shelf.now) self.now ctx.new }
        ensures called { CallDid shelf.now self.now ctx.old ctx.new (Request.Cache on) result }
    {
        self.call(rt, alloc, shelf, ctx, &Request::Cache(on))
    }

    /// `arena.<i>.purge`: all unused dirty and muzzy extents of the arena are purged.
    pub fn purge<R: Wait, H: ExtentHooks>(
        &self,
        rt: &R,
        alloc: Global,
        shelf: &SharedShelf<H>,
        ctx: &mut Ctx,
        arena: u32,
    ) -> Answered
        requires may { MayCall (shelf_id shelf.now) self.now ctx.old }
        ensures may { MayCall (shelf_id shelf.now) self.now ctx.new }
        ensures called { CallDid shelf.now self.now ctx.old ctx.new (Request.Purge arena) result }
    {
        self.call(rt, alloc, shelf, ctx, &Request::Purge { arena })
    }

    /// `arena.<i>.decay`: the arena comes to a moment in nanoseconds, and what is too old is purged.
    pub fn decay<R: Wait, H: ExtentHooks>(
        &self,
        rt: &R,
        alloc: Global,
        shelf: &SharedShelf<H>,
        ctx: &mut Ctx,
        arena: u32,
        now: u64,
    ) -> Answered
        requires may { MayCall (shelf_id shelf.now) self.now ctx.old }
        ensures may { MayCall (shelf_id shelf.now) self.now ctx.new }
        ensures called { CallDid shelf.now self.now ctx.old ctx.new (Request.Decay arena now) result }
    {
        self.call(rt, alloc, shelf, ctx, &Request::Decay { arena, now })
    }
}
