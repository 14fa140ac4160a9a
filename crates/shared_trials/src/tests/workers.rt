//! What a worker does in a thread of its own: calls that a seed chooses.

ghost use Rattle.call_plan.specs.Laws.{IsInRange};
ghost use Rattle.heap_runs.specs.Heaps.{MayCall, shelf_id};

use super::draws::Draws;
use super::heaps::Shelf;
use call_plan::{Answered, Desk, Given, Request};
use heap_runs::{Ctx, SharedHeap};
use std::alloc::Global;
use std::process::Abort;
use std::sync::atomic::{AtomicU64, Ordering};
use std::sync::{Mutex, Wait};
use thread_cache::Held;

/// How many regions a worker holds at most.
const MOST_HELD: usize = 100;

/// What workers share beside the heap: the regions that were published and not taken over, and how many calls were refused.
#[derive(Drop)]
pub(crate) struct Board {
    mail: Mutex<Vec<Held>>,
    refused: AtomicU64,
}

impl Board {
    /// No region was published, and no call refused.
    pub(crate) fn new(alloc: Global) -> Board {
        Board {
            mail: Mutex::new(Vec::new(alloc)),
            refused: AtomicU64::new(0),
        }
    }

    /// How many calls were refused.
    pub(crate) fn refused(&self) -> u64 {
        self.refused.load(Ordering::SeqCst)
    }

    /// Notes that a call was refused.
    fn note_refusal(&self) {
        self.refused.fetch_add(1, Ordering::SeqCst);
    }

    /// Takes the region that was published last, if one is left.
    fn next<R: Wait>(&self, rt: &R) -> Option<Held> {
        self.mail.lock(rt).pop()
    }

    /// Puts a region down that was published.
    fn put<R: Wait + Abort>(&self, rt: &R, region: Held) {
        self.mail
            .lock(rt)
            .push(region)
            .expect(rt, "memory for a region");
    }
}

/// What a worker does next, as a number tells it.
#[derive(Clone, Copy, PartialEq, Eq)]
enum Aim {
    Tend,
    Publish,
    Take,
    Resize,
    Free,
    Get,
}

impl Aim {
    /// What a number aims at: at regions most often.
    fn of(drawn: u64) -> Aim {
        match drawn % 128 {
            0..=2 => Aim::Tend,
            3..=8 => Aim::Publish,
            9..=14 => Aim::Take,
            15..=24 => Aim::Resize,
            25..=73 => Aim::Free,
            _ => Aim::Get,
        }
    }
}

/// What a worker has beside its context: the regions that its client holds, and its seed's numbers.
#[derive(Drop)]
pub(crate) struct Worker {
    held: Vec<Held>,
    draws: Draws,
}

impl Worker {
    /// A worker that holds nothing.
    pub(crate) fn new(alloc: Global, seed: u64) -> Worker {
        Worker {
            held: Vec::new(alloc),
            draws: Draws::new(seed),
        }
    }

    /// Takes one of the regions that are held, if there is one.
    fn take(&mut self) -> Option<Held> {
        let count = self.held.len();
        if count == 0 {
            return None;
        }
        let place = self.draws.draw() as usize % count;
        Some(self.held.swap_remove(place))
    }

    /// Holds one more region.
    fn hold(&mut self, rt: &impl Abort, region: Held) {
        self.held.push(region).expect(rt, "memory for a region");
    }

    /// What the worker aims at: it gets no more than it may hold.
    fn some_aim(&mut self) -> Aim {
        let aim = Aim::of(self.draws.draw());
        if aim == Aim::Get && self.held.len() >= MOST_HELD {
            Aim::Free
        } else {
            aim
        }
    }

    /// The region that an aim is about: one that is held, or one that was published. There may be none.
    fn some_region<R: Wait>(&mut self, rt: &R, board: &Board, aim: Aim) -> Option<Held> {
        match aim {
            Aim::Tend | Aim::Get => None,
            Aim::Take => board.next(rt),
            Aim::Publish | Aim::Resize | Aim::Free => self.take(),
        }
    }

    /// A size: most are small.
    fn some_size(&mut self) -> u64 {
        let most = match self.draws.draw() % 16 {
            0..=8 => 1024,
            9..=12 => 14336,
            13 | 14 => 200_000,
            _ => 3_000_000,
        };
        self.draws.draw() % most
    }

    /// A call that asks for a region.
    fn some_get(&mut self) -> Request
        ensures { IsInRange result }
    {
        let size = self.some_size();
        if self.draws.draw() % 16 == 0 {
            Request::Memalign { align: 16384, size }
        } else {
            Request::Malloc { size }
        }
    }

    /// A purge or a decay of an arena at a moment, or a flush of the cache.
    fn some_tending(&mut self, arena: u32, now: u64) -> Request
        ensures { IsInRange result }
    {
        match self.draws.draw() % 8 {
            0 | 1 => Request::Purge { arena },
            2..=5 => Request::Decay { arena, now },
            _ => Request::Flush,
        }
    }

    /// The call by which an aim is reached with a region.
    fn call_with(&mut self, aim: Aim, region: Held) -> Request
        ensures { IsInRange result }
    {
        let Held { addr, arena, .. } = region;
        match aim {
            Aim::Publish => Request::Publish { addr },
            Aim::Take => Request::Take { addr, arena },
            Aim::Resize => Request::Realloc {
                addr,
                size: self.some_size(),
            },
            _ => Request::Free { addr },
        }
    }

    /// The call by which an aim is reached with a region. Where there is none a region is got, if nothing is tended in the arena at
    /// that moment.
    fn some_call(&mut self, aim: Aim, region: Option<Held>, arena: u32, now: u64) -> Request
        ensures { IsInRange result }
    {
        match region {
            Some(region) => self.call_with(aim, region),
            None if aim == Aim::Tend => self.some_tending(arena, now),
            None => self.some_get(),
        }
    }

    /// Takes in what came of a call, which was about a region: what the client holds, what it published, and whether a box refused.
    fn take_in<R: Wait + Abort>(
        &mut self,
        rt: &R,
        board: &Board,
        desk: &Desk,
        aim: Aim,
        region: Option<Held>,
        answer: Answered,
    ) {
        match (answer, region) {
            (Answered::Ok(Given::Region { addr, .. }), _) => {
                let region = desk.held_at(addr).expect(rt, "the region is held");
                self.hold(rt, region);
            }
            (Answered::Refused(_), region) => {
                board.note_refusal();
                if let Some(region) = region {
                    self.hold(rt, region);
                }
            }
            (_, Some(region)) if aim == Aim::Publish => board.put(rt, region),
            _ => (),
        }
    }
}

/// Whether an answer is one that a call may have here: a region, which a box may refuse, where one is asked for; the region itself, where
/// one is taken over; and no failure of anything else.
fn is_fitting(request: &Request, answer: &Answered) -> bool {
    match request {
        Request::Malloc { .. } | Request::Memalign { .. } | Request::Realloc { .. } => matches!(
            answer,
            Answered::Ok(Given::Region { .. }) | Answered::Refused(_)
        ),
        Request::Take { addr, .. } => {
            matches!(answer, Answered::Ok(Given::Region { addr: taken, .. }) if taken == addr)
        }
        _ => matches!(answer, Answered::Ok(_)),
    }
}

/// One call of a worker, at a moment in nanoseconds.
pub(crate) fn call<R: Wait + Abort>(
    rt: &R,
    alloc: Global,
    shelf: &Shelf,
    heap: &SharedHeap,
    board: &Board,
    ctx: &mut Ctx,
    own: &mut Worker,
    now: u64,
)
    requires { MayCall (shelf_id shelf.now) heap.now ctx.old }
    ensures { MayCall (shelf_id shelf.now) heap.now ctx.new }
{
    let aim = own.some_aim();
    let region = own.some_region(rt, board, aim);
    let request = own.some_call(aim, region, ctx.desk().arena(), now);
    let answer = heap.call(rt, alloc, shelf, ctx, &request);
    assert!(rt; is_fitting(&request, &answer));
    own.take_in(rt, board, ctx.desk(), aim, region, answer);
}
