//! Hooks that refuse one ask, each ask of some traces in turn.

use super::hooks::Hooks;
use super::runs::{Outcome, SOUND, replayed};
use addr_space::{AddrSpace, NthHooks};
use hook_api::{Asked, HookShelf, RisingHooks};
use space_model::{Answer, Ask};
use std::alloc::{AllocError as NoMemory, Global};
use std::process::Abort;
use std::test::Fail;

/// A free after its malloc.
const FREED: &str = "t0 malloc a 20000\nt0 free a\n";

/// Traces with a hook of each kind among them: steps of two clients, an extent on offer that another client's malloc meets, an
/// opt-out and a refused commit, a reset and a destroy, a merge, a lazy purge, and a flush.
const TRACES: [&str; 8] = [
    FREED,
    "t0 malloc a 20000\nt0 call malloc b 20000\nt0 step\nt1 malloc c 20000\nt0 end\nt0 step\n",
    "t0 malloc a 2097152\nt0 free a\nt0 call purge 0\nt0 step\nt0 step\nt0 step\nt0 step\nt1 malloc b 2097152\nt0 end\n",
    "refuse 0 dalloc 1\nt0 malloc a 20000\nt0 free a\nt0 purge 0\nrefuse 0 commit 1\nt0 malloc b 20000\n",
    "t0 reset 0\nt0 create 1\nt0 arena 1\nt0 cache on\nt0 malloc a 20000\nt0 malloc b 20000\nt1 free b\nt0 free a\n\
     t0 reset 1\nt0 flush\nt0 malloc c 20000\nt0 reset 1\nt0 free c\nt0 destroy 1\nt0 arena 0\nt0 destroy 1\nt0 purge 1\n\
     t0 create 1\n",
    "t0 malloc a 20000\nt0 malloc b 20000\nt0 free a\nt0 free b\nt0 malloc c 40960\n",
    "t0 muzzy 0 10000\nt0 malloc a 20000\nt0 free a\nt0 purge 0\ncounts 0\nt0 purge 0\nt0 malloc b 2097152\n",
    "t0 cache on\nt0 malloc a 24\nt0 malloc b 4096\nt0 malloc c 200000\nt0 free a\nt0 free b\nt0 free c\nt0 flush\n\
     counts 0\nt0 purge 0\n",
];

/// One call of a box, which is refused; none where its ordinal is 0.
#[derive(Clone, Copy)]
struct Refusal {
    box_no: usize,
    nth: u64,
}

/// The box with this number: the first two take ranges back, with the call that is refused.
fn hooks_at(alloc: Global, box_no: usize, refusal: Refusal) -> Result<Hooks, NoMemory> {
    if box_no > 1 {
        return Ok(Hooks::Rising(RisingHooks::new()));
    }
    let nth = if box_no == refusal.box_no {
        refusal.nth
    } else {
        0
    };
    Ok(Hooks::Refusing(NthHooks::new(AddrSpace::new(alloc)?, nth)))
}

/// A shelf of these boxes.
fn shelf(rt: &impl Abort, alloc: Global, refusal: Refusal) -> Result<HookShelf<Hooks>, Fail> {
    let mut boxes = Vec::new(alloc);
    for box_no in 0..32 {
        boxes.push(hooks_at(alloc, box_no, refusal)?)?;
    }
    assert_eq!(rt; boxes.len(), 32);
    Ok(HookShelf::new(boxes))
}

/// Replays a trace, in which one call of a box is refused.
fn refusing(
    rt: &impl Abort,
    alloc: Global,
    trace: &str,
    refusal: Refusal,
) -> Result<Outcome, Fail> {
    let shelf = shelf(rt, alloc, refusal)?;
    Ok(replayed(alloc, trace, SOUND, shelf)?)
}

/// Whether an ask is a call of the box that counts: no plan refused it, and it is no destroy.
fn is_counted(asked: &Asked, box_no: usize) -> bool {
    asked.box_no() as usize == box_no
        && !asked.planned()
        && !matches!(asked.ask(), Ask::Destroy { .. })
}

/// How many calls of a box a replay made, and how many of them were refused.
fn calls(run: &Outcome, box_no: usize) -> (usize, usize) {
    let asks = run.asks.as_slice();
    let made = asks.iter().filter(|asked| is_counted(asked, box_no));
    let refused = asks.iter().filter(|asked| is_counted(asked, box_no)
        && asked.answer() == Answer::Refused);
    (made.count(), refused.count())
}

/// Whether nothing is in flight in any count line of a report.
fn is_settled(report: &str) -> bool {
    report.lines().all(|line| !line.starts_with("arena ") || line.contains(" flight 0 "))
}

/// Refuses each call of a box once, and gives how many there are.
fn refuse_each(rt: &impl Abort, alloc: Global, trace: &str, box_no: usize) -> Result<usize, Fail> {
    let plain = refusing(rt, alloc, trace, Refusal { box_no, nth: 0 })?;
    let (made, refused) = calls(&plain, box_no);
    assert_eq!(rt; refused, 0);
    for nth in 1..=made as u64 {
        let run = refusing(rt, alloc, trace, Refusal { box_no, nth })?;
        let (_, refused) = calls(&run, box_no);
        assert_eq!(rt; (run.status, refused), (0, 1), "call {nth} of box {box_no}");
        let report = String::from_utf8_lossy(alloc, &run.report)?;
        assert!(rt; is_settled(report.as_str()), "call {nth} of box {box_no}");
    }
    Ok(made)
}

#[test]
fn each_ask_is_refused_alone(rt: HostRuntime) -> Result<(), Fail> {
    // How many calls of the first two boxes each trace makes.
    let counts = [
        [2, 0],
        [5, 0],
        [4, 0],
        [3, 0],
        [0, 5],
        [4, 0],
        [6, 0],
        [7, 0],
    ];
    for (trace, [first, second]) in TRACES.into_iter().zip(counts) {
        let made = [
            refuse_each(&rt, rt.alloc(), trace, 0)?,
            refuse_each(&rt, rt.alloc(), trace, 1)?,
        ];
        assert_eq!(rt; made, [first, second], "{trace}");
    }
    Ok(())
}

#[test]
fn a_refused_malloc_binds_no_name(rt: HostRuntime) -> Result<(), Fail> {
    // The call of box 0 that is refused, its kind, and what the arena has retained then.
    for (nth, kind, retained) in [(1, "alloc", 0), (2, "split", 2_097_152)] {
        let run = refusing(&rt, rt.alloc(), FREED, Refusal { box_no: 0, nth })?;
        let report = format!(in rt.alloc();
            "t0 malloc a refused {kind}\nt0 free not held @0\n\
            arena 0 allocated 0 active 0 dirty 0 muzzy 0 retained {retained} flight 0 mapped 0\n"
        )?;
        assert_eq!(rt; run.status, 0);
        assert_eq!(rt; run.report.as_slice(), report.as_bytes());
    }
    Ok(())
}
