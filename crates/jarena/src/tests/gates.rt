//! Two clients of a phase that are asked for beside each other, or never.

ghost use Rattle.std.specs.Prelude.{◌≡◌, ◌≤◌, None};
ghost use Rattle.hook_api.specs.Counts.{Rose};
ghost use Rattle.hook_api.specs.declared.hooks.Said;

use super::{Given, outcome_over};
use addr_space::{AddrSpace, SharedSpace};
use hook_api::{ExtentHooks, HookShelf, Placed, Said};
use space_model::Span;
use std::alloc::{AllocError as NoMemory, Global};
use std::sync::atomic::{AtomicBool, Ordering};
use std::sync::{Arc, Wait};
use std::test::Fail;
use std::thread;

const TRACE: &str =
    "t0 create 1\nt1 arena 1\nphase\nt0 malloc a 2097152\nt1 malloc b 2097152\njoin\n";

const SUMMARY: &str =
    "arena 0 entries 4 allocated 2097152 active 2097152 dirty 0 muzzy 0 retained 0 flight 0 mapped 2097152\n\
    arena 1 entries 5 allocated 2097152 active 2097152 dirty 0 muzzy 0 retained 0 flight 0 mapped 2097152\n\
    threads 2 phases 1 calls 2 failed 0\n";

/// How often the flag of the other box is looked at before a box gives up.
const LOOKS: u32 = 100_000_000;

/// The flag of a box, and that of the box that it waits for.
#[derive(Drop)]
struct Gate {
    own: Arc<AtomicBool>,
    other: Arc<AtomicBool>,
}

impl Gate {
    /// Raises the own flag, and waits for the other one. The answer is whether that was raised in time.
    fn pass(&self) -> bool {
        self.own.store(true, Ordering::SeqCst);
        for look in 0..LOOKS {
            if self.other.load(Ordering::SeqCst) {
                return true;
            }
            if look % 1024 == 0 {
                thread::yield_now();
            }
        }
        false
    }
}

/// Hooks over a space that several share, of which the first alloc passes a gate, where there is one, or is refused.
#[derive(Drop)]
struct GateHooks<R: Drop> {
    space: SharedSpace<R>,
    gate: Option<Gate>,
    refusals: u64,
}

impl<R: Drop> GateHooks<R> {
    /// Counts a refusal.
    fn refuse(&mut self)
        ensures rose { Rose self.old.refusals self.new.refusals }
        ensures never_falls { self.old.refusals ≤ self.new.refusals }
    {
        self.refusals = self.refusals.saturating_add(1);
    }

    /// Counts what was said, where it is a refusal.
    fn hear(&mut self, said: Said) -> Said
        ensures same { result ≡ said }
        ensures rose { said ≡ Said.Refused → Rose self.old.refusals self.new.refusals }
        ensures never_falls { self.old.refusals ≤ self.new.refusals }
    {
        if said == Said::Refused {
            self.refuse();
        }
        said
    }
}

impl<R: Wait + Clone + Send + Drop> ExtentHooks for GateHooks<R> {
    ghost account = { λ h. record { told = None; refusals = h.refusals } };

    fn alloc(&mut self, at: Option<u64>, pages: u64, align: u64, commit: bool) -> Option<Placed> {
        if let Some(gate) = self.gate.take() {
            if !gate.pass() {
                self.refuse();
                return None;
            }
        }
        let placed = self.space.alloc(at, pages, align, commit);
        if placed.is_none() {
            self.refuse();
        }
        placed
    }

    fn dalloc(&mut self, span: Span, committed: bool) -> Said {
        let said = self.space.dalloc(span, committed);
        self.hear(said)
    }

    fn destroy(&mut self, span: Span, committed: bool) {
        self.space.destroy(span, committed);
    }

    fn commit(&mut self, span: Span) -> Said {
        let said = self.space.commit(span);
        self.hear(said)
    }

    fn decommit(&mut self, span: Span) -> Said {
        let said = self.space.decommit(span);
        self.hear(said)
    }

    fn purge_lazy(&mut self, span: Span) -> Said {
        let said = self.space.purge_lazy(span);
        self.hear(said)
    }

    fn purge_forced(&mut self, span: Span) -> Said {
        let said = self.space.purge_forced(span);
        self.hear(said)
    }

    fn split(&mut self, span: Span, left: u64) -> Said {
        let said = self.space.split(span, left);
        self.hear(said)
    }

    fn merge(&mut self, low: Span, high: Span) -> Said {
        let said = self.space.merge(low, high);
        self.hear(said)
    }

    fn refusals(&self) -> u64 {
        self.refusals
    }
}

/// The gates of boxes 0 and 1, each of which waits for the other.
fn gates(alloc: Global) -> Result<(Gate, Gate), NoMemory> {
    let first = Arc::new(alloc, AtomicBool::new(false))?;
    let second = Arc::new(alloc, AtomicBool::new(false))?;
    let gate = Gate {
        own: first.clone()?,
        other: second.clone()?,
    };
    let back = Gate {
        own: second,
        other: first,
    };
    Ok((gate, back))
}

/// 32 boxes that share a space, of which the first two have gates.
fn gated<R: Wait + Clone + Send + Drop>(
    rt: &R,
    alloc: Global,
) -> Result<HookShelf<GateHooks<R>>, NoMemory> {
    let (first, second) = gates(alloc)?;
    let mut gates = [Some(first), Some(second)];
    let space = SharedSpace::new(rt.clone()?, alloc, AddrSpace::new(alloc)?)?;
    let mut boxes = Vec::new(alloc);
    while boxes.len() < 32 {
        let gate = gates.get_mut(boxes.len()).and_then(Option::take);
        boxes.push(GateHooks {
            space: space.again()?,
            gate,
            refusals: 0,
        })?;
    }
    Ok(HookShelf::new(boxes))
}

#[test]
fn clients_of_a_phase_run_beside_each_other(rt: HostRuntime) -> Result<(), Fail> {
    let alloc = rt.alloc();
    let given = Given {
        words: &["threads"],
        input: TRACE,
        reads: &[],
        writes: &[],
    };
    let shelf = gated(&rt, alloc)?;
    let (status, output, handed) = outcome_over(&rt, alloc, given, shelf)?;
    assert_eq!(rt; (status, output.as_str(), handed), (0, SUMMARY, [32, 0]));
    Ok(())
}
