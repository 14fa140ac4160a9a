//! Lines: how each is carried out.

ghost use Rattle.std.specs.Prelude.{◌≡◌, ◌<◌, ◌≤◌, ◌++◌, true, false, List, [], ◌∷◌, None, IfErr, OnErr, OnOk};
ghost use Rattle.edge_io.specs.Bytes.{Appends, AppendsPrefix};
ghost use Rattle.report_text.specs.Lines.{idle_line};
ghost use Rattle.trace_text.specs.declared.lines.Line.{Line};
ghost use Rattle.trace_text.specs.declared.lines.Line.TheVariants.{End, Step};
ghost use Rattle.trace_text.specs.Grammar.{IsWithinLimits};
ghost use Rattle.replay_run.specs.Causes.{line_cause};
ghost use Rattle.replay_run.specs.SoFar.{GoesOn, Here, Outset, now_of};
ghost use Rattle.replay_run.specs.Stops.{HasStopCause};
ghost use Rattle.replay_run.specs.World.{Nothing, counts_text};

use crate::calls::{carry_call, run_to_end, step_once};
use crate::input::Stop;
use crate::prints::print;
use crate::state::State;
use edge_io::Sink;
use heap_core::Stepped;
use hook_api::{ExtentHooks, HookShelf};
use report_text::{counts_line, idle_line, no_arena_line};
use space_model::Counts;
use std::alloc::{AllocError as NoMemory, Global};
use trace_text::Line;

/// Prints that a client has no open call.
fn print_idle<K: Sink>(alloc: Global, sink: &mut K, client: u32) -> Result<(), Stop>
    ensures text { OnOk result (Appends (K.held sink.old) (K.held sink.new) (idle_line client)) }
    ensures beginning { OnErr result (AppendsPrefix (K.held sink.old) (K.held sink.new) (idle_line client)) }
    ensures cause { IfErr result (λ stop. HasStopCause stop 0 0 (K.faults sink.old) (K.faults sink.new)) }
    ensures unfailed { OnOk result (K.faults sink.new ≡ K.faults sink.old) }
    ensures counts { K.faults sink.old ≤ K.faults sink.new }
{
    let mut text = Vec::new(alloc);
    idle_line(&mut text, client)?;
    print(sink, &text)
}

/// Writes the counts of an arena, or that it isn't live.
fn write_counts(out: &mut Vec<u8>, index: u32, counts: Option<Counts>) -> Result<(), NoMemory>
    ensures { OnOk result (out.new.items ≡ out.old.items ++ counts_text index counts) }
{
    match counts {
        Some(counts) => counts_line(out, index, &counts),
        None => no_arena_line(out, index),
    }
}

/// Prints the counts of an arena, or that it isn't live.
fn print_counts<K: Sink>(
    alloc: Global,
    sink: &mut K,
    index: u32,
    counts: Option<Counts>,
) -> Result<(), Stop>
    ensures text { OnOk result (Appends (K.held sink.old) (K.held sink.new) (counts_text index counts)) }
    ensures beginning { OnErr result (AppendsPrefix (K.held sink.old) (K.held sink.new) (counts_text index counts)) }
    ensures cause { IfErr result (λ stop. HasStopCause stop 0 0 (K.faults sink.old) (K.faults sink.new)) }
    ensures unfailed { OnOk result (K.faults sink.new ≡ K.faults sink.old) }
    ensures counts { K.faults sink.old ≤ K.faults sink.new }
{
    let mut text = Vec::new(alloc);
    write_counts(&mut text, index, counts)?;
    print(sink, &text)
}

/// Makes one step of a client's open call, and prints it, or that there is none.
fn step_line<K: Sink, H: ExtentHooks>(
    alloc: Global,
    sink: &mut K,
    shelf: &mut HookShelf<H>,
    state: &mut State,
    client: u32,
) -> Result<(), Stop>
    requires { client < 32 }
    ensures goes { (from : Outset) (lines : List Line)
        → Here from lines Nothing (Step client ∷ []) (now_of state.old shelf.old (K.held sink.old))
        → GoesOn from lines Nothing result (now_of state.new shelf.new (K.held sink.new)) }
    ensures cause { IfErr result (λ stop. HasStopCause stop 0 0 (K.faults sink.old) (K.faults sink.new)) }
    ensures unfailed { OnOk result (K.faults sink.new ≡ K.faults sink.old) }
    ensures counts { K.faults sink.old ≤ K.faults sink.new }
{
    if state.heap.has_call(client) {
        let mut told = Stepped::none();
        step_once(alloc, sink, shelf, state, client, true, &mut told)
    } else {
        print_idle(alloc, sink, client)
    }
}

/// Runs a client's open call to its end, or prints that there is none.
fn end_line<K: Sink, H: ExtentHooks>(
    alloc: Global,
    sink: &mut K,
    shelf: &mut HookShelf<H>,
    state: &mut State,
    client: u32,
) -> Result<(), Stop>
    requires { client < 32 }
    ensures goes { (from : Outset) (lines : List Line)
        → Here from lines Nothing (End client ∷ []) (now_of state.old shelf.old (K.held sink.old))
        → GoesOn from lines Nothing result (now_of state.new shelf.new (K.held sink.new)) }
    ensures cause { IfErr result (λ stop. HasStopCause stop 0 0 (K.faults sink.old) (K.faults sink.new)) }
    ensures unfailed { OnOk result (K.faults sink.new ≡ K.faults sink.old) }
    ensures counts { K.faults sink.old ≤ K.faults sink.new }
{
    if state.heap.has_call(client) {
        run_to_end(alloc, sink, shelf, state, client)
    } else {
        print_idle(alloc, sink, client)
    }
}

/// Carries out a line that has no cause against it.
pub fn carry_line<K: Sink, H: ExtentHooks>(
    alloc: Global,
    sink: &mut K,
    shelf: &mut HookShelf<H>,
    state: &mut State,
    line: Line,
) -> Result<(), Stop>
    requires cause { line_cause state.old.moment line ≡ None }
    requires limits { IsWithinLimits line }
    ensures goes { (from : Outset) (lines : List Line)
        → Here from lines Nothing (line ∷ []) (now_of state.old shelf.old (K.held sink.old))
        → GoesOn from lines Nothing result (now_of state.new shelf.new (K.held sink.new)) }
    ensures cause { IfErr result (λ stop. HasStopCause stop 0 0 (K.faults sink.old) (K.faults sink.new)) }
    ensures unfailed { OnOk result (K.faults sink.new ≡ K.faults sink.old) }
    ensures counts { K.faults sink.old ≤ K.faults sink.new }
{
    match line {
        Line::Call { client, verb } => carry_call(alloc, sink, shelf, state, client, verb, true),
        Line::Start { client, verb } => carry_call(alloc, sink, shelf, state, client, verb, false),
        Line::Step(client) => step_line(alloc, sink, shelf, state, client),
        Line::End(client) => end_line(alloc, sink, shelf, state, client),
        Line::Counts(index) => print_counts(alloc, sink, index, state.heap.counts(index)),
        Line::At(moment) => {
            state.moment = moment;
            Ok(())
        }
        Line::Refuse { box_no, kind, nth } => {
            shelf.plan(box_no, kind, nth);
            Ok(())
        }
        Line::Blank => Ok(()),
        Line::Phase { .. } => Ok(()),
        Line::Join => Ok(()),
    }
}
