//! Calls of clients: how they begin, their steps, and their ends.

ghost use Rattle.std.specs.Prelude.{◌≡◌, ◌≢◌, ◌++◌, ◌<◌, ◌≤◌, ℕ, Bool, true, false, List, [], Some, IfErr, IfOk, IfSome, OnErr, OnOk};
ghost use Rattle.edge_io.specs.Bytes.{Appends, AppendsPrefix};
ghost use Rattle.hook_api.specs.Shelf.{Shelf};
ghost use Rattle.call_plan.specs.Laws.{IsInRange};
ghost use Rattle.call_plan.specs.declared.needs.Answered.{Answered};
ghost use Rattle.call_plan.specs.declared.needs.Answered.TheVariants.{NoMemory as WasStarved};
ghost use Rattle.trace_text.specs.declared.lines.Line.{Line};
ghost use Rattle.trace_text.specs.declared.lines.Verb.{Verb};
ghost use Rattle.trace_text.specs.Grammar.{IsVerbWithinLimits};
ghost use Rattle.report_text.specs.Lines.{call_line};
ghost use Rattle.heap_core.specs.Logs.{last_asked};
ghost use Rattle.replay_run.specs.declared.beginnings.Beginning.TheVariants.{Asks};
ghost use Rattle.replay_run.specs.Heads.{answer_line, control_in, ctl_head, is_of_all, told_line};
ghost use Rattle.replay_run.specs.Plays.{client_awaited};
ghost use Rattle.replay_run.specs.SoFar.{GoesOn, Here, Outset, Starting, StepsOn, asked_line, is_one_step, now_of, shown_line, step_line};
ghost use Rattle.replay_run.specs.Steps.{steps_of};
ghost use Rattle.replay_run.specs.Stops.{HasStopCause};
ghost use Rattle.replay_run.specs.World.{Awaits, Nothing, TheNext, TheStart, awaits_after, awaits_begun, awaits_call, calls_closed, ended_line, has_open_call, names_closed, names_ended, tally_closed, verb_at, verb_in};

use crate::beginnings::{Beginning, target_of};
use crate::input::Stop;
use crate::names::Names;
use crate::prints::print;
use crate::state::State;
use crate::sweeps::{OpenCall, Sweep, goes_on};
use crate::wholes::{carry_whole, usual_request};
use call_plan::{Answered, Request};
use ctl_names::read;
use edge_io::Sink;
use heap_core::{Did, Heap, Stepped};
use hook_api::{Asked, ExtentHooks, HookShelf};
use report_text::{CtlAnswer, Head, ask_line, call_line, ctl_line, turn_line};
use space_model::Rest;
use std::alloc::{AllocError as NoMemory, Global};
use trace_text::{Name, Verb};

/// The index that stands for all arenas (`MALLCTL_ARENAS_ALL` in the manual).
const ALL: u32 = 4096;

/// Whether a control is one of all arenas, by the index 4096 in its name.
fn is_of_all(name: &Name) -> bool
    ensures { result ≡ is_of_all name.now }
{
    match read(name.as_bytes()) {
        Ok(found) => found.i == ALL,
        Err(_) => false,
    }
}

/// How a report names a call of a control. Of all arenas it doesn't tell what each of them gives.
fn ctl_head(name: &Name) -> Head<'_>
    ensures { (c : ℕ) (answer : Answered) → call_line c result answer ≡ call_line c (ctl_head name.now (is_of_all name.now)) answer }
{
    if is_of_all(name) {
        Head::CtlDone(name.as_bytes())
    } else {
        Head::Ctl(name.as_bytes())
    }
}

/// How a report names a call.
fn head(verb: &Verb) -> Head<'_>
    ensures { (c : ℕ) (answer : Answered) → call_line c result answer ≡ answer_line c verb.now answer }
{
    match verb {
        Verb::Malloc { name, .. } => Head::Malloc(name.as_bytes()),
        Verb::Memalign { name, .. } => Head::Memalign(name.as_bytes()),
        Verb::Realloc { name, .. } => Head::Realloc(name.as_bytes()),
        Verb::Free(_) => Head::Free,
        Verb::Publish(_) => Head::Publish,
        Verb::Take(_) => Head::Take,
        Verb::Purge(_) => Head::Purge,
        Verb::Decay(_) => Head::Decay,
        Verb::Time {
            rest: Rest::Dirty,
            ..
        } => Head::Dirty,
        Verb::Time { .. } => Head::Muzzy,
        Verb::Reset(_) => Head::Reset,
        Verb::Destroy(_) => Head::Destroy,
        Verb::Create(_) => Head::Create,
        Verb::Bind(_) => Head::Arena,
        Verb::Cache(_) => Head::Cache,
        Verb::Flush => Head::Flush,
        Verb::MallocIn { name, .. } => Head::MallocIn(name.as_bytes()),
        Verb::FreeIn { .. } => Head::FreeIn,
        Verb::CtlPlain(name) => ctl_head(name),
        Verb::CtlWrite { name, .. } => Head::Ctl(name.as_bytes()),
    }
}

/// The name of the control that a call is about, or nothing, where it is about none.
fn control_in(verb: &Verb) -> &[u8]
    ensures { result.now ≡ control_in verb.now }
{
    match verb {
        Verb::CtlPlain(name) | Verb::CtlWrite { name, .. } => name.as_bytes(),
        _ => b"",
    }
}

/// Writes the line of an ask, if there is one.
fn write_ask(out: &mut Vec<u8>, client: u32, asked: Option<Asked>) -> Result<(), NoMemory>
    ensures { OnOk result (out.new.items ≡ out.old.items ++ asked_line client asked) }
{
    match asked {
        Some(asked) => ask_line(out, client, asked.ask(), asked.answer()),
        None => Ok(()),
    }
}

/// Writes the line of what a step did, where it is to be shown.
fn write_step(
    out: &mut Vec<u8>,
    shown: bool,
    client: u32,
    did: Did,
    heap: &Heap,
) -> Result<(), NoMemory>
    ensures { OnOk result (out.new.items ≡ out.old.items ++ shown_line shown client did (last_asked heap.now.heard)) }
{
    match did {
        Did::Turn if shown => turn_line(out, client),
        Did::Ask if shown => write_ask(out, client, heap.last_ask()),
        _ => Ok(()),
    }
}

/// Writes the line of a call that has ended, if it has.
fn write_end(
    out: &mut Vec<u8>,
    client: u32,
    call: &Option<OpenCall>,
    answer: &Option<Answered>,
) -> Result<(), NoMemory>
    ensures { OnOk result (out.new.items ≡ out.old.items ++ ended_line client (verb_in call.now) answer.now) }
{
    match (call, answer) {
        (Some(call), Some(answer)) => call_line(out, client, head(&call.verb), answer),
        _ => Ok(()),
    }
}

/// Prints what is to be printed of a step: its line, where it is to be shown, and the answer of its call, if that has ended. The
/// text is written into a buffer, whatever that has.
fn print_step<K: Sink>(
    text: &mut Vec<u8>,
    sink: &mut K,
    shown: bool,
    client: u32,
    call: &Option<OpenCall>,
    told: &Stepped,
    heap: &Heap,
) -> Result<(), Stop>
    ensures text { OnOk result (Appends (K.held sink.old) (K.held sink.new) (shown_line shown client told.now.did (last_asked heap.now.heard) ++ ended_line client (verb_in call.now) told.now.ended)) }
    ensures beginning { OnErr result (AppendsPrefix (K.held sink.old) (K.held sink.new) (shown_line shown client told.now.did (last_asked heap.now.heard) ++ ended_line client (verb_in call.now) told.now.ended)) }
    ensures cause { IfErr result (λ stop. HasStopCause stop 0 0 (K.faults sink.old) (K.faults sink.new)) }
    ensures unfailed { OnOk result (K.faults sink.new ≡ K.faults sink.old) }
    ensures counts { K.faults sink.old ≤ K.faults sink.new }
{
    if !shown && told.ended.is_none() {
        return Ok(());
    }
    text.clear();
    write_step(text, shown, client, told.did, heap)?;
    write_end(text, client, call, &told.ended)?;
    print(sink, text)
}

/// Prints the line of a step, where it is to be shown.
fn print_shown<K: Sink>(
    text: &mut Vec<u8>,
    sink: &mut K,
    shown: bool,
    client: u32,
    did: Did,
    heap: &Heap,
) -> Result<(), Stop>
    ensures text { OnOk result (Appends (K.held sink.old) (K.held sink.new) (shown_line shown client did (last_asked heap.now.heard))) }
    ensures beginning { OnErr result (AppendsPrefix (K.held sink.old) (K.held sink.new) (shown_line shown client did (last_asked heap.now.heard))) }
    ensures cause { IfErr result (λ stop. HasStopCause stop 0 0 (K.faults sink.old) (K.faults sink.new)) }
    ensures unfailed { OnOk result (K.faults sink.new ≡ K.faults sink.old) }
    ensures counts { K.faults sink.old ≤ K.faults sink.new }
{
    text.clear();
    write_step(text, shown, client, did, heap)?;
    print(sink, text)
}

/// Whether memory was wanting in a step.
pub fn is_starved(told: &Stepped) -> bool
    ensures fed { result ≡ false → told.now.ended ≢ Some WasStarved }
    ensures starved { result ≡ true → told.now.ended ≡ Some WasStarved }
{
    matches!(told.ended, Some(Answered::NoMemory))
}

/// Prints what a step did, and the answer of its client's call, where that has ended; it is open no more then.
fn end_step<K: Sink>(
    sink: &mut K,
    state: &mut State,
    client: u32,
    shown: bool,
    told: &Stepped,
) -> Result<(), Stop>
    requires { client < 32 }
    ensures text { OnOk result (Appends (K.held sink.old) (K.held sink.new) (step_line shown client state.old.calls.items told.now state.old.heap)) }
    ensures beginning { OnErr result (AppendsPrefix (K.held sink.old) (K.held sink.new) (step_line shown client state.old.calls.items told.now state.old.heap)) }
    ensures calls { OnOk result (state.new.calls.items ≡ calls_closed state.old.calls.items client told.now.ended) }
    ensures names { OnOk result (state.new.names ≡ names_closed state.old.names (verb_at state.old.calls.items client) told.now.ended) }
    ensures tally { OnOk result (state.new.tally ≡ tally_closed state.old.tally told.now.ended) }
    ensures heap { state.new.heap ≡ state.old.heap }
    ensures controls { state.new.controls ≡ state.old.controls }
    ensures moment { state.new.moment ≡ state.old.moment }
    ensures cause { IfErr result (λ stop. HasStopCause stop 0 0 (K.faults sink.old) (K.faults sink.new)) }
    ensures unfailed { OnOk result (K.faults sink.new ≡ K.faults sink.old) }
    ensures counts { K.faults sink.old ≤ K.faults sink.new }
{
    let call = &state.calls[client as usize];
    print_step(
        &mut state.text,
        sink,
        shown,
        client,
        call,
        told,
        &state.heap,
    )?;
    state.close(client, &told.ended)?;
    Ok(())
}

/// Makes one step of a client's open call, and prints its answer where it ends by it. The line of the step itself is printed
/// where it is to be shown. What the step told stands in the place for it. Gives the request with which the call goes on, where
/// one has ended and the call hasn't.
fn step_request<K: Sink, H: ExtentHooks>(
    alloc: Global,
    sink: &mut K,
    shelf: &mut HookShelf<H>,
    state: &mut State,
    client: u32,
    shown: bool,
    told: &mut Stepped,
) -> Result<Option<Request>, Stop>
    requires client { client < 32 }
    requires open_call { has_open_call state.old.heap client ≡ true }
    ensures goes { (from : Outset) (lines : List Line) (awaits : Awaits) → client_awaited awaits ≡ Some client → is_one_step awaits ≡ shown
        → Here from lines awaits [] (now_of state.old shelf.old (K.held sink.old))
        → StepsOn from lines awaits client result (now_of state.new shelf.new (K.held sink.new)) }
    ensures range { IfOk result (λ next. IfSome next IsInRange) }
    ensures rests { IfOk result (λ next. IfSome next (λ _. has_open_call state.new.heap client ≡ false)) }
    ensures longer { OnOk result (steps_of state.old.heap < steps_of state.new.heap) }
    ensures cause { IfErr result (λ stop. HasStopCause stop 0 0 (K.faults sink.old) (K.faults sink.new)) }
    ensures unfailed { OnOk result (K.faults sink.new ≡ K.faults sink.old) }
    ensures counts { K.faults sink.old ≤ K.faults sink.new }
{
    state.heap.stands();
    state.heap.step_into(alloc, client, shelf, told);
    state.heap.stands();
    if is_starved(told) {
        return Err(Stop::NoMemory);
    }
    match goes_on(&state.calls[client as usize], &told.ended) {
        Some(request) => {
            let text = &mut state.text;
            print_shown(text, sink, shown, client, told.did, &state.heap)?;
            state.advance(client);
            Ok(Some(request))
        }
        None => {
            end_step(sink, state, client, shown, told)?;
            Ok(None)
        }
    }
}

/// Begins the next request of a client's open call, behind which nothing is printed but the answer of the call, where it ends by
/// that.
fn begin_next<K: Sink>(
    alloc: Global,
    sink: &mut K,
    state: &mut State,
    client: u32,
    request: Request,
) -> Result<(), Stop>
    requires client { client < 32 }
    requires rests { has_open_call state.old.heap client ≡ false }
    requires range { IsInRange request }
    ensures goes { (from : Outset) (lines : List Line) (awaits : Awaits) (shelf : Shelf)
        → Here from lines (TheNext client request awaits) [] (now_of state.old shelf (K.held sink.old))
        → GoesOn from lines (awaits_after awaits (has_open_call state.new.heap client)) result (now_of state.new shelf (K.held sink.new)) }
    ensures same { steps_of state.new.heap ≡ steps_of state.old.heap }
    ensures cause { IfErr result (λ stop. HasStopCause stop 0 0 (K.faults sink.old) (K.faults sink.new)) }
    ensures unfailed { OnOk result (K.faults sink.new ≡ K.faults sink.old) }
    ensures counts { K.faults sink.old ≤ K.faults sink.new }
{
    state.heap.stands();
    let ended = state.heap.start(alloc, client, request)?;
    state.heap.stands();
    let told = Stepped {
        did: Did::Idle,
        ended,
    };
    end_step(sink, state, client, false, &told)
}

/// Makes one step of a client's open call, and prints its answer where it ends by it. The line of the step itself is printed
/// where it is to be shown. What the step told stands in the place for it. Where a request of the call ends by it and the call
/// goes on, its next request begins.
pub fn step_once<K: Sink, H: ExtentHooks>(
    alloc: Global,
    sink: &mut K,
    shelf: &mut HookShelf<H>,
    state: &mut State,
    client: u32,
    shown: bool,
    told: &mut Stepped,
) -> Result<(), Stop>
    requires client { client < 32 }
    requires open_call { has_open_call state.old.heap client ≡ true }
    ensures goes { (from : Outset) (lines : List Line) (awaits : Awaits) → client_awaited awaits ≡ Some client → is_one_step awaits ≡ shown
        → Here from lines awaits [] (now_of state.old shelf.old (K.held sink.old))
        → GoesOn from lines (awaits_after awaits (has_open_call state.new.heap client)) result (now_of state.new shelf.new (K.held sink.new)) }
    ensures longer { OnOk result (steps_of state.old.heap < steps_of state.new.heap) }
    ensures cause { IfErr result (λ stop. HasStopCause stop 0 0 (K.faults sink.old) (K.faults sink.new)) }
    ensures unfailed { OnOk result (K.faults sink.new ≡ K.faults sink.old) }
    ensures counts { K.faults sink.old ≤ K.faults sink.new }
{
    let next = step_request(alloc, sink, shelf, state, client, shown, told)?;
    match next {
        Some(request) => begin_next(alloc, sink, state, client, request),
        None => Ok(()),
    }
}

/// Prints the answer of a call that has ended where it began, and binds its name. A buffer is lent for the line.
pub fn answer_call<K: Sink>(
    text: &mut Vec<u8>,
    sink: &mut K,
    names: &mut Names,
    client: u32,
    verb: Verb,
    answer: &Answered,
) -> Result<(), Stop>
    ensures names { OnOk result (names.new ≡ names_ended names.old verb answer.now) }
    ensures text { OnOk result (Appends (K.held sink.old) (K.held sink.new) (answer_line client verb answer.now)) }
    ensures beginning { OnErr result (AppendsPrefix (K.held sink.old) (K.held sink.new) (answer_line client verb answer.now)) }
    ensures cause { IfErr result (λ stop. HasStopCause stop 0 0 (K.faults sink.old) (K.faults sink.new)) }
    ensures unfailed { OnOk result (K.faults sink.new ≡ K.faults sink.old) }
    ensures counts { K.faults sink.old ≤ K.faults sink.new }
{
    text.clear();
    call_line(text, client, head(&verb), answer)?;
    print(sink, text)?;
    names.bind_answer(verb, answer)?;
    Ok(())
}

/// Prints the line of a control that is answered where it begins. A buffer is lent for the line.
fn tell<K: Sink>(
    text: &mut Vec<u8>,
    sink: &mut K,
    client: u32,
    verb: &Verb,
    answer: &CtlAnswer,
) -> Result<(), Stop>
    ensures text { OnOk result (Appends (K.held sink.old) (K.held sink.new) (told_line client verb.now answer.now)) }
    ensures beginning { OnErr result (AppendsPrefix (K.held sink.old) (K.held sink.new) (told_line client verb.now answer.now)) }
    ensures cause { IfErr result (λ stop. HasStopCause stop 0 0 (K.faults sink.old) (K.faults sink.new)) }
    ensures unfailed { OnOk result (K.faults sink.new ≡ K.faults sink.old) }
    ensures counts { K.faults sink.old ≤ K.faults sink.new }
{
    text.clear();
    ctl_line(text, client, control_in(verb), answer)?;
    print(sink, text)
}

/// Begins a request of a call of a client that has none open, and prints its answer, where it has ended already.
fn begin_request<K: Sink>(
    alloc: Global,
    sink: &mut K,
    state: &mut State,
    client: u32,
    verb: Verb,
    request: Request,
    sweep: Option<Sweep>,
) -> Result<(), Stop>
    requires client { client < 32 }
    requires rests { has_open_call state.old.heap client ≡ false }
    requires range { IsInRange request }
    ensures goes { (from : Outset) (lines : List Line) (whole : Bool) (shelf : Shelf)
        → Starting from lines client verb whole (Asks request sweep) (now_of state.old shelf (K.held sink.old))
        → GoesOn from lines (awaits_after (awaits_begun client whole) (has_open_call state.new.heap client)) result (now_of state.new shelf (K.held sink.new)) }
    ensures cause { IfErr result (λ stop. HasStopCause stop 0 0 (K.faults sink.old) (K.faults sink.new)) }
    ensures unfailed { OnOk result (K.faults sink.new ≡ K.faults sink.old) }
    ensures counts { K.faults sink.old ≤ K.faults sink.new }
{
    state.heap.stands();
    let ended = state.heap.start(alloc, client, request)?;
    state.heap.stands();
    match ended {
        Some(answer) => {
            state.tally.count(&answer);
            let (text, names) = (&mut state.text, &mut state.names);
            answer_call(text, sink, names, client, verb, &answer)
        }
        None => {
            state.open(client, verb, sweep);
            Ok(())
        }
    }
}

/// Begins a call of a client that has none open, and prints its answer, where it has ended already.
fn begin_call<K: Sink>(
    alloc: Global,
    sink: &mut K,
    state: &mut State,
    client: u32,
    verb: Verb,
) -> Result<(), Stop>
    requires client { client < 32 }
    requires limits { IsVerbWithinLimits verb }
    requires rests { has_open_call state.old.heap client ≡ false }
    ensures goes { (from : Outset) (lines : List Line) (whole : Bool) (shelf : Shelf)
        → Here from lines (TheStart client verb whole) [] (now_of state.old shelf (K.held sink.old))
        → GoesOn from lines (awaits_after (awaits_begun client whole) (has_open_call state.new.heap client)) result (now_of state.new shelf (K.held sink.new)) }
    ensures cause { IfErr result (λ stop. HasStopCause stop 0 0 (K.faults sink.old) (K.faults sink.new)) }
    ensures unfailed { OnOk result (K.faults sink.new ≡ K.faults sink.old) }
    ensures counts { K.faults sink.old ≤ K.faults sink.new }
{
    let begins = state.begin(alloc, client, &verb)?;
    match begins {
        Beginning::Asks { request, sweep } => {
            begin_request(alloc, sink, state, client, verb, request, sweep)
        }
        Beginning::Tells(answer) => tell(&mut state.text, sink, client, &verb, &answer),
        Beginning::FindsNone => {
            let answer = Answered::NotHeld(target_of(&state.names, &verb));
            state.tally.count(&answer);
            let (text, names) = (&mut state.text, &mut state.names);
            answer_call(text, sink, names, client, verb, &answer)
        }
    }
}

/// Runs a client's open call to its end, if it has one, and prints its answer.
#[inline(never)]
fn run_steps<K: Sink, H: ExtentHooks>(
    alloc: Global,
    sink: &mut K,
    shelf: &mut HookShelf<H>,
    state: &mut State,
    client: u32,
) -> Result<(), Stop>
    requires { client < 32 }
    ensures goes { (from : Outset) (lines : List Line) (awaits : Awaits) → client_awaited awaits ≡ Some client → is_one_step awaits ≡ false
        → Here from lines (awaits_after awaits (has_open_call state.old.heap client)) [] (now_of state.old shelf.old (K.held sink.old))
        → GoesOn from lines (awaits_after awaits false) result (now_of state.new shelf.new (K.held sink.new)) }
    ensures rests { OnOk result (has_open_call state.new.heap client ≡ false) }
    ensures cause { IfErr result (λ stop. HasStopCause stop 0 0 (K.faults sink.old) (K.faults sink.new)) }
    ensures unfailed { OnOk result (K.faults sink.new ≡ K.faults sink.old) }
    ensures counts { K.faults sink.old ≤ K.faults sink.new }
{
    let mut told = Stepped::none();
    'steps: while state.heap.has_call(client) {
        step_once(alloc, sink, shelf, state, client, false, &mut told)?;
        state.heap.stands();
    }
    Ok(())
}

/// The same, by a test alone where it has none.
#[inline(always)]
pub fn run_to_end<K: Sink, H: ExtentHooks>(
    alloc: Global,
    sink: &mut K,
    shelf: &mut HookShelf<H>,
    state: &mut State,
    client: u32,
) -> Result<(), Stop>
    requires { client < 32 }
    ensures goes { (from : Outset) (lines : List Line) (awaits : Awaits) → client_awaited awaits ≡ Some client → is_one_step awaits ≡ false
        → Here from lines (awaits_after awaits (has_open_call state.old.heap client)) [] (now_of state.old shelf.old (K.held sink.old))
        → GoesOn from lines (awaits_after awaits false) result (now_of state.new shelf.new (K.held sink.new)) }
    ensures rests { OnOk result (has_open_call state.new.heap client ≡ false) }
    ensures cause { IfErr result (λ stop. HasStopCause stop 0 0 (K.faults sink.old) (K.faults sink.new)) }
    ensures unfailed { OnOk result (K.faults sink.new ≡ K.faults sink.old) }
    ensures counts { K.faults sink.old ≤ K.faults sink.new }
{
    if state.heap.has_call(client) {
        run_steps(alloc, sink, shelf, state, client)
    } else {
        Ok(())
    }
}

/// Carries out the call of a line, of a client that has none open: whole, or else its beginning alone.
#[inline(never)]
fn carry_any<K: Sink, H: ExtentHooks>(
    alloc: Global,
    sink: &mut K,
    shelf: &mut HookShelf<H>,
    state: &mut State,
    client: u32,
    verb: Verb,
    whole: bool,
) -> Result<(), Stop>
    requires client { client < 32 }
    requires limits { IsVerbWithinLimits verb }
    requires rests { has_open_call state.old.heap client ≡ false }
    ensures goes { (from : Outset) (lines : List Line)
        → Here from lines (TheStart client verb whole) [] (now_of state.old shelf.old (K.held sink.old))
        → GoesOn from lines Nothing result (now_of state.new shelf.new (K.held sink.new)) }
    ensures cause { IfErr result (λ stop. HasStopCause stop 0 0 (K.faults sink.old) (K.faults sink.new)) }
    ensures unfailed { OnOk result (K.faults sink.new ≡ K.faults sink.old) }
    ensures counts { K.faults sink.old ≤ K.faults sink.new }
{
    begin_call(alloc, sink, state, client, verb)?;
    if whole {
        run_to_end(alloc, sink, shelf, state, client)
    } else {
        Ok(())
    }
}

/// Carries out the call of a line, behind the end of its client's open one: whole, or else its beginning alone.
pub fn carry_call<K: Sink, H: ExtentHooks>(
    alloc: Global,
    sink: &mut K,
    shelf: &mut HookShelf<H>,
    state: &mut State,
    client: u32,
    verb: Verb,
    whole: bool,
) -> Result<(), Stop>
    requires client { client < 32 }
    requires limits { IsVerbWithinLimits verb }
    ensures goes { (from : Outset) (lines : List Line)
        → Here from lines (awaits_call (has_open_call state.old.heap client) client verb whole) [] (now_of state.old shelf.old (K.held sink.old))
        → GoesOn from lines Nothing result (now_of state.new shelf.new (K.held sink.new)) }
    ensures cause { IfErr result (λ stop. HasStopCause stop 0 0 (K.faults sink.old) (K.faults sink.new)) }
    ensures unfailed { OnOk result (K.faults sink.new ≡ K.faults sink.old) }
    ensures counts { K.faults sink.old ≤ K.faults sink.new }
{
    run_to_end(alloc, sink, shelf, state, client)?;
    if whole && state.calls[client as usize].is_none() {
        if let Some(request) = usual_request(&state.names, &verb) {
            return carry_whole(alloc, sink, shelf, state, client, verb, request);
        }
    }
    carry_any(alloc, sink, shelf, state, client, verb, whole)
}
