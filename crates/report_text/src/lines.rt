//! The lines of a report. Each is written behind what the buffer has. Where memory runs out, its beginning may be there.

ghost use Rattle.std.specs.Prelude.{◌≡◌, ◌≤◌, ◌++◌, [], codes, length, OnOk};
ghost use Rattle.call_plan.specs.declared.needs.Given.{Given};
ghost use Rattle.report_text.specs.Heads.{head_name};
ghost use Rattle.report_text.specs.Answers.{ctl_ended, ended_text, given_text};
ghost use Rattle.report_text.specs.Lines.{newline, call_line, ctl_line, turn_line, ask_line, idle_line, counts_line, no_arena_line, bad_line, calls_line, entries_line, threads_line, accepted_line, no_entry_line, no_step_line, met_line, usage_line};

use crate::answers::{AnswerText, SaidText, kind, size};
use crate::counts::{CountsText, MappedText, UnusedText, UsedText};
use crate::heads::{has_short_name, lay_head, word};
use crate::rows::Row;
use crate::{Cause, CtlAnswer, Head};
use call_plan::{Answered, Given};
use space_model::{Answer, Ask, Counts};
use std::alloc::AllocError as NoMemory;
use std::io::{Error, Write};

/// The line of a call that has ended: `tC`, its first word, the name that it binds or that of its control, if it has one, and
/// its answer.
///
/// A region is `@ADDR SIZE`, with the size of its class in bytes, which is 0 of a class that isn't in the table; for
/// `take` it is `ok`. For a control each answer but `Ok` stands behind `EFAULT`.
#[tactic(auto, unfolding(crate::specs::Lines::call_line))]
pub fn call_line(
    out: &mut Vec<u8>,
    client: u32,
    head: Head<'_>,
    answered: &Answered,
) -> Result<(), NoMemory>
    ensures { OnOk result (out.new.items ≡ out.old.items ++ call_line client head.entry answered.now) }
{
    // Most lines are laid in a row, and put behind the others at once.
    if !has_short_name(head) {
        return rare_line(out, client, head, answered);
    }
    let mut row = Row::new();
    match (head, answered) {
        (Head::Take, Answered::Ok(Given::Region { .. })) => row.lay_text(b" ok\n"),
        (_, Answered::Ok(Given::Done)) => row.lay_text(b" ok\n"),
        (
            Head::Malloc(_) | Head::Memalign(_) | Head::Realloc(_) | Head::MallocIn(_),
            Answered::Ok(Given::Region { addr, class }),
        ) => lay_region(&mut row, *addr, *class),
        _ => return rare_line(out, client, head, answered),
    }
    lay_head(&mut row, head);
    row.lay(b' ');
    row.lay_decimal(u64::from(client));
    row.lay(b't');
    out.extend_from_slice(row.as_slice())
}

/// The same for any answer, by its format, and for a name of any length.
#[inline(never)]
#[tactic(auto, unfolding(crate::specs::Lines::call_line))]
fn rare_line(
    out: &mut Vec<u8>,
    client: u32,
    head: Head<'_>,
    answered: &Answered,
) -> Result<(), NoMemory>
    ensures { OnOk result (out.new.items ≡ out.old.items ++ call_line client head.entry answered.now) }
{
    write!(out, "t{client} {}", word(head)).map_err(no_memory)?;
    write_name(out, head)?;
    out.push(b' ')?;
    write_ended(out, head, answered)?;
    out.push(b'\n')?;
    Ok(())
}

fn write_name(out: &mut Vec<u8>, head: Head<'_>) -> Result<(), NoMemory>
    ensures { OnOk result (out.new.items ≡ out.old.items ++ head_name head.entry) }
{
    match head {
        Head::Malloc(name)
        | Head::Memalign(name)
        | Head::Realloc(name)
        | Head::MallocIn(name)
        | Head::Ctl(name)
        | Head::CtlDone(name) => {
            out.push(b' ')?;
            out.extend_from_slice(name)
        }
        _ => Ok(()),
    }
}

fn write_ended(out: &mut Vec<u8>, head: Head<'_>, answered: &Answered) -> Result<(), NoMemory>
    ensures { OnOk result (out.new.items ≡ out.old.items ++ ended_text head.entry answered.now) }
{
    match (head, answered) {
        (Head::Take, Answered::Ok(Given::Region { .. })) => out.extend_from_slice(b"ok"),
        (Head::CtlDone(_), Answered::Ok(_)) => out.extend_from_slice(b"ok"),
        (Head::Ctl(_) | Head::CtlDone(_), answered) => write_ctl_ended(out, answered),
        (_, answered) => write!(out, "{}", AnswerText(*answered)).map_err(no_memory),
    }
}

/// Writes the answer of a call of a control that tells what it gives.
fn write_ctl_ended(out: &mut Vec<u8>, answered: &Answered) -> Result<(), NoMemory>
    ensures { OnOk result (out.new.items ≡ out.old.items ++ ctl_ended given_text answered.now) }
{
    let text = AnswerText(*answered);
    match answered {
        Answered::Ok(_) => write!(out, "{text}").map_err(no_memory),
        _ => write!(out, "EFAULT {text}").map_err(no_memory),
    }
}

/// The line of a control that is answered where it begins, by its name: `tC ctl NAME`, and `ok`, the value or the error.
#[tactic(auto, unfolding(crate::specs::Lines::ctl_line))]
pub fn ctl_line(
    out: &mut Vec<u8>,
    client: u32,
    name: &[u8],
    answer: &CtlAnswer,
) -> Result<(), NoMemory>
    ensures { OnOk result (out.new.items ≡ out.old.items ++ ctl_line client name.now answer.now) }
{
    write!(out, "t{client} ctl ").map_err(no_memory)?;
    out.extend_from_slice(name)?;
    writeln!(out, " {answer}").map_err(no_memory)
}

/// Lays the answer of a region, with the space before it and the newline behind it.
#[inline(always)]
fn lay_region(row: &mut Row, addr: u64, class: u8)
    requires { row.old ≡ [] }
    ensures laid { row.new ≡ codes " " ++ given_text (Given.Region addr class) ++ newline }
    ensures room { length row.new ≤ 40 }
{
    row.lay(b'\n');
    row.lay_decimal(size(class));
    row.lay(b' ');
    row.lay_hexadecimal(addr);
    row.lay_text(b" @");
}

/// Growing the buffer is all that can fail.
fn no_memory(_: Error) -> NoMemory {
    NoMemory
}

/// The line of a turn that a client's step took: `tC turn`.
#[tactic(auto, unfolding(crate::specs::Lines::turn_line))]
pub fn turn_line(out: &mut Vec<u8>, client: u32) -> Result<(), NoMemory>
    ensures { OnOk result (out.new.items ≡ out.old.items ++ turn_line client) }
{
    writeln!(out, "t{client} turn").map_err(no_memory)
}

/// The line of an ask that a client's step made: `tC ask KIND` and `done`, `refused` or `placed @ADDR`.
#[tactic(auto, unfolding(crate::specs::Lines::ask_line))]
pub fn ask_line(out: &mut Vec<u8>, client: u32, ask: Ask, answer: Answer) -> Result<(), NoMemory>
    ensures { OnOk result (out.new.items ≡ out.old.items ++ ask_line client ask answer) }
{
    writeln!(out, "t{client} ask {} {}", kind(ask), SaidText(answer)).map_err(no_memory)
}

/// The line of a step or an end where the client has no open call: `tC idle`.
#[tactic(auto, unfolding(crate::specs::Lines::idle_line))]
pub fn idle_line(out: &mut Vec<u8>, client: u32) -> Result<(), NoMemory>
    ensures { OnOk result (out.new.items ≡ out.old.items ++ idle_line client) }
{
    writeln!(out, "t{client} idle").map_err(no_memory)
}

/// The count line of an arena: `arena I` and its counts by name, in bytes.
#[tactic(auto, unfolding(crate::specs::Lines::counts_line))]
pub fn counts_line(out: &mut Vec<u8>, index: u32, counts: &Counts) -> Result<(), NoMemory>
    ensures { OnOk result (out.new.items ≡ out.old.items ++ counts_line index counts.now) }
{
    writeln!(
        out,
        "arena {index} {} {} {}",
        UsedText(counts),
        UnusedText(counts),
        MappedText(counts)
    )
    .map_err(no_memory)
}

/// The line in place of the counts of an arena that isn't live: `no arena I`.
#[tactic(auto, unfolding(crate::specs::Lines::no_arena_line))]
pub fn no_arena_line(out: &mut Vec<u8>, index: u32) -> Result<(), NoMemory>
    ensures { OnOk result (out.new.items ≡ out.old.items ++ no_arena_line index) }
{
    writeln!(out, "no arena {index}").map_err(no_memory)
}

/// The line on a line of the input that can't be carried out: `line N: CAUSE`.
#[tactic(auto, unfolding(crate::specs::Lines::bad_line))]
pub fn bad_line(out: &mut Vec<u8>, number: u64, cause: Cause) -> Result<(), NoMemory>
    ensures { OnOk result (out.new.items ≡ out.old.items ++ bad_line number cause) }
{
    writeln!(out, "line {number}: {cause}").map_err(no_memory)
}

/// The last line of a soak, of so many calls: `calls N`, how many of them answered Ok, and how many otherwise.
#[tactic(auto, unfolding(crate::specs::Lines::calls_line))]
pub fn calls_line(out: &mut Vec<u8>, calls: u64, good: u64, failed: u64) -> Result<(), NoMemory>
    ensures { OnOk result (out.new.items ≡ out.old.items ++ calls_line calls good failed) }
{
    writeln!(out, "calls {calls} ok {good} failed {failed}").map_err(no_memory)
}

/// The line of a live arena at the end of its journal: `arena I entries E` and its counts by name, in bytes.
#[tactic(auto, unfolding(crate::specs::Lines::entries_line))]
pub fn entries_line(
    out: &mut Vec<u8>,
    index: u32,
    entries: u64,
    counts: &Counts,
) -> Result<(), NoMemory>
    ensures { OnOk result (out.new.items ≡ out.old.items ++ entries_line index entries counts.now) }
{
    let counts = CountsText(counts);
    writeln!(out, "arena {index} entries {entries} {counts}").map_err(no_memory)
}

/// The last line of a run of threads: `threads T phases P calls N failed F`, with how many clients were named, how many phases
/// there were, how many calls of clients in these, and how many of them weren't answered Ok.
#[tactic(auto, unfolding(crate::specs::Lines::threads_line))]
pub fn threads_line(
    out: &mut Vec<u8>,
    clients: u32,
    phases: u64,
    calls: u64,
    failed: u64,
) -> Result<(), NoMemory>
    ensures { OnOk result (out.new.items ≡ out.old.items ++ threads_line clients phases calls failed) }
{
    writeln!(
        out,
        "threads {clients} phases {phases} calls {calls} failed {failed}"
    )
    .map_err(no_memory)
}

/// The line on journals that are accepted, with how many entries they have: `accepted N`.
#[tactic(auto, unfolding(crate::specs::Lines::accepted_line))]
pub fn accepted_line(out: &mut Vec<u8>, entries: u64) -> Result<(), NoMemory>
    ensures { OnOk result (out.new.items ≡ out.old.items ++ accepted_line entries) }
{
    writeln!(out, "accepted {entries}").map_err(no_memory)
}

/// The line on a line of journals that is no entry's text: `line N: entry`.
#[tactic(auto, unfolding(crate::specs::Lines::no_entry_line))]
pub fn no_entry_line(out: &mut Vec<u8>, number: u64) -> Result<(), NoMemory>
    ensures { OnOk result (out.new.items ≡ out.old.items ++ no_entry_line number) }
{
    writeln!(out, "line {number}: entry").map_err(no_memory)
}

/// The line on a line of journals whose entry may not stand where it comes: `line N: step`.
#[tactic(auto, unfolding(crate::specs::Lines::no_step_line))]
pub fn no_step_line(out: &mut Vec<u8>, number: u64) -> Result<(), NoMemory>
    ensures { OnOk result (out.new.items ≡ out.old.items ++ no_step_line number) }
{
    writeln!(out, "line {number}: step").map_err(no_memory)
}

/// The line on journals at whose end two arenas own a chunk: `chunk C: arenas I J`.
#[tactic(auto, unfolding(crate::specs::Lines::met_line))]
pub fn met_line(out: &mut Vec<u8>, chunk: u64, low: u32, high: u32) -> Result<(), NoMemory>
    ensures { OnOk result (out.new.items ≡ out.old.items ++ met_line chunk low high) }
{
    writeln!(out, "chunk {chunk}: arenas {low} {high}").map_err(no_memory)
}

/// The line on words that are in no list that there is.
#[tactic(auto, unfolding(crate::specs::Lines::usage_line))]
pub fn usage_line() -> &'static str
    ensures { result.now ≡ usage_line }
{
    "usage: jarena replay [--json] | threads [--journal] | soak START CALLS | check\n"
}
