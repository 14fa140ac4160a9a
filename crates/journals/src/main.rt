//! Runs over boxes that follow rules, as a program: it carries out the trace on standard input, and writes to standard output its
//! report, or in place of that the journals of its arenas or the asks of its hooks, an entry or an ask a line.
#![tactic(auto)]

mod asks;
mod runs;
#[cfg(test)]
mod tests;
mod words;

use addr_space::{AddrSpace, SharedSpace};
use edge_io::{ReadEdge, WriteEdge};
use hook_api::HookShelf;
use ruled_hooks::{RuledHooks, Rules};
use runs::{NO_MEMORY, print_run};
use std::alloc::{AllocError as NoMemory, Global};
use std::env;
use std::io::{BufWriter, ErrorKind};
use std::process::ExitCode;
use std::sync::Wait;
use words::{BOXES, Wanted, tell_usage, wanted_by};

/// What the words, without the program's name, ask for. Words that aren't text ask for nothing.
fn given_words(rt: &HostRuntime) -> Result<Option<Wanted>, NoMemory> {
    match env::args(rt) {
        Ok(args) => {
            let words: Vec<String> = args.skip(1).collect(rt.alloc())?;
            Ok(wanted_by(&words))
        }
        Err(error) if error.kind() == ErrorKind::OutOfMemory => Err(NoMemory),
        Err(_) => Ok(None),
    }
}

/// A shelf whose boxes follow these rules and share one space of addresses.
fn ruled_shelf<R: Wait + Clone + Send + Drop>(
    waiting: &R,
    alloc: Global,
    rules: &[Rules; BOXES],
) -> Result<HookShelf<RuledHooks<SharedSpace<R>>>, NoMemory> {
    let first = SharedSpace::new(waiting.clone()?, alloc, AddrSpace::new(alloc)?)?;
    let mut boxes = Vec::new(alloc);
    while boxes.len() < BOXES {
        let of_box = rules[boxes.len()];
        boxes.push(RuledHooks::new(first.again()?, of_box))?;
    }
    Ok(HookShelf::new(boxes))
}

/// Runs the program on standard input and standard output, and gives its status.
fn run_on_streams<R: Wait + Clone + Send + Drop>(
    rt: &HostRuntime,
    waiting: &R,
) -> Result<u8, NoMemory> {
    let alloc = rt.alloc();
    let given = given_words(rt)?;
    let Ok(output) = BufWriter::new(alloc, rt.stdout()) else {
        return Err(NoMemory);
    };
    let mut sink = WriteEdge::new(output);
    let Some(wanted) = given else {
        return Ok(tell_usage(&mut sink));
    };
    let shelf = ruled_shelf(waiting, alloc, &wanted.rules)?;
    let mut source = ReadEdge::new(rt.stdin());
    Ok(print_run(alloc, &mut source, &mut sink, shelf, wanted.printed))
}

fn main(rt: HostRuntime) -> ExitCode {
    ExitCode::from(run_on_streams(&rt, &rt).unwrap_or(NO_MEMORY))
}
