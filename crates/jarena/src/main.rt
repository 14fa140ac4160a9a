//! jemalloc's arenas over an address space of numbers, as a program: it reads a trace of calls from standard input, asks
//! its extent hooks, and writes a report to standard output.
#![tactic(auto)]

mod checks;
mod runs;
mod status;
#[cfg(test)]
mod tests;
mod words;

use addr_space::SharedSpace;
use edge_io::{ReadEdge, WriteEdge};
use hook_api::{ExtentHooks, HookShelf};
use runs::run;
use status::NO_MEMORY;
use std::alloc::{AllocError as NoMemory, Global};
use std::env;
use std::io::{BufWriter, ErrorKind};
use std::process::ExitCode;
use std::sync::Wait;
use std::thread::Threads;

/// The words, without the program's name. Words that aren't text are in no list, as no words are.
fn given_words(rt: &HostRuntime) -> Result<Vec<String>, NoMemory> {
    match env::args(rt) {
        Ok(args) => args.skip(1).collect(rt.alloc()),
        Err(error) if error.kind() == ErrorKind::OutOfMemory => Err(NoMemory),
        Err(_) => Ok(Vec::new(rt.alloc())),
    }
}

/// Runs the program on standard input and standard output, and gives its status.
///
/// What is written waits in a buffer until the run flushes it.
fn run_on_streams<R: Threads + Wait + Sync, H: ExtentHooks + Send>(
    rt: &HostRuntime,
    waiting: &R,
    shelf: HookShelf<H>,
) -> Result<u8, NoMemory> {
    let alloc = rt.alloc();
    let words = given_words(rt)?;
    let mut source = ReadEdge::new(rt.stdin());
    let Ok(output) = BufWriter::new(alloc, rt.stdout()) else {
        return Err(NoMemory);
    };
    let mut sink = WriteEdge::new(output);
    Ok(run(waiting, alloc, &words, &mut source, &mut sink, shelf).status)
}

/// Runs the program over boxes that share one space.
fn run_sharing<R: Threads + Wait + Clone + Send + Sync + Drop>(
    rt: &HostRuntime,
    waiting: &R,
) -> Result<u8, NoMemory> {
    let shelf = SharedSpace::shelf(waiting, rt.alloc())?;
    run_on_streams(rt, waiting, shelf)
}

fn main(rt: HostRuntime) -> ExitCode {
    ExitCode::from(run_sharing(&rt, &rt).unwrap_or(NO_MEMORY))
}
