//! What a line says.

ghost use Rattle.std.specs.Prelude.{◌≡◌, IfOk};
ghost use Rattle.journal_check.specs.Said.{IsIndexed, is_passed, said_of};

use journal::ReadFault;
use space_model::Entry;
use std::alloc::{AllocError as NoMemory, Global};

/// How many arenas there are.
pub const ARENAS: u32 = 32;

/// What a line says.
#[derive(Drop)]
pub enum Said {
    /// It is the text of no entry of one of the arenas.
    Nothing,
    /// It is passed over.
    Passed,
    /// An entry of an arena's journal.
    Turn {
        /// The index of the arena, below 32.
        index: u32,
        /// The entry.
        entry: Entry,
    },
}

/// Whether a line is passed over: it begins with `arena ` or `threads `.
fn is_passed(line: &[u8]) -> bool
    ensures { result ≡ is_passed line.now }
{
    line.starts_with(b"arena ") || line.starts_with(b"threads ")
}

/// What a line says, which is given without its newline.
#[tactic(auto, unfolding(crate::specs::Said::said_of))]
pub fn read_line(alloc: Global, line: &[u8]) -> Result<Said, NoMemory>
    ensures said { IfOk result (λ said. said ≡ said_of line.now) }
    ensures index { IfOk result IsIndexed }
{
    if is_passed(line) {
        return Ok(Said::Passed);
    }
    match journal::read(alloc, line) {
        Ok((index, entry)) if index < ARENAS => Ok(Said::Turn { index, entry }),
        Ok(_) | Err(ReadFault::NotEntry) => Ok(Said::Nothing),
        Err(ReadFault::NoMemory) => Err(NoMemory),
    }
}
