//! The arenas that the lines of an input leave.

ghost use Rattle.std.specs.Prelude.{◌≡◌, ◌+◌, ◌-◌, ◌<◌, ◌≤◌, ◌^◌, IfOk, length};
ghost use Rattle.journal_check.specs.Logs.{Takes, after_line, all_entries, ends_from, opening_log};
ghost use Rattle.journal_check.specs.Said.{said_of};
ghost use Rattle.journal_check.specs.declared.says.Said.TheVariants.{Turn};

use crate::arenas::Replica;
use crate::says::{ARENAS, Said, read_line};
use crate::verdicts::{Bad, Ends};
use space_model::{Entry, Seq};
use std::alloc::{AllocError as NoMemory, Global};
use std::marker::Model;

/// The 32 arenas, and how many entries all of them have. Contracts see the arenas as their list.
#[derive(Drop)]
pub struct Log {
    arenas: Vec<Replica>,
    entries: u64,
}

impl Model for Log {
    ghost use Rattle.std.specs.Prelude.{List};
    ghost use Rattle.journal_check.specs.Logs.{IsLog, Logged};

    ghost Value = { List Logged };

    ghost view = { λ log. log.arenas.items };

    ghost invariant = { λ log. IsLog log.arenas.items log.entries };
}

impl Log {
    /// The arenas before the first line.
    pub fn new(alloc: Global) -> Result<Log, NoMemory>
        ensures { IfOk result (λ log. log ≡ opening_log) }
    {
        let mut arenas = Vec::new(alloc);
        for index in 0..ARENAS {
            arenas.push(Replica::new(alloc, index)?)?;
        }
        Ok(Log { arenas, entries: 0 })
    }

    /// Takes the next line in, which is given without its newline, or tells why it is bad. After an `Err` and of a bad line the
    /// arenas are as they were.
    pub fn take(&mut self, alloc: Global, line: &[u8]) -> Result<Option<Bad>, NoMemory>
        requires { all_entries self.old < 2 ^ 64 - 1 }
        ensures taken { IfOk result (λ bad. Takes bad (after_line self.old (said_of line.now)) self.new) }
        ensures count { all_entries self.new ≤ all_entries self.old + 1 }
    {
        match read_line(alloc, line)? {
            Said::Nothing => Ok(Some(Bad::NotEntry)),
            Said::Passed => Ok(None),
            Said::Turn { index, entry } => self.turn(index, &entry),
        }
    }

    /// Takes an entry of an arena in, or tells that it may not stand.
    fn turn(&mut self, index: u32, entry: &Entry) -> Result<Option<Bad>, NoMemory>
        requires index { index < 32 }
        requires few { all_entries self.old < 2 ^ 64 - 1 }
        ensures taken { IfOk result (λ bad. Takes bad (after_line self.old (Turn index entry.now)) self.new) }
        ensures count { all_entries self.new ≤ all_entries self.old + 1 }
    {
        let arena = &mut self.arenas[index as usize];
        if !arena.may_enter(entry) {
            return Ok(Some(Bad::NotStanding));
        }
        arena.enter(entry)?;
        self.entries += 1;
        Ok(None)
    }

    /// The arenas, by index.
    pub fn arenas(&self) -> &[Replica]
        ensures arenas { result.now ≡ self.now }
        ensures number { length result.now ≡ 32 }
    {
        self.arenas.as_slice()
    }

    /// How many entries all arenas have.
    pub fn entries(&self) -> u64
        ensures { result ≡ all_entries self.now }
    {
        self.entries
    }

    /// What is told of the live arenas at the end, by index.
    pub fn ends(&self, alloc: Global) -> Result<Ends, NoMemory>
        ensures { IfOk result (λ ends. ends ≡ ends_from 0 self.now) }
    {
        let mut ends = Seq::new(alloc);
        for index in 0..self.arenas.len() {
            let arena = &self.arenas[index];
            if arena.is_live() {
                ends.push(arena.end(index as u32))?;
            }
        }
        Ok(ends)
    }
}
