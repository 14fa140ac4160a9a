//! The lines of the calls that are drawn.

ghost use Rattle.std.specs.Prelude.{◌≡◌, ◌∷◌, IfOk, IfSome, OnErr, length};
ghost use Rattle.trace_text.specs.declared.lines.Line.{Line};
ghost use Rattle.trace_soak.specs.Soak.{IsClientCall, IsOfClient, Takes, line_for, lines, slot_name};

use crate::draws::{Drawn, Recurrence};
use itoa::write_digits;
use std::alloc::{AllocError as NoMemory, Global};
use std::marker::Model;
use trace_text::{Line, Name, Ptr, Verb};

/// How many bytes there is room for in a slot's name: its letter, and the digits of any number.
const NAME_ROOM: usize = 21;

/// The lines that are still to be drawn, which contracts see as their list. None is kept: each is drawn as it is taken.
#[derive(Drop)]
pub struct Lines {
    recurrence: Recurrence,
    left: u64,
}

impl Model for Lines {
    ghost use Rattle.std.specs.Prelude.{◌+◌, ◌^◌, ◌<◌, List};
    ghost use Rattle.trace_text.specs.declared.lines.Line.{Line};
    ghost use Rattle.trace_soak.specs.Soak.{lines_from};

    ghost Value = { List Line };

    ghost view = { λ l. lines_from l.left l.recurrence };

    ghost invariant = { λ l. l.recurrence.number + l.left < 2 ^ 64 };
}

/// The name of a slot.
fn slot_name(alloc: Global, slot: u64) -> Result<Name, NoMemory>
    ensures { IfOk result (λ name. name ≡ slot_name slot) }
{
    let mut bytes = [0; NAME_ROOM];
    let first = write_digits(slot, &mut bytes, NAME_ROOM) - 1;
    bytes[first] = b'n';
    Name::new(alloc, &bytes[first..])
}

/// The line of a call that was drawn.
fn line_for(alloc: Global, call: Drawn) -> Result<Line, NoMemory>
    ensures { IfOk result (λ line. line ≡ line_for call) }
{
    let (client, verb) = match call {
        Drawn::Purge => (0, Verb::Purge(0)),
        Drawn::Malloc { client, slot, size } => {
            let name = slot_name(alloc, slot)?;
            (client, Verb::Malloc { name, size })
        }
        Drawn::Free { client, slot } => {
            let name = slot_name(alloc, slot)?;
            (client, Verb::Free(Ptr::Name(name)))
        }
    };
    Ok(Line::Call { client, verb })
}

impl Lines {
    /// The first lines, so many, that the recurrence draws from a start. Takes no memory.
    pub fn new(start: u64, calls: u64) -> Lines
        ensures { result ≡ lines start calls }
    {
        Lines {
            recurrence: Recurrence::new(start),
            left: calls,
        }
    }

    /// How many lines are still to be drawn.
    pub fn len(&self) -> u64
        ensures { result ≡ length self.now }
    {
        self.left
    }

    /// Draws the next line, if one is left: a whole malloc, free or purge of a client below 32. Where memory for it is
    /// wanting, it is passed over.
    pub fn next_line(&mut self, alloc: Global) -> Result<Option<Line>, NoMemory>
        ensures takes { IfOk result (λ taken. Takes taken self.old self.new) }
        ensures call { IfOk result (λ taken. IfSome taken IsClientCall) }
        ensures passed { OnErr result ((line : Line) × (self.old ≡ line ∷ self.new)) }
    {
        if self.left == 0 {
            return Ok(None);
        }
        let call = self.recurrence.next_call();
        self.left -= 1;
        Ok(Some(line_for(alloc, call)?))
    }
}
