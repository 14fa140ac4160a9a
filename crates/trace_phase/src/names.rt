//! How the lines so far left the names of a trace.

ghost use Rattle.std.specs.Prelude.{◌≡◌, [], IfOk, IsTrue, OnOk};
ghost use Rattle.trace_phase.specs.Names.{call_stands, is_owner, may_bind, may_take, names_after, place_of, standing_of, with_standing};

use crate::parts::PhaseCall;
use indexmap::IndexMap;
use std::alloc::{AllocError as NoMemory, Global};
use std::marker::Model;
use trace_text::Name;

/// How the last line of a name left it. A phase is told by its place among the parts of the trace.
#[derive(Clone, Copy, Debug, PartialEq, Eq)]
pub enum Standing {
    /// A client owns it, by a malloc, a memalign or a take.
    Owned { client: u32 },
    /// Its owner freed it in this phase, and nobody owns it.
    Freed { client: u32, phase: usize },
    /// Its owner published it in this phase, and nobody owns it until it is taken.
    Published { phase: usize },
}

/// The names of a trace, which contracts see as the list of each with its standing, in the order of their first lines.
#[derive(Drop)]
pub struct Names {
    standings: IndexMap<Name, Standing>,
}

impl Model for Names {
    ghost use Rattle.std.specs.Prelude.{List, ℕ};
    ghost use Rattle.trace_phase.specs.declared.names.Standing.{Standing};

    ghost Value = { List (List ℕ × Standing) };

    ghost view = { λ n. n.standings.entries };
}

/// Where a name is among the names and how it stands, if a line has named it.
#[derive(Clone, Copy, Debug, PartialEq, Eq)]
struct Found {
    /// Its place.
    place: Option<usize>,
    /// How it stands.
    standing: Option<Standing>,
}

/// Whether a client may get a region in this phase and give it a name that stands so.
fn may_bind(phase: usize, client: u32, standing: Option<Standing>) -> bool
    ensures { result ≡ may_bind phase client standing }
{
    match standing {
        None => true,
        Some(Standing::Owned { client: owner }) => owner == client,
        Some(
            Standing::Freed {
                client: owner,
                phase: freed,
            },
        ) => owner == client || freed != phase,
        Some(Standing::Published { .. }) => false,
    }
}

/// Whether a client owns a name that stands so.
fn is_owner(client: u32, standing: Option<Standing>) -> bool
    ensures { result ≡ is_owner client standing }
{
    match standing {
        Some(Standing::Owned { client: owner }) => owner == client,
        _ => false,
    }
}

/// Whether a name that stands so may be taken in this phase.
fn may_take(phase: usize, standing: Option<Standing>) -> bool
    ensures { result ≡ may_take phase standing }
{
    match standing {
        Some(Standing::Published { phase: published }) => published < phase,
        _ => false,
    }
}

impl Names {
    /// No name. Takes no memory.
    pub fn new(alloc: Global) -> Names
        ensures { result ≡ [] }
    {
        Names {
            standings: IndexMap::new(alloc),
        }
    }

    /// Where a name is among the names, and how it stands.
    fn find(&self, name: &Name) -> Found
        ensures place { result.place ≡ place_of self.now name.now }
        ensures standing { result.standing ≡ standing_of self.now name.now }
    {
        match self.standings.get_full(name) {
            Some((place, _, standing)) => Found {
                place: Some(place),
                standing: Some(*standing),
            },
            None => Found {
                place: None,
                standing: None,
            },
        }
    }

    /// Lets a name stand so from here on, where the place among the names is known.
    fn put(
        &mut self,
        alloc: Global,
        place: Option<usize>,
        name: &Name,
        standing: Standing,
    ) -> Result<(), NoMemory>
        requires { place ≡ place_of self.old name.now }
        ensures { OnOk result (self.new ≡ with_standing self.old name.now standing) }
    {
        match place {
            Some(place) => self.standings[place] = standing,
            None => {
                let key = Name::new(alloc, name.as_bytes())?;
                self.standings.insert(key, standing)?;
            }
        }
        Ok(())
    }

    /// Lets a name that was found stand so from here on, where it may, and tells whether it may.
    fn put_if(
        &mut self,
        alloc: Global,
        may: bool,
        found: Found,
        name: &Name,
        standing: Standing,
    ) -> Result<bool, NoMemory>
        requires { found.place ≡ place_of self.old name.now }
        ensures may { IfOk result (λ stands. stands ≡ may) }
        ensures names { IfOk result (λ stands. IsTrue stands → self.new ≡ with_standing self.old name.now standing) }
    {
        if may {
            self.put(alloc, found.place, name, standing)?;
        }
        Ok(may)
    }

    /// Takes in a call of a client in the phase at this place, if it may stand there, and tells whether it may.
    pub fn take(
        &mut self,
        alloc: Global,
        phase: usize,
        client: u32,
        call: &PhaseCall,
    ) -> Result<bool, NoMemory>
        ensures stands { IfOk result (λ stands. stands ≡ call_stands phase client self.old call.now) }
        ensures names { IfOk result (λ stands. IsTrue stands → self.new ≡ names_after phase client self.old call.now) }
    {
        match call {
            PhaseCall::Malloc { name, .. } | PhaseCall::Memalign { name, .. } => {
                let found = self.find(name);
                let may = may_bind(phase, client, found.standing);
                self.put_if(alloc, may, found, name, Standing::Owned { client })
            }
            PhaseCall::Free(name) => {
                let found = self.find(name);
                let may = is_owner(client, found.standing);
                self.put_if(alloc, may, found, name, Standing::Freed { client, phase })
            }
            PhaseCall::Publish(name) => {
                let found = self.find(name);
                let may = is_owner(client, found.standing);
                self.put_if(alloc, may, found, name, Standing::Published { phase })
            }
            PhaseCall::Take(name) => {
                let found = self.find(name);
                let may = may_take(phase, found.standing);
                self.put_if(alloc, may, found, name, Standing::Owned { client })
            }
            PhaseCall::Flush | PhaseCall::Purge(_) | PhaseCall::Decay(_) => Ok(true),
        }
    }
}
