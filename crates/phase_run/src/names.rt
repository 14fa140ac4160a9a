//! Where the regions lie that a trace names.

ghost use Rattle.std.specs.Prelude.{◌≡◌, [], is_some, IfOk, OnOk, OnErr};
ghost use Rattle.std.specs.Map.{lookup};
ghost use Rattle.std.specs.Str.{bytes_eq};
ghost use Rattle.trace_phase.specs.Parts.{call_name};
ghost use Rattle.phase_run.specs.Names.{AreLearnt, known_to, learnt, merged, named, place_in};
ghost use Rattle.phase_run.specs.Walks.{AgreeOn};

use indexmap::IndexMap;
use std::alloc::{AllocError as NoMemory, Global};
use std::marker::Model;
use trace_phase::PhaseCall;
use trace_text::Name;

/// Where a region lies.
#[derive(Clone, Copy, Debug, PartialEq, Eq)]
pub struct Place {
    /// The address of its first byte.
    pub addr: u64,
    /// The index of its arena.
    pub arena: u32,
}

/// The names that were bound so far, which contracts see as the list of each with where its region lies.
///
/// A name stands where it was first bound. Its region is the one that it was bound to last, also once that is freed.
#[derive(Drop)]
pub struct Names {
    places: IndexMap<Name, Place>,
}

impl Model for Names {
    ghost use Rattle.std.specs.Prelude.{List, ℕ};
    ghost use Rattle.phase_run.specs.declared.names.Place.{Place};

    ghost Value = { List (List ℕ × Place) };

    ghost view = { λ n. n.places.entries };
}

impl Names {
    /// No name is bound. Takes no memory.
    pub fn new(alloc: Global) -> Names
        ensures { result ≡ [] }
    {
        Names {
            places: IndexMap::new(alloc),
        }
    }

    /// Binds the name to where its region lies, in place of where it lay before.
    ///
    /// An `Err` says that a new name found no memory, and leaves the names as they were.
    pub fn bind(&mut self, name: Name, place: Place) -> Result<(), NoMemory>
        ensures bound { OnOk result (self.new ≡ named self.old name place) }
        ensures err { OnErr result (self.new ≡ self.old) }
    {
        self.places.insert(name, place)?;
        Ok(())
    }

    /// Where the region of a name lies: at address 0 of arena 0, where it is bound to none.
    pub fn place(&self, name: &Name) -> Place
        ensures { result ≡ place_in self.now name.now }
    {
        let nowhere = Place { addr: 0, arena: 0 };
        self.places.get(name).copied().unwrap_or(nowhere)
    }

    /// Whether a name is bound.
    fn is_bound(&self, name: &Name) -> bool
        ensures { result ≡ is_some (lookup (bytes_eq name.now) self.now) }
    {
        self.places.contains_key(name)
    }

    /// Binds the name of a call, if it has one, to where its region lies among these names. Those that are bound lie where they
    /// lie there.
    #[tactic(auto, using(crate::proofs::Places::learnt_before))]
    fn learn(&mut self, alloc: Global, names: &Names, call: &PhaseCall) -> Result<(), NoMemory>
        requires { AreLearnt names.now self.old }
        ensures { OnOk result (self.new ≡ learnt names.now self.old (call_name call.now)) }
    {
        match call.name() {
            Some(name) if !self.is_bound(name) => {
                self.bind(Name::new(alloc, name.as_bytes())?, names.place(name))
            }
            _ => Ok(()),
        }
    }

    /// Those of the names that some calls have, each with where its region lies here.
    pub fn for_calls(&self, alloc: Global, calls: &[PhaseCall]) -> Result<Names, NoMemory>
        ensures known { IfOk result (λ own. own ≡ known_to self.now calls.now) }
        ensures agree { IfOk result (λ own. AgreeOn calls.now own self.now) }
    {
        let mut own = Names::new(alloc);
        for call in calls {
            own.learn(alloc, self, call)?;
        }
        Ok(own)
    }

    /// Binds all names that others have bound, each to where its region lies there.
    pub fn merge(&mut self, others: Names) -> Result<(), NoMemory>
        ensures { OnOk result (self.new ≡ merged self.old others) }
    {
        for (name, place) in others.places {
            self.bind(name, place)?;
        }
        Ok(())
    }
}
