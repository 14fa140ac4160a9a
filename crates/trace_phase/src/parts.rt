//! The lines of a trace, and what they come to: the settings between the phases, and the phases.

ghost use Rattle.std.specs.Prelude.{◌≡◌, ◌==◌, [], ◌∷◌, ◌++◌, OnOk};
ghost use Rattle.std.specs.List.{position};
ghost use Rattle.std.specs.Option.{option_copied};
ghost use Rattle.trace_phase.specs.Parts.{call_name, first_work, phase_call, setting_call, with_call, with_more};

use hook_api::Kind;
use space_model::{Rest, Seq};
use std::alloc::{AllocError as NoMemory, Global};
use std::marker::Model;
use trace_text::{Line, Name, Ptr, Verb};

/// A line of a trace with its number, from 1 on.
#[derive(Debug, Drop)]
pub struct NumberedLine {
    /// The number.
    pub number: u64,
    /// What the line says.
    pub line: Line,
}

/// The lines of a trace, in order.
pub type Lines = Seq<NumberedLine>;

/// A call that a client may make within a phase.
#[derive(Debug, PartialEq, Eq, Drop)]
pub enum PhaseCall {
    /// `malloc NAME N`.
    Malloc { name: Name, size: u64 },
    /// `memalign NAME ALIGN N`.
    Memalign { name: Name, align: u64, size: u64 },
    /// `free NAME`.
    Free(Name),
    /// `publish NAME`.
    Publish(Name),
    /// `take NAME`.
    Take(Name),
    /// `flush`.
    Flush,
    /// `purge I`.
    Purge(u32),
    /// `decay I`.
    Decay(u32),
}

impl PhaseCall {
    /// The name of the region that the call is about, if it is about one.
    pub fn name(&self) -> Option<&Name>
        ensures { option_copied result ≡ call_name self.now }
    {
        match self {
            PhaseCall::Malloc { name, .. }
            | PhaseCall::Memalign { name, .. }
            | PhaseCall::Free(name)
            | PhaseCall::Publish(name)
            | PhaseCall::Take(name) => Some(name),
            PhaseCall::Flush | PhaseCall::Purge(_) | PhaseCall::Decay(_) => None,
        }
    }

    /// The call, if it may stand within a phase. One that names a region by its address may not.
    pub(crate) fn from_verb(verb: Verb) -> Option<PhaseCall>
        ensures { result ≡ phase_call verb }
    {
        match verb {
            Verb::Malloc { name, size } => Some(PhaseCall::Malloc { name, size }),
            Verb::Memalign { name, align, size } => Some(PhaseCall::Memalign { name, align, size }),
            Verb::Free(Ptr::Name(name)) => Some(PhaseCall::Free(name)),
            Verb::Publish(Ptr::Name(name)) => Some(PhaseCall::Publish(name)),
            Verb::Take(Ptr::Name(name)) => Some(PhaseCall::Take(name)),
            Verb::Flush => Some(PhaseCall::Flush),
            Verb::Purge(arena) => Some(PhaseCall::Purge(arena)),
            Verb::Decay(arena) => Some(PhaseCall::Decay(arena)),
            _ => None,
        }
    }
}

/// A call that a client may make outside phases.
#[derive(Clone, Copy, Debug, PartialEq, Eq)]
pub enum SettingCall {
    /// `create B`.
    Create(u32),
    /// `dirty I MS` or `muzzy I MS`.
    Time { arena: u32, rest: Rest, ms: i64 },
    /// `arena I`.
    Bind(u32),
    /// `cache on` or `cache off`.
    Cache(bool),
}

impl SettingCall {
    /// The call, if it may stand outside phases.
    pub(crate) fn from_verb(verb: &Verb) -> Option<SettingCall>
        ensures { result ≡ setting_call verb.now }
    {
        match *verb {
            Verb::Create(box_no) => Some(SettingCall::Create(box_no)),
            Verb::Time { arena, rest, ms } => Some(SettingCall::Time { arena, rest, ms }),
            Verb::Bind(arena) => Some(SettingCall::Bind(arena)),
            Verb::Cache(is_on) => Some(SettingCall::Cache(is_on)),
            _ => None,
        }
    }
}

/// A line outside phases that sets something.
#[derive(Clone, Copy, Debug, PartialEq, Eq)]
pub enum Setting {
    /// A plan of a box, as of `trace_text::Line::Refuse`.
    Refuse {
        box_no: u32,
        kind: Kind,
        nth: u64,
    },
    /// A call of a client, at a moment in nanoseconds.
    Call {
        client: u32,
        moment: u64,
        call: SettingCall,
    },
}

/// What one client does in a phase: its calls, in order.
#[derive(Drop)]
pub struct Work {
    /// The client, from 0 to 31.
    pub client: u32,
    /// Its calls, of which there is at least one.
    pub calls: Seq<PhaseCall>,
}

impl Work {
    /// Puts a call behind the others.
    fn add(&mut self, call: PhaseCall) -> Result<(), NoMemory>
        ensures { OnOk result (self.new ≡ with_more self.old call) }
    {
        self.calls.push(call)
    }
}

/// What each client does in a phase, in the order of their first calls. Contracts see it as the list of these.
#[derive(Drop)]
pub struct Works {
    works: Vec<Work>,
}

impl Model for Works {
    ghost use Rattle.std.specs.Prelude.{List};
    ghost use Rattle.trace_phase.specs.declared.parts.Work.{Work};

    ghost Value = { List Work };

    ghost view = { λ w. w.works.items };
}

impl Works {
    /// Nobody does anything. Takes no memory.
    pub(crate) fn new(alloc: Global) -> Works
        ensures { result ≡ [] }
    {
        Works {
            works: Vec::new(alloc),
        }
    }

    /// What each client does.
    pub fn as_slice(&self) -> &[Work]
        ensures { result.now ≡ self.now }
    {
        self.works.as_slice()
    }

    /// The same as a vector. Takes no memory.
    pub fn into_vec(self) -> Vec<Work>
        ensures { result.items ≡ self }
    {
        let Works { works } = self;
        works
    }

    /// Where the work of a client stands.
    fn place_of(&self, client: u32) -> Option<usize>
        ensures { result ≡ position (λ work. work.client == client) self.now }
    {
        self.works.iter().position(|work| work.client == client)
    }

    /// Puts a client with its first call at the end.
    fn begin(&mut self, alloc: Global, client: u32, call: PhaseCall) -> Result<(), NoMemory>
        ensures { OnOk result (self.new ≡ self.old ++ first_work client call ∷ []) }
    {
        let mut calls = Seq::new(alloc);
        calls.push(call)?;
        self.works.push(Work { client, calls })?;
        Ok(())
    }

    /// Puts a call behind the others of its client.
    #[tactic(auto, using(crate::proofs::Added::with_call_at, crate::proofs::Added::with_call_new))]
    pub(crate) fn add(
        &mut self,
        alloc: Global,
        client: u32,
        call: PhaseCall,
    ) -> Result<(), NoMemory>
        ensures { OnOk result (self.new ≡ with_call client call self.old) }
    {
        match self.place_of(client) {
            Some(place) => {
                self.works[place].add(call)?;
                Ok(())
            }
            None => self.begin(alloc, client, call),
        }
    }
}

/// A phase.
#[derive(Drop)]
pub struct Phase {
    /// The moment in nanoseconds, which is that of all its calls.
    pub moment: u64,
    /// How many rounds the background worker makes beside the clients, or 0 where there is none.
    pub rounds: u32,
    /// What each client does.
    pub works: Works,
}

/// A part of a trace.
#[derive(Drop)]
pub enum Part {
    /// A line between phases.
    Setting(Setting),
    /// A phase.
    Phase(Phase),
}

/// What the lines of a trace come to.
#[derive(Drop)]
pub struct Phases {
    /// The lines between phases that set something, and the phases, in order.
    pub parts: Seq<Part>,
    /// How many clients are named, the background worker among them where there is one.
    pub clients: u32,
}
