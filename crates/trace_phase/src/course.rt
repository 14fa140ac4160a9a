//! How the lines of a trace are taken in, one behind the other.

ghost use Rattle.std.specs.Prelude.{◌≡◌, None, Err, OnOk, IfErr, IfOk, is_some};
ghost use Rattle.trace_phase.specs.Parts.{phase_call, setting_call};
ghost use Rattle.trace_phase.specs.Rule.{Takes, TakesCall, Tells, client_count, closing_fault, named, opening, phase_call_stands, phase_called, phases_in, setting_called};

use crate::faults::{PhaseCause, PhaseFault};
use crate::names::Names;
use crate::parts::{NumberedLine, Part, Phase, PhaseCall, Phases, Setting, SettingCall, Works};
use hook_api::Kind;
use space_model::Seq;
use std::alloc::Global;
use trace_text::{Line, Verb};

/// The client that is the worker in the background.
const BACKGROUND_CLIENT: u32 = 31;

/// That the line with this number can't stand where it stands.
fn misplaced(line: u64) -> Result<(), PhaseFault>
    ensures { result ≡ Err (PhaseFault.At line PhaseCause.Phase) }
{
    Err(PhaseFault::At {
        line,
        cause: PhaseCause::Phase,
    })
}

/// A phase that isn't joined yet.
#[derive(Drop)]
pub struct OpenPhase {
    /// The number of the line that began it.
    pub line: u64,
    /// What it has so far.
    pub phase: Phase,
}

/// What the lines so far came to.
#[derive(Drop)]
pub struct Course {
    /// The last moment that was told, in nanoseconds.
    pub moment: u64,
    /// The phase that isn't joined yet.
    pub current: Option<OpenPhase>,
    /// Whether there was a phase with a background worker.
    pub has_background: bool,
    /// Which clients had a line.
    pub clients: [bool; 32],
    /// The names.
    pub names: Names,
    /// The parts that are over.
    pub parts: Seq<Part>,
}

impl Course {
    /// Before the first line. Takes no memory.
    pub fn new(alloc: Global) -> Course
        ensures { result ≡ opening }
    {
        Course {
            moment: 0,
            current: None,
            has_background: false,
            clients: [false; 32],
            names: Names::new(alloc),
            parts: Seq::new(alloc),
        }
    }

    /// Takes in a line that tells the moment, in nanoseconds.
    fn take_moment(&mut self, number: u64, moment: u64) -> Result<(), PhaseFault>
        ensures { Takes result self.old number (Line.At moment) self.new }
    {
        if moment < self.moment {
            return Err(PhaseFault::At {
                line: number,
                cause: PhaseCause::Clock,
            });
        }
        if self.current.is_some() {
            return misplaced(number);
        }
        self.moment = moment;
        Ok(())
    }

    /// Takes in a plan of a box.
    fn take_plan(
        &mut self,
        number: u64,
        box_no: u32,
        kind: Kind,
        nth: u64,
    ) -> Result<(), PhaseFault>
        ensures { Takes result self.old number (Line.Refuse box_no kind nth) self.new }
    {
        if self.current.is_some() {
            return misplaced(number);
        }
        let plan = Setting::Refuse { box_no, kind, nth };
        self.parts.push(Part::Setting(plan))?;
        Ok(())
    }

    /// Takes in a line that begins a phase, with so many rounds of a background worker.
    fn begin(&mut self, alloc: Global, number: u64, rounds: u32) -> Result<(), PhaseFault>
        ensures { Takes result self.old number (Line.Phase rounds) self.new }
    {
        let is_worker_named = self.clients[BACKGROUND_CLIENT as usize];
        if self.current.is_some() || (rounds != 0 && is_worker_named) {
            return misplaced(number);
        }
        self.has_background |= rounds != 0;
        self.current = Some(OpenPhase {
            line: number,
            phase: Phase {
                moment: self.moment,
                rounds,
                works: Works::new(alloc),
            },
        });
        Ok(())
    }

    /// Takes in a line that ends a phase.
    fn join(&mut self, number: u64) -> Result<(), PhaseFault>
        ensures { Takes result self.old number Line.Join self.new }
    {
        let Some(current) = self.current.take() else {
            return misplaced(number);
        };
        self.parts.push(Part::Phase(current.phase))?;
        Ok(())
    }

    /// Notes that a client has a line. There are 32 clients.
    fn name(&mut self, client: u32)
        ensures { self.new ≡ named self.old client }
    {
        let client = client as usize;
        if client < self.clients.len() {
            self.clients[client] = true;
        }
    }

    /// Takes in a call of a client.
    fn take_call(
        &mut self,
        alloc: Global,
        number: u64,
        client: u32,
        verb: Verb,
    ) -> Result<(), PhaseFault>
        ensures { Takes result self.old number (Line.Call client verb) self.new }
    {
        if self.has_background && client == BACKGROUND_CLIENT {
            return misplaced(number);
        }
        self.name(client);
        match self.current.take() {
            Some(current) => self.take_phase_call(alloc, number, current, client, verb),
            None => self.take_setting_call(number, client, verb),
        }
    }

    /// Takes in a call of a client outside phases.
    fn take_setting_call(&mut self, number: u64, client: u32, verb: Verb) -> Result<(), PhaseFault>
        ensures { TakesCall result number (is_some (setting_call verb)) (setting_called self.old client (setting_call verb)) self.new }
    {
        let Some(call) = SettingCall::from_verb(&verb) else {
            return misplaced(number);
        };
        self.parts.push(Part::Setting(Setting::Call {
            client,
            moment: self.moment,
            call,
        }))?;
        Ok(())
    }

    /// Takes in a call of a client within the phase that is open, which is given.
    fn take_phase_call(
        &mut self,
        alloc: Global,
        number: u64,
        mut current: OpenPhase,
        client: u32,
        verb: Verb,
    ) -> Result<(), PhaseFault>
        ensures { TakesCall result number (phase_call_stands self.old client (phase_call verb)) (phase_called self.old current client (phase_call verb)) self.new }
    {
        let place = self.parts.len();
        let Some(call) = PhaseCall::from_verb(verb) else {
            return misplaced(number);
        };
        if !self.names.take(alloc, place, client, &call)? {
            return misplaced(number);
        }
        current.phase.works.add(alloc, client, call)?;
        self.current = Some(current);
        Ok(())
    }

    /// Takes in a line, or tells that it can't stand.
    pub fn take(&mut self, alloc: Global, line: NumberedLine) -> Result<(), PhaseFault>
        ensures { Takes result self.old line.number line.line self.new }
    {
        let NumberedLine { number, line } = line;
        match line {
            Line::Blank => Ok(()),
            Line::At(moment) => self.take_moment(number, moment),
            Line::Refuse { box_no, kind, nth } => self.take_plan(number, box_no, kind, nth),
            Line::Phase { rounds } => self.begin(alloc, number, rounds),
            Line::Join => self.join(number),
            Line::Call { client, verb } => self.take_call(alloc, number, client, verb),
            Line::Start { .. } | Line::Step(_) | Line::End(_) | Line::Counts(_) => misplaced(
                number,
            ),
        }
    }

    /// How many clients are named, the worker in the background among them.
    fn client_count(&self) -> u32
        ensures { result ≡ client_count self.now }
    {
        let named = self.clients.iter().filter(|is_named| **is_named).count();
        named as u32 + u32::from(self.has_background)
    }

    /// What it all came to, or that the phase that is open isn't joined.
    pub fn close(self) -> Result<Phases, PhaseFault>
        ensures stand { OnOk result (closing_fault self.current ≡ None) }
        ensures phases { IfOk result (λ phases. phases ≡ phases_in self) }
        ensures fault { IfErr result (λ fault. Tells fault (closing_fault self.current)) }
    {
        if let Some(current) = &self.current {
            return Err(PhaseFault::At {
                line: current.line,
                cause: PhaseCause::NotJoined,
            });
        }
        let clients = self.client_count();
        let Course { parts, .. } = self;
        Ok(Phases { parts, clients })
    }
}
