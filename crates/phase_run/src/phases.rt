//! The phases of a trace, all of which is read before anything is done.

ghost use Rattle.std.specs.Prelude.{◌≡◌, ◌≤◌, Some, false, true, IfErr, IfOk, IfSome, OnOk};
ghost use Rattle.std.specs.List.{AllByRecursion};
ghost use Rattle.trace_phase.specs.Limits.{IsPartWithinLimits};
ghost use Rattle.edge_io.specs.Bytes.{Rose};
ghost use Rattle.line_reader.specs.Lines.{lines_of};
ghost use Rattle.report_text.specs.declared.causes.Cause.TheVariants.{Cut};
ghost use Rattle.phase_run.specs.Reading.{BadAt, Come, IfBad, outcome, reading};
ghost use Rattle.phase_run.specs.declared.reading.Unread.TheVariants.{ReadFault};

use crate::reading::{Unread, read_lines};
use edge_io::{Sink, Source};
use report_text::Cause;
use space_model::Seq;
use std::alloc::Global;
use trace_phase::laws::parts_keep_limits;
use trace_phase::{PhaseCause, PhaseFault, Phases};

impl From<PhaseFault> for Unread {
    ghost use Rattle.std.specs.Prelude.{◌≡◌};
    ghost use Rattle.phase_run.specs.Reading.{unread_of};

    ghost from_gives = { λ fault unread. unread ≡ unread_of fault };

    fn from(fault: PhaseFault) -> Unread {
        match fault {
            PhaseFault::At { line, cause } => Unread::Bad {
                line,
                cause: match cause {
                    PhaseCause::Clock => Cause::Clock,
                    PhaseCause::Phase | PhaseCause::NotJoined => Cause::Phase,
                },
            },
            PhaseFault::NoMemory => Unread::NoMemory,
        }
    }
}

/// Reads all lines of a trace, and gives what they come to as phases.
///
/// `Bad` is the first bad line, with its first cause. The clock and the rule of phases are applied once reading is over: at the end
/// of the input, or at a line that is bad by itself. So `ReadFault` comes wherever a read failed before that, and nowhere else.
/// `NoMemory` comes only where memory was wanting. Each read is shown the sink, to which nothing is written.
pub fn read_phases<S: Source<K>, K: Sink>(
    alloc: Global,
    source: &mut S,
    sink: &K,
) -> Result<Phases, Unread>
    ensures come { IfOk result (λ phases. IfSome (S.left source.old) (λ input. outcome (reading (lines_of input)) ≡ Come phases)) }
    ensures limits { IfOk result (λ phases. AllByRecursion IsPartWithinLimits phases.parts) }
    ensures ended { OnOk result (S.ended source.new ≡ true) }
    ensures bad { IfErr result (λ unread. IfBad unread (λ line cause. IfSome (S.left source.old) (λ input. outcome (reading (lines_of input)) ≡ BadAt line (Some cause)))) }
    ensures cut { IfErr result (λ unread. IfBad unread (λ line cause. cause ≡ Cut → S.ended source.new ≡ true)) }
    ensures fault { IfErr result (λ unread. unread ≡ ReadFault → Rose (S.faults source.old) (S.faults source.new)) }
    ensures patient { K.waits sink.now ≡ false → S.hasty source.new ≡ S.hasty source.old }
    ensures counts { S.faults source.old ≤ S.faults source.new }
{
    parts_keep_limits();
    let mut lines = Seq::new(alloc);
    match read_lines(alloc, source, sink, &mut lines) {
        Ok(()) => Ok(Phases::check(alloc, lines)?),
        Err(Unread::Bad { line, cause }) => {
            Phases::check_beginning(alloc, lines)?;
            Err(Unread::Bad { line, cause })
        }
        Err(unread) => Err(unread),
    }
}
