//! What a replay prints.

ghost use Rattle.std.specs.Prelude.{◌≡◌, ◌≤◌, false, OnOk, OnErr, IfErr};
ghost use Rattle.edge_io.specs.Bytes.{Appends, AppendsPrefix, Keeps};
ghost use Rattle.replay_run.specs.declared.input.Stop.TheVariants.{WriteFault};
ghost use Rattle.replay_run.specs.Stops.{HasStopCause};

use crate::input::Stop;
use edge_io::{Failed, Sink, write_all};

/// Writes all of a text.
pub fn print<K: Sink>(sink: &mut K, text: &[u8]) -> Result<(), Stop>
    ensures text { OnOk result (Appends (K.held sink.old) (K.held sink.new) text.now) }
    ensures beginning { OnErr result (AppendsPrefix (K.held sink.old) (K.held sink.new) text.now) }
    ensures cause { IfErr result (λ stop. HasStopCause stop 0 0 (K.faults sink.old) (K.faults sink.new)) }
    ensures unfailed { OnOk result (K.faults sink.new ≡ K.faults sink.old) }
    ensures counts { K.faults sink.old ≤ K.faults sink.new }
{
    match write_all(sink, text) {
        Ok(()) => Ok(()),
        Err(Failed) => Err(Stop::WriteFault),
    }
}

/// Hands on what waits in the sink, so that nothing does behind an `Ok`.
pub fn flush<K: Sink>(sink: &mut K) -> Result<(), Stop>
    ensures kept { Keeps (K.held sink.old) (K.held sink.new) }
    ensures cause { IfErr result (λ stop. HasStopCause stop 0 0 (K.faults sink.old) (K.faults sink.new)) }
    ensures write { IfErr result (λ stop. stop ≡ WriteFault) }
    ensures handed_on { OnOk result (K.waits sink.new ≡ false) }
    ensures unfailed { OnOk result (K.faults sink.new ≡ K.faults sink.old) }
    ensures counts { K.faults sink.old ≤ K.faults sink.new }
{
    match sink.flush() {
        Ok(()) => Ok(()),
        Err(Failed) => Err(Stop::WriteFault),
    }
}
