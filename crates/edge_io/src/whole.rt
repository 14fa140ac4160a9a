//! A whole text, written by as many writes as it takes.
ghost use Rattle.std.specs.Prelude.{◌≡◌, ◌≤◌, false, OnOk, OnErr};
ghost use Rattle.edge_io.specs.Bytes.{Appends, AppendsPrefix, Rose};

use crate::{Failed, Sink};

/// Writes all of `text`. At `Failed` the sink holds some beginning of it.
///
/// `Failed` comes only where the sink's count of faults rose.
pub fn write_all<K: Sink>(sink: &mut K, text: &[u8]) -> Result<(), Failed>
    ensures ok { OnOk result (Appends (K.held sink.old) (K.held sink.new) text.now) }
    ensures err { OnErr result (AppendsPrefix (K.held sink.old) (K.held sink.new) text.now) }
    ensures failed { OnErr result (Rose (K.faults sink.old) (K.faults sink.new)) }
    ensures unfailed { OnOk result (K.faults sink.new ≡ K.faults sink.old) }
    ensures counts { K.faults sink.old ≤ K.faults sink.new }
{
    let mut at = 0;
    while at < text.len() {
        match sink.write(&text[at..])? {
            0 => return Err(Failed),
            n => at += n,
        }
    }
    Ok(())
}

/// Writes all of a text and hands it on: then nothing waits. At `Failed` the sink holds some beginning of it.
///
/// `Failed` comes only where the sink's count of faults rose.
pub fn write_whole<K: Sink>(sink: &mut K, text: &[u8]) -> Result<(), Failed>
    ensures ok { OnOk result (Appends (K.held sink.old) (K.held sink.new) text.now) }
    ensures err { OnErr result (AppendsPrefix (K.held sink.old) (K.held sink.new) text.now) }
    ensures failed { OnErr result (Rose (K.faults sink.old) (K.faults sink.new)) }
    ensures unfailed { OnOk result (K.faults sink.new ≡ K.faults sink.old) }
    ensures handed_on { OnOk result (K.waits sink.new ≡ false) }
    ensures counts { K.faults sink.old ≤ K.faults sink.new }
{
    write_all(sink, text)?;
    sink.flush()
}
