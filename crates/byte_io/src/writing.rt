// A whole text written to a sink.
ghost use Rattle.std.specs.Prelude.{◌≡◌, IsErr};
ghost use Rattle.byte_io.specs.Causes.{ComesByFault};
ghost use Rattle.byte_io.specs.Writing.{IsWritten};

use crate::sink::{ByteSink, WriteOutcome};

/// A failure of a sink.
#[derive(Clone, Copy, PartialEq, Eq, Debug)]
pub struct SinkFault;

/// Writes a text whole, however few bytes the sink takes at a time. The fault comes only where the
/// sink's count of faults rose; a part from the front of the text is written then.
pub fn write_all<K: ByteSink>(sink: &mut K, text: &[u8]) -> Result<(), SinkFault>
    ensures written { IsWritten (K.written sink.old) (K.written sink.new) text.now result }
    ensures cause { ComesByFault (IsErr result) (K.faults sink.old) (K.faults sink.new) }
{
    let mut rest = text;
    while !rest.is_empty() {
        match sink.write(rest) {
            WriteOutcome::Took(count) => rest = &rest[count..],
            WriteOutcome::Failed => return Err(SinkFault),
        }
    }
    Ok(())
}
