// A whole source read.
ghost use Rattle.std.specs.Prelude.{◌≡◌, ◌<◌, ◌≤◌, ◌-◌, ◌+◌, length, Ok, IfOk, IsErrOf};
ghost use Rattle.byte_io.specs.Causes.{ComesByFault};
ghost use Rattle.byte_io.specs.Reading.{most_bytes, IsReadAll, TakesPart, IsMore};
ghost use Rattle.byte_io.specs.declared.reading.ReadRefusal.TheVariants.{Failed};

use crate::source::{ByteSource, ReadOutcome};
use spec_base::Bytes;
use std::alloc::{AllocError, Global};

/// The most bytes that are read.
pub const MOST_BYTES: usize = 67_108_864;

/// Why a source isn't read whole.
#[derive(Clone, Copy, PartialEq, Eq, Debug)]
pub enum ReadRefusal {
    /// There was no memory.
    Memory,
    /// The source failed.
    Failed,
    /// The source has more than `MOST_BYTES` bytes.
    TooLong,
}

impl From<AllocError> for ReadRefusal {
    ghost use Rattle.byte_io.specs.declared.reading.ReadRefusal.TheVariants.{Memory};

    ghost from_gives = { λ _ e. e ≡ Memory };

    fn from(_: AllocError) -> ReadRefusal {
        ReadRefusal::Memory
    }
}

/// Reads a source to its end, at most `MOST_BYTES` bytes. `TooLong` comes exactly where one byte more
/// was taken, and `Failed` only where the source's count of faults rose.
pub fn read_all<S: ByteSource>(alloc: Global, source: &mut S) -> Result<Bytes, ReadRefusal>
    ensures read { IsReadAll (S.left source.old) (S.left source.new) result }
    ensures within { IfOk result (λ bytes. length bytes ≤ most_bytes) }
    ensures cause { ComesByFault (IsErrOf result Failed) (S.faults source.old)
        (S.faults source.new) }
{
    let mut bytes = Vec::new(alloc);
    let mut buffer = [0u8; 8192];
    loop {
        match read_part(source, &mut bytes, &mut buffer) {
            Ok(true) => {}
            Ok(false) => return Ok(bytes.into()),
            Err(refusal) => return Err(refusal),
        }
    }
}

// Reads once and adds what comes to the bytes; answers whether something came.
fn read_part<S: ByteSource>(
    source: &mut S,
    bytes: &mut Vec<u8>,
    buffer: &mut [u8],
) -> Result<bool, ReadRefusal>
    requires some { 0 < length buffer.old }
    requires within { length bytes.old.items ≤ most_bytes }
    ensures takes { TakesPart (S.left source.old) (S.left source.new) bytes.old.items
        bytes.new.items result }
    ensures more { IfOk result (λ more. IsMore bytes.old.items bytes.new.items more) }
    ensures cause { ComesByFault (IsErrOf result Failed) (S.faults source.old)
        (S.faults source.new) }
{
    let room = buffer.len().min(MOST_BYTES + 1 - bytes.len());
    match source.read(&mut buffer[..room]) {
        ReadOutcome::Failed => Err(ReadRefusal::Failed),
        ReadOutcome::End => Ok(false),
        ReadOutcome::Bytes(count) => {
            if count > MOST_BYTES - bytes.len() {
                return Err(ReadRefusal::TooLong);
            }
            bytes.extend_from_slice(&buffer[..count])?;
            Ok(true)
        }
    }
}
