// A world file in version 2, from a source to a sink.
ghost use Rattle.std.specs.Prelude.{◌≡◌, ◌≤◌, ℕ, IfErr, IfSome, IsSome, List, Some, length};
ghost use Rattle.spec_base.specs.Counters.{Rose};
ghost use Rattle.byte_io.specs.Reading.{most_bytes};
ghost use Rattle.world_file.specs.WorldFile.{world_of};
ghost use Rattle.upgrade_program.specs.Upgrade.{IsRead, IsTextBy, SaysOfSink, SaysOfSource};

use crate::upgrade_fault::UpgradeFault;
use byte_io::{ByteSink, ByteSource, ReadRefusal, read_all, write_all};
use spec_base::Refusal;
use std::alloc::Global;
use world_upgrade::upgraded;

// The text of the source's world file in version 2.
fn text_of<S: ByteSource>(alloc: Global, source: &mut S) -> Result<String, UpgradeFault>
    ensures text { IfSome (S.left source.old) (λ bytes. IsTextBy bytes (S.left source.new) result) }
    ensures read { IfErr result IsRead }
    ensures fault { IfErr result
        (λ fault. fault ≡ UpgradeFault.ReadFault
        → Rose (S.faults source.old) (S.faults source.new)) }
{
    let bytes = match read_all(alloc, source) {
        Ok(bytes) => bytes,
        Err(ReadRefusal::Memory) => return Err(UpgradeFault::Memory),
        Err(ReadRefusal::Failed) => return Err(UpgradeFault::ReadFault),
        Err(ReadRefusal::TooLong) => return Err(UpgradeFault::TooLong),
    };
    match upgraded(alloc, bytes.as_slice()) {
        Ok(text) => Ok(text),
        Err(Refusal::Memory) => Err(UpgradeFault::Memory),
        Err(Refusal::Is(_)) => Err(UpgradeFault::NotAWorld),
    }
}

/// Reads a world file from the source, and writes to the sink the text of the same world in version 2: `upgraded` says which.
///
/// The refusals come in this order: reading, the world, writing; want of memory can come at the first two.
pub fn upgrade<S: ByteSource, K: ByteSink>(
    alloc: Global,
    source: &mut S,
    sink: &mut K,
) -> Result<(), UpgradeFault>
    // `NotAWorld` comes exactly where the whole input was read and is no world, `TooLong` exactly where one byte too many was taken.
    ensures input { IfSome (S.left source.old)
        (λ bytes. SaysOfSource bytes (S.left source.new) result) }
    // What is written is a world file in version 2 that means what the bytes do, and its own text in version 2.
    ensures text { IfSome (S.left source.old)
        (λ bytes. IfSome (K.written sink.old)
        (λ done. SaysOfSink bytes done (K.written sink.new) result)) }
    ensures unwritten { IfErr result
        (λ fault. IsRead fault → K.written sink.new ≡ K.written sink.old) }
    ensures read_fault { IfErr result
        (λ fault. fault ≡ UpgradeFault.ReadFault
        → Rose (S.faults source.old) (S.faults source.new)) }
    ensures write_fault { IfErr result
        (λ fault. fault ≡ UpgradeFault.WriteFault → Rose (K.faults sink.old) (K.faults sink.new)) }
    // Where the bytes are a world file that isn't too long and nothing fails, only want of memory is left.
    ensures completes { (bytes : List ℕ) → S.left source.old ≡ Some bytes
        → length bytes ≤ most_bytes
        → IsSome (world_of bytes)
        → (Rose (S.faults source.old) (S.faults source.new) → ⊥)
        → (Rose (K.faults sink.old) (K.faults sink.new) → ⊥)
        → IfErr result (λ fault. fault ≡ UpgradeFault.Memory) }
{
    let text = match text_of(alloc, source) {
        Ok(text) => text,
        Err(fault) => return Err(fault),
    };
    match write_all(sink, text.as_str().as_bytes()) {
        Ok(()) => Ok(()),
        Err(_) => Err(UpgradeFault::WriteFault),
    }
}
