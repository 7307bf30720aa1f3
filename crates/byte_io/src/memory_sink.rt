// A sink over room in memory, which takes few bytes at a time and fails at chosen calls.
ghost use Rattle.std.specs.Prelude.{◌≡◌, ◌<◌, ◌≤◌, take, length, IfOk};

use crate::sink::{ByteSink, WriteOutcome};
use std::alloc::{AllocError, Global};

/// A sink over room in memory.
#[derive(Drop)]
pub struct MemorySink {
    /// The room, whose front was written.
    bytes: Vec<u8>,
    len: usize,
    most: usize,
    fail: Vec<u64>,
    calls: u64,
    faults: u64,
    ghost within: { len ≤ length bytes.items },
    ghost takes: { 0 < most },
}

impl MemorySink {
    ghost use Rattle.std.specs.Prelude.{[]};
    ghost use Rattle.byte_io.specs.Memory.{written_in};

    /// The sink with room for `room` bytes, of which one call takes at most `most`. The calls in `fail`,
    /// counted from one, are to fail.
    pub fn new(
        alloc: Global,
        room: usize,
        most: usize,
        fail: Vec<u64>,
    ) -> Result<MemorySink, AllocError>
        requires { 0 < most }
        ensures room { IfOk result (λ s. length s.bytes.items ≡ room) }
        ensures written { IfOk result (λ s. s.len ≡ 0) }
        ensures most { IfOk result (λ s. s.most ≡ most) }
        ensures fail { IfOk result (λ s. s.fail ≡ fail) }
        ensures calls { IfOk result (λ s. s.calls ≡ 0) }
        ensures faults { IfOk result (λ s. s.faults ≡ 0) }
    {
        let bytes = vec![in alloc; 0u8; room]?;
        Ok(MemorySink {
            bytes,
            len: 0,
            most,
            fail,
            calls: 0,
            faults: 0,
        })
    }

    /// What was written.
    pub fn written(&self) -> &[u8]
        ensures { result.now ≡ written_in self.now }
    {
        &self.bytes[..self.len]
    }
}

impl ByteSink for MemorySink {
    ghost use Rattle.std.specs.Prelude.{Some};
    ghost use Rattle.byte_io.specs.Causes.{ComesByFault};
    ghost use Rattle.spec_base.specs.Counters.{risen};
    ghost use Rattle.byte_io.specs.Memory.{memory_write, written_in};
    ghost use Rattle.byte_io.specs.Sink.{IsTakenOf, Appends};
    ghost use Rattle.byte_io.specs.declared.sink.WriteOutcome.TheVariants.{Failed};

    ghost written = { λ s. Some (take s.len s.bytes.items) };

    ghost faults = { λ s. s.faults };

    /// Takes as many bytes as the piece has, as there is room for and as one call takes; fails exactly
    /// at the chosen calls and where the room is full.
    fn write(&mut self, piece: &[u8]) -> WriteOutcome
        ensures fits { IsTakenOf result (length piece.now) }
        ensures appends { Appends (Some (written_in self.old)) (Some (written_in self.new))
            piece.now result }
        ensures cause { ComesByFault (result ≡ Failed) self.old.faults self.new.faults }
        ensures exact { result ≡ memory_write self.old (length piece.now) }
        ensures counted { self.new.calls ≡ risen 1 self.old.calls }
        ensures kept { (length self.new.bytes.items ≡ length self.old.bytes.items)
            × (self.new.most ≡ self.old.most)
            × (self.new.fail ≡ self.old.fail) }
    {
        self.calls = self.calls.saturating_add(1);
        let room = self.bytes.len() - self.len;
        if self.fail.contains(&self.calls) || room == 0 {
            self.faults = self.faults.saturating_add(1);
            return WriteOutcome::Failed;
        }
        let taken = self.most.min(piece.len()).min(room);
        self.bytes[self.len..self.len + taken].copy_from_slice(&piece[..taken]);
        self.len += taken;
        WriteOutcome::Took(taken)
    }
}
