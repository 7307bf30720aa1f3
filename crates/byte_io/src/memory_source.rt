// A source over bytes in memory, which moves few bytes at a time and fails at chosen calls.
ghost use Rattle.std.specs.Prelude.{◌≡◌, ◌<◌, ◌≤◌, length};

use crate::source::{ByteSource, ReadOutcome};

/// A source over bytes in memory.
#[derive(Drop)]
pub struct MemorySource {
    bytes: Vec<u8>,
    /// How many bytes were moved.
    at: usize,
    most: usize,
    fail: Vec<u64>,
    calls: u64,
    faults: u64,
    ghost within: { at ≤ length bytes.items },
    ghost moves: { 0 < most },
}

impl MemorySource {
    /// The source of these bytes, of which one call moves at most `most`. The calls in `fail`, counted
    /// from one, are to fail.
    pub fn new(bytes: Vec<u8>, most: usize, fail: Vec<u64>) -> MemorySource
        requires { 0 < most }
        ensures bytes { result.bytes ≡ bytes }
        ensures at { result.at ≡ 0 }
        ensures most { result.most ≡ most }
        ensures fail { result.fail ≡ fail }
        ensures calls { result.calls ≡ 0 }
        ensures faults { result.faults ≡ 0 }
    {
        MemorySource {
            bytes,
            at: 0,
            most,
            fail,
            calls: 0,
            faults: 0,
        }
    }
}

impl ByteSource for MemorySource {
    ghost use Rattle.std.specs.Prelude.{Some, drop};
    ghost use Rattle.byte_io.specs.Causes.{ComesByFault};
    ghost use Rattle.spec_base.specs.Counters.{risen};
    ghost use Rattle.byte_io.specs.Memory.{memory_read};
    ghost use Rattle.byte_io.specs.Source.{IsRoomFor, Leaves};
    ghost use Rattle.byte_io.specs.declared.source.ReadOutcome.TheVariants.{Failed};

    ghost left = { λ s. Some (drop s.at s.bytes.items) };

    ghost faults = { λ s. s.faults };

    /// Moves as many bytes as there are left, as there is room for and as one call moves; fails exactly
    /// at the chosen calls.
    fn read(&mut self, buffer: &mut [u8]) -> ReadOutcome
        requires { 0 < length buffer.old }
        ensures fits { IsRoomFor result (length buffer.old) }
        ensures leaves { Leaves (Some (drop self.old.at self.old.bytes.items))
            (Some (drop self.new.at self.new.bytes.items)) buffer.new result }
        ensures cause { ComesByFault (result ≡ Failed) self.old.faults self.new.faults }
        ensures exact { result ≡ memory_read self.old (length buffer.old) }
        ensures counted { self.new.calls ≡ risen 1 self.old.calls }
        ensures kept { (self.new.bytes ≡ self.old.bytes)
            × (self.new.most ≡ self.old.most)
            × (self.new.fail ≡ self.old.fail) }
    {
        self.calls = self.calls.saturating_add(1);
        if self.fail.contains(&self.calls) {
            self.faults = self.faults.saturating_add(1);
            return ReadOutcome::Failed;
        }
        let left = &self.bytes[self.at..];
        if left.is_empty() {
            return ReadOutcome::End;
        }
        let moved = self.most.min(buffer.len()).min(left.len());
        buffer[..moved].copy_from_slice(&left[..moved]);
        self.at += moved;
        ReadOutcome::Bytes(moved)
    }
}
