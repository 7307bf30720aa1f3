// Where bytes come from.
ghost use Rattle.std.specs.Prelude.{◌≡◌, ◌<◌, ℕ, List, Option, length};
ghost use Rattle.byte_io.specs.Causes.{ComesByFault};
ghost use Rattle.byte_io.specs.Source.{IsRoomFor, Leaves};
ghost use Rattle.byte_io.specs.declared.source.ReadOutcome.TheVariants.{Failed};

/// What a read gives.
#[derive(Clone, Copy, PartialEq, Eq, Debug)]
pub enum ReadOutcome {
    /// So many bytes stand at the front of the buffer.
    Bytes(usize),
    /// Nothing is left.
    End,
    /// The outside failed.
    Failed,
}

/// What gives bytes, until it ends.
pub trait ByteSource {
    /// The bytes that it has left, where it tells them.
    ghost left: { Self → Option (List ℕ) };

    /// How often it has failed.
    ghost faults: { Self → ℕ };

    /// Moves bytes that are left to the front of the buffer, at least one and at most as many as there
    /// is room for. `End` comes only where nothing is left, and `Failed` only where the count of faults
    /// rose; nothing is moved then.
    fn read(&mut self, buffer: &mut [u8]) -> ReadOutcome
        requires { 0 < length buffer.old }
        ensures fits { IsRoomFor result (length buffer.old) }
        ensures leaves { Leaves (left self.old) (left self.new) buffer.new result }
        ensures cause { ComesByFault (result ≡ Failed) (faults self.old) (faults self.new) };
}
