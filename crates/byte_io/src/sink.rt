// Where bytes go.
ghost use Rattle.std.specs.Prelude.{◌≡◌, ℕ, List, Option, length};
ghost use Rattle.byte_io.specs.Causes.{ComesByFault};
ghost use Rattle.byte_io.specs.Sink.{IsTakenOf, Appends};
ghost use Rattle.byte_io.specs.declared.sink.WriteOutcome.TheVariants.{Failed};

/// What a write did.
#[derive(Clone, Copy, PartialEq, Eq, Debug)]
pub enum WriteOutcome {
    /// So many bytes from the front of the piece were taken.
    Took(usize),
    /// The outside failed.
    Failed,
}

/// What takes bytes.
pub trait ByteSink {
    /// The bytes that were written, where it tells them.
    ghost written: { Self → Option (List ℕ) };

    /// How often it has failed.
    ghost faults: { Self → ℕ };

    /// Takes bytes from the front of a piece, at least one where the piece isn't empty. `Failed` comes
    /// only where the count of faults rose; nothing is taken then.
    fn write(&mut self, piece: &[u8]) -> WriteOutcome
        ensures fits { IsTakenOf result (length piece.now) }
        ensures appends { Appends (written self.old) (written self.new) piece.now result }
        ensures cause { ComesByFault (result ≡ Failed) (faults self.old) (faults self.new) };
}
