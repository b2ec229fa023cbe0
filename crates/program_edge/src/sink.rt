ghost use Rattle.std.specs.Prelude.{ℕ, ◌≡◌, ◌≤◌, List, Option, IsErrOf};
ghost use Rattle.base_types.specs.Faults.{Rose};
ghost use Rattle.program_edge.specs.Sinks.{PutAdds, KeepsUnlessFailed};

/// Why an output takes no more.
#[derive(Clone, Copy, Debug, PartialEq, Eq)]
pub enum SinkErr {
    /// A write failed, or took nothing.
    Failed,
    NoMemory,
}

/// Where the output goes.
pub trait Sink {
    /// What is written so far, where the output tells it.
    ghost written: { Self → Option (List ℕ) };

    /// How often a call has failed, up to 2^64 - 1.
    ghost faults: { Self → ℕ };

    /// Writes the piece behind what is written.
    fn put(&mut self, piece: &[u8]) -> Result<(), SinkErr>
        ensures adds { PutAdds (written self.old) (written self.new) piece.now result }
        ensures never_falls { faults self.old ≤ faults self.new }
        ensures failed { IsErrOf result SinkErr.Failed → Rose (faults self.old) (faults self.new) }
        ensures kept { KeepsUnlessFailed (faults self.old) (faults self.new) result };
}
