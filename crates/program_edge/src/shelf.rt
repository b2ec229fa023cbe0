ghost use Rattle.std.specs.Prelude.{ℕ, ◌≡◌, ◌≤◌, [], IsErrOf, OnErr};
ghost use Rattle.base_types.specs.Faults.{Rose};
ghost use Rattle.program_edge.specs.Shelves.{Held, FetchGives, KeepsUnlessFailed};

/// Why a shelf gives no bytes.
#[derive(Clone, Copy, Debug, PartialEq, Eq)]
pub enum ShelfErr {
    /// There is no file of this name.
    NotThere,
    /// The file could not be opened or read.
    Failed,
    NoMemory,
}

/// Files by name.
pub trait Shelf {
    /// The bytes under each name, where the shelf tells them.
    ghost holds: { Self → Held };

    /// How often a call has failed, up to 2^64 - 1.
    ghost faults: { Self → ℕ };

    /// Puts the bytes of the file into `into`, in place of what it held.
    fn fetch(&mut self, name: &str, into: &mut Vec<u8>) -> Result<(), ShelfErr>
        ensures bytes { FetchGives (holds self.old) name.now into.new.items result }
        ensures refused { OnErr result (into.new.items ≡ []) }
        ensures same { holds self.new ≡ holds self.old }
        ensures never_falls { faults self.old ≤ faults self.new }
        ensures failed { IsErrOf result ShelfErr.Failed → Rose (faults self.old) (faults self.new) }
        ensures kept { KeepsUnlessFailed (faults self.old) (faults self.new) result };
}
