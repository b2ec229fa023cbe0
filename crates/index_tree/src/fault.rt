use base_types::NoMemory;

/// Why bytes are not read as an index.
#[derive(Clone, Copy, Debug)]
pub enum IndexFault {
    /// The place of the first field that is not whole or breaks its rule.
    Bad { at: u64 },
    NoMemory,
}

/// Why reading stops.
#[derive(Clone, Copy, Debug)]
pub enum Stop {
    /// How many bytes are left from the first field on that is not whole or breaks its rule.
    Bad { left: usize },
    NoMemory,
}

impl From<usize> for Stop {
    ghost use Rattle.std.specs.Prelude.{◌≡◌};
    ghost use Rattle.index_tree.specs.declared.fault.Stop.{Stop};
    ghost use Rattle.index_tree.specs.declared.fault.Stop.TheVariants as stops;

    ghost from_gives = { λ left stop. stop ≡ stops.Bad left };

    fn from(left: usize) -> Stop {
        Stop::Bad { left }
    }
}

impl From<NoMemory> for Stop {
    ghost use Rattle.std.specs.Prelude.{◌≡◌};
    ghost use Rattle.index_tree.specs.declared.fault.Stop.{Stop};
    ghost use Rattle.index_tree.specs.declared.fault.Stop.TheVariants as stops;

    ghost from_gives = { λ _ stop. stop ≡ stops.NoMemory };

    fn from(_error: NoMemory) -> Stop {
        Stop::NoMemory
    }
}
