//! How often numbers occur.

ghost use Rattle.std.specs.Prelude.{◌≡◌, ◌+◌, ℕ, [], count_by, nat_eq, if◌then◌else◌, IfOk, OnOk};
ghost use Rattle.frame_read.specs.Versions.{count_in};

use base_types::NoMemory;
use std::alloc::Global;
use std::collections::BTreeMap;
use std::marker::Model;
use store_model::HoldRow;

/// How often each of some numbers occurs. Contracts see the numbers with their counts.
#[derive(Drop)]
pub(crate) struct Counts {
    counts: BTreeMap<u64, u64>,
}

impl Model for Counts {
    ghost use Rattle.std.specs.Prelude.{ℕ, List};

    ghost Value = { List (ℕ × ℕ) };

    ghost view = { λ c. c.counts.entries };
}

impl Counts {
    /// No numbers.
    fn new(alloc: Global) -> Counts
        ensures { result ≡ [] }
    {
        Counts {
            counts: BTreeMap::new(alloc),
        }
    }

    /// How often a number occurs.
    pub(crate) fn of(&self, number: u64) -> u64
        ensures { result ≡ count_in self.now number }
    {
        match self.counts.get(&number) {
            Some(count) => *count,
            None => 0,
        }
    }

    /// Adds a number.
    fn add(&mut self, number: u64) -> Result<(), NoMemory>
        ensures { OnOk result ((n : ℕ) → count_in self.new n ≡ (if nat_eq n number then 1 else 0) + count_in self.old n) }
    {
        let Some(count) = self.of(number).checked_add(1) else {
            return Err(NoMemory);
        };
        self.counts.insert(number, count)?;
        Ok(())
    }
}

/// How often each of these versions occurs.
pub(crate) fn count_versions(alloc: Global, versions: &[u64]) -> Result<Counts, NoMemory>
    ensures { IfOk result (λ counts. (n : ℕ) → count_in counts n ≡ count_by (nat_eq n) versions.now) }
{
    let mut counts = Counts::new(alloc);
    for version in versions {
        counts.add(*version)?;
    }
    Ok(counts)
}

/// How many holds each version has.
pub(crate) fn count_holds(alloc: Global, holds: &[HoldRow]) -> Result<Counts, NoMemory>
    ensures { IfOk result (λ counts. (n : ℕ) → count_in counts n ≡ count_by (λ hold. nat_eq n hold.version) holds.now) }
{
    let mut counts = Counts::new(alloc);
    for hold in holds {
        counts.add(hold.version)?;
    }
    Ok(counts)
}
