//! The newest live version with its index where it lies.

ghost use Rattle.std.specs.Prelude.{◌≡◌, IfOk};

use crate::base::Base;
use base_types::{Keep, NoMemory};
use frame_read::Target;
use index_tree::{Index, PackedIndex};
use std::alloc::Global;
use std::marker::Model;

/// The newest live version of a walked tip, of whose index no slot was read. Contracts see the base.
#[derive(Drop)]
pub(crate) struct PackedBase {
    /// The version, with the key of its index.
    pub(crate) target: Target,
    /// Its index.
    pub(crate) index: PackedIndex,
}

impl Model for PackedBase {
    ghost use Rattle.append_update.specs.declared.base.Base.{Base};

    ghost Value = { Base };

    ghost view = { λ b. record { target = b.target; index = b.index } };
}

impl PackedBase {
    /// The place of the tip whose newest live version it is.
    pub(crate) fn place(&self) -> u64
        ensures { result ≡ self.now.target.place }
    {
        self.target.place
    }

    /// Its index.
    pub(crate) fn index(&self) -> &PackedIndex
        ensures { result.now ≡ self.now.index }
    {
        &self.index
    }

    /// The same base, with each slot of its index.
    pub(crate) fn unpacked(&self, alloc: Global) -> Result<Base, NoMemory>
        ensures { IfOk result (λ base. base ≡ self.now) }
    {
        let target = self.target_copy(alloc)?;
        match self.index_copy(alloc) {
            Ok(index) => Ok(Base { target, index }),
            Err(why) => Err(why),
        }
    }

    /// A copy of the version.
    fn target_copy(&self, alloc: Global) -> Result<Target, NoMemory>
        ensures { IfOk result (λ target. target ≡ self.now.target) }
    {
        let symbol = self.target.symbol.copy(alloc)?;
        let index = self.target.index.copy(alloc)?;
        Ok(Target {
            symbol,
            version: self.target.version,
            index,
            place: self.target.place,
        })
    }

    /// Its index, with each slot.
    fn index_copy(&self, alloc: Global) -> Result<Index, NoMemory>
        ensures { IfOk result (λ index. index ≡ self.now.index) }
    {
        let schema = self.index.schema().copy(alloc)?;
        let slots = self.index.slots().to_slots(alloc)?;
        Ok(Index {
            schema,
            rows: self.index.rows(),
            slots,
        })
    }
}
