ghost use Rattle.std.specs.Prelude.{◌≡◌, ◌++◌, OnOk};
ghost use Rattle.byte_fields.specs.Readers.{Gives};
ghost use Rattle.key_kind.specs.KeyText.{key_of_at};
ghost use Rattle.store_model.specs.ChainText.{holder_text, holder_at};
ghost use Rattle.version_chain.specs.Entries.{FitsHolder};
ghost use Rattle.version_chain.specs.Reads.{Reads};
ghost use Rattle.version_chain.specs.declared.fields.Stop.TheVariants.{Left as left_of, NoMemory as no_memory};

use base_types::NoMemory;
use byte_fields::{put_u32, put_u64, read_u32, read_u64};
use key_kind::{Holder, Key, KeyKind, view_key_of};
use std::alloc::Global;

/// Why a reader of fields stops.
#[derive(Clone, Copy, Debug)]
pub(crate) enum Stop {
    /// At the first field that is not whole or breaks its rule so many bytes are left.
    Left(usize),
    NoMemory,
}

impl From<usize> for Stop {
    ghost from_gives = { λ left stop. stop ≡ left_of left };

    fn from(left: usize) -> Stop {
        Stop::Left(left)
    }
}

impl From<NoMemory> for Stop {
    ghost from_gives = { λ _ stop. stop ≡ no_memory };

    fn from(_error: NoMemory) -> Stop {
        Stop::NoMemory
    }
}

/// The next key of this kind, with a copy of its name, and what follows.
pub(crate) fn read_key(alloc: Global, kind: KeyKind, bytes: &[u8]) -> Result<(Key, &[u8]), Stop>
    ensures { Reads (λ x. (x.0, x.1.now)) result (key_of_at kind bytes.now) }
{
    let (view, rest) = match view_key_of(kind, bytes) {
        Ok(read) => read,
        Err(left) => return Err(Stop::Left(left)),
    };
    Ok((view.to_key(alloc)?, rest))
}

/// The next holder, and what follows.
pub(crate) fn read_holder(bytes: &[u8]) -> Result<(Holder, &[u8]), usize>
    ensures { Gives (λ x. (x.0, x.1.now)) result (holder_at bytes.now) }
{
    let (client, rest) = read_u32(bytes)?;
    let (serial, rest) = read_u64(rest)?;
    Ok((Holder { client, serial }, rest))
}

/// Adds a holder at the end.
pub(crate) fn put_holder(out: &mut Vec<u8>, holder: Holder) -> Result<(), NoMemory>
    ensures text { OnOk result (out.new.items ≡ out.old.items ++ holder_text holder) }
    ensures fits { FitsHolder holder }
{
    put_u32(out, holder.client)?;
    put_u64(out, holder.serial)
}
