//! The versions of a symbol.

ghost use Rattle.bucket_core.specs.Laws.{Looks};
ghost use Rattle.bucket_core.specs.Calls.{IsSteady};
ghost use Rattle.store_model.specs.Law.{IsClaimed};
ghost use Rattle.library_api.specs.Steps.{IsLegalForAll};

use crate::reply::{plain, refusal};
use bucket_core::Bucket;
use expr_clause::Command;
use frame_read::list_versions;
use key_kind::Symbol;
use reply_model::{Outcome, Reply};
use std::alloc::Global;
use std::sync::Wait;
use version_chain::StoreLaw;

/// Lists every version ever linked of the symbol. It may wait for the store.
pub(crate) fn versions<R: Wait, B: Bucket<StoreLaw>>(
    rt: &R,
    alloc: Global,
    bucket: &mut B,
    symbol: &Symbol,
) -> Reply
    ensures looks { Looks IsClaimed (B.number bucket.old) (B.sole bucket.old) (B.seen bucket.old) (B.seen bucket.new) }
    ensures steady { IsSteady B.number B.limit B.faults B.sole bucket.old bucket.new }
    ensures legal { IsLegalForAll (B.number bucket.old) (B.faults bucket.old) (B.faults bucket.new) (B.seen bucket.old) (B.seen bucket.new) (Command.Versions symbol.now) result }
{
    match list_versions(rt, alloc, bucket, symbol) {
        Ok(list) => plain(alloc, list.place, Outcome::Versions { rows: list.rows }),
        Err(refused) => refusal(alloc, refused),
    }
}
