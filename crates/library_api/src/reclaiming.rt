//! Keys of a symbol that nobody needs are dropped, and counted by their kind.

ghost use Rattle.std.specs.Prelude.{◌≡◌, ◌≤◌};
ghost use Rattle.bucket_core.specs.Calls.{IsSteady};
ghost use Rattle.version_chain.specs.Traces.{GoesOn};
ghost use Rattle.prune_rule.specs.Reclaims.{keys_of_kind};
ghost use Rattle.library_api.specs.Steps.{IsLegalWithTries, LooksFirst};

use crate::keys::of_kind;
use crate::reply::{plain, refusal};
use bucket_core::Bucket;
use expr_clause::Command;
use key_kind::{Key, KeyKind, Symbol};
use reply_model::{Outcome, Reply};
use std::alloc::Global;
use std::sync::Wait;
use version_chain::StoreLaw;

/// Drops the symbol's keys that nobody needs. It may wait for the store.
pub(crate) fn reclaim<R: Wait, B: Bucket<StoreLaw>>(
    rt: &R,
    alloc: Global,
    bucket: &mut B,
    symbol: &Symbol,
    tries: u32,
) -> Reply
    requires some_tries { 1 ≤ tries }
    requires few_tries { tries ≤ 1000 }
    ensures steady { IsSteady B.number B.limit B.faults B.sole bucket.old bucket.new }
    ensures grown { GoesOn (B.number bucket.old) (B.sole bucket.old) (B.seen bucket.old) (B.seen bucket.new) }
    ensures legal { IsLegalWithTries (B.limit bucket.old) (B.number bucket.old) tries (B.faults bucket.old) (B.faults bucket.new) (B.seen bucket.old) (B.seen bucket.new) (Command.Reclaim symbol.now) result }
    ensures looked { LooksFirst (B.number bucket.old) (B.seen bucket.old) (B.seen bucket.new) result }
{
    match prune_rule::reclaim(rt, alloc, bucket, symbol, tries) {
        Ok(freed) => plain(alloc, freed.place, freed_of(freed.keys.items())),
        Err(refused) => refusal(alloc, refused),
    }
}

/// How many of these keys are of each kind that is dropped.
fn freed_of(keys: &[Key]) -> Outcome
    ensures { result ≡ Outcome.Freed (keys_of_kind KeyKind.TableData keys.now) (keys_of_kind KeyKind.TableIndex keys.now) (keys_of_kind KeyKind.Staged keys.now) }
{
    Outcome::Freed {
        tiles: of_kind(keys, KeyKind::TableData),
        indexes: of_kind(keys, KeyKind::TableIndex),
        staged: of_kind(keys, KeyKind::Staged),
    }
}
