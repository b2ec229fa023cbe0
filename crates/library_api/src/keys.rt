//! The numbers of a symbol's stored keys, of each kind.

ghost use Rattle.std.specs.Prelude.{◌≡◌, count_by};
ghost use Rattle.key_kind.specs.Keys.{same_kind};
ghost use Rattle.bucket_core.specs.Laws.{Looks};
ghost use Rattle.bucket_core.specs.Calls.{IsSteady};
ghost use Rattle.store_model.specs.Law.{IsClaimed};
ghost use Rattle.library_api.specs.Steps.{IsLegalForAll};

use crate::reply::{plain, refusal};
use bucket_core::{Bucket, StoreErr};
use expr_clause::Command;
use frame_core::{Refusal, Refused};
use key_kind::{Key, KeyKind, Symbol};
use reply_model::{Outcome, Reply};
use std::alloc::Global;
use std::sync::Wait;
use version_chain::StoreLaw;

/// Counts the keys of the symbol that are stored, by one list, whose place the reply has. It may wait for the store.
pub(crate) fn keys<R: Wait, B: Bucket<StoreLaw>>(
    rt: &R,
    alloc: Global,
    bucket: &mut B,
    symbol: &Symbol,
) -> Reply
    ensures looks { Looks IsClaimed (B.number bucket.old) (B.sole bucket.old) (B.seen bucket.old) (B.seen bucket.new) }
    ensures steady { IsSteady B.number B.limit B.faults B.sole bucket.old bucket.new }
    ensures legal { IsLegalForAll (B.number bucket.old) (B.faults bucket.old) (B.faults bucket.new) (B.seen bucket.old) (B.seen bucket.new) (Command.Keys symbol.now) result }
{
    let place = bucket.place();
    match bucket.list(rt, None, Some(symbol.name())) {
        Ok(listed) => plain(alloc, listed.place, counted(listed.keys.items())),
        Err(StoreErr::Fault) => refusal(
            alloc,
            Refused {
                place,
                why: Refusal::StoreFault,
            },
        ),
        Err(_) => refusal(
            alloc,
            Refused {
                place,
                why: Refusal::NoMemory,
            },
        ),
    }
}

/// How many of these keys are of each kind.
fn counted(keys: &[Key]) -> Outcome
    ensures { result ≡ Outcome.Keys (count_by (λ k. same_kind k.kind KeyKind.TableData) keys.now) (count_by (λ k. same_kind k.kind KeyKind.TableIndex) keys.now) (count_by (λ k. same_kind k.kind KeyKind.Version) keys.now) (count_by (λ k. same_kind k.kind KeyKind.VersionRef) keys.now) (count_by (λ k. same_kind k.kind KeyKind.Staged) keys.now) }
{
    Outcome::Keys {
        tiles: of_kind(keys, KeyKind::TableData),
        indexes: of_kind(keys, KeyKind::TableIndex),
        versions: of_kind(keys, KeyKind::Version),
        refs: of_kind(keys, KeyKind::VersionRef),
        staged: of_kind(keys, KeyKind::Staged),
    }
}

/// How many of these keys are of a kind.
pub(crate) fn of_kind(keys: &[Key], kind: KeyKind) -> u64
    ensures { result ≡ count_by (λ k. same_kind k.kind kind) keys.now }
{
    keys.iter().filter(|key| key.kind == kind).count() as u64
}
