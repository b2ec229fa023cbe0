//! Deletes and prunes: versions that are buried.

ghost use Rattle.std.specs.Prelude.{◌≡◌, ◌≤◌, option_copied};
ghost use Rattle.bucket_core.specs.Calls.{IsSteady};
ghost use Rattle.reply_model.specs.Kinds.{burial_command, Listed, Older};
ghost use Rattle.prune_rule.specs.Replies.{commits_of};
ghost use Rattle.version_chain.specs.Traces.{GoesOn};
ghost use Rattle.library_api.specs.Steps.{reply_with, IsLegalWithTries};

use crate::commit_place::CommitPlace;
use crate::reply::{out_of_memory, plain, refusal, with_commits};
use bucket_core::Bucket;
use key_kind::Symbol;
use prune_rule::{Buried, delete_versions};
use reply_model::{Outcome, Reply};
use std::alloc::Global;
use std::sync::Wait;
use version_chain::StoreLaw;

/// Buries these versions of the symbol, or every live one. It may wait for the store.
pub(crate) fn delete<R: Wait, B: Bucket<StoreLaw>>(
    rt: &R,
    alloc: Global,
    bucket: &mut B,
    symbol: &Symbol,
    versions: Option<&[u64]>,
    tries: u32,
) -> Reply
    requires some_tries { 1 ≤ tries }
    requires few_tries { tries ≤ 1000 }
    ensures steady { IsSteady B.number B.limit B.faults B.sole bucket.old bucket.new }
    ensures grown { GoesOn (B.number bucket.old) (B.sole bucket.old) (B.seen bucket.old) (B.seen bucket.new) }
    ensures legal { IsLegalWithTries (B.limit bucket.old) (B.number bucket.old) tries (B.faults bucket.old) (B.faults bucket.new) (B.seen bucket.old) (B.seen bucket.new) (burial_command symbol.now (Listed (option_copied versions.entry))) result }
{
    let Ok(commit) = CommitPlace::new(alloc) else {
        return refusal(alloc, out_of_memory(bucket.place()));
    };
    match delete_versions(rt, alloc, bucket, symbol, versions, tries) {
        Ok(done) => {
            let outcome = Outcome::Deleted {
                versions: done.versions,
            };
            buried(alloc, commit, &done, outcome)
        }
        Err(refused) => refusal(alloc, refused),
    }
}

/// Buries every live version of the symbol but the newest. It may wait for the store.
pub(crate) fn prune<R: Wait, B: Bucket<StoreLaw>>(
    rt: &R,
    alloc: Global,
    bucket: &mut B,
    symbol: &Symbol,
    tries: u32,
) -> Reply
    requires some_tries { 1 ≤ tries }
    requires few_tries { tries ≤ 1000 }
    ensures steady { IsSteady B.number B.limit B.faults B.sole bucket.old bucket.new }
    ensures grown { GoesOn (B.number bucket.old) (B.sole bucket.old) (B.seen bucket.old) (B.seen bucket.new) }
    ensures legal { IsLegalWithTries (B.limit bucket.old) (B.number bucket.old) tries (B.faults bucket.old) (B.faults bucket.new) (B.seen bucket.old) (B.seen bucket.new) (burial_command symbol.now Older) result }
{
    let Ok(commit) = CommitPlace::new(alloc) else {
        return refusal(alloc, out_of_memory(bucket.place()));
    };
    match prune_rule::prune(rt, alloc, bucket, symbol, tries) {
        Ok(done) => {
            let outcome = Outcome::Pruned {
                versions: done.versions,
            };
            buried(alloc, commit, &done, outcome)
        }
        Err(refused) => refusal(alloc, refused),
    }
}

/// The reply where versions were buried, or none was to be.
fn buried(alloc: Global, commit: CommitPlace, done: &Buried, outcome: Outcome) -> Reply
    ensures { result ≡ reply_with done.now.place (commits_of done.now.commit) outcome }
{
    match done.commit {
        Some(place) => with_commits(alloc, done.place, commit.named(place), outcome),
        None => plain(alloc, done.place, outcome),
    }
}
