//! The tries of a command that makes a version on the newest live one.

ghost use Rattle.std.specs.Prelude.{◌≤◌};
ghost use Rattle.segment_cut.specs.Cuttings.{IsCutting};
ghost use Rattle.bucket_core.specs.Calls.{IsSteady};
ghost use Rattle.frame_write.specs.Tries.{DidTries};
ghost use Rattle.append_update.specs.Asking.{IsWish, IsAnswered, Declines, Wants, FitsBase, Loses};
ghost use Rattle.append_update.specs.Attempts.{DidAttempt};

use crate::asking::plan_on;
use crate::wish::Wish;
use bucket_core::Bucket;
use frame_core::{Refusal, Refused};
use frame_write::{Committed, Options, link_on};
use key_kind::Symbol;
use std::alloc::Global;
use std::sync::Wait;
use version_chain::{StoreLaw, walk_tip};

/// Tries what is asked, until a try is not met by another client's commit, or all were. It may wait for the store.
pub(crate) fn try_all<R: Wait, B: Bucket<StoreLaw>>(
    rt: &R,
    alloc: Global,
    bucket: &mut B,
    symbol: &Symbol,
    wish: &Wish<'_>,
    options: &Options,
) -> Result<Committed, Refused>
    requires wish { IsWish wish.now }
    requires some_tries { 1 ≤ options.now.tries }
    ensures cutting { IsCutting options.now.cutting }
    ensures steady { IsSteady B.number B.limit B.faults B.sole bucket.old bucket.new }
    ensures did { DidTries (B.number bucket.old) (B.sole bucket.old) symbol.now (IsAnswered (B.number bucket.old) symbol.now wish.now options.now) (Declines symbol.now wish.now options.now) (Wants symbol.now wish.now options.now) (Loses symbol.now wish.now) options.now.tries (B.limit bucket.old) (B.faults bucket.old) (B.faults bucket.new) (B.seen bucket.old) (B.seen bucket.new) result }
{
    let _rows = options.cutting.rows();
    let mut met = 0;
    for _ in 0..options.tries {
        let refused = match attempt(rt, alloc, bucket, symbol, wish, options) {
            Ok(committed) => return Ok(committed),
            Err(refused) => refused,
        };
        let Refusal::Moved { now } = refused.why else {
            return Err(refused);
        };
        met = now;
    }
    Err(Refused {
        place: met,
        why: Refusal::Moved { now: met },
    })
}

/// One try of what is asked.
fn attempt<R: Wait, B: Bucket<StoreLaw>>(
    rt: &R,
    alloc: Global,
    bucket: &mut B,
    symbol: &Symbol,
    wish: &Wish<'_>,
    options: &Options,
) -> Result<Committed, Refused>
    requires wish { IsWish wish.now }
    ensures steady { IsSteady B.number B.limit B.faults B.sole bucket.old bucket.new }
    ensures did { DidAttempt (B.number bucket.old) (B.sole bucket.old) symbol.now (IsAnswered (B.number bucket.old) symbol.now wish.now options.now) (Declines symbol.now wish.now options.now) (Wants symbol.now wish.now options.now) (FitsBase wish.now) (B.limit bucket.old) (B.faults bucket.old) (B.faults bucket.new) (B.seen bucket.old) (B.seen bucket.new) result }
{
    let tip = walk_tip(rt, alloc, bucket, symbol, options.prune)?;
    let plan = plan_on(rt, alloc, bucket, symbol, &tip, wish, options)?;
    link_on(rt, alloc, bucket, symbol, &tip, &plan, options)
}
