//! Rows behind those of the newest live version.

ghost use Rattle.std.specs.Prelude.{◌≤◌, IfOk};
ghost use Rattle.frame_core.specs.Limits.{IsStorable};
ghost use Rattle.bucket_core.specs.Calls.{IsSteady};
ghost use Rattle.version_chain.specs.Traces.{GoesOn};
ghost use Rattle.reply_model.specs.CommitAnswers.{append_answer};
ghost use Rattle.reply_model.specs.Standing.{GrowsAlone};
ghost use Rattle.append_update.specs.Replies.{IsLegalAppend};
ghost use Rattle.append_update.specs.RowBlocks.{LaysAs};
ghost use Rattle.append_update.specs.Shares.{AppendsSlots, SharesAs};
ghost use Rattle.reply_model.specs.Blocks.{run_cutting};

use crate::attempt::try_all;
use crate::wish::Wish;
use bucket_core::Bucket;
use frame_core::{Frame, Refused};
use frame_write::{Committed, Options};
use key_kind::Symbol;
use std::alloc::Global;
use std::sync::Wait;
use version_chain::StoreLaw;

/// Appends the frame's rows to those of the symbol's newest live version, as a new version, in at most so many tries. Where there
/// is none, it writes the frame. It may wait for the store.
///
/// Each try walks the symbol's chain and gets the index of the newest live version, and no tile unless the bytes of all texts might
/// be too many. The new version shares all tiles of that one; the new rows are cut by themselves. It refuses, in this order, columns
/// that differ from the base's, a first stamp below the base's last, and a whole that is too large.
pub fn append<R: Wait, B: Bucket<StoreLaw>>(
    rt: &R,
    alloc: Global,
    bucket: &mut B,
    symbol: &Symbol,
    frame: &Frame,
    options: &Options,
) -> Result<Committed, Refused>
    requires storable { IsStorable frame.now }
    requires some_tries { 1 ≤ options.now.tries }
    requires few_tries { options.now.tries ≤ 1000 }
    ensures steady { IsSteady B.number B.limit B.faults B.sole bucket.old bucket.new }
    ensures grown { GoesOn (B.number bucket.old) (B.sole bucket.old) (B.seen bucket.old) (B.seen bucket.new) }
    ensures legal { IsLegalAppend (B.limit bucket.old) (B.number bucket.old) symbol.now frame.now options.now (B.faults bucket.old) (B.faults bucket.new) (B.seen bucket.old) (B.seen bucket.new) result }
    // Whatever other clients do, each slot of the newest live version just before the commit stays as it was, and behind them stand
    // those of the frame.
    ensures shares { IfOk result (λ done. SharesAs (B.number bucket.old) symbol.now (AppendsSlots symbol.now options.now.cutting frame.now) done.place (B.seen bucket.old) (B.seen bucket.new)) }
    // Where nobody else makes events, the place and the row blocks of the commit are known.
    ensures lays { GrowsAlone (B.number bucket.old) (B.seen bucket.old) (B.seen bucket.new) → IfOk result (λ done. LaysAs (run_cutting options.now.cutting) symbol.now (λ st. append_answer st options.now.prune options.now.at frame.now) done.place (B.seen bucket.old) (B.seen bucket.new)) }
{
    try_all(rt, alloc, bucket, symbol, &Wish::Append(frame), options)
}
