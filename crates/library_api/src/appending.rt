//! An append: a frame of the session behind the rows of the newest live version.

ghost use Rattle.std.specs.Prelude.{◌≤◌};
ghost use Rattle.frame_core.specs.RawFrames.{table_of};
ghost use Rattle.bucket_core.specs.Calls.{IsSteady};
ghost use Rattle.version_chain.specs.Traces.{GoesOn};
ghost use Rattle.reply_model.specs.CommitAnswers.{append_answer};
ghost use Rattle.reply_model.specs.Standing.{GrowsAlone};
ghost use Rattle.library_api.specs.Frames.{IsLegalForTable, LaysForTable};

use crate::preparing::{committed, prepare};
use crate::reply::refusal;
use bucket_core::Bucket;
use expr_clause::Command;
use frame_core::RawFrame;
use frame_write::Options;
use key_kind::Symbol;
use reply_model::Reply;
use std::alloc::Global;
use std::sync::Wait;
use version_chain::StoreLaw;

/// Appends the rows of raw columns to those of the symbol's newest live version, as a new version. What a frame may not be is refused
/// before any call. It may wait for the store.
pub(crate) fn append<R: Wait, B: Bucket<StoreLaw>>(
    rt: &R,
    alloc: Global,
    bucket: &mut B,
    symbol: &Symbol,
    raw: &RawFrame,
    options: &Options,
) -> Reply
    requires some_tries { 1 ≤ options.now.tries }
    requires few_tries { options.now.tries ≤ 1000 }
    ensures steady { IsSteady B.number B.limit B.faults B.sole bucket.old bucket.new }
    ensures grown { GoesOn (B.number bucket.old) (B.sole bucket.old) (B.seen bucket.old) (B.seen bucket.new) }
    ensures legal { IsLegalForTable (B.limit bucket.old) (B.number bucket.old) options.now.tries (table_of raw.now) options.now.at (λ n asked. Command.Append symbol.now n asked options.now.prune) (B.faults bucket.old) (B.faults bucket.new) (B.seen bucket.old) (B.seen bucket.new) result }
    // Where nobody else makes events, the place and the row blocks are known.
    ensures lays { GrowsAlone (B.number bucket.old) (B.seen bucket.old) (B.seen bucket.new) → LaysForTable options.now.cutting symbol.now (table_of raw.now) (λ frame st. append_answer st options.now.prune options.now.at frame) (B.seen bucket.old) (B.seen bucket.new) result }
{
    match prepare(alloc, bucket.place(), raw) {
        Ok(prepared) => {
            let done = append_update::append(rt, alloc, bucket, symbol, &prepared.frame, options);
            committed(alloc, prepared.commit, done)
        }
        Err(refused) => refusal(alloc, refused),
    }
}
