//! Updates and deletes of a range: rows of the newest live version that are replaced or taken away.

ghost use Rattle.std.specs.Prelude.{◌≤◌};
ghost use Rattle.frame_core.specs.RawFrames.{table_of};
ghost use Rattle.bucket_core.specs.Calls.{IsSteady};
ghost use Rattle.version_chain.specs.Traces.{GoesOn};
ghost use Rattle.reply_model.specs.CommitAnswers.{update_answer};
ghost use Rattle.reply_model.specs.Standing.{GrowsAlone};
ghost use Rattle.reply_model.specs.CommitAnswers.{clear_answer};
ghost use Rattle.library_api.specs.Frames.{IsLegalForTable, IsLegalWithStamp, LaysForTable, LaysDone};

use crate::commit_place::CommitPlace;
use crate::preparing::{committed, prepare};
use crate::reply::{out_of_memory, refusal};
use bucket_core::Bucket;
use expr_clause::Command;
use frame_core::{Range, RawFrame};
use frame_write::Options;
use key_kind::Symbol;
use reply_model::Reply;
use std::alloc::Global;
use std::sync::Wait;
use version_chain::StoreLaw;

/// Replaces the rows of the symbol's newest live version in a range by those of raw columns, as a new version. The range is the given
/// one, or it reaches from the first to the last of the raw stamps. What a frame may not be is refused before any call. It may wait for
/// the store.
pub(crate) fn update<R: Wait, B: Bucket<StoreLaw>>(
    rt: &R,
    alloc: Global,
    bucket: &mut B,
    symbol: &Symbol,
    raw: &RawFrame,
    range: Option<Range>,
    upsert: bool,
    options: &Options,
) -> Reply
    requires some_tries { 1 ≤ options.now.tries }
    requires few_tries { options.now.tries ≤ 1000 }
    ensures steady { IsSteady B.number B.limit B.faults B.sole bucket.old bucket.new }
    ensures grown { GoesOn (B.number bucket.old) (B.sole bucket.old) (B.seen bucket.old) (B.seen bucket.new) }
    ensures legal { IsLegalForTable (B.limit bucket.old) (B.number bucket.old) options.now.tries (table_of raw.now) options.now.at (λ n asked. Command.Update symbol.now n range upsert asked options.now.prune) (B.faults bucket.old) (B.faults bucket.new) (B.seen bucket.old) (B.seen bucket.new) result }
    // Where nobody else makes events, the place and the row blocks are known.
    ensures lays { GrowsAlone (B.number bucket.old) (B.seen bucket.old) (B.seen bucket.new) → LaysForTable options.now.cutting symbol.now (table_of raw.now) (λ frame st. update_answer st upsert options.now.prune options.now.at range frame) (B.seen bucket.old) (B.seen bucket.new) result }
{
    match prepare(alloc, bucket.place(), raw) {
        Ok(prepared) => {
            let done = append_update::update(
                rt,
                alloc,
                bucket,
                symbol,
                &prepared.frame,
                range,
                upsert,
                options,
            );
            committed(alloc, prepared.commit, done)
        }
        Err(refused) => refusal(alloc, refused),
    }
}

/// Takes the rows of the symbol's newest live version in a range away, as a new version. It may wait for the store.
pub(crate) fn delete_range<R: Wait, B: Bucket<StoreLaw>>(
    rt: &R,
    alloc: Global,
    bucket: &mut B,
    symbol: &Symbol,
    range: Range,
    options: &Options,
) -> Reply
    requires some_tries { 1 ≤ options.now.tries }
    requires few_tries { options.now.tries ≤ 1000 }
    ensures steady { IsSteady B.number B.limit B.faults B.sole bucket.old bucket.new }
    ensures grown { GoesOn (B.number bucket.old) (B.sole bucket.old) (B.seen bucket.old) (B.seen bucket.new) }
    ensures legal { IsLegalWithStamp (B.limit bucket.old) (B.number bucket.old) options.now.tries options.now.at (λ asked. Command.DeleteRange symbol.now range asked options.now.prune) (B.faults bucket.old) (B.faults bucket.new) (B.seen bucket.old) (B.seen bucket.new) result }
    // Where nobody else makes events, the place and the row blocks are known.
    ensures lays { GrowsAlone (B.number bucket.old) (B.seen bucket.old) (B.seen bucket.new) → LaysDone options.now.cutting symbol.now (clear_answer range options.now.prune options.now.at) (B.seen bucket.old) (B.seen bucket.new) result }
{
    let Ok(commit) = CommitPlace::new(alloc) else {
        return refusal(alloc, out_of_memory(bucket.place()));
    };
    let done = append_update::delete_range(rt, alloc, bucket, symbol, range, options);
    committed(alloc, commit, done)
}
