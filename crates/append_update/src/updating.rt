//! Rows in place of those of the newest live version in a range.

ghost use Rattle.std.specs.Prelude.{◌≡◌, ◌≤◌, Some, None, IfOk};
ghost use Rattle.frame_core.specs.Ranges.{IsRange, is_within};
ghost use Rattle.frame_core.specs.Limits.{IsStorable};
ghost use Rattle.bucket_core.specs.Calls.{IsSteady};
ghost use Rattle.version_chain.specs.Traces.{GoesOn};
ghost use Rattle.reply_model.specs.CommitAnswers.{update_answer, update_range, outside};
ghost use Rattle.reply_model.specs.Standing.{GrowsAlone};
ghost use Rattle.reply_model.specs.CommitAnswers.{clear_answer};
ghost use Rattle.append_update.specs.Replies.{IsLegalUpdate, IsLegalDelete};
ghost use Rattle.append_update.specs.RowBlocks.{LaysAs};
ghost use Rattle.append_update.specs.Shares.{UpdatesSlots, ClearsSlots, SharesAs};
ghost use Rattle.reply_model.specs.Blocks.{run_cutting};

use crate::attempt::try_all;
use crate::cuts::{above, below};
use crate::wish::Wish;
use bucket_core::Bucket;
use frame_core::{Frame, Range, Refusal, Refused};
use frame_write::{Committed, Options};
use key_kind::Symbol;
use std::alloc::Global;
use std::sync::Wait;
use version_chain::StoreLaw;

/// Replaces the rows of the symbol's newest live version in a range by the frame's, as a new version, in at most so many tries. The
/// range is the given one, or it reaches from the frame's first to its last stamp. It may wait for the store.
///
/// Each try walks the symbol's chain and gets the index of the newest live version, and the tiles of the row blocks that the range
/// cuts; whole blocks on either side are shared and not read, unless the bytes of all texts might be too many. It refuses, in this
/// order, a row outside the given range, no rows where no range is given, a symbol or a live version that is not there unless it is
/// an upsert, columns that differ from the base's, and a whole that is too large.
pub fn update<R: Wait, B: Bucket<StoreLaw>>(
    rt: &R,
    alloc: Global,
    bucket: &mut B,
    symbol: &Symbol,
    frame: &Frame,
    range: Option<Range>,
    upsert: bool,
    options: &Options,
) -> Result<Committed, Refused>
    requires storable { IsStorable frame.now }
    requires some_tries { 1 ≤ options.now.tries }
    requires few_tries { options.now.tries ≤ 1000 }
    ensures steady { IsSteady B.number B.limit B.faults B.sole bucket.old bucket.new }
    ensures grown { GoesOn (B.number bucket.old) (B.sole bucket.old) (B.seen bucket.old) (B.seen bucket.new) }
    ensures legal { IsLegalUpdate (B.limit bucket.old) (B.number bucket.old) symbol.now frame.now range upsert options.now (B.faults bucket.old) (B.faults bucket.new) (B.seen bucket.old) (B.seen bucket.new) result }
    // Whatever other clients do, the slots of whole row blocks outside the range are shared, and all others are new.
    ensures shares { IfOk result (λ done. SharesAs (B.number bucket.old) symbol.now (UpdatesSlots symbol.now options.now.cutting range frame.now) done.place (B.seen bucket.old) (B.seen bucket.new)) }
    // Where nobody else makes events, the place and the row blocks of the commit are known.
    ensures lays { GrowsAlone (B.number bucket.old) (B.seen bucket.old) (B.seen bucket.new) → IfOk result (λ done. LaysAs (run_cutting options.now.cutting) symbol.now (λ st. update_answer st upsert options.now.prune options.now.at range frame.now) done.place (B.seen bucket.old) (B.seen bucket.new)) }
{
    match range_of(frame, range) {
        Ok(range) => try_all(
            rt,
            alloc,
            bucket,
            symbol,
            &Wish::Replace {
                frame,
                range,
                upsert,
            },
            options,
        ),
        Err(why) => Err(Refused {
            place: bucket.place(),
            why,
        }),
    }
}

/// Takes the rows of the symbol's newest live version in a range away, as a new version: an update by no rows, of the base's columns.
/// It may wait for the store.
pub fn delete_range<R: Wait, B: Bucket<StoreLaw>>(
    rt: &R,
    alloc: Global,
    bucket: &mut B,
    symbol: &Symbol,
    range: Range,
    options: &Options,
) -> Result<Committed, Refused>
    requires some_tries { 1 ≤ options.now.tries }
    requires few_tries { options.now.tries ≤ 1000 }
    ensures steady { IsSteady B.number B.limit B.faults B.sole bucket.old bucket.new }
    ensures grown { GoesOn (B.number bucket.old) (B.sole bucket.old) (B.seen bucket.old) (B.seen bucket.new) }
    ensures legal { IsLegalDelete (B.limit bucket.old) (B.number bucket.old) symbol.now range options.now (B.faults bucket.old) (B.faults bucket.new) (B.seen bucket.old) (B.seen bucket.new) result }
    // Whatever other clients do, the slots of whole row blocks outside the range are shared, and all others are new.
    ensures shares { IfOk result (λ done. SharesAs (B.number bucket.old) symbol.now (ClearsSlots symbol.now options.now.cutting range) done.place (B.seen bucket.old) (B.seen bucket.new)) }
    // Where nobody else makes events, the place and the row blocks of the commit are known.
    ensures lays { GrowsAlone (B.number bucket.old) (B.seen bucket.old) (B.seen bucket.new) → IfOk result (λ done. LaysAs (run_cutting options.now.cutting) symbol.now (clear_answer range options.now.prune options.now.at) done.place (B.seen bucket.old) (B.seen bucket.new)) }
{
    let range = ordered(range);
    try_all(rt, alloc, bucket, symbol, &Wish::Clear(range), options)
}

/// The range of an update: the given one, in which all rows must lie, or that from the frame's first to its last stamp.
fn range_of(frame: &Frame, range: Option<Range>) -> Result<Range, Refusal>
    requires storable { IsStorable frame.now }
    ensures range { result ≡ update_range range frame.now }
    ensures order { IfOk result IsRange }
    ensures inside { IfOk result (λ made. outside 1 made frame.now.rows ≡ None) }
{
    match range {
        Some(range) => given_range(frame, range),
        None => whole_range(frame),
    }
}

/// The given range, in which all rows must lie.
fn given_range(frame: &Frame, range: Range) -> Result<Range, Refusal>
    ensures range { result ≡ update_range (Some range) frame.now }
    ensures order { IfOk result IsRange }
    ensures inside { IfOk result (λ made. outside 1 made frame.now.rows ≡ None) }
{
    match first_outside(frame, range) {
        Some(row) => Err(Refusal::OutsideRange { row }),
        None => Ok(ordered(range)),
    }
}

/// The range from the first to the last stamp.
fn whole_range(frame: &Frame) -> Result<Range, Refusal>
    requires storable { IsStorable frame.now }
    ensures range { result ≡ update_range None frame.now }
    ensures order { IfOk result IsRange }
    ensures inside { IfOk result (λ made. outside 1 made frame.now.rows ≡ None) }
{
    let Some(first) = frame.first_stamp() else {
        return Err(Refusal::EmptyUpdate);
    };
    let Some(range) = Range::make(Some(first), frame.last_stamp()) else {
        return Err(Refusal::EmptyUpdate);
    };
    Ok(ordered(range))
}

/// The range, of which a contract learns here that its ends stand in order.
fn ordered(range: Range) -> Range
    ensures same { result ≡ range }
    ensures order { IsRange result }
{
    let _from = range.from();
    range
}

/// The first row, counted from 1, whose stamp lies outside a range.
fn first_outside(frame: &Frame, range: Range) -> Option<u64>
    ensures { result ≡ outside 1 range frame.now.rows }
{
    for row in 0..frame.rows() {
        if !is_within(range, frame.stamp(row)) {
            return Some(row + 1);
        }
    }
    None
}

/// Whether a stamp lies in a range.
fn is_within(range: Range, stamp: i64) -> bool
    ensures { result ≡ is_within range stamp }
{
    !below(range, stamp) && !above(range, stamp)
}
