//! What is left of the row blocks that a range cuts.

ghost use Rattle.std.specs.Prelude.{◌≡◌, slice_range, IfOk, IfErr};
ghost use Rattle.frame_core.specs.Frames.{rows_below, rows_above};
ghost use Rattle.frame_core.specs.Limits.{IsStorable};
ghost use Rattle.bucket_core.specs.Laws.{Looks};
ghost use Rattle.bucket_core.specs.Calls.{IsSteady};
ghost use Rattle.store_model.specs.Law.{IsClaimed};
ghost use Rattle.append_update.specs.Bases.{rows_of_slots, Divides};
ghost use Rattle.append_update.specs.Newest.{IsBaseAt};
ghost use Rattle.append_update.specs.Looking.{AnyBase, RefusesBase};
ghost use Rattle.append_update.specs.Replacing.{IsLeft, AreEdges};

use crate::base::{Base, out_of_memory};
use crate::blocks::block_frame;
use crate::cuts::Cuts;
use crate::pieces::Edges;
use base_types::NoMemory;
use bucket_core::Bucket;
use frame_core::{Frame, Range, Refused};
use key_kind::Symbol;
use std::alloc::Global;
use std::sync::Wait;
use version_chain::StoreLaw;

/// What is left of the row blocks that a range cuts at its beginning and at its end, by a look for each of their slots. It may wait
/// for the store.
pub(crate) fn edges_of<R: Wait, B: Bucket<StoreLaw>>(
    rt: &R,
    alloc: Global,
    bucket: &mut B,
    symbol: &Symbol,
    base: &Base,
    range: Range,
    cuts: Cuts,
) -> Result<Edges, Refused>
    requires base { IsBaseAt (B.number bucket.old) (B.seen bucket.old) symbol.now base.now }
    requires cuts { Divides range base.now.index.slots cuts }
    ensures looks { Looks IsClaimed (B.number bucket.old) (B.sole bucket.old) (B.seen bucket.old) (B.seen bucket.new) }
    ensures steady { IsSteady B.number B.limit B.faults B.sole bucket.old bucket.new }
    ensures edges { (b : IsBaseAt (B.number bucket.old) (B.seen bucket.old) symbol.now base.now) → IfOk result (AreEdges b.version.frame range base.now.index.slots cuts) }
    ensures refused { IfErr result (RefusesBase (B.number bucket.old) symbol.now AnyBase base.now.target.place (B.faults bucket.old) (B.faults bucket.new) (B.seen bucket.old) (B.seen bucket.new)) }
{
    let below = edge_below(rt, alloc, bucket, symbol, base, range, cuts)?;
    match edge_above(rt, alloc, bucket, symbol, base, range, cuts) {
        Ok(above) => Ok(Edges { below, above }),
        Err(refused) => Err(refused),
    }
}

/// The rows below the range of the row block that it cuts at its beginning.
fn edge_below<R: Wait, B: Bucket<StoreLaw>>(
    rt: &R,
    alloc: Global,
    bucket: &mut B,
    symbol: &Symbol,
    base: &Base,
    range: Range,
    cuts: Cuts,
) -> Result<Option<Frame>, Refused>
    requires base { IsBaseAt (B.number bucket.old) (B.seen bucket.old) symbol.now base.now }
    requires cuts { Divides range base.now.index.slots cuts }
    ensures looks { Looks IsClaimed (B.number bucket.old) (B.sole bucket.old) (B.seen bucket.old) (B.seen bucket.new) }
    ensures steady { IsSteady B.number B.limit B.faults B.sole bucket.old bucket.new }
    ensures left { (b : IsBaseAt (B.number bucket.old) (B.seen bucket.old) symbol.now base.now) → IfOk result (IsLeft b.version.frame (rows_below range (rows_of_slots b.version.frame (slice_range base.now.index.slots cuts.below cuts.begun)))) }
    ensures refused { IfErr result (RefusesBase (B.number bucket.old) symbol.now AnyBase base.now.target.place (B.faults bucket.old) (B.faults bucket.new) (B.seen bucket.old) (B.seen bucket.new)) }
{
    if cuts.below == cuts.begun {
        return Ok(None);
    }
    let block = block_frame(rt, alloc, bucket, symbol, base, cuts.below, cuts.begun)?;
    match rows_below(alloc, block, range) {
        Ok(frame) => Ok(Some(frame)),
        Err(_) => Err(out_of_memory(bucket.place())),
    }
}

/// The rows above the range of the row block that it cuts at its end.
fn edge_above<R: Wait, B: Bucket<StoreLaw>>(
    rt: &R,
    alloc: Global,
    bucket: &mut B,
    symbol: &Symbol,
    base: &Base,
    range: Range,
    cuts: Cuts,
) -> Result<Option<Frame>, Refused>
    requires base { IsBaseAt (B.number bucket.old) (B.seen bucket.old) symbol.now base.now }
    requires cuts { Divides range base.now.index.slots cuts }
    ensures looks { Looks IsClaimed (B.number bucket.old) (B.sole bucket.old) (B.seen bucket.old) (B.seen bucket.new) }
    ensures steady { IsSteady B.number B.limit B.faults B.sole bucket.old bucket.new }
    ensures left { (b : IsBaseAt (B.number bucket.old) (B.seen bucket.old) symbol.now base.now) → IfOk result (IsLeft b.version.frame (rows_above range (rows_of_slots b.version.frame (slice_range base.now.index.slots cuts.ended cuts.reached)))) }
    ensures refused { IfErr result (RefusesBase (B.number bucket.old) symbol.now AnyBase base.now.target.place (B.faults bucket.old) (B.faults bucket.new) (B.seen bucket.old) (B.seen bucket.new)) }
{
    if cuts.ended == cuts.reached {
        return Ok(None);
    }
    let block = block_frame(rt, alloc, bucket, symbol, base, cuts.ended, cuts.reached)?;
    match rows_above(alloc, block, range) {
        Ok(frame) => Ok(Some(frame)),
        Err(_) => Err(out_of_memory(bucket.place())),
    }
}

/// The rows of a frame that lie below a range.
fn rows_below(alloc: Global, frame: Frame, range: Range) -> Result<Frame, NoMemory>
    requires storable { IsStorable frame }
    ensures { IfOk result (λ made. made ≡ record frame { rows = rows_below range frame.rows }) }
{
    let (below, _) = frame.rows_between(range);
    frame.slice(alloc, 0, below)
}

/// The rows of a frame that lie above a range.
fn rows_above(alloc: Global, frame: Frame, range: Range) -> Result<Frame, NoMemory>
    requires storable { IsStorable frame }
    ensures { IfOk result (λ made. made ≡ record frame { rows = rows_above range frame.rows }) }
{
    let (_, reached) = frame.rows_between(range);
    frame.slice(alloc, reached, frame.rows())
}
