//! The edges of an update, where the new version is not too large.

ghost use Rattle.std.specs.Prelude.{◌≡◌, ◌⊎◌, None, IfOk, IfErr};
ghost use Rattle.frame_core.specs.Frames.{Frame as Table, replace_range};
ghost use Rattle.frame_core.specs.Limits.{IsStorable, frame_too_large};
ghost use Rattle.frame_core.specs.Ranges.{Range as Ends, IsRange};
ghost use Rattle.bucket_core.specs.Laws.{Looks};
ghost use Rattle.bucket_core.specs.Calls.{IsSteady};
ghost use Rattle.store_model.specs.Law.{IsClaimed};
ghost use Rattle.append_update.specs.Bases.{Divides};
ghost use Rattle.append_update.specs.Looking.{AnyBase, RefusesBase};
ghost use Rattle.append_update.specs.Newest.{IsBaseAt};
ghost use Rattle.append_update.specs.Replacing.{AreEdges, Replaces};
ghost use Rattle.append_update.specs.TooLarge.{IsTooLarge, TellsMany, IsJudged};

use crate::asking::exceeds_texts;
use crate::base::Base;
use crate::cuts::Cuts;
use crate::edges::edges_of;
use crate::pieces::Edges;
use crate::sizes::replaced_too_large;
use bucket_core::Bucket;
use frame_core::{Frame, Range, Refused};
use key_kind::Symbol;
use std::alloc::Global;
use std::sync::Wait;
use version_chain::StoreLaw;

/// What is left of the row blocks that a range cuts. It is refused where the frame's rows in place of those in the range make too
/// large a frame. It may wait for the store.
pub(crate) fn small_edges<R: Wait, B: Bucket<StoreLaw>>(
    rt: &R,
    alloc: Global,
    bucket: &mut B,
    symbol: &Symbol,
    base: &Base,
    frame: &Frame,
    range: Range,
    cuts: Cuts,
) -> Result<Edges, Refused>
    requires base { IsBaseAt (B.number bucket.old) (B.seen bucket.old) symbol.now base.now }
    requires storable { IsStorable frame.now }
    requires order { IsRange range }
    requires cuts { Divides range base.now.index.slots cuts }
    ensures looks { Looks IsClaimed (B.number bucket.old) (B.sole bucket.old) (B.seen bucket.old) (B.seen bucket.new) }
    ensures steady { IsSteady B.number B.limit B.faults B.sole bucket.old bucket.new }
    ensures edges { (b : IsBaseAt (B.number bucket.old) (B.seen bucket.old) symbol.now base.now) → IfOk result (AreEdges b.version.frame range base.now.index.slots cuts) }
    ensures small { (b : IsBaseAt (B.number bucket.old) (B.seen bucket.old) symbol.now base.now) → IfOk result (λ _edges. frame_too_large (record frame.now { rows = replace_range range frame.now.rows b.version.frame.rows }) ≡ None) }
    ensures refused { (b : IsBaseAt (B.number bucket.old) (B.seen bucket.old) symbol.now base.now) → IfErr result (λ refused. RefusesBase (B.number bucket.old) symbol.now AnyBase base.now.target.place (B.faults bucket.old) (B.faults bucket.new) (B.seen bucket.old) (B.seen bucket.new) refused ⊎ IsTooLarge base.now.target.place (record frame.now { rows = replace_range range frame.now.rows b.version.frame.rows }) refused) }
{
    let many = exceeds_texts(rt, alloc, bucket, symbol, base, frame, Some(range))?;
    let edges = match edges_of(rt, alloc, bucket, symbol, base, range, cuts) {
        Ok(edges) => edges,
        Err(refused) => return Err(refused),
    };
    unless_too_large(base, cuts, edges, frame, many)
}

/// The edges again, where the frame whose rows replace those of a base in a range is not too large; `many` tells whether its texts
/// have too many bytes in all.
fn unless_too_large(
    base: &Base,
    cuts: Cuts,
    edges: Edges,
    frame: &Frame,
    many: bool,
) -> Result<Edges, Refused>
    requires storable { IsStorable frame.now }
    requires replaces { (table : Table) × (range : Ends) × Replaces table range base.now.index cuts edges }
    ensures same { IfOk result (λ same. same ≡ edges) }
    ensures judged { (table : Table) (range : Ends) → Replaces table range base.now.index cuts edges → TellsMany table range frame.now many → IsJudged base.now.target.place (record frame.now { rows = replace_range range frame.now.rows table.rows }) result }
{
    match replaced_too_large(&base.index, cuts, &edges, frame, many) {
        Some(why) => Err(Refused {
            place: base.target.place,
            why,
        }),
        None => Ok(edges),
    }
}
