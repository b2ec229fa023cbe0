//! The plans of new versions on a base, or on none.

ghost use Rattle.std.specs.Prelude.{◌≡◌, ◌≤◌, [], ◌∷◌, length, IfOk};
ghost use Rattle.bucket_core.specs.declared.event.Change.TheVariants.{Appended, Updated};
ghost use Rattle.index_tree.specs.IndexRules.{IsIndex};
ghost use Rattle.frame_write.specs.declared.pieces.Piece.TheVariants.{Fresh};
ghost use Rattle.append_update.specs.Replacing.{appended, replaced};

use crate::cuts::Cuts;
use crate::pieces::{Edges, pieces_appended, pieces_replaced};
use base_types::{Items, Keep, NoMemory};
use bucket_core::Change;
use frame_core::{Frame, Range, Schema};
use frame_write::{LinkPlan, Piece};
use index_tree::{Index, PackedIndex};
use std::alloc::Global;

/// The frame as a version of its own, with this change.
pub(crate) fn plan_alone(alloc: Global, frame: &Frame, change: Change) -> Result<LinkPlan, NoMemory>
    ensures { IfOk result (λ plan. plan ≡ record { schema = frame.now.schema; pieces = Fresh frame.now ∷ []; change = change }) }
{
    match one_piece(alloc, frame) {
        Ok(pieces) => plan_with(alloc, frame.schema(), pieces, change),
        Err(why) => Err(why),
    }
}

/// One piece of the frame.
fn one_piece(alloc: Global, frame: &Frame) -> Result<Items<Piece>, NoMemory>
    ensures { IfOk result (λ pieces. pieces ≡ Fresh frame.now ∷ []) }
{
    let mut pieces = Items::new(alloc);
    pieces.push(Piece::Fresh(frame.copy(alloc)?))?;
    Ok(pieces)
}

/// The frame's rows behind those of the base with this index.
pub(crate) fn plan_append(
    alloc: Global,
    index: &PackedIndex,
    frame: &Frame,
    at: i64,
) -> Result<LinkPlan, NoMemory>
    ensures { IfOk result (λ plan. plan ≡ record { schema = frame.now.schema; pieces = appended index.now.slots frame.now; change = Appended frame.now at }) }
{
    let pieces = pieces_appended(alloc, index.slots(), frame.copy(alloc)?)?;
    let change = Change::Appended {
        frame: frame.copy(alloc)?,
        at,
    };
    plan_with(alloc, frame.schema(), pieces, change)
}

/// The frame's rows in place of those in the range of the base with this index.
pub(crate) fn plan_update(
    alloc: Global,
    index: &Index,
    cuts: Cuts,
    edges: Edges,
    frame: &Frame,
    range: Range,
    at: i64,
) -> Result<LinkPlan, NoMemory>
    requires rules { IsIndex index.now }
    requires below { cuts.below ≤ length index.now.slots }
    requires reached { cuts.reached ≤ length index.now.slots }
    ensures { IfOk result (λ plan. plan ≡ record { schema = frame.now.schema; pieces = replaced index.now.slots cuts edges frame.now; change = Updated frame.now range at }) }
{
    let pieces = pieces_of_update(alloc, index, cuts, edges, frame)?;
    let change = Change::Updated {
        frame: frame.copy(alloc)?,
        range,
        at,
    };
    plan_with(alloc, frame.schema(), pieces, change)
}

/// The pieces of an update of the base with this index, of which one is a copy of the frame.
fn pieces_of_update(
    alloc: Global,
    index: &Index,
    cuts: Cuts,
    edges: Edges,
    frame: &Frame,
) -> Result<Items<Piece>, NoMemory>
    requires rules { IsIndex index.now }
    requires below { cuts.below ≤ length index.now.slots }
    requires reached { cuts.reached ≤ length index.now.slots }
    ensures { IfOk result (λ pieces. pieces ≡ replaced index.now.slots cuts edges frame.now) }
{
    pieces_replaced(alloc, index.slots.items(), cuts, edges, frame.copy(alloc)?)
}

/// The plan of these pieces and this change.
fn plan_with(
    alloc: Global,
    schema: &Schema,
    pieces: Items<Piece>,
    change: Change,
) -> Result<LinkPlan, NoMemory>
    ensures { IfOk result (λ plan. plan ≡ record { schema = schema.now; pieces = pieces; change = change }) }
{
    match schema.copy(alloc) {
        Ok(schema) => Ok(LinkPlan {
            schema,
            pieces,
            change,
        }),
        Err(why) => Err(why),
    }
}
