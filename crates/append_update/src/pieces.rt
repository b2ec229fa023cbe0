//! The pieces of a new version on a base.

ghost use Rattle.std.specs.Prelude.{◌≡◌, ◌≤◌, [], ◌∷◌, ◌++◌, length, IfOk, OnOk};
ghost use Rattle.std.specs.List.{AllByRecursion};
ghost use Rattle.index_tree.specs.IndexRules.{FitsSlot};
ghost use Rattle.frame_write.specs.declared.pieces.Piece.TheVariants.{Fresh, Shared};
ghost use Rattle.append_update.specs.Replacing.{fresh, appended, replaced};

use crate::cuts::Cuts;
use base_types::{Items, Keep, NoMemory};
use frame_core::Frame;
use frame_write::Piece;
use index_tree::{Slot, SlotText};
use std::alloc::Global;

/// What is left of the row blocks that a range cuts.
#[derive(Drop)]
pub(crate) struct Edges {
    /// The rows below the range in the block that it cuts at its beginning, if there is one.
    pub(crate) below: Option<Frame>,
    /// The rows above the range in the block that it cuts at its end.
    pub(crate) above: Option<Frame>,
}

/// All rows of the base, by its slots, and behind them a frame's.
pub(crate) fn pieces_appended(
    alloc: Global,
    slots: &SlotText,
    frame: Frame,
) -> Result<Items<Piece>, NoMemory>
    ensures { IfOk result (λ pieces. pieces ≡ appended slots.now frame) }
{
    let mut pieces = Items::new(alloc);
    pieces.push(Piece::Shared(slots.copy(alloc)?))?;
    pieces.push(Piece::Fresh(frame))?;
    Ok(pieces)
}

/// The base's rows below the range, a frame's, and the base's rows above it. What lies in whole row blocks stays in their slots.
pub(crate) fn pieces_replaced(
    alloc: Global,
    slots: &[Slot],
    cuts: Cuts,
    edges: Edges,
    frame: Frame,
) -> Result<Items<Piece>, NoMemory>
    requires fits { AllByRecursion FitsSlot slots.now }
    requires below { cuts.below ≤ length slots.now }
    requires reached { cuts.reached ≤ length slots.now }
    ensures { IfOk result (λ pieces. pieces ≡ replaced slots.now cuts edges frame) }
{
    let mut pieces = Items::new(alloc);
    push_shared(&mut pieces, alloc, &slots[..cuts.below])?;
    push_middle(&mut pieces, edges, frame)?;
    push_shared(&mut pieces, alloc, &slots[cuts.reached..])?;
    Ok(pieces)
}

/// Puts slots of the base behind the pieces.
fn push_shared(pieces: &mut Items<Piece>, alloc: Global, slots: &[Slot]) -> Result<(), NoMemory>
    requires fits { AllByRecursion FitsSlot slots.now }
    ensures { OnOk result (pieces.new ≡ pieces.old ++ Shared slots.now ∷ []) }
{
    pieces.push(Piece::Shared(SlotText::of(alloc, slots)?))
}

/// Puts what takes the place of the base's rows in the range behind the pieces: the frame, with the edges on both sides of it.
fn push_middle(pieces: &mut Items<Piece>, edges: Edges, frame: Frame) -> Result<(), NoMemory>
    ensures { OnOk result (pieces.new ≡ pieces.old ++ (fresh edges.below ++ (Fresh frame ∷ fresh edges.above))) }
{
    let Edges { below, above } = edges;
    push_fresh(pieces, below)?;
    pieces.push(Piece::Fresh(frame))?;
    push_fresh(pieces, above)
}

/// Puts a frame behind the pieces, if there is one.
fn push_fresh(pieces: &mut Items<Piece>, frame: Option<Frame>) -> Result<(), NoMemory>
    ensures { OnOk result (pieces.new ≡ pieces.old ++ fresh frame) }
{
    match frame {
        Some(frame) => pieces.push(Piece::Fresh(frame)),
        None => Ok(()),
    }
}
