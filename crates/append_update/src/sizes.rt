//! How many rows and bytes of text a frame has, and the rows of a base that stay.

ghost use Rattle.std.specs.Prelude.{◌≡◌, ◌≤◌, ◌+◌, true, length, take, drop, option_map, IsTrue, IfOk, ◌↔◌, ◌<◌, Some};
ghost use Rattle.std.specs.List.{list_any};
ghost use Rattle.frame_core.specs.declared.refusal.Extent.TheVariants.{TextBytes};
ghost use Rattle.frame_core.specs.Schemas.{Head};
ghost use Rattle.frame_core.specs.Frames.{Frame as Table, replace_range};
ghost use Rattle.frame_core.specs.Ranges.{Range as Ends};
ghost use Rattle.frame_core.specs.Limits.{IsStorable, frame_too_large, refuse_large};
ghost use Rattle.frame_write.specs.Pieces.{end_of, size_of};
ghost use Rattle.append_update.specs.Sizes.{text_total, kept_rows, is_text};
ghost use Rattle.append_update.specs.Replacing.{left_rows, Replaces};

use crate::blocks::first_row;
use crate::cuts::Cuts;
use crate::judging::exceeded;
use crate::pieces::Edges;
use base_types::NoMemory;
use frame_core::{ColName, ColType, Extent, Frame, Range, Refusal};
use index_tree::{Index, Slot};
use std::alloc::Global;

/// The most bytes that all texts of a frame may have.
pub(crate) const TEXT_LIMIT: u64 = 67_108_864;

/// The bytes of all texts of a frame.
pub(crate) fn text_bytes(frame: &Frame) -> u64
    requires storable { IsStorable frame.now }
    ensures bytes { result ≡ text_total frame.now.rows }
    ensures most { result ≤ 67108864 }
{
    let mut bytes = 0;
    for place in 0..frame.schema().len() as u64 {
        bytes += frame.column(place).text_bytes() as u64;
    }
    bytes
}

/// Whether one of these columns has texts.
pub(crate) fn has_texts(columns: &[(ColName, ColType)]) -> bool
    ensures { result ≡ list_any (λ (c : Head). is_text c.1) columns.now }
{
    columns.iter().any(|column| is_text(column.1))
}

/// Whether cells of this type are texts.
fn is_text(kind: ColType) -> bool
    ensures { result ≡ is_text kind }
{
    match kind {
        ColType::Text => true,
        _ => false,
    }
}

/// The bytes of all texts of those rows of a base that lie outside a range, or of all.
pub(crate) fn kept_text_bytes(
    alloc: Global,
    base: &Frame,
    range: Option<Range>,
) -> Result<u64, NoMemory>
    requires storable { IsStorable base.now }
    ensures bytes { IfOk result (λ bytes. bytes ≡ text_total (kept_rows range base.now.rows)) }
    ensures most { IfOk result (λ bytes. bytes ≤ 134217728) }
{
    let Some(range) = range else {
        return Ok(text_bytes(base));
    };
    let (below, reached) = base.rows_between(range);
    let first = base.slice(alloc, 0, below)?;
    let last = base.slice(alloc, reached, base.rows())?;
    Ok(text_bytes(&first) + text_bytes(&last))
}

/// The refusal of too many bytes of text.
pub(crate) fn too_many_texts() -> Refusal
    ensures { result ≡ refuse_large (TextBytes, 67108864) }
{
    Refusal::TooLarge {
        what: Extent::TextBytes,
        limit: TEXT_LIMIT,
    }
}

/// The refusal of the frame whose rows replace those of a base in a range, if it is too large; `many` tells whether its texts have too
/// many bytes in all.
pub(crate) fn replaced_too_large(
    index: &Index,
    cuts: Cuts,
    edges: &Edges,
    frame: &Frame,
    many: bool,
) -> Option<Refusal>
    requires storable { IsStorable frame.now }
    requires replaces { (base : Table) × (range : Ends) × Replaces base range index.now cuts edges.now }
    ensures { (base : Table) (range : Ends) → Replaces base range index.now cuts edges.now → (IsTrue many ↔ (67108864 < text_total (kept_rows (Some range) base.rows) + text_total frame.now.rows)) → result ≡ option_map refuse_large (frame_too_large (record frame.now { rows = replace_range range frame.now.rows base.rows })) }
{
    let rows = replaced_rows(index.slots.items(), cuts, edges, frame);
    let columns = frame.schema().len() as u64;
    if let Some((what, limit)) = exceeded(rows, columns, 0) {
        return Some(Refusal::TooLarge { what, limit });
    }
    if many {
        return Some(too_many_texts());
    }
    None
}

/// How many rows whole row blocks outside a range, the edges and a frame have together.
fn replaced_rows(slots: &[Slot], cuts: Cuts, edges: &Edges, frame: &Frame) -> u64
    requires storable { IsStorable frame.now }
    requires below { cuts.below ≤ length slots.now }
    requires reached { cuts.reached ≤ length slots.now }
    requires first_few { end_of (take cuts.below slots.now) ≤ 2000000 }
    requires last_few { end_of (drop cuts.reached slots.now) ≤ 2000000 }
    requires below_few { left_rows edges.now.below ≤ 2000000 }
    requires above_few { left_rows edges.now.above ≤ 2000000 }
    ensures { result ≡ size_of (take cuts.below slots.now) + left_rows edges.now.below + length frame.now.rows + left_rows edges.now.above + size_of (drop cuts.reached slots.now) }
{
    let first = run_rows(&slots[..cuts.below]);
    let last = run_rows(&slots[cuts.reached..]);
    first + edge_rows(&edges.below) + frame.rows() + edge_rows(&edges.above) + last
}

/// How many rows are left of a row block.
fn edge_rows(edge: &Option<Frame>) -> u64
    ensures { result ≡ left_rows edge.now }
{
    match edge {
        Some(frame) => frame.rows(),
        None => 0,
    }
}

/// How many rows a run of slots has.
fn run_rows(slots: &[Slot]) -> u64
    requires few { end_of slots.now ≤ 2000000 }
    ensures size { result ≡ size_of slots.now }
    ensures few { result ≤ 2000000 }
{
    row_behind(slots).saturating_sub(first_row(slots))
}

/// The row behind the last of a run of slots.
fn row_behind(slots: &[Slot]) -> u64
    requires few { end_of slots.now ≤ 2000000 }
    ensures { result ≡ end_of slots.now }
{
    match slots.last() {
        Some(slot) => slot.part.first_row + slot.part.rows,
        None => 0,
    }
}
