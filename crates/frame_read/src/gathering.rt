//! The cells and the stamps that tiles have in a range, each row once.

ghost use Rattle.std.specs.Prelude.{◌≡◌, ◌≤◌, ◌-◌, ◌++◌, length, map, slice_range, Some, IfOk, OnOk};
ghost use Rattle.std.specs.List.{AllByRecursion, AllZip};
ghost use Rattle.std.specs.List.Sorted.{IsPermutation, IsNonDecreasingBy};
ghost use Rattle.frame_core.specs.Schemas.{Head};
ghost use Rattle.frame_core.specs.Frames.{IsFrame, type_at};
ghost use Rattle.frame_core.specs.Columns.{column_type, column_cells, cells_of};
ghost use Rattle.segment_cut.specs.Tiles.{Tile};
ghost use Rattle.frame_read.specs.Gathers.{fresh, reach, cells_gathered, stamps_gathered, HasType, HasSegment, IsOpened};

use crate::copying::{cells_between, stamps_between};
use crate::searching::{Edge, edge_row};
use crate::tile_view::TileView;
use crate::tiles::FetchedTile;
use base_types::{Items, NoMemory};
use frame_core::{ColName, ColType, Column, Part, Range};
use segment_bytes::view_spelled;
use std::alloc::Global;

/// The tiles, each viewed once where its bytes lie.
pub(crate) fn opened<'a>(
    alloc: Global,
    tiles: &'a [FetchedTile],
) -> Result<Vec<(Part, TileView<'a>)>, NoMemory>
    requires { AllByRecursion HasSegment tiles.now }
    ensures { IfOk result (λ made. AllZip IsOpened tiles.now made.items) }
{
    let mut made = Vec::with_capacity(alloc, tiles.len())?;
    for tile in tiles {
        let frame = opened_frame(alloc, tile)?;
        made.push((tile.part, frame))?;
    }
    Ok(made)
}

/// The view of a tile's segment.
fn opened_frame(alloc: Global, tile: &FetchedTile) -> Result<TileView<'_>, NoMemory>
    requires { HasSegment tile.now }
    ensures { IfOk result (λ frame. IsOpened tile.now (tile.now.part, frame)) }
{
    TileView::make(alloc, view_spelled(tile.body.bytes()))
}

/// Puts the tiles in the order of their first rows.
pub(crate) fn sort(tiles: &mut Vec<(Part, TileView<'_>)>)
    ensures same { IsPermutation tiles.old.items tiles.new.items }
    ensures rising { IsNonDecreasingBy (λ (t : Tile). t.0.first_row) tiles.new.items }
{
    tiles.sort_unstable_by_key(|tile| tile.0.first_row);
}

/// The stamps that the tiles have in the range, each row once.
pub(crate) fn gathered_stamps(
    alloc: Global,
    range: Range,
    tiles: &[(Part, TileView<'_>)],
) -> Result<Items<i64>, NoMemory>
    ensures { IfOk result (λ stamps. stamps ≡ stamps_gathered range 0 tiles.now) }
{
    let mut stamps = Items::new(alloc);
    let mut reached = 0;
    for tile in tiles {
        let (from, to) = fresh_rows(range, reached, tile);
        let more = stamps_between(alloc, &tile.1, from, to)?;
        put_stamps(&mut stamps, more)?;
        reached = reach_of(reached, tile)?;
    }
    Ok(stamps)
}

/// Puts stamps behind these. The first are moved and not copied.
fn put_stamps(stamps: &mut Items<i64>, more: Items<i64>) -> Result<(), NoMemory>
    ensures { OnOk result (stamps.new ≡ stamps.old ++ more) }
{
    if stamps.is_empty() {
        *stamps = more;
        return Ok(());
    }
    stamps.extend(more.items())
}

/// The columns of these names and types that the tiles have in the range.
pub(crate) fn gathered_columns(
    alloc: Global,
    heads: &[(ColName, ColType)],
    range: Range,
    tiles: &[(Part, TileView<'_>)],
) -> Result<Items<Column>, NoMemory>
    requires { AllByRecursion (λ head. AllByRecursion (HasType head) tiles.now) heads.now }
    ensures kinds { IfOk result (λ columns. map column_type columns ≡ map (λ (h : Head). h.1) heads.now) }
    ensures cells { IfOk result (λ columns. map column_cells columns ≡ map (λ (h : Head). cells_gathered range h.0 0 tiles.now) heads.now) }
{
    let mut columns = Items::with_capacity(alloc, heads.len())?;
    for head in heads {
        columns.push(gathered_column(alloc, head, range, tiles)?)?;
    }
    Ok(columns)
}

/// The column of this name and type that the tiles have in the range, each row once.
fn gathered_column(
    alloc: Global,
    head: &(ColName, ColType),
    range: Range,
    tiles: &[(Part, TileView<'_>)],
) -> Result<Column, NoMemory>
    requires { AllByRecursion (HasType head.now) tiles.now }
    ensures kind { IfOk result (λ column. column_type column ≡ head.now.1) }
    ensures cells { IfOk result (λ column. column_cells column ≡ cells_gathered range head.now.0 0 tiles.now) }
{
    let mut column = Column::empty(alloc, head.1);
    let mut reached = 0;
    for tile in tiles {
        if let Some(place) = tile.1.place(&head.0) {
            add_cells(alloc, &mut column, range, reached, tile, place)?;
            reached = reach_of(reached, tile)?;
        }
    }
    Ok(column)
}

/// Puts the cells of a tile's column behind these: of its rows in the range, those beyond what is reached.
fn add_cells(
    alloc: Global,
    column: &mut Column,
    range: Range,
    reached: u64,
    tile: &(Part, TileView<'_>),
    place: u64,
) -> Result<(), NoMemory>
    requires { type_at tile.now.1 place ≡ Some (column_type column.old) }
    ensures cells { OnOk result (column_cells column.new ≡ column_cells column.old ++ cells_of place (fresh range reached tile.now)) }
    ensures kind { column_type column.new ≡ column_type column.old }
{
    let (from, to) = fresh_rows(range, reached, tile);
    let more = cells_between(alloc, tile.1.column(place), from, to)?;
    put_cells(column, more)
}

/// Puts the cells of a column behind these. The first are moved and not copied.
fn put_cells(column: &mut Column, more: Column) -> Result<(), NoMemory>
    requires { column_type more ≡ column_type column.old }
    ensures cells { OnOk result (column_cells column.new ≡ column_cells column.old ++ column_cells more) }
    ensures kind { column_type column.new ≡ column_type column.old }
{
    if column.len() == 0 {
        *column = more;
        return Ok(());
    }
    column.append(&more)
}

/// Where the rows of a tile in the range begin and end that lie beyond what is reached, counted from 0 in the tile.
fn fresh_rows(range: Range, reached: u64, tile: &(Part, TileView<'_>)) -> (u64, u64)
    ensures ordered { result.0 ≤ result.1 }
    ensures within { result.1 ≤ length tile.now.1.rows }
    ensures frame { IsFrame tile.now.1 }
    ensures rows { slice_range tile.now.1.rows result.0 result.1 ≡ fresh range reached tile.now }
{
    // An end of the range tells the proof that the ends stand in order.
    let _ = range.from();
    let rows = tile.1.rows();
    let seen = reached.saturating_sub(tile.0.first_row);
    let skip = seen.min(rows);
    let from = edge_row(&tile.1, skip, range, Edge::Begin);
    let to = edge_row(&tile.1, skip, range, Edge::End);
    (from, to.max(from))
}

/// The row behind the last of the tile, unless a later one is reached. A frame that is so long is not in memory.
fn reach_of(reached: u64, tile: &(Part, TileView<'_>)) -> Result<u64, NoMemory>
    ensures { IfOk result (λ end. end ≡ reach reached tile.now) }
{
    match tile.0.first_row.checked_add(tile.1.rows()) {
        Some(end) => Ok(reached.max(end)),
        None => Err(NoMemory),
    }
}
