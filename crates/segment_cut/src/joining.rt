//! The frame of its tiles.

ghost use Rattle.std.specs.Prelude.{◌≡◌, ℕ, ◌++◌, [], map, option_map, slice_get, slice_set, slice_index_or, Some, IfOk, OnOk};
ghost use Rattle.std.specs.List.{AllByRecursion};
ghost use Rattle.std.specs.List.Sorted.{IsPermutation, IsNonDecreasingBy};
ghost use Rattle.frame_core.specs.Schemas.{Head};
ghost use Rattle.frame_core.specs.Frames.{Frame as Table};
ghost use Rattle.frame_core.specs.Columns.{column_type, column_cells};
ghost use Rattle.segment_cut.specs.Tiles.{Tile};
ghost use Rattle.segment_cut.specs.Joins.{IsTiledBy, AreTiles, tile_cells, joined_cells, with_stamps, joined_stamps, FitsKinds};

use base_types::{Items, Keep, NoMemory};
use frame_core::{ColName, ColType, Column, Frame, Part, Schema};
use std::alloc::Global;

/// The frame whose tiles these are, in memory of their own. The tiles stand in any order.
///
/// They are taken in the order of their first rows, and each column's cells are copied slice by slice: it takes time in
/// proportion to the tiles and cells, beside the sort.
pub fn join(alloc: Global, schema: &Schema, tiles: &[(Part, Frame)]) -> Result<Frame, NoMemory>
    requires { AreTiles schema.now tiles.now }
    ensures { IfOk result (λ joined. (f : Table) → IsTiledBy schema.now tiles.now f → joined ≡ f) }
{
    let sorted = by_first_row(alloc, tiles)?;
    let rows = rows_of(tiles);
    let mut stamps = Items::with_capacity(alloc, rows)?;
    let mut columns = empty_columns(alloc, schema.columns(), rows)?;
    for tile in &sorted {
        add_stamps(&mut stamps, tile)?;
        add_columns(&mut columns, tile)?;
    }
    let schema = schema.copy(alloc)?;
    Ok(Frame::from_columns(schema, stamps, Items::from_vec(columns)))
}

/// The tiles in the order of their first rows, lent.
fn by_first_row<'a>(
    alloc: Global,
    tiles: &'a [(Part, Frame)],
) -> Result<Vec<&'a (Part, Frame)>, NoMemory>
    ensures same { IfOk result (λ sorted. IsPermutation tiles.now (map (λ t. t.now) sorted.items)) }
    ensures rising { IfOk result (λ sorted. IsNonDecreasingBy (λ (t : Tile). t.0.first_row) (map (λ t. t.now) sorted.items)) }
{
    let mut sorted = Vec::with_capacity(alloc, tiles.len())?;
    for tile in tiles {
        sorted.push(tile)?;
    }
    sorted.sort_unstable_by_key(|tile| tile.0.first_row);
    Ok(sorted)
}

/// How many rows the tiles reach; of that memory is taken at once.
fn rows_of(tiles: &[(Part, Frame)]) -> usize {
    let mut rows: u64 = 0;
    for (part, _) in tiles {
        rows = rows.max(part.first_row.saturating_add(part.rows));
    }
    rows as usize
}

/// A column without cells for each of these names and types, with memory for so many cells.
fn empty_columns(
    alloc: Global,
    heads: &[(ColName, ColType)],
    rows: usize,
) -> Result<Vec<Column>, NoMemory>
    ensures kinds { IfOk result (λ columns. map column_type columns.items ≡ map (λ (h : Head). h.1) heads.now) }
    ensures cells { IfOk result (λ columns. AllByRecursion (λ c. column_cells c ≡ []) columns.items) }
{
    let mut columns = Vec::with_capacity(alloc, heads.len())?;
    for (_, kind) in heads {
        columns.push(Column::with_capacity(alloc, *kind, rows)?)?;
    }
    Ok(columns)
}

/// Puts the stamps of a tile that lie beyond these behind them.
fn add_stamps(stamps: &mut Items<i64>, tile: &(Part, Frame)) -> Result<(), NoMemory>
    ensures { OnOk result (stamps.new ≡ with_stamps stamps.old tile.now) }
{
    let more = tile.1.stamps();
    let seen = (stamps.len() as u64).saturating_sub(tile.0.first_row);
    let from = (seen as usize).min(more.len());
    stamps.extend(&more[from..])
}

/// Puts the cells of each of a tile's columns behind those of the frame's column.
fn add_columns(columns: &mut Vec<Column>, tile: &(Part, Frame)) -> Result<(), NoMemory>
    requires { FitsKinds (map column_type columns.old.items) tile.now }
    ensures cells { OnOk result ((k : ℕ) → slice_index_or (map column_cells columns.new.items) k [] ≡ slice_index_or (map column_cells columns.old.items) k [] ++ tile_cells k tile.now) }
    ensures kinds { map column_type columns.new.items ≡ map column_type columns.old.items }
{
    for column in 0..tile.0.cols {
        let more = tile.1.column(column);
        append_at(columns, (tile.0.first_col + column) as usize, more)?;
    }
    Ok(())
}

/// Puts cells behind those of the column at a place.
fn append_at(columns: &mut Vec<Column>, at: usize, more: &Column) -> Result<(), NoMemory>
    requires { option_map column_type (slice_get columns.old.items at) ≡ Some (column_type more.now) }
    ensures ok { OnOk result (map column_cells columns.new.items ≡ slice_set (map column_cells columns.old.items) at (slice_index_or (map column_cells columns.old.items) at [] ++ column_cells more.now)) }
    ensures kinds { map column_type columns.new.items ≡ map column_type columns.old.items }
{
    columns[at].append(more)
}
