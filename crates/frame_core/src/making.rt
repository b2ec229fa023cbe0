//! Whether raw parts make a frame, and the parts of that frame.

ghost use Rattle.std.specs.Prelude.{◌≡◌, ◌<◌, ◌≤◌, [], max, length, map, take, slice_index_or, true, Some, None, IfOk};
ghost use Rattle.std.specs.List.{list_any, AllByRecursion};
ghost use Rattle.frame_core.specs.Texts.{same_text};
ghost use Rattle.frame_core.specs.Schemas.{Head, IsColName};
ghost use Rattle.frame_core.specs.Frames.{IsCell};
ghost use Rattle.frame_core.specs.Columns.{column_cells};
ghost use Rattle.frame_core.specs.Limits.{IsStorable};
ghost use Rattle.frame_core.specs.RawFrames.{table_of, is_bad_column, table_too_large, bad_column as first_bad_column, bad_row as first_bad_row, table_frame, typed_cells, heads_from};

use crate::cell::ColType;
use crate::column::{Column, read_all};
use crate::frame::Frame;
use crate::limits::{exceeded, longest_text, text_bytes};
use crate::name::ColName;
use crate::raw::RawFrame;
use crate::refusal::Extent;
use crate::schema::Schema;
use base_types::{Items, Keep, NoMemory};
use std::alloc::Global;

/// How many columns there are, with the names that have no values and the values that have no name.
fn count_of(raw: &RawFrame) -> usize
    ensures { result ≡ max (length raw.now.names) (length raw.now.columns) }
{
    raw.names.len().max(raw.columns.len())
}

/// The first limit that raw parts exceed.
pub fn too_large(raw: &RawFrame) -> Option<(Extent, u64)>
    ensures { result ≡ table_too_large (table_of raw.now) }
{
    let columns = raw.columns.items();
    exceeded(
        raw.stamps.len(),
        count_of(raw),
        longest_text(columns),
        text_bytes(columns),
    )
}

/// Whether the name at a place stands before it too.
pub fn repeats(names: &[ColName], place: usize) -> bool
    requires { place < length names.now }
    ensures { result ≡ list_any (same_text (slice_index_or names.now place [])) (take place names.now) }
{
    let name = &names[place];
    for earlier in &names[..place] {
        if name == earlier {
            return true;
        }
    }
    false
}

/// Whether the column at a place repeats a name, or is not of this length.
fn is_bad(names: &[ColName], columns: &[Column], place: usize, rows: usize) -> bool
    requires name { place < length names.now }
    requires column { place < length columns.now }
    ensures { result ≡ is_bad_column (take place names.now) rows (slice_index_or names.now place []) (slice_index_or (map column_cells columns.now) place []) }
{
    repeats(names, place) || columns[place].len() != rows
}

/// The least column, counted from 1, that lacks its name or its values, has another length than the stamps, or repeats a name.
pub fn bad_column(raw: &RawFrame) -> Option<u64>
    ensures { result ≡ first_bad_column 1 (length raw.now.stamps) [] raw.now.names (map typed_cells raw.now.columns) }
{
    let names = raw.names.items();
    let columns = raw.columns.items();
    for place in 0..count_of(raw) {
        if place >= names.len() {
            return Some(place as u64 + 1);
        }
        if place >= columns.len() {
            return Some(place as u64 + 1);
        }
        if is_bad(names, columns, place, raw.stamps.len()) {
            return Some(place as u64 + 1);
        }
    }
    None
}

/// The least row, counted from 1, whose stamp lies below the one before.
pub fn bad_row(stamps: &[i64]) -> Option<u64>
    ensures { result ≡ first_bad_row 1 stamps.now }
{
    for place in 1..stamps.len() {
        if stamps[place] < stamps[place - 1] {
            return Some(place as u64 + 1);
        }
    }
    None
}

/// The names with their columns' types, of a frame with stamps.
pub fn schema_of(alloc: Global, names: &[ColName], columns: &[Column]) -> Result<Schema, NoMemory>
    requires { length names.now ≡ length columns.now }
    ensures schema { IfOk result (λ made. made ≡ record { timed = true; columns = heads_from names.now (map typed_cells columns.now) }) }
    ensures named { IfOk result (λ made. AllByRecursion (λ (c : Head). IsColName c.0) made.columns) }
{
    let mut schema = Schema::empty(alloc, true);
    for place in 0..names.len() {
        schema.push(names[place].copy(alloc)?, columns[place].kind())?;
    }
    Ok(schema)
}

/// Copies of the columns.
pub fn copy_columns(alloc: Global, columns: &[Column]) -> Result<Items<Column>, NoMemory>
    ensures copies { IfOk result (λ copies. copies ≡ columns.now) }
    ensures cells { IfOk result (λ copies. AllByRecursion (λ c. AllByRecursion IsCell (column_cells c)) copies) }
{
    let mut copies = Items::with_capacity(alloc, columns.len())?;
    for column in columns {
        column.known();
        copies.push(column.copy(alloc)?)?;
    }
    Ok(copies)
}

/// The frame of raw parts that fit each other and are within the limits.
pub fn built(alloc: Global, raw: &RawFrame) -> Result<Frame, NoMemory>
    requires small { table_too_large (table_of raw.now) ≡ None }
    requires columns { first_bad_column 1 (length raw.now.stamps) [] raw.now.names (map typed_cells raw.now.columns) ≡ None }
    requires rows { first_bad_row 1 raw.now.stamps ≡ None }
    ensures frame { IfOk result (λ made. made ≡ table_frame (table_of raw.now)) }
    ensures storable { IfOk result IsStorable }
{
    let schema = schema_of(alloc, raw.names.items(), raw.columns.items())?;
    let stamps = Items::from_slice(alloc, raw.stamps.items())?;
    let columns = copy_columns(alloc, raw.columns.items())?;
    read_all(raw.stamps.items());
    Ok(Frame {
        schema,
        stamps,
        columns,
    })
}
