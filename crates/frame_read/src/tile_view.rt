//! A tile's frame, read where its bytes lie, with its columns at hand.

ghost use Rattle.std.specs.Prelude.{◌≡◌, ◌<◌, length, Some, IfOk};
ghost use Rattle.std.specs.List.{position_from};
ghost use Rattle.frame_core.specs.Texts.{same_text};
ghost use Rattle.frame_core.specs.Frames.{stamp_at, type_at};
ghost use Rattle.frame_core.specs.Columns.{cells_of};
ghost use Rattle.frame_core.specs.Selecting.{place_of};
ghost use Rattle.frame_core.specs.Limits.{IsStorable};
ghost use Rattle.segment_bytes.specs.Sheets.{Series};

use base_types::{Items, NoMemory};
use frame_core::ColName;
use segment_bytes::{ColumnView, NamedColumn, SegView};
use std::alloc::Global;
use std::marker::Model;

/// A view of a tile's segment and its columns, found once, since in the bytes each is found by walking past those before it.
/// Contracts see the frame.
#[derive(Drop)]
pub(crate) struct TileView<'a> {
    segment: SegView<'a>,
    columns: Items<NamedColumn<'a>>,
}

impl<'a> Model for TileView<'a> {
    ghost use Rattle.std.specs.Prelude.{◌≡◌};
    ghost use Rattle.frame_core.specs.Frames.{Frame};
    ghost use Rattle.segment_bytes.specs.Sheets.{sheet_of};

    ghost Value = { Frame };

    ghost view = { λ v. v.segment };

    ghost invariant = { λ v. v.columns ≡ (sheet_of v.segment).columns };
}

impl<'a> TileView<'a> {
    /// This view, with its columns.
    pub(crate) fn make(alloc: Global, segment: SegView<'a>) -> Result<TileView<'a>, NoMemory>
        ensures { IfOk result (λ made. made ≡ segment.entry) }
    {
        let columns = segment.columns(alloc)?;
        Ok(TileView { segment, columns })
    }

    /// How many rows there are.
    pub(crate) fn rows(&self) -> u64
        ensures rows { result ≡ length self.now.rows }
        ensures storable { IsStorable self.now }
    {
        self.segment.rows()
    }

    /// The stamp of a row, counted from 0, in constant time.
    pub(crate) fn stamp(&self, row: u64) -> i64
        requires { row < length self.now.rows }
        ensures { stamp_at self.now row ≡ Some result }
    {
        self.segment.stamp(row)
    }

    /// The cells of a column, counted from 0.
    pub(crate) fn column(&self, col: u64) -> &ColumnView<'a>
        requires { col < length self.now.schema.columns }
        ensures kind { type_at self.now col ≡ Some result.now.0 }
        ensures cells { result.now.1 ≡ cells_of col self.now.rows }
    {
        self.columns.at(col as usize).cells()
    }

    /// The place of the column of this name, counted from 0.
    pub(crate) fn place(&self, name: &ColName) -> Option<u64>
        ensures { result ≡ place_of name.now self.now.schema.columns }
    {
        place_among(name, self.columns.items())
    }
}

/// The place of the column of this name among these, counted from 0.
fn place_among(name: &ColName, columns: &[NamedColumn<'_>]) -> Option<u64>
    ensures { result ≡ position_from (λ (column : Series). same_text name.now column.0.0) 0 columns.now }
{
    for place in 0..columns.len() {
        if name.text() == columns[place].name() {
            return Some(place as u64);
        }
    }
    None
}
