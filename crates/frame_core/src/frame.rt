ghost use Rattle.std.specs.Prelude.{◌≡◌, ◌<◌, length, map, Some, IfOk};
ghost use Rattle.frame_core.specs.Frames.{IsFrame, first_stamp, last_stamp, stamps_of, stamp_at, cell_at, type_at, cell_of as lent_cell};
ghost use Rattle.frame_core.specs.Limits.{IsStorable};
ghost use Rattle.frame_core.specs.RawFrames.{frame_from};
ghost use Rattle.frame_core.specs.Refusals.{Answers};
ghost use Rattle.frame_core.specs.Columns.{column_type, column_cells, cells_of, rows_from, IsWhole};

use crate::cell::CellRef;
use crate::column::Column;
use crate::making;
use crate::raw::RawFrame;
use crate::refusal::Refusal;
use crate::schema::Schema;
use base_types::Items;
use std::alloc::Global;
use std::marker::Model;

/// A schema and rows whose stamps never fall, kept column by column. Contracts see the schema and the list of rows.
#[derive(Drop)]
pub struct Frame {
    pub(crate) schema: Schema,
    pub(crate) stamps: Items<i64>,
    pub(crate) columns: Items<Column>,
}

impl Model for Frame {
    ghost use Rattle.std.specs.Prelude.{map};
    ghost use Rattle.frame_core.specs.Frames.{Frame as Table};
    ghost use Rattle.frame_core.specs.Columns.{column_cells, rows_from, IsWhole};

    ghost Value = { Table };

    ghost view = { λ f. record { schema = f.schema; rows = rows_from f.stamps (map column_cells f.columns) } };

    ghost invariant = { λ f. IsWhole f.schema f.stamps f.columns };
}

impl Frame {
    /// The timed frame of these parts. The tests come before any cell is copied.
    ///
    /// It refuses, in this order, a limit that is exceeded, the least column that lacks its name or its values, has another
    /// length than the stamps or repeats a name, and the least row whose stamp lies below the one before.
    pub fn make(alloc: Global, raw: &RawFrame) -> Result<Frame, Refusal>
        ensures frame { Answers result (frame_from raw.now) }
        ensures storable { IfOk result IsStorable }
    {
        if let Some((what, limit)) = making::too_large(raw) {
            return Err(Refusal::TooLarge { what, limit });
        }
        if let Some(column) = making::bad_column(raw) {
            return Err(Refusal::SchemaDiffers { column });
        }
        if let Some(row) = making::bad_row(raw.stamps.items()) {
            return Err(Refusal::Unsorted { row });
        }
        Ok(making::built(alloc, raw)?)
    }

    /// The frame of these stamps and columns, which are moved: nothing is copied, and nothing is tested.
    pub fn from_columns(schema: Schema, stamps: Items<i64>, columns: Items<Column>) -> Frame
        requires { IsWhole schema stamps columns }
        ensures { result ≡ record { schema = schema; rows = rows_from stamps (map column_cells columns) } }
    {
        Frame {
            schema,
            stamps,
            columns,
        }
    }

    /// The schema, lent.
    pub fn schema(&self) -> &Schema
        ensures schema { result.now ≡ self.now.schema }
        ensures frame { IsFrame self.now }
    {
        &self.schema
    }

    /// How many rows there are.
    pub fn rows(&self) -> u64
        ensures rows { result ≡ length self.now.rows }
        ensures frame { IsFrame self.now }
    {
        self.stamps.len() as u64
    }

    /// The stamps of all rows, lent.
    pub fn stamps(&self) -> &[i64]
        ensures { result.now ≡ stamps_of self.now.rows }
    {
        self.stamps.items()
    }

    /// The stamp of the first row.
    pub fn first_stamp(&self) -> Option<i64>
        ensures { result ≡ first_stamp self.now.rows }
    {
        self.stamps.items().first().copied()
    }

    /// The stamp of the last row.
    pub fn last_stamp(&self) -> Option<i64>
        ensures { result ≡ last_stamp self.now.rows }
    {
        self.stamps.items().last().copied()
    }

    /// The stamp of a row, counted from 0.
    pub fn stamp(&self, row: u64) -> i64
        requires { row < length self.now.rows }
        ensures { stamp_at self.now row ≡ Some result }
    {
        self.stamps.items()[row as usize]
    }

    /// The cells of a column, counted from 0, lent.
    pub fn column(&self, column: u64) -> &Column
        requires { column < length self.now.schema.columns }
        ensures cells { column_cells result.now ≡ cells_of column self.now.rows }
        ensures kind { type_at self.now column ≡ Some (column_type result.now) }
    {
        self.columns.at(column as usize)
    }

    /// The cell of a row at a column, both counted from 0, in constant time.
    pub fn cell(&self, row: u64, column: u64) -> CellRef<'_>
        requires row { row < length self.now.rows }
        requires column { column < length self.now.schema.columns }
        ensures { cell_at self.now row column ≡ Some (lent_cell result) }
    {
        self.columns.at(column as usize).cell(row as usize)
    }
}
