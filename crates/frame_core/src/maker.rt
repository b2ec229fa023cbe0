ghost use Rattle.std.specs.Prelude.{◌≡◌, ◌<◌, ◌++◌, ◌∷◌, [], length, map, pos, true, false, slice_get, slice_set, slice_index_or, option_map, Some, IfOk, OnOk, OnErr};
ghost use Rattle.std.specs.List.{AllByRecursion};
ghost use Rattle.frame_core.specs.Ranges.{InOrder};
ghost use Rattle.frame_core.specs.Schemas.{Head, are_new};
ghost use Rattle.frame_core.specs.Frames.{Frame as Table, type_of, cell_of, IsCell, last_stamp};
ghost use Rattle.frame_core.specs.Columns.{column_type, column_cells};
ghost use Rattle.frame_core.specs.Making.{Takes};

use crate::cell::{CellRef, ColType};
use crate::column::Column;
use crate::frame::Frame;
use crate::name::ColName;
use crate::schema::Schema;
use base_types::{Items, Keep, NoMemory};
use std::alloc::Global;
use std::marker::Model;

/// A frame that is made row by row, and kept column by column.
#[derive(Drop)]
pub struct FrameMaker {
    schema: Schema,
    stamps: Items<i64>,
    columns: Vec<Column>,
    begun: usize,
}

impl Model for FrameMaker {
    ghost use Rattle.std.specs.Prelude.{map};
    ghost use Rattle.frame_core.specs.Columns.{column_type, column_cells};
    ghost use Rattle.frame_core.specs.Making.{Making, making_of, IsMaking};

    ghost Value = { Making };

    ghost view = { λ m. making_of m.schema m.stamps (map column_cells m.columns.items) };

    ghost invariant = { λ m. IsMaking m.schema m.stamps (map column_type m.columns.items) (map column_cells m.columns.items) m.begun };
}

impl FrameMaker {
    /// A maker of a frame of this schema, without rows.
    pub fn make(alloc: Global, schema: &Schema) -> Result<FrameMaker, NoMemory>
        requires distinct { are_new [] (map (λ (c : Head). c.0) schema.now.columns) ≡ true }
        ensures { IfOk result (λ maker. maker ≡ record { schema = schema.now; rows = []; begun = [] }) }
    {
        let columns = empty_columns(alloc, schema.columns())?;
        let schema = schema.copy(alloc)?;
        Ok(FrameMaker {
            schema,
            stamps: Items::new(alloc),
            columns,
            begun: 0,
        })
    }

    /// Adds the next cell of the row that is begun. A refused call leaves the maker as it was.
    pub fn cell(&mut self, cell: CellRef<'_>) -> Result<(), NoMemory>
        requires { Takes self.old (cell_of cell) }
        ensures ok { OnOk result (self.new ≡ record self.old { begun = self.old.begun ++ cell_of cell.entry ∷ [] }) }
        ensures err { OnErr result (self.new ≡ self.old) }
    {
        let at = self.begun;
        push_at(&mut self.columns, at, cell)?;
        self.begun += 1;
        Ok(())
    }

    /// Ends the row that is begun. A refused call leaves the maker as it was.
    pub fn end_row(&mut self, stamp: i64) -> Result<(), NoMemory>
        requires full { length self.old.begun ≡ length self.old.schema.columns }
        requires rising { InOrder (last_stamp self.old.rows) (Some stamp) }
        requires untimed { self.old.schema.timed ≡ false → stamp ≡ pos 0 }
        ensures ok { OnOk result (self.new ≡ record self.old { rows = self.old.rows ++ record { stamp = stamp; cells = self.old.begun } ∷ []; begun = [] }) }
        ensures err { OnErr result (self.new ≡ self.old) }
    {
        self.stamps.push(stamp)?;
        self.begun = 0;
        Ok(())
    }

    /// The frame of the rows that were ended.
    pub fn done(self) -> Frame
        requires { self.begun ≡ [] }
        ensures { result ≡ record { schema = self.schema; rows = self.rows } }
    {
        let FrameMaker {
            schema,
            stamps,
            columns,
            begun: _,
        } = self;
        Frame {
            schema,
            stamps,
            columns: Items::from_vec(columns),
        }
    }
}

/// A column without cells for each of these names and types.
fn empty_columns(alloc: Global, heads: &[(ColName, ColType)]) -> Result<Vec<Column>, NoMemory>
    ensures kinds { IfOk result (λ columns. map column_type columns.items ≡ map (λ (c : Head). c.1) heads.now) }
    ensures cells { IfOk result (λ columns. AllByRecursion (λ c. column_cells c ≡ []) columns.items) }
{
    let mut columns = Vec::with_capacity(alloc, heads.len())?;
    for (_, kind) in heads {
        columns.push(Column::empty(alloc, *kind))?;
    }
    Ok(columns)
}

/// Adds a cell to a column of its type.
fn push_cell(column: &mut Column, cell: CellRef<'_>) -> Result<(), NoMemory>
    requires { column_type column.old ≡ type_of (cell_of cell) }
    ensures ok { OnOk result (column_cells column.new ≡ column_cells column.old ++ cell_of cell.entry ∷ []) }
    ensures err { OnErr result (column_cells column.new ≡ column_cells column.old) }
    ensures kind { column_type column.new ≡ column_type column.old }
    ensures fits { IsCell (cell_of cell.entry) }
{
    match (column, cell) {
        (Column::Ints(values), CellRef::Int(value)) => values.push(value),
        (Column::Flags(flags), CellRef::Flag(flag)) => flags.push(flag),
        (Column::Texts(texts), CellRef::Text(text)) => texts.push(text),
        (Column::Stamps(stamps), CellRef::Stamp(stamp)) => stamps.push(stamp),
        _ => unreachable!(),
    }
}

/// Adds a cell to the column at a place.
fn push_at(columns: &mut Vec<Column>, at: usize, cell: CellRef<'_>) -> Result<(), NoMemory>
    requires { option_map column_type (slice_get columns.old.items at) ≡ Some (type_of (cell_of cell)) }
    ensures ok { OnOk result (map column_cells columns.new.items ≡ slice_set (map column_cells columns.old.items) at (slice_index_or (map column_cells columns.old.items) at [] ++ cell_of cell.entry ∷ [])) }
    ensures err { OnErr result (map column_cells columns.new.items ≡ map column_cells columns.old.items) }
    ensures kinds { map column_type columns.new.items ≡ map column_type columns.old.items }
    ensures fits { IsCell (cell_of cell.entry) }
{
    push_cell(&mut columns[at], cell)
}
