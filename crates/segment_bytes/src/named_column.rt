ghost use Rattle.std.specs.Prelude.{◌≡◌, List, IfOk, IsUtf8};
ghost use Rattle.segment_bytes.specs.Sheets.{Series};
ghost use Rattle.segment_bytes.specs.Lying.{SpellsAll};
ghost use Rattle.segment_bytes.specs.Views.{cells_in, IsColumnView};

use crate::column_view::{ColumnView, text_in};
use crate::columns::{ColumnBytes, next_column};
use frame_core::{Items, NoMemory};
use std::alloc::Global;
use std::marker::Model;

/// A column of a viewed segment with its name, read where they lie. Contracts see its name and type, and its cells.
#[derive(Drop)]
pub struct NamedColumn<'a> {
    name: &'a str,
    cells: ColumnView<'a>,
}

impl<'a> Model for NamedColumn<'a> {
    ghost use Rattle.segment_bytes.specs.Sheets.{Series};

    ghost Value = { Series };

    ghost view = { λ c. ((c.name.now, c.cells.0), c.cells.1) };
}

impl<'a> NamedColumn<'a> {
    /// The column that lies here.
    fn new(rows: u32, found: ColumnBytes<'a>) -> NamedColumn<'a>
        requires name { IsUtf8 found.name.now }
        requires cells { IsColumnView found.kind rows found.cells.now }
        ensures { result ≡ ((found.entry.name.now, found.entry.kind), cells_in found.entry.kind rows found.entry.cells.now) }
    {
        NamedColumn {
            name: text_in(found.name),
            cells: ColumnView::new(found.kind, rows, found.cells),
        }
    }

    /// The name of the column, lent from the viewed bytes.
    pub fn name(&self) -> &'a str
        ensures { result.now ≡ self.now.0.0 }
    {
        self.name
    }

    /// The cells of the column.
    pub fn cells(&self) -> &ColumnView<'a>
        ensures { result.now ≡ (self.now.0.1, self.now.1) }
    {
        &self.cells
    }
}

/// The columns that bytes spell, so many. It skips the cells of each in constant time.
pub fn split_columns(
    alloc: Global,
    rows: u32,
    count: u16,
    columns: &[u8],
) -> Result<Items<NamedColumn<'_>>, NoMemory>
    requires { (all : List Series) × SpellsAll rows count columns.now all }
    ensures { (all : List Series) → SpellsAll rows count columns.now all → IfOk result (λ made. made ≡ all) }
{
    let mut made = Items::with_capacity(alloc, count as usize)?;
    let mut rest = columns;
    for _ in 0..count {
        match next_column(rows, rest) {
            Ok((found, after)) => {
                made.push(NamedColumn::new(rows, found))?;
                rest = after;
            }
            Err(_) => unreachable!(),
        }
    }
    Ok(made)
}
