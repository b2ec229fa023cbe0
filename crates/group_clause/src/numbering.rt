ghost use Rattle.std.specs.Prelude.{◌≡◌, ◌<◌, IfOk};
ghost use Rattle.frame_core.specs.Columns.{column_cells};
ghost use Rattle.group_clause.specs.Blocks.{IsNumbering};

use crate::row_key::RowKey;
use frame_core::{Column, NoMemory};
use indexmap::IndexSet;
use std::alloc::Global;

/// The distinct keys of a column, in the order in which they come, and for each row the number of its key among them, counted from 0.
#[derive(Drop)]
pub(crate) struct Numbering<'a> {
    pub numbers: Vec<usize>,
    pub keys: IndexSet<RowKey<'a>>,
}

/// The numbering of the keys of a column, by hash.
pub(crate) fn numbered<'a>(alloc: Global, column: &'a Column) -> Result<Numbering<'a>, NoMemory>
    ensures { IfOk result (λ made. IsNumbering made.numbers.items made.keys.keys (column_cells column.now)) }
{
    let mut numbers = Vec::with_capacity(alloc, column.len())?;
    let mut keys = IndexSet::new(alloc);
    for row in 0..column.len() {
        let cell = column.cell(row);
        let (number, _) = keys.insert_full(RowKey { cell })?;
        numbers.push(number)?;
    }
    Ok(Numbering { numbers, keys })
}
