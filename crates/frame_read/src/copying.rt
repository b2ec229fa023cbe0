//! Rows of a tile, copied from where its bytes lie: no others are read.

ghost use Rattle.std.specs.Prelude.{◌≡◌, ◌≤◌, length, map, slice_range, IfOk};
ghost use Rattle.frame_core.specs.Frames.{stamps_of};
ghost use Rattle.frame_core.specs.Columns.{column_type, column_cells};
ghost use Rattle.frame_core.specs.declared.cell.Cell.TheVariants.{Int as int_cell, Flag as flag_cell, Text as text_cell, Stamp as stamp_cell};

use crate::tile_view::TileView;
use base_types::{Items, NoMemory};
use frame_core::{ColType, Column, TextList};
use segment_bytes::ColumnView;
use std::alloc::Global;

/// The stamps of a tile from one row up to before another, in memory.
pub(crate) fn stamps_between(
    alloc: Global,
    view: &TileView<'_>,
    from: u64,
    to: u64,
) -> Result<Items<i64>, NoMemory>
    requires ordered { from ≤ to }
    requires within { to ≤ length view.now.rows }
    ensures { IfOk result (λ stamps. stamps ≡ slice_range (stamps_of view.now.rows) from to) }
{
    let mut stamps = Items::with_capacity(alloc, (to - from) as usize)?;
    for row in from..to {
        stamps.push(view.stamp(row))?;
    }
    Ok(stamps)
}

/// The cells of a tile's column from one row up to before another, in memory.
pub(crate) fn cells_between(
    alloc: Global,
    column: &ColumnView<'_>,
    from: u64,
    to: u64,
) -> Result<Column, NoMemory>
    requires ordered { from ≤ to }
    requires within { to ≤ length column.now.1 }
    ensures kind { IfOk result (λ part. column_type part ≡ column.now.0) }
    ensures cells { IfOk result (λ part. column_cells part ≡ slice_range column.now.1 from to) }
{
    match column.kind() {
        ColType::Int => Ok(Column::Ints(ints_between(alloc, column, from, to)?)),
        ColType::Flag => Ok(Column::Flags(flags_between(alloc, column, from, to)?)),
        ColType::Text => Ok(Column::Texts(texts_between(alloc, column, from, to)?)),
        ColType::Stamp => Ok(Column::Stamps(moments_between(alloc, column, from, to)?)),
    }
}

fn ints_between(
    alloc: Global,
    column: &ColumnView<'_>,
    from: u64,
    to: u64,
) -> Result<Items<i64>, NoMemory>
    requires kind { column.now.0 ≡ ColType.Int }
    requires ordered { from ≤ to }
    requires within { to ≤ length column.now.1 }
    ensures { IfOk result (λ numbers. map int_cell numbers ≡ slice_range column.now.1 from to) }
{
    let mut numbers = Items::with_capacity(alloc, (to - from) as usize)?;
    for row in from..to {
        numbers.push(column.int(row))?;
    }
    Ok(numbers)
}

fn flags_between(
    alloc: Global,
    column: &ColumnView<'_>,
    from: u64,
    to: u64,
) -> Result<Items<bool>, NoMemory>
    requires kind { column.now.0 ≡ ColType.Flag }
    requires ordered { from ≤ to }
    requires within { to ≤ length column.now.1 }
    ensures { IfOk result (λ flags. map flag_cell flags ≡ slice_range column.now.1 from to) }
{
    let mut flags = Items::with_capacity(alloc, (to - from) as usize)?;
    for row in from..to {
        flags.push(column.flag(row))?;
    }
    Ok(flags)
}

fn texts_between(
    alloc: Global,
    column: &ColumnView<'_>,
    from: u64,
    to: u64,
) -> Result<TextList, NoMemory>
    requires kind { column.now.0 ≡ ColType.Text }
    requires ordered { from ≤ to }
    requires within { to ≤ length column.now.1 }
    ensures { IfOk result (λ texts. map text_cell texts ≡ slice_range column.now.1 from to) }
{
    let mut texts = TextList::new(alloc);
    texts.reserve((to - from) as usize, 0)?;
    for row in from..to {
        texts.push(column.text(row))?;
    }
    Ok(texts)
}

fn moments_between(
    alloc: Global,
    column: &ColumnView<'_>,
    from: u64,
    to: u64,
) -> Result<Items<i64>, NoMemory>
    requires kind { column.now.0 ≡ ColType.Stamp }
    requires ordered { from ≤ to }
    requires within { to ≤ length column.now.1 }
    ensures { IfOk result (λ moments. map stamp_cell moments ≡ slice_range column.now.1 from to) }
{
    let mut moments = Items::with_capacity(alloc, (to - from) as usize)?;
    for row in from..to {
        moments.push(column.stamp(row))?;
    }
    Ok(moments)
}
