ghost use Rattle.std.specs.Prelude.{◌≡◌, length, map, IfOk};
ghost use Rattle.frame_core.specs.Schemas.{Head};
ghost use Rattle.frame_core.specs.Frames.{stamps_of};
ghost use Rattle.frame_core.specs.Columns.{column_type, column_cells, columns_from};
ghost use Rattle.frame_core.specs.declared.cell.Cell.TheVariants.{Int as int_cell, Flag as flag_cell, Text as text_cell, Stamp as stamp_cell};

use crate::column_view::ColumnView;
use crate::viewing::SegView;
use frame_core::{ColName, ColType, Column, Items, NoMemory, TextList};
use std::alloc::Global;

/// The stamps of a view, in memory.
pub fn copy_stamps(alloc: Global, view: &SegView<'_>) -> Result<Items<i64>, NoMemory>
    ensures { IfOk result (λ stamps. stamps ≡ stamps_of view.now.rows) }
{
    let mut stamps = Items::with_capacity(alloc, view.rows() as usize)?;
    for row in 0..view.rows() {
        stamps.push(view.stamp(row))?;
    }
    Ok(stamps)
}

/// The names of the columns of a view, in memory.
pub fn copy_names(alloc: Global, view: &SegView<'_>) -> Result<Items<ColName>, NoMemory>
    ensures { IfOk result (λ names. names ≡ map (λ (head : Head). head.0) view.now.schema.columns) }
{
    let mut names = Items::with_capacity(alloc, view.cols() as usize)?;
    for col in 0..view.cols() {
        match ColName::make(alloc, view.name(col)) {
            Ok(name) => names.push(name)?,
            Err(_) => return Err(NoMemory),
        }
    }
    Ok(names)
}

/// The columns of a view, in memory, each copied whole.
pub fn copy_columns(alloc: Global, view: &SegView<'_>) -> Result<Items<Column>, NoMemory>
    ensures types { IfOk result (λ columns. map column_type columns ≡ map (λ (head : Head). head.1) view.now.schema.columns) }
    ensures cells { IfOk result (λ columns. map column_cells columns ≡ columns_from 0 (length view.now.schema.columns) view.now.rows) }
{
    let mut columns = Items::with_capacity(alloc, view.cols() as usize)?;
    for col in 0..view.cols() {
        columns.push(copy_column(alloc, &view.column(col))?)?;
    }
    Ok(columns)
}

/// The cells of a column, in memory.
fn copy_column(alloc: Global, view: &ColumnView<'_>) -> Result<Column, NoMemory>
    ensures kind { IfOk result (λ column. column_type column ≡ view.now.0) }
    ensures cells { IfOk result (λ column. column_cells column ≡ view.now.1) }
{
    match view.kind() {
        ColType::Int => Ok(Column::Ints(copy_ints(alloc, view)?)),
        ColType::Flag => Ok(Column::Flags(copy_flags(alloc, view)?)),
        ColType::Text => Ok(Column::Texts(copy_texts(alloc, view)?)),
        ColType::Stamp => Ok(Column::Stamps(copy_moments(alloc, view)?)),
    }
}

fn copy_ints(alloc: Global, view: &ColumnView<'_>) -> Result<Items<i64>, NoMemory>
    requires { view.now.0 ≡ ColType.Int }
    ensures { IfOk result (λ numbers. map int_cell numbers ≡ view.now.1) }
{
    let mut numbers = Items::with_capacity(alloc, view.len() as usize)?;
    for row in 0..view.len() {
        numbers.push(view.int(row))?;
    }
    Ok(numbers)
}

fn copy_flags(alloc: Global, view: &ColumnView<'_>) -> Result<Items<bool>, NoMemory>
    requires { view.now.0 ≡ ColType.Flag }
    ensures { IfOk result (λ flags. map flag_cell flags ≡ view.now.1) }
{
    let mut flags = Items::with_capacity(alloc, view.len() as usize)?;
    for row in 0..view.len() {
        flags.push(view.flag(row))?;
    }
    Ok(flags)
}

fn copy_texts(alloc: Global, view: &ColumnView<'_>) -> Result<TextList, NoMemory>
    requires { view.now.0 ≡ ColType.Text }
    ensures { IfOk result (λ texts. map text_cell texts ≡ view.now.1) }
{
    let mut texts = TextList::new(alloc);
    texts.reserve(view.len() as usize, view.bytes())?;
    for row in 0..view.len() {
        texts.push(view.text(row))?;
    }
    Ok(texts)
}

fn copy_moments(alloc: Global, view: &ColumnView<'_>) -> Result<Items<i64>, NoMemory>
    requires { view.now.0 ≡ ColType.Stamp }
    ensures { IfOk result (λ moments. map stamp_cell moments ≡ view.now.1) }
{
    let mut moments = Items::with_capacity(alloc, view.len() as usize)?;
    for row in 0..view.len() {
        moments.push(view.stamp(row))?;
    }
    Ok(moments)
}
