//! The groups of the rows of a block.

ghost use Rattle.std.specs.Prelude.{◌≡◌, ◌<◌, ◌≤◌, ◌≢◌, ◌∷◌, ◌^◌, length, map, None, slice_index_or, IfOk};
ghost use Rattle.std.specs.List.{AllByRecursion, AllZip};
ghost use Rattle.frame_core.specs.Columns.{column_cells};
ghost use Rattle.frame_core.specs.Frames.{IsCell, IsFrame};
ghost use Rattle.frame_core.specs.Selecting.{place_of};
ghost use Rattle.expr_clause.specs.Typing.{absent_from};
ghost use Rattle.expr_clause.specs.Asking.{line_of};
ghost use Rattle.group_clause.specs.Partials.{no_tally, tallies};
ghost use Rattle.group_clause.specs.Tallies.{kept};
ghost use Rattle.group_clause.specs.Blocks.{TalliedBy, column_of, numbered_groups};

use crate::group::Group;
use crate::lent_tally::{LentTally, owned_cell};
use crate::numbering::{Numbering, numbered};
use crate::tally::Tally;
use expr_clause::Out;
use frame_core::{ColName, Column, Frame, NoMemory, place_of_name};
use std::alloc::Global;

/// The groups of the rows of a frame, their keys ascending.
///
/// Each row's key becomes a number, each output's tallies stand in a list by that number, and the groups are sorted once.
pub(crate) fn groups_of(
    alloc: Global,
    rows: &Frame,
    key: &ColName,
    outs: &[Out],
) -> Result<Vec<Group>, NoMemory>
    requires named { absent_from 1 rows.now.schema.columns (key.now ∷ map (λ o. o.of) outs.now) ≡ None }
    requires few { length rows.now.rows ≤ 2 ^ 62 }
    ensures { IfOk result (λ made. made.items ≡ kept tallies (map (line_of rows.now.schema.columns key.now outs.now) rows.now.rows)) }
{
    let numbering = numbered(alloc, column_named(rows, key))?;
    let columns = tally_outs(alloc, rows, outs, &numbering)?;
    let mut groups = groups_by_number(alloc, &numbering, &columns)?;
    groups.sort_unstable();
    Ok(groups)
}

/// For each output its tallies by number.
fn tally_outs<'a>(
    alloc: Global,
    rows: &'a Frame,
    outs: &[Out],
    numbering: &Numbering<'_>,
) -> Result<Vec<Vec<LentTally<'a>>>, NoMemory>
    requires named { AllByRecursion (λ o. place_of o.of rows.now.schema.columns ≢ None) outs.now }
    requires lengths { length numbering.now.numbers.items ≡ length rows.now.rows }
    requires below { AllByRecursion (λ n. n < length numbering.now.keys.keys) numbering.now.numbers.items }
    requires few { length rows.now.rows ≤ 2 ^ 62 }
    ensures { IfOk result (λ made. AllZip (λ o c. TalliedBy (length numbering.now.keys.keys) numbering.now.numbers.items (column_of rows.now.schema.columns rows.now.rows o.of) c.items) outs.now made.items) }
{
    let count = numbering.keys.len();
    let mut columns = Vec::with_capacity(alloc, outs.len())?;
    for out in outs {
        let column = column_named(rows, &out.of);
        columns.push(tally_column(alloc, column, &numbering.numbers, count)?)?;
    }
    Ok(columns)
}

/// For each number its key and its tallies, in memory of their own.
fn groups_by_number(
    alloc: Global,
    numbering: &Numbering<'_>,
    columns: &[Vec<LentTally<'_>>],
) -> Result<Vec<Group>, NoMemory>
    requires { AllByRecursion (λ c. length c.items ≡ length numbering.now.keys.keys) columns.now }
    ensures { IfOk result (λ made. made.items ≡ numbered_groups 0 numbering.now.keys.keys (map (λ c. c.items) columns.now)) }
{
    let keys = numbering.keys.as_slice();
    let mut groups = Vec::with_capacity(alloc, keys.len())?;
    for number in 0..keys.len() {
        let row_key = &keys[number];
        let key = owned_cell(alloc, row_key.cell)?;
        let tallies = tallies_at(alloc, columns, number)?;
        groups.push(Group { key, tallies })?;
    }
    Ok(groups)
}

/// The tallies of a number, output by output, in memory of their own.
fn tallies_at(
    alloc: Global,
    columns: &[Vec<LentTally<'_>>],
    number: usize,
) -> Result<Vec<Tally>, NoMemory>
    requires { AllByRecursion (λ c. number < length c.items) columns.now }
    ensures { IfOk result (λ made. made.items ≡ map (λ c. slice_index_or c.items number no_tally) columns.now) }
{
    let mut tallies = Vec::with_capacity(alloc, columns.len())?;
    for column in columns {
        tallies.push(column[number].owned(alloc)?)?;
    }
    Ok(tallies)
}

/// The column of a name.
fn column_named<'a>(rows: &'a Frame, name: &ColName) -> &'a Column
    requires { place_of name.now rows.now.schema.columns ≢ None }
    ensures cells { column_cells result.now ≡ column_of rows.now.schema.columns rows.now.rows name.now }
    ensures fits { AllByRecursion IsCell (column_cells result.now) }
{
    match place_of_name(name, rows.schema().columns()) {
        Some(place) => rows.column(place as u64),
        None => unreachable!(),
    }
}

/// For each number the tally of its rows' cells.
fn tally_column<'a>(
    alloc: Global,
    column: &'a Column,
    numbers: &[usize],
    count: usize,
) -> Result<Vec<LentTally<'a>>, NoMemory>
    requires lengths { length numbers.now ≡ length (column_cells column.now) }
    requires below { AllByRecursion (λ n. n < count) numbers.now }
    requires cells { AllByRecursion IsCell (column_cells column.now) }
    requires few { length numbers.now ≤ 2 ^ 62 }
    ensures { IfOk result (λ made. TalliedBy count numbers.now (column_cells column.now) made.items) }
{
    let mut tallies = no_tallies(alloc, count)?;
    for row in 0..numbers.len() {
        tallies[numbers[row]].add(column.cell(row));
    }
    Ok(tallies)
}

/// So many tallies of no cell.
fn no_tallies<'a>(alloc: Global, count: usize) -> Result<Vec<LentTally<'a>>, NoMemory>
    ensures length { IfOk result (λ made. length made.items ≡ count) }
    ensures none { IfOk result (λ made. AllByRecursion (λ t. t ≡ no_tally) made.items) }
{
    let mut tallies = Vec::with_capacity(alloc, count)?;
    for _ in 0..count {
        tallies.push(LentTally::none())?;
    }
    Ok(tallies)
}
