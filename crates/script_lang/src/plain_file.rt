ghost use Rattle.std.specs.Prelude.{◌≡◌, ◌<◌, [], true, length, map, IfOk};
ghost use Rattle.std.specs.List.{list_all};
ghost use Rattle.frame_core.specs.RawFrames.{table_of};
ghost use Rattle.script_lang.specs.PlainFiles.{is_int, rows_table, plain_table_of};
ghost use Rattle.script_lang.specs.Rows.{no_rows, columns_table};
ghost use Rattle.script_lang.specs.Answers.{GivesCsv};

use crate::fault::CsvFault;
use crate::header::{name_field, read_names};
use crate::rows::{read_rows, stop_of};
use base_types::{Items, NoMemory};
use frame_core::{ColName, ColType, Column, RawFrame};
use std::alloc::Global;

/// A number and the byte behind it take about so many bytes.
const BYTES_A_NUMBER: usize = 4;

fn are_ints(types: &[ColType]) -> bool
    ensures { result ≡ list_all is_int types.now }
{
    types.iter().all(|t| matches!(t, ColType::Int))
}

fn empty_column(alloc: Global, capacity: usize) -> Result<Items<i64>, NoMemory>
    ensures { IfOk result (λ column. column ≡ []) }
{
    Ok(Items::from_vec(Vec::with_capacity(alloc, capacity)?))
}

/// A column for the stamps and one for each type.
fn empty_columns(
    alloc: Global,
    types: &[ColType],
    capacity: usize,
) -> Result<Vec<Items<i64>>, NoMemory>
    ensures { IfOk result (λ columns. columns.items ≡ no_rows types.now) }
{
    let mut columns = Vec::with_capacity(alloc, types.len() + 1)?;
    columns.push(empty_column(alloc, capacity)?)?;
    for _type in types {
        columns.push(empty_column(alloc, capacity)?)?;
    }
    Ok(columns)
}

fn int_columns(alloc: Global, columns: Vec<Items<i64>>) -> Result<Items<Column>, NoMemory>
    ensures { IfOk result (λ made. made ≡ map Column.Ints columns.items) }
{
    let columns = columns.into_iter().map(|column| Column::Ints(column));
    Ok(Items::from_vec(columns.collect(alloc)?))
}

/// The frame of these columns, of which the first has the stamps.
fn frame_of(
    alloc: Global,
    names: Items<ColName>,
    mut columns: Vec<Items<i64>>,
) -> Result<RawFrame, NoMemory>
    requires { 0 < length columns.items }
    ensures { IfOk result (λ raw. table_of raw ≡ columns_table names columns.items) }
{
    let stamps = columns.remove(0);
    let columns = int_columns(alloc, columns)?;
    Ok(RawFrame {
        stamps,
        names,
        columns,
    })
}

/// The frame of these names and of all rows.
#[tactic(auto, unfolding(crate::specs::PlainFiles::rows_table))]
fn read_table(
    alloc: Global,
    types: &[ColType],
    names: Items<ColName>,
    bytes: &[u8],
) -> Result<RawFrame, CsvFault>
    requires { list_all is_int types.now ≡ true }
    ensures { GivesCsv table_of result (rows_table types.now names bytes.now) }
{
    let capacity = bytes.len() / BYTES_A_NUMBER / (types.len() + 1);
    let mut columns = empty_columns(alloc, types, capacity)?;
    read_rows(&mut columns, bytes)?;
    Ok(frame_of(alloc, names, columns)?)
}

/// The frame of a plain file, by the types of its columns: each is a whole number.
///
/// The file's lines end with LF. The first has the index's name, which does not count, and a name for each type, joined by
/// commas; a name is an identifier of at most 255 bytes. Each other line has the stamp and a number for each type, joined by
/// commas: an optional `-`, and 1 to 18 digits. Every other file is BadCsv.
#[tactic(auto, unfolding(crate::specs::PlainFiles::plain_table_of, crate::specs::Fronts::line_at))]
pub fn read_frame(alloc: Global, types: &[ColType], bytes: &[u8]) -> Result<RawFrame, CsvFault>
    ensures { GivesCsv table_of result (plain_table_of types.now bytes.now) }
{
    if !are_ints(types) {
        return Err(CsvFault::BadCsv);
    }
    let Some((_, rest)) = name_field(stop_of(types.len()), bytes) else {
        return Err(CsvFault::BadCsv);
    };
    let (names, rest) = read_names(alloc, types.len(), rest)?;
    read_table(alloc, types, names, rest)
}
