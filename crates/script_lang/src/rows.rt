ghost use Rattle.std.specs.Prelude.{◌≡◌, ◌<◌, length, option_map};
ghost use Rattle.script_lang.specs.Fronts.{whole_number_at, field_at, stop_before, line_at};
ghost use Rattle.script_lang.specs.PlainFiles.{plain_rows_of};
ghost use Rattle.script_lang.specs.Rows.{add_rows, with_row};
ghost use Rattle.script_lang.specs.Answers.{Reads, GivesCsv};

use crate::fault::CsvFault;
use crate::number::number_of;
use base_types::Items;

/// What ends a value behind which so many others stand in its line.
pub fn stop_of(left: usize) -> u8
    ensures { result ≡ stop_before left }
{
    if left == 0 { b'\n' } else { b',' }
}

/// The number at the front, and what stands behind the byte that ends it.
fn field_of(stop: u8, bytes: &[u8]) -> Option<(i64, &[u8])>
    ensures { Reads (λ x. (x.0, x.1.now)) result (field_at whole_number_at stop bytes.now) }
{
    let (number, after) = number_of(bytes)?;
    let (end, rest) = after.split_first()?;
    if *end == stop {
        Some((number, rest))
    } else {
        None
    }
}

/// Adds the numbers of the row at the front to the columns, and gives what stands behind it.
fn read_row<'a>(columns: &mut [Items<i64>], bytes: &'a [u8]) -> Result<&'a [u8], CsvFault>
    ensures { GivesCsv (λ rest. (columns.new, rest.now)) result (option_map (with_row columns.old) (line_at whole_number_at (length columns.old) bytes.now)) }
{
    let count = columns.len();
    let mut rest = bytes;
    for place in 0..count {
        let Some((number, after)) = field_of(stop_of(count - place - 1), rest) else {
            return Err(CsvFault::BadCsv);
        };
        columns[place].push(number)?;
        rest = after;
    }
    Ok(rest)
}

/// Adds the numbers of all rows to the columns.
#[tactic(auto, unfolding(crate::specs::PlainFiles::plain_rows_of))]
pub fn read_rows(columns: &mut [Items<i64>], bytes: &[u8]) -> Result<(), CsvFault>
    ensures { GivesCsv (λ done. columns.new) result (option_map (add_rows columns.old) (plain_rows_of (length columns.old) bytes.now)) }
{
    let mut rest = bytes;
    // A row takes a byte at least.
    for _ in 0..bytes.len() {
        if rest.is_empty() {
            return Ok(());
        }
        rest = read_row(columns, rest)?;
    }
    if rest.is_empty() {
        Ok(())
    } else {
        Err(CsvFault::BadCsv)
    }
}
