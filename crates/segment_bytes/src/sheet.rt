ghost use Rattle.std.specs.Prelude.{◌≡◌, true, int_le, None};
ghost use Rattle.std.specs.Option.{option_map_or};
ghost use Rattle.byte_fields.specs.Readers.{Gives, rest_of};
ghost use Rattle.segment_bytes.specs.Sheets.{rows_at, count_at, stamp_at, stamps_at};

use byte_fields::{read_i64, read_u16, read_u32};

/// The most rows of a segment.
const MOST_ROWS: u32 = 2_000_000;

/// The most columns of a segment.
const MOST_COLUMNS: u16 = 4_096;

/// The most cells of a segment.
const MOST_CELLS: u64 = 8_000_000;

/// The number of rows, and what follows.
#[tactic(auto, unfolding(crate::specs::Sheets::rows_at))]
pub fn read_rows(bytes: &[u8]) -> Result<(u32, &[u8]), usize>
    ensures { Gives (λ x. (x.0, x.1.now)) result (rows_at bytes.now) }
{
    let (rows, rest) = read_u32(bytes)?;
    if rows <= MOST_ROWS {
        Ok((rows, rest))
    } else {
        Err(bytes.len())
    }
}

/// The number of columns, and what follows.
#[tactic(auto, unfolding(crate::specs::Sheets::count_at))]
pub fn read_count(rows: u32, bytes: &[u8]) -> Result<(u16, &[u8]), usize>
    ensures { Gives (λ x. (x.0, x.1.now)) result (count_at rows bytes.now) }
{
    let (count, rest) = read_u16(bytes)?;
    if count <= MOST_COLUMNS && rows as u64 * count as u64 <= MOST_CELLS {
        Ok((count, rest))
    } else {
        Err(bytes.len())
    }
}

/// Whether a stamp is not below the one before it.
fn follows(before: Option<i64>, stamp: i64) -> bool
    ensures { result ≡ option_map_or (λ s. int_le s stamp) before true }
{
    match before {
        None => true,
        Some(before) => before <= stamp,
    }
}

/// The next stamp, and what follows.
#[tactic(auto, unfolding(crate::specs::Sheets::stamp_at))]
fn read_stamp(before: Option<i64>, bytes: &[u8]) -> Result<(i64, &[u8]), usize>
    ensures { Gives (λ x. (x.0, x.1.now)) result (stamp_at before bytes.now) }
{
    let (stamp, rest) = read_i64(bytes)?;
    if follows(before, stamp) {
        Ok((stamp, rest))
    } else {
        Err(bytes.len())
    }
}

/// What follows so many stamps that never fall.
pub fn skip_stamps(count: u32, bytes: &[u8]) -> Result<&[u8], usize>
    ensures { Gives (λ rest. rest.now) result (rest_of (stamps_at count None bytes.now)) }
{
    let mut before = None;
    let mut rest = bytes;
    for _ in 0..count {
        let (stamp, after) = read_stamp(before, rest)?;
        before = Some(stamp);
        rest = after;
    }
    Ok(rest)
}
