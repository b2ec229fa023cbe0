//! The limits on frames, tested over columns before any cell is copied.

ghost use Rattle.std.specs.Prelude.{◌≡◌, ◌<◌, ◌^◌, max, map, fold, sum_by};
ghost use Rattle.frame_core.specs.Columns.{column_cells};
ghost use Rattle.frame_core.specs.Limits.{too_large, longest_text as longest_of, all_text_bytes};

use crate::column::Column;
use crate::refusal::Extent;

/// The first limit that a frame of so many rows, columns and bytes of text exceeds.
pub fn exceeded(
    rows: usize,
    columns: usize,
    one_text: usize,
    all_texts: u128,
) -> Option<(Extent, u64)>
    ensures { result ≡ too_large rows columns one_text all_texts }
{
    if rows > 2_000_000 {
        return Some((Extent::Rows, 2_000_000));
    }
    if columns > 4_096 {
        return Some((Extent::Columns, 4_096));
    }
    if rows * columns > 8_000_000 {
        return Some((Extent::Cells, 8_000_000));
    }
    if one_text > 65_535 {
        return Some((Extent::OneText, 65_535));
    }
    if all_texts > 67_108_864 {
        return Some((Extent::TextBytes, 67_108_864));
    }
    None
}

/// The bytes of the longest text in these columns.
pub fn longest_text(columns: &[Column]) -> usize
    ensures { result ≡ fold max 0 (map (λ c. longest_of (column_cells c)) columns.now) }
{
    let mut longest = 0;
    for column in columns {
        longest = longest.max(column.longest_text());
    }
    longest
}

/// The bytes of all texts in these columns.
pub fn text_bytes(columns: &[Column]) -> u128
    ensures sum { result ≡ sum_by (λ c. all_text_bytes (column_cells c)) columns.now }
    ensures small { result < 2 ^ 127 }
{
    let mut bytes: u128 = 0;
    for column in columns {
        bytes += column.text_bytes() as u128;
    }
    bytes
}
