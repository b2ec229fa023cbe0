ghost use Rattle.byte_fields.specs.Readers.{Gives};
ghost use Rattle.index_tree.specs.SlotTexts.{span_at};

use byte_fields::{read_i64, read_u16, read_u32};
use frame_core::Part;

/// The rows and columns of a tile, and the stamps of its first and last row: a slot without its key.
#[derive(Clone, Copy)]
pub struct Span {
    pub part: Part,
    /// The stamp of the tile's first row, in nanoseconds since 1970.
    pub first: i64,
    /// The stamp of the tile's last row.
    pub last: i64,
}

/// How many bytes the spelling of a span has.
pub(crate) const SPAN_BYTES: usize = 28;

/// The next span, and what follows it. Where a field is not whole, the error is how many bytes are left from it on.
pub(crate) fn read_span(bytes: &[u8]) -> Result<(Span, &[u8]), usize>
    ensures { Gives (λ x. (x.0, x.1.now)) result (span_at bytes.now) }
{
    let (first_row, rest) = read_u32(bytes)?;
    let (rows, rest) = read_u32(rest)?;
    let (first, rest) = read_i64(rest)?;
    let (last, rest) = read_i64(rest)?;
    let (first_col, rest) = read_u16(rest)?;
    let (cols, rest) = read_u16(rest)?;
    let part = Part {
        first_row: first_row as u64,
        rows: rows as u64,
        first_col: first_col as u64,
        cols: cols as u64,
    };
    Ok((Span { part, first, last }, rest))
}
