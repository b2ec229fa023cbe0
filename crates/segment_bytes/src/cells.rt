ghost use Rattle.std.specs.Prelude.{◌≡◌, ◌≤◌, ◌*◌, length, length as length_of, take, drop, IfSome};
ghost use Rattle.std.specs.Str.{IsAscii};
ghost use Rattle.byte_fields.specs.Reading.{signed_at, list_at};
ghost use Rattle.byte_fields.specs.Readers.{Gives, seen_by, rest_of};
ghost use Rattle.segment_bytes.specs.Heads.{text_at};
ghost use Rattle.segment_bytes.specs.CellTexts.{flag_cell_at, end_at, ends_at, texts_at, cells_at};
ghost use Rattle.segment_bytes.specs.Skipping.{counted, last_from, ends_in};

use crate::heads::read_text;
use byte_fields::{read_u8, read_u32};
use frame_core::ColType;

/// The most bytes that all texts of a segment have.
const MOST_TEXT_BYTES: usize = 67_108_864;

/// The most bytes that one text has.
const MOST_BYTES_OF_A_TEXT: usize = 65_535;

/// How many bytes of text the next cells have, and what follows the cells. `so_far` bytes stand in the texts of earlier
/// columns. Where a cell is not whole or breaks its rule, the error is how many bytes are left from it on.
#[tactic(auto, unfolding(crate::specs::CellTexts::cells_at))]
pub fn skip_cells(
    kind: ColType,
    so_far: usize,
    rows: u32,
    bytes: &[u8],
) -> Result<(usize, &[u8]), usize>
    requires { so_far ≤ 67108864 }
    ensures { Gives (λ x. (x.0, x.1.now)) result (seen_by counted (cells_at kind so_far rows bytes.now)) }
{
    match kind {
        ColType::Int => Ok((0, skip_numbers(rows, bytes)?)),
        ColType::Flag => Ok((0, skip_flags(rows, bytes)?)),
        ColType::Text => skip_text_cells(so_far, rows, bytes),
        ColType::Stamp => Ok((0, skip_numbers(rows, bytes)?)),
    }
}

/// What follows so many numbers of eight bytes each.
fn skip_numbers(count: u32, bytes: &[u8]) -> Result<&[u8], usize>
    ensures { Gives (λ rest. rest.now) result (rest_of (list_at signed_at count bytes.now)) }
{
    let width = 8 * count as usize;
    if bytes.len() < width {
        return Err(bytes.len() % 8);
    }
    let (_, rest) = bytes.split_at(width);
    Ok(rest)
}

/// What follows a flag.
fn skip_flag(bytes: &[u8]) -> Result<&[u8], usize>
    ensures { Gives (λ rest. rest.now) result (rest_of (flag_cell_at bytes.now)) }
{
    let (flag, rest) = read_u8(bytes)?;
    if flag <= 1 {
        Ok(rest)
    } else {
        Err(bytes.len())
    }
}

/// What follows so many flags.
fn skip_flags(count: u32, bytes: &[u8]) -> Result<&[u8], usize>
    ensures { Gives (λ rest. rest.now) result (rest_of (list_at flag_cell_at count bytes.now)) }
{
    let mut rest = bytes;
    for _ in 0..count {
        rest = skip_flag(rest)?;
    }
    Ok(rest)
}

/// The bytes in so many texts, and what follows them.
fn skip_text_cells(so_far: usize, count: u32, bytes: &[u8]) -> Result<(usize, &[u8]), usize>
    requires { so_far ≤ 67108864 }
    ensures { Gives (λ x. (x.0, x.1.now)) result (seen_by counted (cells_at ColType.Text so_far count bytes.now)) }
{
    let (length, texts) = skip_ends(so_far, count, bytes)?;
    if let Some(rest) = skip_ascii(length, texts) {
        return Ok((length, rest));
    }
    let rest = skip_texts(count, bytes, texts)?;
    Ok((length, rest))
}

/// What follows so many bytes of ASCII, which are UTF-8 wherever they are cut; None where they are others.
fn skip_ascii(length: usize, bytes: &[u8]) -> Option<&[u8]>
    ensures whole { IfSome result (λ rest. length ≤ length_of bytes.now) }
    ensures ascii { IfSome result (λ rest. IsAscii (take length bytes.now)) }
    ensures rest { IfSome result (λ rest. rest.now ≡ drop length bytes.now) }
{
    if length > bytes.len() {
        return None;
    }
    let (texts, rest) = bytes.split_at(length);
    if texts.is_ascii() { Some(rest) } else { None }
}

/// The end of a text that begins at `start`, and what follows.
#[tactic(auto, unfolding(crate::specs::CellTexts::end_at))]
fn read_end(so_far: usize, start: usize, bytes: &[u8]) -> Result<(usize, &[u8]), usize>
    requires { so_far ≤ 67108864 }
    ensures { Gives (λ x. (x.0, x.1.now)) result (end_at so_far start bytes.now) }
{
    let (end, rest) = read_u32(bytes)?;
    let end = end as usize;
    if start <= end && end - start <= MOST_BYTES_OF_A_TEXT && so_far + end <= MOST_TEXT_BYTES {
        Ok((end, rest))
    } else {
        Err(bytes.len())
    }
}

/// The last of so many ends, and what follows them.
fn skip_ends(so_far: usize, count: u32, bytes: &[u8]) -> Result<(usize, &[u8]), usize>
    requires { so_far ≤ 67108864 }
    ensures { Gives (λ x. (x.0, x.1.now)) result (seen_by (last_from 0) (ends_at so_far 0 count bytes.now)) }
{
    let mut start = 0;
    let mut rest = bytes;
    for _ in 0..count {
        let (end, after) = read_end(so_far, start, rest)?;
        start = end;
        rest = after;
    }
    Ok((start, rest))
}

/// What follows so many texts, whose ends are given.
fn skip_texts<'a>(count: u32, ends: &[u8], bytes: &'a [u8]) -> Result<&'a [u8], usize>
    requires { 4 * count ≤ length ends.now }
    ensures { Gives (λ rest. rest.now) result (rest_of (texts_at 0 (ends_in count ends.now) bytes.now)) }
{
    let mut start = 0;
    let mut others = ends;
    let mut rest = bytes;
    for _ in 0..count {
        let (end, ends) = read_u32(others)?;
        let end = end as usize;
        let (_, after) = read_text(end.saturating_sub(start), rest)?;
        start = end;
        others = ends;
        rest = after;
    }
    Ok(rest)
}
