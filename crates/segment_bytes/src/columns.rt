ghost use Rattle.std.specs.Prelude.{◌≡◌, ◌++◌, ℕ, List, [], length, slice_get, Some};
ghost use Rattle.std.specs.List.{AllByRecursion, flat_map, list_any};
ghost use Rattle.byte_fields.specs.Readers.{Gives, rest_of};
ghost use Rattle.frame_core.specs.Texts.{same_text};
ghost use Rattle.segment_bytes.specs.Sheets.{Series, series_text, columns_at};
ghost use Rattle.segment_bytes.specs.Kept.{IsStored};
ghost use Rattle.segment_bytes.specs.Skipping.{width_at, skip_at};
ghost use Rattle.segment_bytes.specs.Lying.{Spells, LiesAs};

use crate::cells::skip_cells;
use crate::heads::{read_head, read_type};
use byte_fields::{read_bytes, read_u8, read_u32};
use frame_core::ColType;

/// A column as it lies in the bytes of a segment.
#[derive(Clone, Copy)]
pub struct ColumnBytes<'a> {
    pub kind: ColType,
    pub name: &'a [u8],
    pub cells: &'a [u8],
}

/// How many bytes the cells of a column have, which begin here. It takes constant time.
#[tactic(auto, unfolding(crate::specs::Skipping::width_at))]
fn cells_width(kind: ColType, rows: u32, bytes: &[u8]) -> Result<usize, usize>
    ensures { Gives (λ n. n) result (width_at kind rows bytes.now) }
{
    match kind {
        ColType::Int => Ok(8 * rows as usize),
        ColType::Flag => Ok(rows as usize),
        ColType::Stamp => Ok(8 * rows as usize),
        ColType::Text => {
            if rows == 0 {
                return Ok(0);
            }
            let (_, last) = read_bytes(4 * rows as usize - 4, bytes)?;
            let (end, _) = read_u32(last)?;
            Ok(4 * rows as usize + end as usize)
        }
    }
}

/// The next column, none of whose rules is tested, and what follows. It takes constant time.
#[tactic(auto, unfolding(crate::specs::Skipping::skip_at))]
pub fn next_column(rows: u32, bytes: &[u8]) -> Result<(ColumnBytes<'_>, &[u8]), usize>
    ensures { Gives (λ x. ((x.0.kind, x.0.name.now, x.0.cells.now), x.1.now)) result (skip_at rows bytes.now) }
{
    let (kind, rest) = read_type(bytes)?;
    let (length, rest) = read_u8(rest)?;
    let (name, rest) = read_bytes(length as usize, rest)?;
    let width = cells_width(kind, rows, rest)?;
    let (cells, rest) = read_bytes(width, rest)?;
    Ok((ColumnBytes { kind, name, cells }, rest))
}

/// Whether one of the first columns, which were read, has the name.
fn is_among(rows: u32, first: &[u8], count: u16, name: &str) -> bool
    ensures { (done : List Series) (tail : List ℕ) → AllByRecursion (IsStored rows) done → length done ≡ count
        → first.now ≡ flat_map series_text done ++ tail → result ≡ list_any (λ (c : Series). same_text name.now c.0.0) done }
{
    let mut rest = first;
    for _ in 0..count {
        match next_column(rows, rest) {
            Ok((other, after)) => {
                if name.as_bytes() == other.name {
                    return true;
                }
                rest = after;
            }
            Err(_) => return false,
        }
    }
    false
}

/// What follows so many columns, whose names differ.
pub fn skip_columns(rows: u32, count: u16, first: &[u8]) -> Result<&[u8], usize>
    ensures { Gives (λ rest. rest.now) result (rest_of (columns_at [] 0 rows count first.now)) }
{
    let mut so_far = 0;
    let mut rest = first;
    for at in 0..count {
        let (kind, name, cells) = read_head(rest)?;
        if is_among(rows, first, at, name) {
            return Err(name.len() + cells.len());
        }
        let (length, after) = skip_cells(kind, so_far, rows, cells)?;
        so_far += length;
        rest = after;
    }
    Ok(rest)
}

/// The column at a place, counted from 0. It skips each column before it in constant time.
pub fn find_column(rows: u32, columns: &[u8], place: u64) -> ColumnBytes<'_>
    requires { (all : List Series) × Spells rows place columns.now all }
    ensures { (all : List Series) (column : Series) → Spells rows place columns.now all → slice_get all place ≡ Some column → LiesAs column result }
{
    let mut rest = columns;
    for _ in 0..place {
        match next_column(rows, rest) {
            Ok((_, after)) => rest = after,
            Err(_) => unreachable!(),
        }
    }
    match next_column(rows, rest) {
        Ok((found, _)) => found,
        Err(_) => unreachable!(),
    }
}
