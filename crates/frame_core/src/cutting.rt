//! Rows of a frame: how many lie where, a part of them, and all of them again.

ghost use Rattle.std.specs.Prelude.{◌≡◌, ◌≤◌, true, not, length, map, count_by, slice_range, IfOk};
ghost use Rattle.std.specs.List.{AllByRecursion};
ghost use Rattle.frame_core.specs.Ranges.{IsRange, is_below, is_above};
ghost use Rattle.frame_core.specs.Frames.{NeverFall, rows_between, slice};
ghost use Rattle.frame_core.specs.Columns.{column_type, column_cells};

use crate::column::Column;
use crate::frame::Frame;
use crate::range::Range;
use base_types::{Items, Keep, NoMemory};
use std::alloc::Global;

impl Frame {
    /// How many rows lie below the range, and how many not above it. The stamps are searched by halves.
    pub fn rows_between(&self, range: Range) -> (u64, u64)
        requires { self.now.schema.timed ≡ true }
        ensures { result ≡ rows_between range self.now }
    {
        let stamps = self.stamps.items();
        (
            count_below(stamps, range) as u64,
            count_up_to(stamps, range) as u64,
        )
    }

    /// The rows from one place up to before another, counted from 0, in memory of their own.
    pub fn slice(&self, alloc: Global, from: u64, to: u64) -> Result<Frame, NoMemory>
        requires ordered { from ≤ to }
        requires within { to ≤ length self.now.rows }
        ensures { IfOk result (λ part. part ≡ slice self.now from to) }
    {
        let schema = self.schema.copy(alloc)?;
        let stamps = Items::from_slice(alloc, &self.stamps.items()[from as usize..to as usize])?;
        let columns = column_parts(alloc, self.columns.items(), from as usize, to as usize)?;
        Ok(Frame {
            schema,
            stamps,
            columns,
        })
    }
}

impl Keep for Frame {
    fn copy(&self, alloc: Global) -> Result<Frame, NoMemory> {
        let schema = self.schema.copy(alloc)?;
        let stamps = Items::from_slice(alloc, self.stamps.items())?;
        let columns = self.columns.copy(alloc)?;
        Ok(Frame {
            schema,
            stamps,
            columns,
        })
    }
}

/// How many of these stamps lie below the range. They are searched by halves.
pub fn count_below(stamps: &[i64], range: Range) -> usize
    requires { NeverFall stamps.now }
    ensures count { result ≡ count_by (is_below range) stamps.now }
    ensures range { IsRange range }
{
    match range.from() {
        Some(from) => stamps.partition_point(|stamp| *stamp < from),
        None => 0,
    }
}

/// How many of these stamps do not lie above the range. They are searched by halves.
pub fn count_up_to(stamps: &[i64], range: Range) -> usize
    requires { NeverFall stamps.now }
    ensures { result ≡ count_by (λ t. not (is_above range t)) stamps.now }
{
    match range.to() {
        Some(to) => stamps.partition_point(|stamp| *stamp <= to),
        None => stamps.len(),
    }
}

/// The cells of each column from one place up to before another.
fn column_parts(
    alloc: Global,
    columns: &[Column],
    from: usize,
    to: usize,
) -> Result<Items<Column>, NoMemory>
    requires ordered { from ≤ to }
    requires within { AllByRecursion (λ c. to ≤ length (column_cells c)) columns.now }
    ensures kinds { IfOk result (λ parts. map column_type parts ≡ map column_type columns.now) }
    ensures cells { IfOk result (λ parts. map column_cells parts ≡ map (λ c. slice_range (column_cells c) from to) columns.now) }
{
    let mut parts = Items::with_capacity(alloc, columns.len())?;
    for column in columns {
        parts.push(column.part(alloc, from, to)?)?;
    }
    Ok(parts)
}
