//! Frames and stores for the tests.

ghost use Rattle.std.specs.Prelude.{IfOk};
ghost use Rattle.frame_core.specs.Limits.{IsStorable};

use base_types::Items;
use bucket_core::PlainBucket;
use frame_core::{ColName, Column, Frame, RawFrame};
use key_kind::Symbol;
use segment_cut::Cutting;
use std::alloc::Global;
use std::test::Fail;
use version_chain::StoreLaw;

/// The stamps of five rows.
pub(crate) const FIVE: &[i64] = &[1, 2, 2, 4, 9];

/// The symbol S.
pub(crate) fn symbol(alloc: Global) -> Result<Symbol, Fail> {
    Ok(Symbol::make(alloc, "S")?)
}

/// Rows of these stamps, which stand in each of these columns too.
pub(crate) fn raw_rows(alloc: Global, columns: &[&str], stamps: &[i64]) -> Result<RawFrame, Fail> {
    let mut raw = RawFrame {
        stamps: Items::from_slice(alloc, stamps)?,
        names: Items::new(alloc),
        columns: Items::new(alloc),
    };
    for name in columns {
        raw.names.push(ColName::make(alloc, name)?)?;
        raw.columns
            .push(Column::Ints(Items::from_slice(alloc, stamps)?))?;
    }
    Ok(raw)
}

/// The same rows as a frame.
pub(crate) fn rows(alloc: Global, columns: &[&str], stamps: &[i64]) -> Result<Frame, Fail>
    ensures { IfOk result IsStorable }
{
    let raw = raw_rows(alloc, columns, stamps)?;
    Ok(Frame::make(alloc, &raw)?)
}

/// A store of client 1 that takes so many events.
pub(crate) fn store(alloc: Global, limit: u64) -> Result<PlainBucket<StoreLaw>, Fail> {
    Ok(PlainBucket::make(alloc, 1, limit)?)
}

/// Tiles of so many rows and columns.
pub(crate) fn tiles(rows: u32, columns: u32) -> Cutting {
    Cutting::make(rows, columns).unwrap_or(Cutting::largest())
}
