use base_types::{Keep, NoMemory, Text};
use std::alloc::Global;

/// The type of a column.
#[derive(Clone, Copy, PartialEq, Eq)]
pub enum ColType {
    /// A whole number of 64 bits with a sign.
    Int,
    /// True or false.
    Flag,
    /// A text of UTF-8.
    Text,
    /// A moment, in nanoseconds since 1970.
    Stamp,
}

/// A cell that is lent by a frame or by the bytes of a segment.
#[derive(Clone, Copy)]
pub enum CellRef<'a> {
    Int(i64),
    Flag(bool),
    Text(&'a str),
    Stamp(i64),
}

/// A cell that owns its text.
#[derive(Drop)]
pub enum Cell {
    Int(i64),
    Flag(bool),
    Text(Text),
    Stamp(i64),
}

impl Keep for ColType {
    fn copy(&self, _alloc: Global) -> Result<ColType, NoMemory> {
        Ok(*self)
    }
}
