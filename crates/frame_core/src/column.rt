ghost use Rattle.std.specs.Prelude.{◌≡◌, ◌<◌, ◌≤◌, ◌++◌, length, slice_get, slice_range, Some, FitsSigned, IfOk};
ghost use Rattle.std.specs.Int.{w64};
ghost use Rattle.std.specs.List.{AllByRecursion};
ghost use Rattle.frame_core.specs.Columns.{column_type, column_cells};
ghost use Rattle.frame_core.specs.Frames.{IsCell, cell_of};
ghost use Rattle.frame_core.specs.Limits.{all_text_bytes, longest_text as longest_of};

use crate::cell::{CellRef, ColType};
use crate::texts::TextList;
use base_types::{Items, Keep, NoMemory};
use std::alloc::Global;

/// The cells of one column.
#[derive(Drop)]
pub enum Column {
    Ints(Items<i64>),
    Flags(Items<bool>),
    Texts(TextList),
    Stamps(Items<i64>),
}

impl Column {
    /// The type of the cells.
    pub fn kind(&self) -> ColType
        ensures { result ≡ column_type self.now }
    {
        match self {
            Column::Ints(_) => ColType::Int,
            Column::Flags(_) => ColType::Flag,
            Column::Texts(_) => ColType::Text,
            Column::Stamps(_) => ColType::Stamp,
        }
    }

    /// How many cells there are.
    pub fn len(&self) -> usize
        ensures { result ≡ length (column_cells self.now) }
    {
        match self {
            Column::Ints(values) => values.len(),
            Column::Flags(flags) => flags.len(),
            Column::Texts(texts) => texts.len(),
            Column::Stamps(stamps) => stamps.len(),
        }
    }

    /// How many bytes of text the cells have together.
    pub fn text_bytes(&self) -> usize
        ensures { result ≡ all_text_bytes (column_cells self.now) }
    {
        match self {
            Column::Texts(texts) => texts.bytes(),
            Column::Ints(_) => 0,
            Column::Flags(_) => 0,
            Column::Stamps(_) => 0,
        }
    }

    /// How many bytes the longest text has.
    pub fn longest_text(&self) -> usize
        ensures { result ≡ longest_of (column_cells self.now) }
    {
        match self {
            Column::Texts(texts) => texts.longest(),
            Column::Ints(_) => 0,
            Column::Flags(_) => 0,
            Column::Stamps(_) => 0,
        }
    }

    /// The cells from one place up to before another, in memory of their own.
    pub fn part(&self, alloc: Global, from: usize, to: usize) -> Result<Column, NoMemory>
        requires ordered { from ≤ to }
        requires within { to ≤ length (column_cells self.now) }
        ensures kind { IfOk result (λ part. column_type part ≡ column_type self.now) }
        ensures cells { IfOk result (λ part. column_cells part ≡ slice_range (column_cells self.now) from to) }
    {
        match self {
            Column::Ints(values) => Ok(Column::Ints(Items::from_slice(
                alloc,
                &values.items()[from..to],
            )?)),
            Column::Flags(flags) => Ok(Column::Flags(Items::from_slice(
                alloc,
                &flags.items()[from..to],
            )?)),
            Column::Texts(texts) => Ok(Column::Texts(texts.part(alloc, from, to)?)),
            Column::Stamps(stamps) => Ok(Column::Stamps(Items::from_slice(
                alloc,
                &stamps.items()[from..to],
            )?)),
        }
    }

    /// The cells of this column and behind them those of another of its type, in memory of their own.
    pub fn joined(&self, alloc: Global, other: &Column) -> Result<Column, NoMemory>
        requires { column_type self.now ≡ column_type other.now }
        ensures kind { IfOk result (λ both. column_type both ≡ column_type self.now) }
        ensures cells { IfOk result (λ both. column_cells both ≡ column_cells self.now ++ column_cells other.now) }
    {
        match (self, other) {
            (Column::Ints(first), Column::Ints(more)) => Ok(Column::Ints(Items::joined(
                alloc,
                first.items(),
                more.items(),
            )?)),
            (Column::Flags(first), Column::Flags(more)) => Ok(Column::Flags(Items::joined(
                alloc,
                first.items(),
                more.items(),
            )?)),
            (Column::Texts(first), Column::Texts(more)) => Ok(Column::Texts(first.joined(
                alloc, more,
            )?)),
            (Column::Stamps(first), Column::Stamps(more)) => Ok(Column::Stamps(Items::joined(
                alloc,
                first.items(),
                more.items(),
            )?)),
            _ => unreachable!(),
        }
    }

    /// Nothing is done: contracts learn here that each number has 64 bits and each text is UTF-8.
    pub(crate) fn known(&self)
        ensures { AllByRecursion IsCell (column_cells self.now) }
    {
        match self {
            Column::Ints(values) => read_all(values.items()),
            Column::Flags(_) => {}
            Column::Texts(texts) => {
                let _count = texts.len();
            }
            Column::Stamps(stamps) => read_all(stamps.items()),
        }
    }

    /// The cell at a place, counted from 0, lent.
    pub fn cell(&self, place: usize) -> CellRef<'_>
        requires { place < length (column_cells self.now) }
        ensures { slice_get (column_cells self.now) place ≡ Some (cell_of result) }
    {
        match self {
            Column::Ints(values) => CellRef::Int(values.items()[place]),
            Column::Flags(flags) => CellRef::Flag(flags.items()[place]),
            Column::Texts(texts) => CellRef::Text(texts.at(place)),
            Column::Stamps(stamps) => CellRef::Stamp(stamps.items()[place]),
        }
    }
}

/// The loop does nothing: reading each number tells contracts that it has 64 bits.
pub fn read_all(values: &[i64])
    ensures { AllByRecursion (FitsSigned w64) values.now }
{
    for value in values {
        let _value = *value;
    }
}

impl Keep for Column {
    fn copy(&self, alloc: Global) -> Result<Column, NoMemory> {
        match self {
            Column::Ints(values) => Ok(Column::Ints(Items::from_slice(alloc, values.items())?)),
            Column::Flags(flags) => Ok(Column::Flags(Items::from_slice(alloc, flags.items())?)),
            Column::Texts(texts) => Ok(Column::Texts(texts.copy(alloc)?)),
            Column::Stamps(stamps) => Ok(Column::Stamps(Items::from_slice(alloc, stamps.items())?)),
        }
    }
}
