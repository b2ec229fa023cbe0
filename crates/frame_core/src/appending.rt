//! Cells behind those of a column, in the memory that it has.

ghost use Rattle.std.specs.Prelude.{◌≡◌, ◌+◌, ◌^◌, ◌<◌, ◌≤◌, ◌++◌, [], length, map, IfOk, IsOk, OnOk, OnErr};
ghost use Rattle.std.specs.Vec.{vec_len, vec_capacity};
ghost use Rattle.std.specs.List.{AllByRecursion};
ghost use Rattle.frame_core.specs.Columns.{column_type, column_cells};

use crate::cell::ColType;
use crate::column::Column;
use crate::texts::TextList;
use base_types::{Items, NoMemory};
use std::alloc::Global;

impl Column {
    /// A column of this type without cells. It takes no memory.
    pub fn empty(alloc: Global, kind: ColType) -> Column
        ensures kind { column_type result ≡ kind }
        ensures cells { column_cells result ≡ [] }
    {
        match kind {
            ColType::Int => Column::Ints(Items::new(alloc)),
            ColType::Flag => Column::Flags(Items::new(alloc)),
            ColType::Text => Column::Texts(TextList::new(alloc)),
            ColType::Stamp => Column::Stamps(Items::new(alloc)),
        }
    }

    /// A column of this type without cells, with memory for so many. Of the bytes of texts nothing is known yet.
    pub fn with_capacity(alloc: Global, kind: ColType, cells: usize) -> Result<Column, NoMemory>
        ensures kind { IfOk result (λ made. column_type made ≡ kind) }
        ensures cells { IfOk result (λ made. column_cells made ≡ []) }
    {
        match kind {
            ColType::Int => Ok(Column::Ints(Items::with_capacity(alloc, cells)?)),
            ColType::Flag => Ok(Column::Flags(Items::with_capacity(alloc, cells)?)),
            ColType::Text => {
                let mut texts = TextList::new(alloc);
                texts.reserve(cells, 0)?;
                Ok(Column::Texts(texts))
            }
            ColType::Stamp => Ok(Column::Stamps(Items::with_capacity(alloc, cells)?)),
        }
    }

    /// Puts the cells of another column of this type behind these, all or none.
    pub fn append(&mut self, more: &Column) -> Result<(), NoMemory>
        requires { column_type self.old ≡ column_type more.now }
        ensures ok { OnOk result (column_cells self.new ≡ column_cells self.old ++ column_cells more.now) }
        ensures err { OnErr result (column_cells self.new ≡ column_cells self.old) }
        ensures kind { column_type self.new ≡ column_type self.old }
    {
        match (self, more) {
            (Column::Ints(values), Column::Ints(more)) => values.extend(more.items()),
            (Column::Flags(flags), Column::Flags(more)) => flags.extend(more.items()),
            (Column::Texts(texts), Column::Texts(more)) => texts.append(more),
            (Column::Stamps(stamps), Column::Stamps(more)) => stamps.extend(more.items()),
            _ => unreachable!(),
        }
    }
}

impl TextList {
    /// Puts the texts of another list behind these, all or none.
    pub fn append(&mut self, more: &TextList) -> Result<(), NoMemory>
        ensures ok { OnOk result (self.new ≡ self.old ++ more.now) }
        ensures err { OnErr result (self.new ≡ self.old) }
    {
        let by = self.buffer.as_str().len();
        self.ends.reserve(more.ends.len())?;
        self.buffer.push_str(more.buffer.as_str())?;
        push_raised(&mut self.ends, &more.ends, by)?;
        Ok(())
    }
}

/// Puts the ends of another list behind these, each more by so much. It succeeds where there is room for them.
fn push_raised(ends: &mut Vec<usize>, more: &[usize], by: usize) -> Result<(), NoMemory>
    requires { AllByRecursion (λ end. end + by < 2 ^ 64) more.now }
    ensures ok { OnOk result (ends.new.items ≡ ends.old.items ++ map (λ end. end + by) more.now) }
    ensures succeeds { vec_len ends.old + length more.now ≤ vec_capacity ends.old → IsOk result }
{
    for end in more {
        ends.push(*end + by)?;
    }
    Ok(())
}
