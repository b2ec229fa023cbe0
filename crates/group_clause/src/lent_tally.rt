ghost use Rattle.std.specs.Prelude.{◌≡◌, ◌^◌, Some, option_map, IfOk};
ghost use Rattle.frame_core.specs.Frames.{cell_of};
ghost use Rattle.expr_clause.specs.Cells.{number};
ghost use Rattle.expr_clause.specs.Groups.{best_there};
ghost use Rattle.group_clause.specs.Partials.{Tally as Told, join_tallies, no_tally, tally_of};
ghost use Rattle.group_clause.specs.Keeping.{IsTally, order_of};

use crate::tally::{Extreme, Tally};
use frame_core::{Cell, CellRef, Keep, NoMemory, Text};
use std::alloc::Global;
use std::marker::Model;

/// A tally whose cells are lent by their column, so that adding a cell takes no memory.
#[derive(Drop)]
pub(crate) struct LentTally<'a> {
    sum: i128,
    least: Option<CellRef<'a>>,
    greatest: Option<CellRef<'a>>,
    count: u64,
}

impl<'a> Model for LentTally<'a> {
    ghost use Rattle.std.specs.Prelude.{option_map};
    ghost use Rattle.frame_core.specs.Frames.{cell_of};
    ghost use Rattle.group_clause.specs.Partials.{Tally as Told};

    ghost Value = { Told };

    ghost view = { λ t. record { sum = t.sum; least = option_map cell_of t.least; greatest = option_map cell_of t.greatest; count = t.count } };
}

impl<'a> LentTally<'a> {
    /// The tally of no cell.
    pub(crate) fn none() -> LentTally<'a>
        ensures { result ≡ no_tally }
    {
        LentTally {
            sum: 0,
            least: None,
            greatest: None,
            count: 0,
        }
    }

    /// Adds a cell.
    pub(crate) fn add(&mut self, cell: CellRef<'a>)
        requires { IsTally (2 ^ 62) self.old }
        ensures { self.new ≡ join_tallies self.old (tally_of (cell_of cell.entry)) }
    {
        self.sum += number_in(cell);
        self.least = better(Extreme::Least, self.least, cell);
        self.greatest = better(Extreme::Greatest, self.greatest, cell);
        self.count += 1;
    }

    /// The same tally, with cells of its own.
    pub(crate) fn owned(&self, alloc: Global) -> Result<Tally, NoMemory>
        ensures { IfOk result (λ made. made ≡ self.now) }
    {
        let least = owned_if(alloc, self.least)?;
        let greatest = owned_if(alloc, self.greatest)?;
        Ok(Tally {
            sum: self.sum,
            least,
            greatest,
            count: self.count,
        })
    }
}

/// The whole number in a cell.
fn number_in(cell: CellRef<'_>) -> i128
    ensures { result ≡ number (cell_of cell.entry) }
{
    match cell {
        CellRef::Int(n) => i128::from(n),
        CellRef::Flag(_) | CellRef::Text(_) | CellRef::Stamp(_) => 0,
    }
}

/// The cell that is looked for, of one that may be there and another.
fn better<'a>(which: Extreme, a: Option<CellRef<'a>>, b: CellRef<'a>) -> Option<CellRef<'a>>
    ensures { option_map cell_of result ≡ best_there (order_of which) (option_map cell_of a.entry) (Some (cell_of b.entry)) }
{
    match a {
        None => Some(b),
        Some(a) => {
            if which.order(a, b).is_gt() {
                Some(b)
            } else {
                Some(a)
            }
        }
    }
}

/// A cell of its own.
pub(crate) fn owned_cell(alloc: Global, cell: CellRef<'_>) -> Result<Cell, NoMemory>
    ensures { IfOk result (λ made. made ≡ cell_of cell.entry) }
{
    match cell {
        CellRef::Int(n) => Ok(Cell::Int(n)),
        CellRef::Flag(b) => Ok(Cell::Flag(b)),
        CellRef::Text(text) => Ok(Cell::Text(Text::make(alloc, text)?)),
        CellRef::Stamp(t) => Ok(Cell::Stamp(t)),
    }
}

/// The cell that is there, of its own.
fn owned_if(alloc: Global, cell: Option<CellRef<'_>>) -> Result<Option<Cell>, NoMemory>
    ensures { IfOk result (λ made. made ≡ option_map cell_of cell.entry) }
{
    match cell {
        None => Ok(None),
        Some(cell) => Ok(Some(owned_cell(alloc, cell)?)),
    }
}
