ghost use Rattle.std.specs.Prelude.{◌≡◌, ◌+◌, ◌<◌, ◌^◌, ◌+ℤ◌, FitsSigned};
ghost use Rattle.std.specs.Int.{w128};
ghost use Rattle.frame_core.specs.Frames.{cell_of};
ghost use Rattle.expr_clause.specs.Groups.{best, best_there};
ghost use Rattle.group_clause.specs.Partials.{join_tallies};
ghost use Rattle.group_clause.specs.Keeping.{order_of};

use expr_clause::{compare_cells, lent};
use frame_core::{Cell, CellRef};
use std::cmp::Ordering;
use std::marker::Model;

/// What a group keeps of the cells of one output: the sum of their numbers, the least and the greatest of them, and how
/// many there are.
#[derive(Drop)]
pub struct Tally {
    pub(crate) sum: i128,
    pub(crate) least: Option<Cell>,
    pub(crate) greatest: Option<Cell>,
    pub(crate) count: u64,
}

/// Which of some cells is looked for.
#[derive(Clone, Copy)]
pub enum Extreme {
    Least,
    Greatest,
}

impl Model for Tally {
    ghost use Rattle.group_clause.specs.Partials.{Tally as Told};

    ghost Value = { Told };

    ghost view = { λ t. record { sum = t.sum; least = t.least; greatest = t.greatest; count = t.count } };
}

impl Tally {
    /// The tally of the cells of both.
    pub fn join(self, more: Tally) -> Tally
        requires sum { FitsSigned w128 (self.sum +ℤ more.sum) }
        requires count { self.count + more.count < 2 ^ 64 }
        ensures { result ≡ join_tallies self more }
    {
        let Tally {
            sum,
            least,
            greatest,
            count,
        } = self;
        Tally {
            sum: sum + more.sum,
            least: best_there(Extreme::Least, least, more.least),
            greatest: best_there(Extreme::Greatest, greatest, more.greatest),
            count: count + more.count,
        }
    }
}

impl Extreme {
    /// The order in which the cell that is looked for stands first.
    pub(crate) fn order(self, a: CellRef<'_>, b: CellRef<'_>) -> Ordering
        ensures { result ≡ order_of self (cell_of a.entry) (cell_of b.entry) }
    {
        match self {
            Extreme::Least => compare_cells(a, b),
            Extreme::Greatest => compare_cells(b, a),
        }
    }
}

/// The cell that is looked for, of those that are there.
fn best_there(which: Extreme, a: Option<Cell>, b: Option<Cell>) -> Option<Cell>
    ensures { result ≡ best_there (order_of which) a b }
{
    match (a, b) {
        (None, b) => b,
        (Some(a), None) => Some(a),
        (Some(a), Some(b)) => Some(best(which, a, b)),
    }
}

/// The cell that is looked for, of two.
fn best(which: Extreme, a: Cell, b: Cell) -> Cell
    ensures { result ≡ best (order_of which) a b }
{
    if which.order(lent(&a), lent(&b)).is_gt() {
        b
    } else {
        a
    }
}
