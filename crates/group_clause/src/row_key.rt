ghost use Rattle.std.specs.Cmp.{partial_equiv_from_equiv};
ghost use Rattle.std.specs.Ordering.{eq_by_cmp};
ghost use Rattle.expr_clause.specs.Cells.{cell_cmp};
ghost use Rattle.group_clause.specs.Blocks.{cell_fed};
ghost use Rattle.group_clause.specs.CellOrder.{keys_equiv, keys_alike};

use expr_clause::compare_cells;
use frame_core::CellRef;
use std::hash::{Hash, Hasher};
use std::marker::Model;

/// The key of a row, lent by its column, for a table by hash. Contracts see the cell.
#[derive(Drop)]
pub(crate) struct RowKey<'a> {
    pub cell: CellRef<'a>,
}

impl<'a> Model for RowKey<'a> {
    ghost use Rattle.frame_core.specs.declared.cell.Cell.{Cell};
    ghost use Rattle.frame_core.specs.Frames.{cell_of};

    ghost Value = { Cell };

    ghost view = { λ k. cell_of k.cell };
}

impl<'a> PartialEq for RowKey<'a> {
    ghost eq = { eq_by_cmp cell_cmp };

    ghost laws = { partial_equiv_from_equiv keys_equiv };

    fn eq(&self, other: &RowKey<'a>) -> bool {
        compare_cells(self.cell, other.cell).is_eq()
    }
}

impl<'a> Eq for RowKey<'a> {
    ghost laws = { keys_equiv };
}

impl<'a> Hash for RowKey<'a> {
    ghost hash_input = { cell_fed };

    ghost respects_eq = { keys_alike };

    fn hash<H: Hasher>(&self, state: &mut H) {
        match self.cell {
            CellRef::Int(number) => number.hash(state),
            CellRef::Flag(flag) => flag.hash(state),
            CellRef::Text(text) => text.hash(state),
            CellRef::Stamp(moment) => moment.hash(state),
        }
    }
}
