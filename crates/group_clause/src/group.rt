ghost use Rattle.std.specs.Prelude.{◌≡◌, Some, refl};
ghost use Rattle.group_clause.specs.GroupOrder.{same_group, group_cmp, groups_equiv, groups_po, groups_total};
ghost use Rattle.std.specs.Cmp.{partial_equiv_from_equiv};

use crate::tally::Tally;
use expr_clause::{compare_cells, lent};
use frame_core::Cell;
use std::cmp::Ordering;
use std::marker::Model;

/// A key, and what is kept of each output of its lines. Groups are ordered by their keys.
#[derive(Drop)]
pub(crate) struct Group {
    pub key: Cell,
    pub tallies: Vec<Tally>,
}

impl Model for Group {
    ghost use Rattle.std.specs.Prelude.{List};
    ghost use Rattle.frame_core.specs.declared.cell.Cell.{Cell};
    ghost use Rattle.group_clause.specs.Partials.{Tally};

    ghost Value = { Cell × List Tally };

    ghost view = { λ g. (g.key, g.tallies.items) };
}

impl PartialEq for Group {
    ghost eq = { same_group };

    ghost laws = { partial_equiv_from_equiv groups_equiv };

    fn eq(&self, other: &Group) -> bool {
        self.cmp(other).is_eq()
    }
}

impl Eq for Group {
    ghost laws = { groups_equiv };
}

impl PartialOrd for Group {
    ghost partial_cmp = { λ g h. Some (group_cmp g h) };

    ghost laws = { groups_po };

    fn partial_cmp(&self, other: &Group) -> Option<Ordering> {
        Some(self.cmp(other))
    }
}

impl Ord for Group {
    ghost cmp = { group_cmp };

    ghost total = { groups_total };

    ghost matches_partial_cmp = { λ g h. refl };

    ghost matches_eq = { λ g h. refl };

    fn cmp(&self, other: &Group) -> Ordering {
        compare_cells(lent(&self.key), lent(&other.key))
    }
}
