ghost use Rattle.std.specs.Prelude.{◌≡◌, ◌+◌, ◌&&◌, ℕ, not, nat_eq};
ghost use Rattle.std.specs.Ordering.{int_eq};
ghost use Rattle.index_tree.specs.IndexText.{no_reach, reach_of, rules_after};
ghost use Rattle.index_tree.specs.SlotViews.{slot_seen};

use crate::slot_view::SlotView;
use std::marker::Model;

/// The most rows of a row block.
const MOST_ROWS: u32 = 100_000;

/// How far the slots reach that were read so far: the last row block, and how many of its columns are covered. Before the
/// first slot all is 0.
#[derive(Clone, Copy)]
pub struct Reach {
    first_row: u32,
    rows: u32,
    first: i64,
    last: i64,
    columns: u32,
    is_open: bool,
}

impl Model for Reach {
    ghost use Rattle.index_tree.specs.IndexText.{Reach as Reached};

    ghost Value = { Reached };

    ghost view = { λ r. record {
      first_row = r.first_row;
      rows = r.rows;
      first = r.first;
      last = r.last;
      columns = r.columns;
      is_open = r.is_open;
    } };

    ghost inverse = { λ r. record {
      first_row = r.first_row;
      rows = r.rows;
      first = r.first;
      last = r.last;
      columns = r.columns;
      is_open = r.is_open;
    } };
}

impl Reach {
    /// The reach before the first slot.
    pub fn none() -> Reach
        ensures { result ≡ no_reach }
    {
        Reach {
            first_row: 0,
            rows: 0,
            first: 0,
            last: 0,
            columns: 0,
            is_open: false,
        }
    }

    /// How far a slot reaches, in an index of so many columns.
    pub fn of(columns: u16, slot: &SlotView<'_>) -> Reach
        ensures { result ≡ reach_of columns (slot_seen slot.now) }
    {
        let reached = slot.first_col as u32 + slot.cols as u32;
        Reach {
            first_row: slot.first_row,
            rows: slot.rows,
            first: slot.first,
            last: slot.last,
            columns: reached,
            is_open: reached != columns as u32,
        }
    }

    /// Whether the next slot may begin at this row.
    pub fn takes_first_row(&self, first_row: u32) -> bool
        ensures { (total : ℕ) → result ≡ (rules_after total self.now).first_row first_row }
    {
        if self.is_open {
            first_row == self.first_row
        } else {
            first_row as u64 == self.first_row as u64 + self.rows as u64
        }
    }

    /// Whether the next slot may have so many rows, of so many in the index.
    pub fn takes_rows(&self, total: u32, rows: u32) -> bool
        ensures { result ≡ (rules_after total self.now).rows rows }
    {
        if self.is_open {
            rows == self.rows
        } else {
            1 <= rows
                && rows <= MOST_ROWS
                && self.first_row as u64 + self.rows as u64 + rows as u64 <= total as u64
        }
    }

    /// Whether the next slot may have this first stamp, where its key has that one.
    pub fn takes_first(&self, keyed: i64, first: i64) -> bool
        ensures { (total : ℕ) → result ≡ ((rules_after total self.now).first first && int_eq keyed first) }
    {
        let follows = if self.is_open {
            first == self.first
        } else {
            self.rows == 0 || self.last <= first
        };
        follows && keyed == first
    }

    /// Whether the next slot may have this last stamp, where its key has that one.
    pub fn takes_last(&self, keyed: i64, first: i64, last: i64) -> bool
        ensures { (total : ℕ) → result ≡ ((rules_after total self.now).last first last && int_eq keyed last) }
    {
        let follows = if self.is_open {
            last == self.last
        } else {
            first <= last
        };
        follows && keyed == last
    }

    /// Whether the next slot may begin at this column.
    pub fn takes_first_col(&self, first_col: u16) -> bool
        ensures { (total : ℕ) → result ≡ (rules_after total self.now).first_col first_col }
    {
        if self.is_open {
            first_col as u32 == self.columns
        } else {
            first_col == 0
        }
    }

    /// Whether the slots reach the last column, and the last of so many rows.
    pub fn is_whole(&self, total: u32) -> bool
        ensures { result ≡ (not self.now.is_open && nat_eq (self.now.first_row + self.now.rows) total) }
    {
        !self.is_open && self.first_row as u64 + self.rows as u64 == total as u64
    }
}
