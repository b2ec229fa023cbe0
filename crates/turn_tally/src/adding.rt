// One seat adds amounts.
ghost use Rattle.std.specs.Prelude.{◌≡◌, ℕ, ◌+◌, ◌^◌, ◌<◌, ◌≤◌, ◌⊎◌, ◌++◌, IfSome, None, length, take, IsFalse};
ghost use Rattle.std.specs.Bool.{OnFalse};
ghost use mathlib.Core.List.{IsPrefix};
ghost use Rattle.turn_cell.specs.Seats.{view, seen, Rests, Holds};
ghost use Rattle.turn_tally.specs.Marks.{mark_of, marks_by, made, marks, total_of};

use crate::mark::{MarkName, Named};
use crate::tally::Tally;
use std::marker::Brand;
use std::sync::Wait;
use turn_cell::{Seat, TurnCell};

// Begins the row, if there is one.
fn begin(cell: &TurnCell<Tally>, seat: &mut Seat<Tally>, row: Option<u32>)
    requires cell { seat.old.table_id ≡ cell.now }
    requires holds { Holds seat.old }
    requires none_begun { (view seat.old).begun ≡ None }
    requires row { IfSome row (λ q. q < 256) }
    requires room { length (seen seat.old) < 2 ^ 62 }
    ensures cell { seat.new.table_id ≡ seat.old.table_id }
    ensures holds { Holds seat.new }
    ensures begun { (view seat.new).begun ≡ row }
    ensures seen { seen seat.new ≡ seen seat.old }
    ensures badge { (view seat.new).badge ≡ (view seat.old).badge }
    ensures top { (view seat.new).top ≡ (view seat.old).top }
{
    if let Some(row) = row {
        cell.begin(seat, row);
    }
}

// Adds the mark that `K` names.
fn mark<K: MarkName, R: Wait>(
    rt: &R,
    cell: &TurnCell<Tally>,
    seat: &mut Seat<Tally>,
    row: Option<u32>,
    amount: u64,
) -> bool
    requires cell { seat.old.table_id ≡ cell.now }
    requires rests { Rests seat.old }
    requires row { IfSome row (λ q. q < 256) }
    requires entry { K.mark ≡ mark_of (view seat.old).badge.number row amount }
    ensures cell { seat.new.table_id ≡ seat.old.table_id }
    ensures rests { Rests seat.new }
    ensures badge { (view seat.new).badge ≡ (view seat.old).badge }
    ensures later { IsPrefix (seen seat.old) (seen seat.new) }
    ensures own { marks_by (view seat.old).badge.number (seen seat.new) ≡ marks_by (view seat.old).badge.number (seen seat.old) ++ made result (view seat.old).badge.number row amount }
    ensures full { OnFalse result ((2 ^ 64 ≤ total_of (seen seat.new) + amount) ⊎ (2 ^ 62 ≤ length (seen seat.new))) }
{
    let tally = cell.take(rt, seat);
    let Some(more) = tally.plus(amount) else {
        cell.give(seat, tally);
        return false;
    };
    begin(cell, seat, row);
    cell.step::<Named<K>>(seat);
    cell.give(seat, more);
    true
}

/// Adds an amount, in a row or in none, and says whether it did. It does not where the total or the count would not fit.
pub fn add<R: Wait>(
    rt: &R,
    cell: &TurnCell<Tally>,
    seat: &mut Seat<Tally>,
    row: Option<u32>,
    amount: u64,
) -> bool
    requires cell { seat.old.table_id ≡ cell.now }
    requires rests { Rests seat.old }
    requires row { IfSome row (λ q. q < 256) }
    ensures cell { seat.new.table_id ≡ seat.old.table_id }
    ensures rests { Rests seat.new }
    ensures badge { (view seat.new).badge ≡ (view seat.old).badge }
    ensures later { IsPrefix (seen seat.old) (seen seat.new) }
    ensures own { marks_by (view seat.old).badge.number (seen seat.new) ≡ marks_by (view seat.old).badge.number (seen seat.old) ++ made result (view seat.old).badge.number row amount }
    ensures full { OnFalse result ((2 ^ 64 ≤ total_of (seen seat.new) + amount) ⊎ (2 ^ 62 ≤ length (seen seat.new))) }
{
    mark::<Brand, R>(rt, cell, seat, row, amount)
}

/// Adds amounts one after the other, as far as they fit, and gives the seat back with the number of those that did.
pub fn add_list<R: Wait>(
    rt: &R,
    cell: &TurnCell<Tally>,
    mut seat: Seat<Tally>,
    amounts: &[u64],
) -> (Seat<Tally>, usize)
    requires cell { seat.table_id ≡ cell.now }
    requires rests { Rests seat }
    ensures cell { result.0.table_id ≡ seat.table_id }
    ensures rests { Rests result.0 }
    ensures badge { (view result.0).badge ≡ (view seat).badge }
    ensures later { IsPrefix (seen seat) (seen result.0) }
    ensures count { result.1 ≤ length amounts.now }
    ensures own { marks_by (view seat).badge.number (seen result.0) ≡ marks_by (view seat).badge.number (seen seat) ++ marks (view seat).badge.number (take result.1 amounts.now) }
{
    let mut count = 0;
    for amount in amounts {
        if !add(rt, cell, &mut seat, None, *amount) {
            break;
        }
        count += 1;
    }
    (seat, count)
}

/// The total: the sum of all amounts that the seat has seen then.
pub fn total<R: Wait>(rt: &R, cell: &TurnCell<Tally>, seat: &mut Seat<Tally>) -> u64
    requires cell { seat.old.table_id ≡ cell.now }
    requires rests { Rests seat.old }
    ensures cell { seat.new.table_id ≡ seat.old.table_id }
    ensures rests { Rests seat.new }
    ensures badge { (view seat.new).badge ≡ (view seat.old).badge }
    ensures later { IsPrefix (seen seat.old) (seen seat.new) }
    ensures own { marks_by (view seat.old).badge.number (seen seat.new) ≡ marks_by (view seat.old).badge.number (seen seat.old) }
    ensures total { result ≡ total_of (seen seat.new) }
{
    let tally = cell.take(rt, seat);
    let total = tally.total;
    cell.give(seat, tally);
    total
}
