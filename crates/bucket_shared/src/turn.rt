// One turn of a seat at the store.
ghost use Rattle.std.specs.Prelude.{◌≡◌, ◌<◌, ◌^◌, None, length, IfSome};
ghost use Rattle.turn_cell.specs.Seats.{view, seen, Rests, Holds};
ghost use Rattle.bucket_shared.specs.Authors.{AreEnded};
ghost use Rattle.bucket_shared.specs.Turns.{HasTurn, HasBegun, MayAdd, HasAdded};

use crate::event_name::{EventName, Named};
use crate::store::Store;
use std::sync::Wait;
use turn_cell::{Seat, TurnCell};

/// Waits for the turn and takes the store out. The seat has then seen the whole history.
pub(crate) fn take<R: Wait>(rt: &R, cell: &TurnCell<Store>, seat: &mut Seat<Store>) -> Store
    requires cell { seat.old.table_id ≡ cell.now }
    requires rests { Rests seat.old }
    requires ended { ∥ AreEnded (view seat.old).badge (seen seat.old) ∥₁ }
    ensures { HasTurn seat.old seat.new result }
{
    cell.take(rt, seat)
}

/// Begins the row of the next event, if it has one.
fn begin(cell: &TurnCell<Store>, seat: &mut Seat<Store>, row: Option<u32>)
    requires cell { seat.old.table_id ≡ cell.now }
    requires holds { Holds seat.old }
    requires none_begun { (view seat.old).begun ≡ None }
    requires row { IfSome row (λ row. row < 256) }
    requires room { length (seen seat.old) < 2 ^ 62 }
    ensures { HasBegun seat.old seat.new row }
{
    if let Some(row) = row {
        cell.begin(seat, row);
    }
}

/// Adds the event that `K` names, which has this row, and gives the turn with the store as it is after this event.
pub(crate) fn add<K: EventName>(
    cell: &TurnCell<Store>,
    seat: &mut Seat<Store>,
    row: Option<u32>,
    store: Store,
)
    requires cell { seat.old.table_id ≡ cell.now }
    requires may { MayAdd seat.old store row K.event }
    ensures { HasAdded seat.old seat.new K.event }
{
    begin(cell, seat, row);
    cell.step::<Named<K>>(seat);
    cell.give(seat, store);
}
