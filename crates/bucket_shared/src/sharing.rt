// How a seat gives out the next number, and takes another seat in.
ghost use Rattle.std.specs.Prelude.{◌≡◌, ◌-◌, ◌^◌, IfSome, IfNone};
ghost use Rattle.std.specs.Arc.{arc_value};
ghost use Rattle.bucket_shared.specs.SeatCalls.{Stays, Sees, number_at};
ghost use Rattle.bucket_shared.specs.Splits.{IsSplit, HasJoined};

use crate::seated::Seated;
use crate::store::Store;
use crate::turn::take;
use std::sync::{Arc, Wait};
use turn_cell::TurnCell;

impl Seated {
    /// A seat with the next number, and that number. It has seen what this one has. None where the last number was given out.
    pub(crate) fn share<R: Wait>(
        &mut self,
        rt: &R,
        cell: Arc<TurnCell<Store>>,
    ) -> Option<(Seated, u32)>
        requires cell { arc_value cell ≡ arc_value self.old.cell }
        ensures sees { Sees self.old self.new }
        ensures split { IfSome result (λ p. IsSplit self.old self.new p.0) }
        ensures number { IfSome result (λ p. p.1 ≡ number_at p.0) }
        ensures none { IfNone result (Stays self.old self.new) }
        ensures last { IfNone result (self.new.seat.me.0.top ≡ 2 ^ 32 - 1) }
    {
        let mut store = take(rt, &self.cell, &mut self.seat);
        self.count = store.contents.len();
        if store.given == u32::MAX {
            self.cell.give(&mut self.seat, store);
            return None;
        }
        let seat = self.cell.split(&mut self.seat);
        store.given += 1;
        let number = store.given;
        self.cell.give(&mut self.seat, store);
        let made = Seated {
            cell,
            seat,
            limit: self.limit,
            count: self.count,
        };
        Some((made, number))
    }

    /// Takes in another seat of this store, and then has seen the whole history.
    pub(crate) fn merge<R: Wait>(&mut self, rt: &R, other: Seated)
        requires store { other.seat.table_id ≡ self.old.seat.table_id }
        ensures { HasJoined self.old other self.new }
    {
        self.cell.join(&mut self.seat, other.seat);
        let store = take(rt, &self.cell, &mut self.seat);
        self.count = store.contents.len();
        self.cell.give(&mut self.seat, store);
    }
}
