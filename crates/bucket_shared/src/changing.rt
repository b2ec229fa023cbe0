// The changing calls of a seat: one turn each.
ghost use Rattle.std.specs.Prelude.{◌≡◌};
ghost use Rattle.bucket_shared.specs.Changes.{IsClaimedLater, DidTry};
ghost use Rattle.bucket_shared.specs.SeatCalls.{Stays, number_at};

use crate::change::Change;
use crate::event_name::EventName;
use crate::seated::Seated;
use crate::turn::{add, take};
use bucket_core::StoreErr;
use std::marker::Brand;
use std::sync::Wait;

impl Seated {
    /// Makes a change, whose event is added to the whole history, or is refused. It answers the place of the event.
    pub(crate) fn change<C: Change, R: Wait>(&mut self, rt: &R, change: C) -> Result<u64, StoreErr>
        requires { IsClaimedLater self.old (C.event change (number_at self.old)) }
        ensures stays { Stays self.old self.new }
        ensures did { DidTry self.old self.new (C.event change (number_at self.old)) (C.tested change) (C.refuses change self.old.limit) result }
    {
        self.change_named::<Brand, C, R>(rt, change)
    }

    /// Makes a change, whose event is the one that `K` names.
    fn change_named<K: EventName, C: Change, R: Wait>(
        &mut self,
        rt: &R,
        change: C,
    ) -> Result<u64, StoreErr>
        requires event { K.event ≡ C.event change (number_at self.old) }
        requires claim { IsClaimedLater self.old K.event }
        ensures stays { Stays self.old self.new }
        ensures did { DidTry self.old self.new K.event (C.tested change) (C.refuses change self.old.limit) result }
    {
        let row = change.row();
        let mut store = take(rt, &self.cell, &mut self.seat);
        self.count = store.contents.len();
        match change.make(&mut store.contents, self.limit) {
            Ok(()) => {
                add::<K>(&self.cell, &mut self.seat, row, store);
                self.count += 1;
                Ok(self.count)
            }
            Err(why) => {
                self.cell.give(&mut self.seat, store);
                Err(why)
            }
        }
    }
}
