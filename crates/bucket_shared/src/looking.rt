// The looks of a seat: one turn each.
ghost use Rattle.std.specs.Prelude.{◌≡◌, IfOk, option_copied};
ghost use Rattle.bucket_core.specs.Calls.{IsFound, keys_that_match};
ghost use Rattle.bucket_shared.specs.SeatCalls.{Stays, Sees, seen_at};

use crate::seated::Seated;
use crate::turn::take;
use base_types::{Items, NoMemory};
use bucket_core::Found;
use key_kind::{Key, KeyKind, Name};
use std::alloc::Global;
use std::sync::Wait;

impl Seated {
    /// Sees what others did.
    pub(crate) fn look<R: Wait>(&mut self, rt: &R)
        ensures stays { Stays self.old self.new }
        ensures sees { Sees self.old self.new }
    {
        let store = take(rt, &self.cell, &mut self.seat);
        self.count = store.contents.len();
        self.cell.give(&mut self.seat, store);
    }

    /// The body under a key, if any.
    pub(crate) fn find<R: Wait>(&mut self, rt: &R, key: &Key) -> Result<Found, NoMemory>
        ensures stays { Stays self.old self.new }
        ensures sees { Sees self.old self.new }
        ensures found { IfOk result (IsFound (seen_at self.new) key.now) }
    {
        let store = take(rt, &self.cell, &mut self.seat);
        self.count = store.contents.len();
        let found = store.contents.find(key);
        self.cell.give(&mut self.seat, store);
        found
    }

    /// Copies of the stored keys that match, in order.
    pub(crate) fn list<R: Wait>(
        &mut self,
        rt: &R,
        alloc: Global,
        kind: Option<KeyKind>,
        name: Option<&Name>,
    ) -> Result<Items<Key>, NoMemory>
        ensures stays { Stays self.old self.new }
        ensures sees { Sees self.old self.new }
        ensures listed { IfOk result (λ keys. keys ≡ keys_that_match (seen_at self.new) kind (option_copied name.entry)) }
    {
        let store = take(rt, &self.cell, &mut self.seat);
        self.count = store.contents.len();
        let keys = store.contents.list(alloc, kind, name);
        self.cell.give(&mut self.seat, store);
        keys
    }
}
