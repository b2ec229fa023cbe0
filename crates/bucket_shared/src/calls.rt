// A pass as a bucket.
ghost use Rattle.std.specs.Prelude.{◌≡◌, ◌≢◌, ◌≤◌, true, false, Err, length, IfOk, IfErr, option_copied};
ghost use Rattle.std.specs.Arc.{arc_value};
ghost use Rattle.std.specs.Bool.{OnTrue, OnFalse};
ghost use Rattle.key_kind.specs.KeyText.{key_text};
ghost use Rattle.turn_cell.specs.Views.{Confirmed};
ghost use Rattle.bucket_core.specs.Calls.{MayTryRefer, MayTryDrop, IsSteady, IsFound, IsListed, refers_after};
ghost use Rattle.bucket_core.specs.Calls.{RefusesLook, RefusesPut, RefusesRefer, RefusesName, DidUnname, DidDrop};
ghost use Rattle.bucket_core.specs.Calls.{put_event, refer_event, name_event, unname_event};
ghost use Rattle.store_model.specs.Law.{IsClaimed};
ghost use Rattle.bucket_shared.specs.Notes.{HasNoted, NoneAfter, view_of, notes_of, log_of};
ghost use Rattle.bucket_shared.specs.Rows.{row};
ghost use Rattle.bucket_shared.specs.SeatCalls.{Stays};
ghost use Rattle.bucket_shared.specs.Stories.{event_row};
ghost use Rattle.bucket_shared.specs.Passes.{store_of, badge_of, seen_of, number_of, limit_of, sole_of, no_faults, LooksOn, Did};

use crate::dropping::{DropObject, answer_of};
use crate::naming::SetName;
use crate::pass::Pass;
use crate::putting::Put;
use crate::referring::SetReference;
use crate::row::row_of;
use crate::unnaming::ClearName;
use base_types::NoMemory;
use bucket_core::{Body, Bucket, Changes, Dropped, Found, Listed, StoreErr};
use key_kind::{Key, KeyKind, Name, SnapName, Symbol};
use std::sync::{Arc, Wait};
use version_chain::StoreLaw;

impl Pass {
    /// Sees what others did. A call that has no memory to begin with does no more than this, and answers so.
    fn give_up<R: Wait>(&mut self, rt: &R) -> StoreErr
        ensures looks { LooksOn self.old self.new }
        ensures stays { Stays self.old.seated self.new.seated }
        ensures answer { result ≡ StoreErr.NoMemory }
    {
        self.seated.look(rt);
        StoreErr::NoMemory
    }
}

impl Bucket<StoreLaw> for Pass {
    ghost seen = { seen_of };

    ghost number = { number_of };

    ghost limit = { limit_of };

    ghost faults = { no_faults };

    ghost sole = { sole_of };

    ghost may_tell = { λ p symbol place answer. answer ≡ true → refers_after (seen_of p) symbol place ≡ false };

    ghost lawful = { λ p. p.seated.lawful };

    fn place(&self) -> u64 {
        self.seated.count
    }

    fn client(&self) -> u32 {
        self.number
    }

    fn serial(&self) -> u64 {
        self.next
    }

    // Beside the trait's clauses each call says that the pass stays one of its store, with its numbers, and that what was noted of rows
    // stays noted, and is true of what is seen now.
    fn get<R: Wait>(&mut self, rt: &R, key: &Key) -> Result<Found, StoreErr>
        ensures looks { LooksOn self.old self.new }
        ensures steady { IsSteady number_of limit_of no_faults sole_of self.old self.new }
        ensures found { IfOk result (IsFound (seen_of self.new) key.now) }
        ensures refused { IfErr result (RefusesLook 0 0) }
        ensures stays { Stays self.old.seated self.new.seated }
    {
        match self.seated.find(rt, key) {
            Ok(found) => Ok(found),
            Err(NoMemory) => Err(StoreErr::NoMemory),
        }
    }

    fn list<R: Wait>(
        &mut self,
        rt: &R,
        kind: Option<KeyKind>,
        name: Option<&Name>,
    ) -> Result<Listed, StoreErr>
        ensures looks { LooksOn self.old self.new }
        ensures steady { IsSteady number_of limit_of no_faults sole_of self.old self.new }
        ensures listed { IfOk result (IsListed (seen_of self.new) kind (option_copied name.entry)) }
        ensures refused { IfErr result (RefusesLook 0 0) }
        ensures stays { Stays self.old.seated self.new.seated }
    {
        match self.seated.list(rt, self.alloc, kind, name) {
            Ok(keys) => Ok(Listed {
                keys,
                place: self.seated.count,
            }),
            Err(NoMemory) => Err(StoreErr::NoMemory),
        }
    }

    fn put<R: Wait>(&mut self, rt: &R, key: Key, body: Arc<Body>) -> Result<u64, StoreErr>
        requires claim { IsClaimed (seen_of self.old) (put_event (number_of self.old) key (arc_value body)) }
        ensures steady { IsSteady number_of limit_of no_faults sole_of self.old self.new }
        ensures did { Did self.old self.new (put_event (number_of self.old) key (arc_value body)) (RefusesPut (limit_of self.old)) result }
        ensures stays { Stays self.old.seated self.new.seated }
    {
        let answer = self.seated.change(rt, Put { key, body });
        if answer.is_ok() {
            self.next += 1;
        }
        answer
    }

    fn refer<R: Wait>(
        &mut self,
        rt: &R,
        symbol: &Symbol,
        was: Option<&Key>,
        entry: &Key,
        mark: Arc<Body>,
        changes: Arc<Changes>,
    ) -> Result<u64, StoreErr>
        requires may { MayTryRefer IsClaimed (seen_of self.old) (number_of self.old) symbol.now (option_copied was) entry.now (arc_value changes) }
        requires mark { arc_value mark ≡ key_text entry.now }
        ensures steady { IsSteady number_of limit_of no_faults sole_of self.old self.new }
        ensures did { Did self.old self.new (refer_event (number_of self.old) symbol.now (option_copied was.entry) entry.now (arc_value changes))
            (RefusesRefer (limit_of self.old) symbol.now (option_copied was.entry)) result }
        ensures stays { Stays self.old.seated self.new.seated }
    {
        match SetReference::make(self.alloc, symbol, was, entry, mark, &changes) {
            Ok(change) => self.seated.change(rt, change),
            Err(NoMemory) => Err(self.give_up(rt)),
        }
    }

    fn name<R: Wait>(&mut self, rt: &R, snap: &SnapName, body: Arc<Body>) -> Result<u64, StoreErr>
        requires claim { IsClaimed (seen_of self.old) (name_event (number_of self.old) snap.now (arc_value body)) }
        ensures steady { IsSteady number_of limit_of no_faults sole_of self.old self.new }
        ensures did { Did self.old self.new (name_event (number_of self.old) snap.now (arc_value body)) (RefusesName (limit_of self.old) snap.now) result }
        ensures stays { Stays self.old.seated self.new.seated }
    {
        match Key::snapshot(self.alloc, snap) {
            Ok(key) => self.seated.change(rt, SetName { snap, key, body }),
            Err(NoMemory) => Err(self.give_up(rt)),
        }
    }

    fn unname<R: Wait>(&mut self, rt: &R, snap: &SnapName, since: u64) -> Result<u64, StoreErr>
        requires claim { IsClaimed (seen_of self.old) (unname_event (number_of self.old) snap.now) }
        ensures steady { IsSteady number_of limit_of no_faults sole_of self.old self.new }
        ensures did { DidUnname IsClaimed (number_of self.old) (sole_of self.old) (limit_of self.old) 0 0 (seen_of self.old) (seen_of self.new)
            snap.now since result }
        ensures stays { Stays self.old.seated self.new.seated }
    {
        match Key::snapshot(self.alloc, snap) {
            Ok(key) => self.seated.change(
                rt,
                ClearName {
                    snap,
                    key: &key,
                    since,
                },
            ),
            Err(NoMemory) => Err(self.give_up(rt)),
        }
    }

    fn drop_key<R: Wait>(&mut self, rt: &R, key: &Key) -> Result<Dropped, StoreErr>
        requires may { MayTryDrop IsClaimed (seen_of self.old) (number_of self.old) key.now }
        ensures steady { IsSteady number_of limit_of no_faults sole_of self.old self.new }
        ensures did { DidDrop IsClaimed (number_of self.old) (sole_of self.old) (limit_of self.old) 0 0 (seen_of self.old) (seen_of self.new)
            key.now result }
        ensures memory { result ≢ Err StoreErr.NoMemory }
        ensures stays { Stays self.old.seated self.new.seated }
    {
        answer_of(self.seated.change(rt, DropObject { key }))
    }

    /// Whether the symbol's row has no event after a place, also none of another symbol. It is one look at the word of the row, takes no turn
    /// and waits for nobody; a row that changed it notes, and the next call that takes the turn confirms the note.
    fn unchanged(&mut self, symbol: &Symbol, place: u64) -> bool
        requires seen { place ≤ length (seen_of self.old) }
        ensures same { seen_of self.new ≡ seen_of self.old }
        ensures steady { IsSteady number_of limit_of no_faults sole_of self.old self.new }
        ensures told { result ≡ true → refers_after (seen_of self.old) symbol.now place ≡ false }
        ensures unchanged { result ≡ true → refers_after (seen_of self.old) symbol.now place ≡ false }
        ensures none_after { OnTrue result (NoneAfter (row symbol.now) place (log_of self.old)) }
        ensures same_notes { OnTrue result (notes_of self.new ≡ notes_of self.old) }
        ensures changed { OnFalse result (HasNoted (row symbol.now) place self.old self.new) }

        // A note within what was seen before is true of it at once.
        ensures confirmed { Confirmed event_row (view_of self.new) }
        ensures store { store_of self.new ≡ store_of self.old }
        ensures badge { badge_of self.new ≡ badge_of self.old }
    {
        let row = row_of(symbol.name());
        let seated = &mut self.seated;
        seated.cell.unchanged(&mut seated.seat, row, place)
    }
}
