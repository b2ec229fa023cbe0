// A pass whose store and numbers are in its type.
ghost use Rattle.std.specs.Prelude.{◌≡◌, ◌≤◌, true, false, [], length};
ghost use Rattle.std.specs.Bool.{OnTrue, OnFalse};
ghost use Rattle.atomic_table.specs.Seated.{TableId};
ghost use Rattle.turn_cell.specs.declared.badge.Badge.{Badge};
ghost use Rattle.turn_cell.specs.Badges.{spent_badge};
ghost use Rattle.bucket_core.specs.Calls.{IsSteady, refers_after};
ghost use Rattle.bucket_shared.specs.Notes.{HasNoted, NoneAfter, log_of};
ghost use Rattle.bucket_shared.specs.Passes.{store_of, badge_of, seen_of, number_of, limit_of, sole_of};
ghost use Rattle.bucket_shared.specs.Rows.{row};

use crate::pass::Pass;
use bucket_core::{Body, Bucket, Changes, Dropped, Found, Listed, StoreErr};
use key_kind::{Key, KeyKind, Name, SnapName, Symbol};
use std::marker::{Brand, PhantomData};
use std::sync::{Arc, Wait};
use version_chain::StoreLaw;

/// A store and the numbers of a pass, which a call picks, for contracts alone.
pub trait PassName {
    ghost store: { TableId };

    ghost badge: { Badge };
}

impl PassName for Brand {
    ghost store = { record { words = 0; slots = 0; views_name = 0; atom = 0; block = 0; offset = 0; slot_names = [] } };

    ghost badge = { spent_badge };
}

/// A pass that stays one of the store that `K` names, with the numbers that `K` names, whatever is called of it as a bucket.
///
/// So a pass that was handed to a function over any bucket can be joined again.
#[derive(Drop)]
pub struct Kept<K: PassName> {
    pass: Pass,
    name: PhantomData<K>,
    ghost store: { store_of pass ≡ K.store },
    ghost badge: { badge_of pass ≡ K.badge },
}

impl<K: PassName> Kept<K> {
    /// The pass, kept as it is named.
    pub fn make(pass: Pass) -> Kept<K>
        requires store { store_of pass ≡ K.store }
        requires badge { badge_of pass ≡ K.badge }
        ensures { result.pass ≡ pass }
    {
        Kept {
            pass,
            name: PhantomData,
        }
    }

    /// The pass again.
    pub fn into_pass(self) -> Pass
        ensures pass { result ≡ self.pass }
        ensures store { store_of result ≡ K.store }
        ensures badge { badge_of result ≡ K.badge }
    {
        let Kept { pass, .. } = self;
        pass
    }
}

impl<K: PassName> Bucket<StoreLaw> for Kept<K> {
    ghost seen = { λ k. seen_of k.pass };

    ghost number = { λ k. number_of k.pass };

    ghost limit = { λ k. limit_of k.pass };

    ghost faults = { λ k. 0 };

    ghost sole = { λ k. sole_of k.pass };

    ghost may_tell = { λ k symbol place answer. answer ≡ true → refers_after (seen_of k.pass) symbol place ≡ false };

    ghost lawful = { λ k. k.pass.seated.lawful };

    fn place(&self) -> u64 {
        self.pass.place()
    }

    fn client(&self) -> u32 {
        self.pass.client()
    }

    fn serial(&self) -> u64 {
        self.pass.serial()
    }

    fn get<R: Wait>(&mut self, rt: &R, key: &Key) -> Result<Found, StoreErr> {
        self.pass.get(rt, key)
    }

    fn list<R: Wait>(
        &mut self,
        rt: &R,
        kind: Option<KeyKind>,
        name: Option<&Name>,
    ) -> Result<Listed, StoreErr> {
        self.pass.list(rt, kind, name)
    }

    fn put<R: Wait>(&mut self, rt: &R, key: Key, body: Arc<Body>) -> Result<u64, StoreErr> {
        self.pass.put(rt, key, body)
    }

    fn refer<R: Wait>(
        &mut self,
        rt: &R,
        symbol: &Symbol,
        was: Option<&Key>,
        entry: &Key,
        mark: Arc<Body>,
        changes: Arc<Changes>,
    ) -> Result<u64, StoreErr> {
        self.pass.refer(rt, symbol, was, entry, mark, changes)
    }

    fn name<R: Wait>(&mut self, rt: &R, snap: &SnapName, body: Arc<Body>) -> Result<u64, StoreErr> {
        self.pass.name(rt, snap, body)
    }

    fn unname<R: Wait>(&mut self, rt: &R, snap: &SnapName, since: u64) -> Result<u64, StoreErr> {
        self.pass.unname(rt, snap, since)
    }

    fn drop_key<R: Wait>(&mut self, rt: &R, key: &Key) -> Result<Dropped, StoreErr> {
        self.pass.drop_key(rt, key)
    }

    fn unchanged(&mut self, symbol: &Symbol, place: u64) -> bool
        requires seen { place ≤ length (seen_of self.old.pass) }
        ensures same { seen_of self.new.pass ≡ seen_of self.old.pass }
        ensures steady { IsSteady (λ k. number_of k.pass) (λ k. limit_of k.pass) (λ k. 0) (λ k. sole_of k.pass) self.old self.new }
        ensures told { result ≡ true → refers_after (seen_of self.old.pass) symbol.now place ≡ false }
        ensures unchanged { result ≡ true → refers_after (seen_of self.old.pass) symbol.now place ≡ false }
        ensures none_after { OnTrue result (NoneAfter (row symbol.now) place (log_of self.old.pass)) }
        ensures changed { OnFalse result (HasNoted (row symbol.now) place self.old.pass self.new.pass) }
    {
        self.pass.unchanged(symbol, place)
    }
}
