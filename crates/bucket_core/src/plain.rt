ghost use Rattle.std.specs.Prelude.{◌≡◌, ◌↔◌, ◌≤◌, ◌<◌, ◌-◌, ◌^◌, [], ◌∷◌, length, reverse, is_some, true, false, IsTrue, IfOk, MatchOption};
ghost use Rattle.std.specs.Arc.{arc_value};
ghost use Rattle.key_kind.specs.Keys.{snapshot_key};
ghost use Rattle.bucket_core.specs.History.{puts_by, stored};
ghost use Rattle.bucket_core.specs.Calls.{RefusesName, RefusesUnname, StandsSince};
ghost use Rattle.bucket_core.specs.Laws.{IsLawful};

use crate::Changes;
use crate::answer::{Dropped, Found, Listed, StoreErr};
use crate::bucket::Bucket;
use crate::event::Event;
use crate::event_log::EventLog;
use crate::law::Law;
use base_types::{Body, NoMemory};
use key_kind::{Key, KeyKind, Name, SnapName, Symbol};
use std::alloc::Global;
use std::marker::PhantomData;
use std::sync::{Arc, Wait};

/// A store of one client, in memory. It never answers `Fault`.
#[derive(Drop)]
pub struct PlainBucket<L: Law> {
    alloc: Global,
    number: u32,
    most: u64,
    next: u64,
    log: EventLog,
    law: PhantomData<L>,
    ghost counted: { next ≡ puts_by number log },
    ghost lawful: { ∥ IsLawful L.claimed log ∥₁ },
}

impl<L: Law> PlainBucket<L> {
    /// An empty store of this client, which takes no more events once it has as many as the limit.
    pub fn make(alloc: Global, client: u32, limit: u64) -> Result<PlainBucket<L>, NoMemory>
        ensures empty { IfOk result (λ bucket. ⟦<PlainBucket<L> as Bucket<L>>⟧.seen bucket ≡ []) }
        ensures client { IfOk result (λ bucket. ⟦<PlainBucket<L> as Bucket<L>>⟧.number bucket ≡ client) }
        ensures limit { IfOk result (λ bucket. ⟦<PlainBucket<L> as Bucket<L>>⟧.limit bucket ≡ limit) }
        ensures sole { IfOk result (λ bucket. ⟦<PlainBucket<L> as Bucket<L>>⟧.sole bucket ≡ true) }
    {
        Ok(PlainBucket {
            alloc,
            number: client,
            most: limit,
            next: 0,
            log: EventLog::new(alloc),
            law: PhantomData,
        })
    }

    /// Whether a store of so many events takes no more.
    fn is_full(&self, count: u64) -> bool
        ensures { IsTrue result ↔ (self.now.most ≤ count) }
    {
        self.most <= count
    }

    /// Why a name is refused, if it is. `key` is the key of the snapshot.
    fn refuses_name(&self, snap: &SnapName, key: &Key) -> Option<StoreErr>
        requires key { key.now ≡ snapshot_key snap.now }
        ensures { MatchOption result ((is_some (stored self.now.log (snapshot_key snap.now)) ≡ false) × (length self.now.log < self.now.most) × (length self.now.log < 2 ^ 64 - 1)) (RefusesName self.now.most snap.now self.now.log) }
    {
        let count = self.log.len();
        if self.log.set_at(key).is_some() {
            return Some(StoreErr::Taken { place: count });
        }
        if count >= self.most {
            return Some(StoreErr::Spent { count });
        }
        None
    }

    /// Why an unname is refused, if it is. `key` is the key of the snapshot.
    fn refuses_unname(&self, snap: &SnapName, key: &Key, since: u64) -> Option<StoreErr>
        requires key { key.now ≡ snapshot_key snap.now }
        ensures { MatchOption result (StandsSince self.now.log snap.now since × (length self.now.log < self.now.most) × (length self.now.log < 2 ^ 64 - 1)) (RefusesUnname self.now.most snap.now since self.now.log) }
    {
        if let Some(place) = self.log.missing_at(snap, key, since) {
            return Some(StoreErr::Missing { place });
        }
        let count = self.log.len();
        if count >= self.most {
            return Some(StoreErr::Spent { count });
        }
        None
    }

    /// The events of the store, the oldest first.
    pub fn events(&self) -> &[Event]
        ensures { reverse result.now ≡ ⟦<PlainBucket<L> as Bucket<L>>⟧.seen self.now }
    {
        self.log.events()
    }
}

impl<L: Law> Bucket<L> for PlainBucket<L> {
    ghost use Rattle.std.specs.Prelude.{◌≡◌, not, true};
    ghost use Rattle.bucket_core.specs.Calls.{refers_after};

    ghost seen = { λ b. b.log };

    ghost number = { λ b. b.number };

    ghost limit = { λ b. b.most };

    ghost faults = { λ b. 0 };

    ghost sole = { λ b. true };

    ghost may_tell = { λ b symbol place answer. answer ≡ not (refers_after b.log symbol place) };

    ghost lawful = { λ b. b.lawful };

    fn place(&self) -> u64 {
        self.log.len()
    }

    fn client(&self) -> u32 {
        self.number
    }

    fn serial(&self) -> u64 {
        self.next
    }

    fn get<R: Wait>(&mut self, _rt: &R, key: &Key) -> Result<Found, StoreErr> {
        match self.log.find(key) {
            Ok(found) => Ok(found),
            Err(NoMemory) => Err(StoreErr::NoMemory),
        }
    }

    fn list<R: Wait>(
        &mut self,
        _rt: &R,
        kind: Option<KeyKind>,
        name: Option<&Name>,
    ) -> Result<Listed, StoreErr> {
        match self.log.list(self.alloc, kind, name) {
            Ok(keys) => Ok(Listed {
                keys,
                place: self.log.len(),
            }),
            Err(NoMemory) => Err(StoreErr::NoMemory),
        }
    }

    fn put<R: Wait>(&mut self, _rt: &R, key: Key, body: Arc<Body>) -> Result<u64, StoreErr> {
        let count = self.log.len();
        if self.is_full(count) {
            return Err(StoreErr::Spent { count });
        }
        match self.log.put(self.alloc, self.number, key, body) {
            Ok(()) => {
                self.next += 1;
                Ok(count + 1)
            }
            Err(NoMemory) => Err(StoreErr::NoMemory),
        }
    }

    fn refer<R: Wait>(
        &mut self,
        _rt: &R,
        symbol: &Symbol,
        was: Option<&Key>,
        entry: &Key,
        mark: Arc<Body>,
        changes: Arc<Changes>,
    ) -> Result<u64, StoreErr> {
        if let Some(now) = self.log.moved_at(symbol, was) {
            return Err(StoreErr::Moved { now });
        }
        let count = self.log.len();
        if self.is_full(count) {
            return Err(StoreErr::Spent { count });
        }
        match self
            .log
            .refer(self.alloc, self.number, symbol, was, entry, mark, changes)
        {
            Ok(()) => Ok(count + 1),
            Err(NoMemory) => Err(StoreErr::NoMemory),
        }
    }

    fn name<R: Wait>(
        &mut self,
        _rt: &R,
        snap: &SnapName,
        body: Arc<Body>,
    ) -> Result<u64, StoreErr> {
        let key = match Key::snapshot(self.alloc, snap) {
            Ok(key) => key,
            Err(NoMemory) => return Err(StoreErr::NoMemory),
        };
        if let Some(why) = self.refuses_name(snap, &key) {
            return Err(why);
        }
        match self.log.name(self.alloc, self.number, snap, key, body) {
            Ok(()) => Ok(self.log.len()),
            Err(NoMemory) => Err(StoreErr::NoMemory),
        }
    }

    fn unname<R: Wait>(&mut self, _rt: &R, snap: &SnapName, since: u64) -> Result<u64, StoreErr> {
        let key = match Key::snapshot(self.alloc, snap) {
            Ok(key) => key,
            Err(NoMemory) => return Err(StoreErr::NoMemory),
        };
        if let Some(why) = self.refuses_unname(snap, &key, since) {
            return Err(why);
        }
        match self.log.unname(self.alloc, self.number, snap, &key) {
            Ok(()) => Ok(self.log.len()),
            Err(NoMemory) => Err(StoreErr::NoMemory),
        }
    }

    fn drop_key<R: Wait>(&mut self, _rt: &R, key: &Key) -> Result<Dropped, StoreErr> {
        let count = self.log.len();
        if self.log.set_at(key).is_none() {
            return Ok(Dropped::Absent { place: count });
        }
        if self.is_full(count) {
            return Err(StoreErr::Spent { count });
        }
        match self.log.drop_key(self.alloc, self.number, key) {
            Ok(()) => Ok(Dropped::Gone { place: count + 1 }),
            Err(NoMemory) => Err(StoreErr::NoMemory),
        }
    }

    /// It is false only where the symbol has a Refer above the place.
    fn unchanged(&mut self, symbol: &Symbol, place: u64) -> bool {
        self.log.referred_at(symbol) <= place
    }
}
