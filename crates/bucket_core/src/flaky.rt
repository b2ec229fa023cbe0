ghost use Rattle.std.specs.Prelude.{◌≡◌, ◌≤◌, ◌+◌, ◌-◌, ◌^◌, min, is_some, if◌then◌else◌};
ghost use Rattle.bucket_core.specs.Plans.{planned};

use crate::Changes;
use crate::answer::{Dropped, Found, Listed, StoreErr};
use crate::bucket::Bucket;
use crate::law::Law;
use base_types::{Body, Items};
use key_kind::{Key, KeyKind, Name, SnapName, Symbol};
use std::sync::{Arc, Wait};

/// When a call fails that is to fail.
#[derive(Clone, Copy)]
pub enum When {
    /// Nothing is done.
    Before,
    /// What the call does is done, and its answer is lost.
    After,
}

/// Which calls fail, and how many were made and have failed.
#[derive(Drop)]
struct Plan {
    fails: Items<(u64, When)>,
    calls: u64,
    failed: u64,
}

impl Plan {
    /// Counts a call, and tells whether it fails. Both counts stay at their ends.
    fn begin(&mut self) -> Option<When>
        ensures fails { self.new.fails ≡ self.old.fails }
        ensures calls { self.new.calls ≡ min (self.old.calls + 1) (2 ^ 64 - 1) }
        ensures planned { result ≡ planned self.old.fails self.new.calls }
        ensures rises { self.old.failed ≤ self.new.failed }
        ensures failed { self.new.failed ≡ (if is_some result then min (self.old.failed + 1) (2 ^ 64 - 1) else self.old.failed) }
    {
        self.calls = self.calls.saturating_add(1);
        let fails = find_call(self.fails.items(), self.calls);
        if fails.is_some() {
            self.failed = self.failed.saturating_add(1);
        }
        fails
    }
}

/// When the call of a number fails, if it does.
fn find_call(fails: &[(u64, When)], number: u64) -> Option<When>
    ensures { result ≡ planned fails.now number }
{
    for (call, when) in fails {
        if number == *call {
            return Some(*when);
        }
    }
    None
}

/// A bucket some of whose calls fail.
#[derive(Drop)]
pub struct Flaky<B> {
    inner: B,
    plan: Plan,
}

impl<B> Flaky<B> {
    /// The bucket whose calls with these numbers fail, counted from 1 over the gets, the lists and the calls that change.
    pub fn make(inner: B, fails: Items<(u64, When)>) -> Flaky<B>
        ensures inner { result.inner ≡ inner }
        ensures plan { (result.plan.fails ≡ fails) × (result.plan.calls ≡ 0) × (result.plan.failed ≡ 0) }
    {
        Flaky {
            inner,
            plan: Plan {
                fails,
                calls: 0,
                failed: 0,
            },
        }
    }

    /// The bucket that it was made of.
    pub fn into_inner(self) -> B
        ensures { result ≡ self.inner }
    {
        self.inner
    }
}

impl<L: Law, B: Bucket<L>> Bucket<L> for Flaky<B> {
    ghost use Rattle.std.specs.Prelude.{◌+◌};

    ghost seen = { λ f. B.seen f.inner };

    ghost number = { λ f. B.number f.inner };

    ghost limit = { λ f. B.limit f.inner };

    ghost faults = { λ f. B.faults f.inner + f.plan.failed };

    ghost sole = { λ f. B.sole f.inner };

    ghost may_tell = { λ f. B.may_tell f.inner };

    ghost lawful = { λ f. B.lawful f.inner };

    fn place(&self) -> u64 {
        self.inner.place()
    }

    fn client(&self) -> u32 {
        self.inner.client()
    }

    fn serial(&self) -> u64 {
        self.inner.serial()
    }

    fn get<R: Wait>(&mut self, rt: &R, key: &Key) -> Result<Found, StoreErr> {
        match self.plan.begin() {
            None => self.inner.get(rt, key),
            Some(When::Before) => Err(StoreErr::Fault),
            Some(When::After) => {
                let _ = self.inner.get(rt, key);
                Err(StoreErr::Fault)
            }
        }
    }

    fn list<R: Wait>(
        &mut self,
        rt: &R,
        kind: Option<KeyKind>,
        name: Option<&Name>,
    ) -> Result<Listed, StoreErr> {
        match self.plan.begin() {
            None => self.inner.list(rt, kind, name),
            Some(When::Before) => Err(StoreErr::Fault),
            Some(When::After) => {
                let _ = self.inner.list(rt, kind, name);
                Err(StoreErr::Fault)
            }
        }
    }

    fn put<R: Wait>(&mut self, rt: &R, key: Key, body: Arc<Body>) -> Result<u64, StoreErr> {
        match self.plan.begin() {
            None => self.inner.put(rt, key, body),
            Some(When::Before) => Err(StoreErr::Fault),
            Some(When::After) => {
                let _ = self.inner.put(rt, key, body);
                Err(StoreErr::Fault)
            }
        }
    }

    fn refer<R: Wait>(
        &mut self,
        rt: &R,
        symbol: &Symbol,
        was: Option<&Key>,
        entry: &Key,
        mark: Arc<Body>,
        changes: Arc<Changes>,
    ) -> Result<u64, StoreErr> {
        match self.plan.begin() {
            None => self.inner.refer(rt, symbol, was, entry, mark, changes),
            Some(When::Before) => Err(StoreErr::Fault),
            Some(When::After) => {
                let _ = self.inner.refer(rt, symbol, was, entry, mark, changes);
                Err(StoreErr::Fault)
            }
        }
    }

    fn name<R: Wait>(&mut self, rt: &R, snap: &SnapName, body: Arc<Body>) -> Result<u64, StoreErr> {
        match self.plan.begin() {
            None => self.inner.name(rt, snap, body),
            Some(When::Before) => Err(StoreErr::Fault),
            Some(When::After) => {
                let _ = self.inner.name(rt, snap, body);
                Err(StoreErr::Fault)
            }
        }
    }

    fn unname<R: Wait>(&mut self, rt: &R, snap: &SnapName, since: u64) -> Result<u64, StoreErr> {
        match self.plan.begin() {
            None => self.inner.unname(rt, snap, since),
            Some(When::Before) => Err(StoreErr::Fault),
            Some(When::After) => {
                let _ = self.inner.unname(rt, snap, since);
                Err(StoreErr::Fault)
            }
        }
    }

    fn drop_key<R: Wait>(&mut self, rt: &R, key: &Key) -> Result<Dropped, StoreErr> {
        match self.plan.begin() {
            None => self.inner.drop_key(rt, key),
            Some(When::Before) => Err(StoreErr::Fault),
            Some(When::After) => {
                let _ = self.inner.drop_key(rt, key);
                Err(StoreErr::Fault)
            }
        }
    }

    fn unchanged(&mut self, symbol: &Symbol, place: u64) -> bool {
        self.inner.unchanged(symbol, place)
    }
}
