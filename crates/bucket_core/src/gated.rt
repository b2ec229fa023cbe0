ghost use Rattle.std.specs.Prelude.{◌≡◌};

use crate::Changes;
use crate::answer::{Dropped, Found, Listed, StoreErr};
use crate::bucket::Bucket;
use crate::gate::{Gate, GatePoint, Step};
use crate::law::Law;
use base_types::Body;
use key_kind::{Key, KeyKind, Name, SnapName, Symbol};
use std::sync::{Arc, Wait};

/// A bucket whose client passes a gate before and after each call that looks or changes.
#[derive(Drop)]
pub struct Gated<'a, B, G> {
    inner: B,
    gate: &'a G,
}

impl<'a, B, G> Gated<'a, B, G> {
    /// The bucket, with this gate before and behind its calls.
    pub fn make(inner: B, gate: &'a G) -> Gated<'a, B, G>
        ensures inner { result.inner ≡ inner }
        ensures gate { result.gate.now ≡ gate.now }
    {
        Gated { inner, gate }
    }

    /// The bucket that it was made of.
    pub fn into_inner(self) -> B
        ensures { result ≡ self.entry.inner }
    {
        self.inner
    }
}

impl<'a, L: Law, B: Bucket<L>, G: Gate> Bucket<L> for Gated<'a, B, G> {
    ghost seen = { λ g. B.seen g.inner };

    ghost number = { λ g. B.number g.inner };

    ghost limit = { λ g. B.limit g.inner };

    ghost faults = { λ g. B.faults g.inner };

    ghost sole = { λ g. B.sole g.inner };

    ghost may_tell = { λ g. B.may_tell g.inner };

    ghost lawful = { λ g. B.lawful g.inner };

    fn place(&self) -> u64 {
        self.inner.place()
    }

    fn client(&self) -> u32 {
        self.inner.client()
    }

    fn serial(&self) -> u64 {
        self.inner.serial()
    }

    fn get<R: Wait>(&mut self, rt: &R, key: &Key) -> Result<Found, StoreErr> {
        let who = self.inner.client();
        self.gate.pass_by(rt, GatePoint::before(who, Step::Get));
        let result = self.inner.get(rt, key);
        self.gate.pass_by(rt, GatePoint::behind(who, Step::Get));
        result
    }

    fn list<R: Wait>(
        &mut self,
        rt: &R,
        kind: Option<KeyKind>,
        name: Option<&Name>,
    ) -> Result<Listed, StoreErr> {
        let who = self.inner.client();
        self.gate.pass_by(rt, GatePoint::before(who, Step::List));
        let result = self.inner.list(rt, kind, name);
        self.gate.pass_by(rt, GatePoint::behind(who, Step::List));
        result
    }

    fn put<R: Wait>(&mut self, rt: &R, key: Key, body: Arc<Body>) -> Result<u64, StoreErr> {
        let who = self.inner.client();
        self.gate.pass_by(rt, GatePoint::before(who, Step::Put));
        let result = self.inner.put(rt, key, body);
        self.gate.pass_by(rt, GatePoint::behind(who, Step::Put));
        result
    }

    fn refer<R: Wait>(
        &mut self,
        rt: &R,
        symbol: &Symbol,
        was: Option<&Key>,
        entry: &Key,
        mark: Arc<Body>,
        changes: Arc<Changes>,
    ) -> Result<u64, StoreErr> {
        let who = self.inner.client();
        self.gate.pass_by(rt, GatePoint::before(who, Step::Refer));
        let result = self.inner.refer(rt, symbol, was, entry, mark, changes);
        self.gate.pass_by(rt, GatePoint::behind(who, Step::Refer));
        result
    }

    fn name<R: Wait>(&mut self, rt: &R, snap: &SnapName, body: Arc<Body>) -> Result<u64, StoreErr> {
        let who = self.inner.client();
        self.gate.pass_by(rt, GatePoint::before(who, Step::Name));
        let result = self.inner.name(rt, snap, body);
        self.gate.pass_by(rt, GatePoint::behind(who, Step::Name));
        result
    }

    fn unname<R: Wait>(&mut self, rt: &R, snap: &SnapName, since: u64) -> Result<u64, StoreErr> {
        let who = self.inner.client();
        self.gate.pass_by(rt, GatePoint::before(who, Step::Unname));
        let result = self.inner.unname(rt, snap, since);
        self.gate.pass_by(rt, GatePoint::behind(who, Step::Unname));
        result
    }

    fn drop_key<R: Wait>(&mut self, rt: &R, key: &Key) -> Result<Dropped, StoreErr> {
        let who = self.inner.client();
        self.gate.pass_by(rt, GatePoint::before(who, Step::Drop));
        let result = self.inner.drop_key(rt, key);
        self.gate.pass_by(rt, GatePoint::behind(who, Step::Drop));
        result
    }

    fn unchanged(&mut self, symbol: &Symbol, place: u64) -> bool {
        self.inner.unchanged(symbol, place)
    }
}
