ghost use Rattle.std.specs.Prelude.{◌≡◌, ◌+◌, ◌-◌, ◌^◌, ◌<◌, suc, min, All, slice_set, slice_index_or};
ghost use Rattle.key_kind.specs.Keys.{kind_code};

use crate::Changes;
use crate::answer::{Dropped, Found, Listed, StoreErr};
use crate::bucket::Bucket;
use crate::law::Law;
use base_types::Body;
use key_kind::{Key, KeyKind, Name, SnapName, Symbol};
use std::sync::{Arc, Wait};

/// How many gets there were of each kind, in the order of kinds.
#[derive(Drop)]
struct Counts {
    gets: [u64; 6],
}

impl Counts {
    /// Counts a get. A count stays at its end.
    fn add(&mut self, kind: KeyKind)
        ensures { self.new.gets ≡ slice_set self.old.gets (kind_code kind - 1) (min (slice_index_or self.old.gets (kind_code kind - 1) 0 + 1) (2 ^ 64 - 1)) }
    {
        let at = place_of(kind);
        self.gets[at] = self.gets[at].saturating_add(1);
    }
}

/// The place of a kind among the kinds, counted from 0.
fn place_of(kind: KeyKind) -> usize
    ensures place { suc result ≡ kind_code kind }
    ensures within { result < 6 }
{
    match kind {
        KeyKind::TableData => 0,
        KeyKind::TableIndex => 1,
        KeyKind::Version => 2,
        KeyKind::VersionRef => 3,
        KeyKind::Snapshot => 4,
        KeyKind::Staged => 5,
    }
}

/// A bucket that counts its gets.
#[derive(Drop)]
pub struct Counting<B> {
    inner: B,
    counts: Counts,
}

impl<B> Counting<B> {
    /// A bucket of which no get is counted yet.
    pub fn make(inner: B) -> Counting<B>
        ensures inner { result.inner ≡ inner }
        ensures none { All (λ n. n ≡ 0) result.counts.gets }
    {
        Counting {
            inner,
            counts: Counts { gets: [0; 6] },
        }
    }

    /// How many gets of keys of this kind were made, also such that failed. The count stays at its end.
    pub fn gets(&self, kind: KeyKind) -> u64
        ensures { result ≡ slice_index_or self.now.counts.gets (kind_code kind - 1) 0 }
    {
        self.counts.gets[place_of(kind)]
    }

    /// The bucket that it was made of.
    pub fn into_inner(self) -> B
        ensures { result ≡ self.inner }
    {
        self.inner
    }
}

impl<L: Law, B: Bucket<L>> Bucket<L> for Counting<B> {
    ghost seen = { λ c. B.seen c.inner };

    ghost number = { λ c. B.number c.inner };

    ghost limit = { λ c. B.limit c.inner };

    ghost faults = { λ c. B.faults c.inner };

    ghost sole = { λ c. B.sole c.inner };

    ghost may_tell = { λ c. B.may_tell c.inner };

    ghost lawful = { λ c. B.lawful c.inner };

    fn place(&self) -> u64 {
        self.inner.place()
    }

    fn client(&self) -> u32 {
        self.inner.client()
    }

    fn serial(&self) -> u64 {
        self.inner.serial()
    }

    fn get<R: Wait>(&mut self, rt: &R, key: &Key) -> Result<Found, StoreErr> {
        self.counts.add(key.kind);
        self.inner.get(rt, key)
    }

    fn list<R: Wait>(
        &mut self,
        rt: &R,
        kind: Option<KeyKind>,
        name: Option<&Name>,
    ) -> Result<Listed, StoreErr> {
        self.inner.list(rt, kind, name)
    }

    fn put<R: Wait>(&mut self, rt: &R, key: Key, body: Arc<Body>) -> Result<u64, StoreErr> {
        self.inner.put(rt, key, body)
    }

    fn refer<R: Wait>(
        &mut self,
        rt: &R,
        symbol: &Symbol,
        was: Option<&Key>,
        entry: &Key,
        mark: Arc<Body>,
        changes: Arc<Changes>,
    ) -> Result<u64, StoreErr> {
        self.inner.refer(rt, symbol, was, entry, mark, changes)
    }

    fn name<R: Wait>(&mut self, rt: &R, snap: &SnapName, body: Arc<Body>) -> Result<u64, StoreErr> {
        self.inner.name(rt, snap, body)
    }

    fn unname<R: Wait>(&mut self, rt: &R, snap: &SnapName, since: u64) -> Result<u64, StoreErr> {
        self.inner.unname(rt, snap, since)
    }

    fn drop_key<R: Wait>(&mut self, rt: &R, key: &Key) -> Result<Dropped, StoreErr> {
        self.inner.drop_key(rt, key)
    }

    fn unchanged(&mut self, symbol: &Symbol, place: u64) -> bool {
        self.inner.unchanged(symbol, place)
    }
}
