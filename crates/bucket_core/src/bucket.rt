ghost use Rattle.std.specs.Prelude.{◌≡◌, ◌≤◌, ℕ, Bool, true, false, length, IfOk, IfErr, option_copied};
ghost use Rattle.std.specs.Arc.{arc_value};
ghost use Rattle.key_kind.specs.Names.{Name as NameBytes};
ghost use Rattle.key_kind.specs.KeyText.{key_text};
ghost use Rattle.bucket_core.specs.History.{History, puts_by};
ghost use Rattle.bucket_core.specs.Laws.{IsLawful, Looks};
ghost use Rattle.bucket_core.specs.Calls.{MayTryRefer, MayTryDrop, IsSteady, IsFound, IsListed, refers_after};
ghost use Rattle.bucket_core.specs.Calls.{RefusesLook, RefusesPut, RefusesRefer, RefusesName, DidChange, DidUnname, DidDrop};
ghost use Rattle.bucket_core.specs.Calls.{put_event, refer_event, name_event, unname_event};

use crate::Changes;
use crate::answer::{Dropped, Found, Listed, StoreErr};
use crate::law::Law;
use base_types::Body;
use key_kind::{Key, KeyKind, Name, SnapName, Symbol};
use std::sync::{Arc, Wait};

/// A store as one client sees it. What the bucket has seen is the front of the store's one history; each call adds to it what
/// other clients did since, and then at most its own event.
pub trait Bucket<L: Law> {
    /// The events that the bucket has seen, the newest first.
    ghost seen: { Self → History };

    /// The client's number.
    ghost number: { Self → ℕ };

    /// The length from which on the store takes no more events.
    ghost limit: { Self → ℕ };

    /// How often the store has failed.
    ghost faults: { Self → ℕ };

    /// Whether the store has no other client.
    ghost sole: { Self → Bool };

    /// What `unchanged` may answer of a symbol and a place.
    ghost may_tell: { Self → NameBytes → ℕ → Bool → Type 0 };

    /// The number of events that the bucket has seen.
    fn place(&self) -> u64
        ensures { result ≡ length (seen self.now) };

    /// The client's number.
    fn client(&self) -> u32
        ensures { result ≡ number self.now };

    /// The serial of the client's next put.
    fn serial(&self) -> u64
        ensures { result ≡ puts_by (number self.now) (seen self.now) };

    /// The body under a key, if any. It may wait for the store.
    fn get<R: Wait>(&mut self, rt: &R, key: &Key) -> Result<Found, StoreErr>
        ensures looks { Looks L.claimed (number self.old) (sole self.old) (seen self.old) (seen self.new) }
        ensures steady { IsSteady number limit faults sole self.old self.new }
        ensures found { IfOk result (IsFound (seen self.new) key.now) }
        ensures refused { IfErr result (RefusesLook (faults self.old) (faults self.new)) };

    /// The stored keys of a kind and of a name, where these are given, in the order of keys. It may wait for the store.
    fn list<R: Wait>(
        &mut self,
        rt: &R,
        kind: Option<KeyKind>,
        name: Option<&Name>,
    ) -> Result<Listed, StoreErr>
        ensures looks { Looks L.claimed (number self.old) (sole self.old) (seen self.old) (seen self.new) }
        ensures steady { IsSteady number limit faults sole self.old self.new }
        ensures listed { IfOk result (IsListed (seen self.new) kind (option_copied name.entry)) }
        ensures refused { IfErr result (RefusesLook (faults self.old) (faults self.new)) };

    /// Puts a body under a key, and answers the place of the event. It may wait for the store.
    fn put<R: Wait>(&mut self, rt: &R, key: Key, body: Arc<Body>) -> Result<u64, StoreErr>
        requires claim { L.claimed (seen self.old) (put_event (number self.old) key (arc_value body)) }
        ensures steady { IsSteady number limit faults sole self.old self.new }
        ensures did { DidChange L.claimed (number self.old) (sole self.old) (limit self.old) (faults self.old) (faults self.new) (seen self.old) (seen self.new) (put_event (number self.old) key (arc_value body)) (RefusesPut (limit self.old)) result };

    /// Sets the symbol's reference, which is to be `was`, to an entry of its chain, and answers the place of the event. `mark` is
    /// the spelling of the entry. It may wait for the store.
    fn refer<R: Wait>(
        &mut self,
        rt: &R,
        symbol: &Symbol,
        was: Option<&Key>,
        entry: &Key,
        mark: Arc<Body>,
        changes: Arc<Changes>,
    ) -> Result<u64, StoreErr>
        requires may { MayTryRefer L.claimed (seen self.old) (number self.old) symbol.now (option_copied was) entry.now (arc_value changes) }
        requires mark { arc_value mark ≡ key_text entry.now }
        ensures steady { IsSteady number limit faults sole self.old self.new }
        ensures did { DidChange L.claimed (number self.old) (sole self.old) (limit self.old) (faults self.old) (faults self.new) (seen self.old) (seen self.new) (refer_event (number self.old) symbol.now (option_copied was.entry) entry.now (arc_value changes)) (RefusesRefer (limit self.old) symbol.now (option_copied was.entry)) result };

    /// Sets a snapshot's name, which is to be free, to a body, and answers the place of the event. It may wait for the store.
    fn name<R: Wait>(&mut self, rt: &R, snap: &SnapName, body: Arc<Body>) -> Result<u64, StoreErr>
        requires claim { L.claimed (seen self.old) (name_event (number self.old) snap.now (arc_value body)) }
        ensures steady { IsSteady number limit faults sole self.old self.new }
        ensures did { DidChange L.claimed (number self.old) (sole self.old) (limit self.old) (faults self.old) (faults self.new) (seen self.old) (seen self.new) (name_event (number self.old) snap.now (arc_value body)) (RefusesName (limit self.old) snap.now) result };

    /// Takes a snapshot's name away, which is to stand since this place, and answers the place of the event. It may wait for the
    /// store.
    fn unname<R: Wait>(&mut self, rt: &R, snap: &SnapName, since: u64) -> Result<u64, StoreErr>
        requires claim { L.claimed (seen self.old) (unname_event (number self.old) snap.now) }
        ensures steady { IsSteady number limit faults sole self.old self.new }
        ensures did { DidUnname L.claimed (number self.old) (sole self.old) (limit self.old) (faults self.old) (faults self.new) (seen self.old) (seen self.new) snap.now since result };

    /// Drops the object of a key, if there is one. It may wait for the store.
    fn drop_key<R: Wait>(&mut self, rt: &R, key: &Key) -> Result<Dropped, StoreErr>
        requires may { MayTryDrop L.claimed (seen self.old) (number self.old) key.now }
        ensures steady { IsSteady number limit faults sole self.old self.new }
        ensures did { DidDrop L.claimed (number self.old) (sole self.old) (limit self.old) (faults self.old) (faults self.new) (seen self.old) (seen self.new) key.now result };

    /// Whether the symbol has surely no Refer above a place that the bucket has seen. It looks for nothing new, and waits for
    /// nobody.
    fn unchanged(&mut self, symbol: &Symbol, place: u64) -> bool
        requires seen { place ≤ length (seen self.old) }
        ensures same { seen self.new ≡ seen self.old }
        ensures steady { IsSteady number limit faults sole self.old self.new }
        ensures told { may_tell self.old symbol.now place result }
        ensures unchanged { result ≡ true → refers_after (seen self.old) symbol.now place ≡ false };

    /// Each event that the bucket has seen was lawful after those before it.
    ghost lawful: { (bucket : Self) → ∥ IsLawful L.claimed (seen bucket) ∥₁ };
}
