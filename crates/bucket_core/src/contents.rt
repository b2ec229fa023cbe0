ghost use Rattle.std.specs.Prelude.{◌≡◌, ◌↔◌, ◌^◌, ◌-◌, ◌<◌, [], ◌∷◌, ◌++◌, IsTrue, IfOk, OnOk, OnErr, None, Some, option_copied};
ghost use Rattle.std.specs.Arc.{arc_value};
ghost use Rattle.std.specs.BTreeMap.{insert_entry};
ghost use Rattle.key_kind.specs.Keys.{key_cmp, snapshot_key};
ghost use Rattle.bucket_core.specs.History.{History, referred_at};
ghost use Rattle.bucket_core.specs.Heads.{HasMoved};
ghost use Rattle.bucket_core.specs.Contents.{IsSetAt, LacksName};
ghost use Rattle.bucket_core.specs.Showing.{Shows, ShowsSame, Sets, SetsReference, events_of};
ghost use Rattle.bucket_core.specs.Calls.{IsFound, keys_that_match, matches};

use crate::answer::Found;
use crate::entry::Entry;
use crate::head::{Head, Heads};
use base_types::{Body, Items, Keep, NoMemory};
use key_kind::{Key, KeyKind, Name, SnapName, Symbol};
use std::alloc::Global;
use std::collections::BTreeMap;
use std::sync::Arc;

/// What a history leaves in a store: how many events there were, what stands under each key, and the newest Refer of each symbol.
/// The events themselves are not kept.
#[derive(Drop)]
pub struct Contents {
    entries: BTreeMap<Key, Entry>,
    heads: Heads,
    count: u64,
}

impl Contents {
    /// What no event leaves.
    pub fn new(alloc: Global) -> Contents
        ensures { Shows result [] }
    {
        Contents {
            entries: BTreeMap::new(alloc),
            heads: Heads::new(alloc),
            count: 0,
        }
    }

    /// How many events there were.
    pub fn len(&self) -> u64
        ensures { result ≡ events_of self.now }
    {
        self.count
    }

    /// What stands under a key. The body is shared, and not copied.
    pub fn find(&self, key: &Key) -> Result<Found, NoMemory>
        ensures { (h : History) → Shows self.now h → IfOk result (IsFound h key.now) }
    {
        let place = self.count;
        match self.entries.get(key) {
            None => Ok(Found {
                body: None,
                place,
                since: 0,
            }),
            Some(entry) => Ok(Found {
                body: Some(Arc::try_clone(&entry.body)?),
                place,
                since: entry.since,
            }),
        }
    }

    /// The place of the event that set what stands under a key, where something stands.
    pub fn set_at(&self, key: &Key) -> Option<u64>
        ensures { (h : History) → Shows self.now h → IsSetAt h key.now result }
    {
        match self.entries.get(key) {
            None => None,
            Some(entry) => Some(entry.since),
        }
    }

    /// Copies of the stored keys that match, in order.
    pub fn list(
        &self,
        alloc: Global,
        kind: Option<KeyKind>,
        name: Option<&Name>,
    ) -> Result<Items<Key>, NoMemory>
        ensures { (h : History) → Shows self.now h → IfOk result (λ keys. keys ≡ keys_that_match h kind (option_copied name.entry)) }
    {
        let mut keys = Items::new(alloc);
        for key in self.entries.keys() {
            if matches(kind, name, key) {
                push_copy(&mut keys, alloc, key)?;
            }
        }
        Ok(keys)
    }

    /// Where a snapshot's name was not set at this place, one at which it does not stand so: the present one, or that before the
    /// event which set it. `key` is the key of the snapshot.
    pub fn missing_at(&self, snap: &SnapName, key: &Key, since: u64) -> Option<u64>
        requires key { key.now ≡ snapshot_key snap.now }
        ensures { (h : History) → Shows self.now h → LacksName h snap.now since result }
    {
        match self.entries.get(key) {
            None => Some(self.count),
            Some(entry) => {
                if entry.since == since {
                    None
                } else {
                    Some(entry.since.saturating_sub(1))
                }
            }
        }
    }

    /// Where the symbol's reference is another than `was`, the place of its newest Refer, or 0.
    pub fn moved_at(&self, symbol: &Symbol, was: Option<&Key>) -> Option<u64>
        ensures { (h : History) → Shows self.now h → HasMoved h symbol.now (option_copied was.entry) result }
    {
        match self.heads.find(symbol.name()) {
            None => match was {
                None => None,
                Some(_) => Some(0),
            },
            Some(head) => {
                if same_entry(head.entry.as_ref(), was) {
                    None
                } else {
                    Some(head.since)
                }
            }
        }
    }

    /// The place of the symbol's newest Refer, or 0.
    pub fn referred_at(&self, symbol: &Symbol) -> u64
        ensures { (h : History) → Shows self.now h → result ≡ referred_at h symbol.now }
    {
        match self.heads.find(symbol.name()) {
            None => 0,
            Some(head) => head.since,
        }
    }

    /// Adds an event that sets a body under a key, and is no Refer.
    pub fn set(&mut self, key: Key, body: Arc<Body>) -> Result<(), NoMemory>
        requires room { events_of self.old < 2 ^ 64 - 1 }
        ensures ok { OnOk result (Sets self.old self.new key (Some (arc_value body))) }
        ensures err { OnErr result (ShowsSame self.old self.new) }
    {
        let since = self.count + 1;
        put_entry(&mut self.entries, key, Entry { body, since })?;
        self.count = since;
        Ok(())
    }

    /// Adds the event that sets a symbol's reference, whose key is `key`, to an entry, whose spelling is `mark`. The symbol is
    /// copied only where it has no Refer yet.
    pub fn refer(
        &mut self,
        alloc: Global,
        symbol: Name,
        key: Key,
        entry: Key,
        mark: Arc<Body>,
    ) -> Result<(), NoMemory>
        requires room { events_of self.old < 2 ^ 64 - 1 }
        ensures ok { OnOk result (SetsReference self.old self.new symbol key entry (arc_value mark)) }
        ensures err { OnErr result (ShowsSame self.old self.new) }
    {
        let since = self.count + 1;
        self.heads.make_room(alloc, &symbol)?;
        put_entry(&mut self.entries, key, Entry { body: mark, since })?;
        let head = Head {
            entry: Some(entry),
            since,
        };
        self.heads.set(symbol, head);
        self.count = since;
        Ok(())
    }

    /// Adds an event that takes away what stands under a key. It takes no memory.
    pub fn drop_key(&mut self, key: &Key)
        requires room { events_of self.old < 2 ^ 64 - 1 }
        ensures { Sets self.old self.new key.now None }
    {
        let _count = self.entries.len();
        let _ = self.entries.remove(key);
        self.count += 1;
    }
}

/// Adds a copy of a key behind the others.
fn push_copy(keys: &mut Items<Key>, alloc: Global, key: &Key) -> Result<(), NoMemory>
    ensures { OnOk result (keys.new ≡ keys.old ++ key.now ∷ []) }
{
    keys.push(key.copy(alloc)?)
}

/// Sets an entry, or leaves the entries as they are.
fn put_entry(entries: &mut BTreeMap<Key, Entry>, key: Key, entry: Entry) -> Result<(), NoMemory>
    ensures ok { OnOk result (entries.new.entries ≡ insert_entry key_cmp entries.old.entries key entry) }
    ensures err { OnErr result (entries.new.entries ≡ entries.old.entries) }
{
    match entries.insert(key, entry) {
        Ok(_) => Ok(()),
        Err(_) => Err(NoMemory),
    }
}

/// Whether both are the same key, or both are none.
fn same_entry(entry: Option<&Key>, was: Option<&Key>) -> bool
    ensures { IsTrue result ↔ (option_copied entry.entry ≡ option_copied was.entry) }
{
    match (entry, was) {
        (None, None) => true,
        (Some(entry), Some(was)) => entry == was,
        _ => false,
    }
}

/// Whether a key is of this kind and of this name, where they are given.
fn matches(kind: Option<KeyKind>, name: Option<&Name>, key: &Key) -> bool
    ensures { result ≡ matches kind (option_copied name.entry) key.now }
{
    kind.is_none_or(|kind| kind.code() == key.kind.code())
        && name.is_none_or(|name| *name == key.name)
}
