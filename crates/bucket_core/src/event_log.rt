ghost use Rattle.std.specs.Prelude.{◌≡◌, ◌-◌, ◌^◌, ◌<◌, [], ◌∷◌, ◌++◌, length, reverse, take, vec_len, None, Some, IfOk, OnOk, OnErr, option_copied};
ghost use Rattle.std.specs.Arc.{arc_value};
ghost use Rattle.key_kind.specs.Keys.{reference_key, snapshot_key};
ghost use Rattle.key_kind.specs.KeyText.{key_text};
ghost use Rattle.bucket_core.specs.History.{referred_at};
ghost use Rattle.bucket_core.specs.Heads.{HasMoved};
ghost use Rattle.bucket_core.specs.Contents.{IsSetAt, LacksName};
ghost use Rattle.bucket_core.specs.Showing.{Sets, SetsReference, ShowsSame, events_of};
ghost use Rattle.bucket_core.specs.Calls.{IsFound, keys_that_match, put_event, refer_event, name_event, unname_event, drop_event};

use crate::Changes;
use crate::answer::Found;
use crate::body::SharedBody;
use crate::contents::Contents;
use crate::event::{Event, SharedChanges};
use base_types::{Body, Items, Keep, NoMemory};
use key_kind::{Key, KeyKind, Name, SnapName, Symbol};
use std::alloc::Global;
use std::marker::Model;
use std::sync::Arc;

/// Events, and what they leave. Contracts see the history.
#[derive(Drop)]
pub(crate) struct EventLog {
    events: Vec<Event>,
    contents: Contents,
}

impl Model for EventLog {
    ghost use Rattle.std.specs.Prelude.{reverse};
    ghost use Rattle.bucket_core.specs.History.{History};
    ghost use Rattle.bucket_core.specs.Showing.{Shows};

    ghost Value = { History };

    ghost view = { λ l. reverse l.events.items };

    ghost invariant = { λ l. Shows l.contents (reverse l.events.items) };
}

impl EventLog {
    /// No event.
    pub(crate) fn new(alloc: Global) -> EventLog
        ensures { result ≡ [] }
    {
        EventLog {
            events: Vec::new(alloc),
            contents: Contents::new(alloc),
        }
    }

    /// The events, the oldest first.
    pub(crate) fn events(&self) -> &[Event]
        ensures { reverse result.now ≡ self.now }
    {
        self.events.as_slice()
    }

    /// How many events there are.
    pub(crate) fn len(&self) -> u64
        ensures { result ≡ length self.now }
    {
        self.contents.len()
    }

    /// What stands under a key. The body is shared, and not copied.
    pub(crate) fn find(&self, key: &Key) -> Result<Found, NoMemory>
        ensures { IfOk result (IsFound self.now key.now) }
    {
        self.contents.find(key)
    }

    /// Copies of the stored keys that match, in order.
    pub(crate) fn list(
        &self,
        alloc: Global,
        kind: Option<KeyKind>,
        name: Option<&Name>,
    ) -> Result<Items<Key>, NoMemory>
        ensures { IfOk result (λ keys. keys ≡ keys_that_match self.now kind (option_copied name.entry)) }
    {
        self.contents.list(alloc, kind, name)
    }

    /// The place of the event that set what stands under a key, where something stands.
    pub(crate) fn set_at(&self, key: &Key) -> Option<u64>
        ensures { IsSetAt self.now key.now result }
    {
        self.contents.set_at(key)
    }

    /// Where a snapshot's name was not set at this place, one at which it does not stand so: the present one, or that before the
    /// event which set it. `key` is the key of the snapshot.
    pub(crate) fn missing_at(&self, snap: &SnapName, key: &Key, since: u64) -> Option<u64>
        requires key { key.now ≡ snapshot_key snap.now }
        ensures { LacksName self.now snap.now since result }
    {
        self.contents.missing_at(snap, key, since)
    }

    /// The place of a symbol's newest Refer, or 0.
    pub(crate) fn referred_at(&self, symbol: &Symbol) -> u64
        ensures { result ≡ referred_at self.now symbol.now }
    {
        self.contents.referred_at(symbol)
    }

    /// Where the symbol's reference is another than `was`, the place of its newest Refer, or 0.
    pub(crate) fn moved_at(&self, symbol: &Symbol, was: Option<&Key>) -> Option<u64>
        ensures { HasMoved self.now symbol.now (option_copied was.entry) result }
    {
        self.contents.moved_at(symbol, was)
    }

    /// Adds the event that a client puts a body under a key.
    pub(crate) fn put(
        &mut self,
        alloc: Global,
        client: u32,
        key: Key,
        body: Arc<Body>,
    ) -> Result<(), NoMemory>
        requires room { length self.old < 2 ^ 64 - 1 }
        ensures ok { OnOk result (self.new ≡ put_event client key (arc_value body) ∷ self.old) }
        ensures err { OnErr result (self.new ≡ self.old) }
    {
        let event = event_of_put(alloc, client, &key, &body)?;
        add_body(&mut self.events, &mut self.contents, event, key, body)?;
        Ok(())
    }

    /// Adds the event that a client sets a symbol's reference, whose spelling is `mark`.
    pub(crate) fn refer(
        &mut self,
        alloc: Global,
        client: u32,
        symbol: &Symbol,
        was: Option<&Key>,
        entry: &Key,
        mark: Arc<Body>,
        changes: Arc<Changes>,
    ) -> Result<(), NoMemory>
        requires room { length self.old < 2 ^ 64 - 1 }
        requires mark { arc_value mark ≡ key_text entry.now }
        ensures ok { OnOk result (self.new ≡ refer_event client symbol.now (option_copied was.entry) entry.now (arc_value changes) ∷ self.old) }
        ensures err { OnErr result (self.new ≡ self.old) }
    {
        let event = event_of_refer(alloc, client, symbol, was, entry, changes)?;
        add_reference(
            &mut self.events,
            &mut self.contents,
            alloc,
            event,
            symbol,
            entry,
            mark,
        )?;
        Ok(())
    }

    /// Adds the event that a client sets a snapshot's name to a body. `key` is the key of the snapshot.
    pub(crate) fn name(
        &mut self,
        alloc: Global,
        client: u32,
        snap: &SnapName,
        key: Key,
        body: Arc<Body>,
    ) -> Result<(), NoMemory>
        requires room { length self.old < 2 ^ 64 - 1 }
        requires key { key ≡ snapshot_key snap.now }
        ensures ok { OnOk result (self.new ≡ name_event client snap.now (arc_value body) ∷ self.old) }
        ensures err { OnErr result (self.new ≡ self.old) }
    {
        let event = event_of_name(alloc, client, snap, &body)?;
        add_body(&mut self.events, &mut self.contents, event, key, body)?;
        Ok(())
    }

    /// Adds the event that a client takes a snapshot's name away. `key` is the key of the snapshot.
    pub(crate) fn unname(
        &mut self,
        alloc: Global,
        client: u32,
        snap: &SnapName,
        key: &Key,
    ) -> Result<(), NoMemory>
        requires room { length self.old < 2 ^ 64 - 1 }
        requires key { key.now ≡ snapshot_key snap.now }
        ensures ok { OnOk result (self.new ≡ unname_event client snap.now ∷ self.old) }
        ensures err { OnErr result (self.new ≡ self.old) }
    {
        let event = Event::Unname {
            client,
            snap: snap.copy(alloc)?,
        };
        push_event(&mut self.events, event)?;
        self.contents.drop_key(key);
        Ok(())
    }

    /// Adds the event that a client drops the object of a key.
    pub(crate) fn drop_key(&mut self, alloc: Global, client: u32, key: &Key) -> Result<(), NoMemory>
        requires room { length self.old < 2 ^ 64 - 1 }
        ensures ok { OnOk result (self.new ≡ drop_event client key.now ∷ self.old) }
        ensures err { OnErr result (self.new ≡ self.old) }
    {
        let event = Event::Drop {
            client,
            key: key.copy(alloc)?,
        };
        push_event(&mut self.events, event)?;
        self.contents.drop_key(key);
        Ok(())
    }
}

/// Adds an event behind the others.
fn push_event(events: &mut Vec<Event>, event: Event) -> Result<(), NoMemory>
    ensures ok { OnOk result (events.new.items ≡ events.old.items ++ event ∷ []) }
    ensures err { OnErr result (events.new.items ≡ events.old.items) }
{
    Ok(events.push(event)?)
}

/// Takes the newest event away.
fn drop_newest(events: &mut Vec<Event>)
    ensures { events.new.items ≡ take (vec_len events.old - 1) events.old.items }
{
    events.truncate(events.len().saturating_sub(1));
}

/// Adds an event, and what it leaves: a body under its key.
fn add_body(
    events: &mut Vec<Event>,
    contents: &mut Contents,
    event: Event,
    key: Key,
    body: Arc<Body>,
) -> Result<(), NoMemory>
    requires room { events_of contents.old < 2 ^ 64 - 1 }
    ensures events { OnOk result (events.new.items ≡ events.old.items ++ event ∷ []) }
    ensures contents { OnOk result (Sets contents.old contents.new key (Some (arc_value body))) }
    ensures same_events { OnErr result (events.new.items ≡ events.old.items) }
    ensures same_contents { OnErr result (ShowsSame contents.old contents.new) }
{
    push_event(events, event)?;
    match contents.set(key, body) {
        Ok(()) => Ok(()),
        Err(NoMemory) => {
            drop_newest(events);
            Err(NoMemory)
        }
    }
}

/// Adds an event, and what it leaves: a symbol's reference to an entry, whose spelling is `mark`.
fn add_reference(
    events: &mut Vec<Event>,
    contents: &mut Contents,
    alloc: Global,
    event: Event,
    symbol: &Symbol,
    entry: &Key,
    mark: Arc<Body>,
) -> Result<(), NoMemory>
    requires room { events_of contents.old < 2 ^ 64 - 1 }
    ensures events { OnOk result (events.new.items ≡ events.old.items ++ event ∷ []) }
    ensures contents { OnOk result (SetsReference contents.old contents.new symbol.now (reference_key symbol.now) entry.now (arc_value mark)) }
    ensures same_events { OnErr result (events.new.items ≡ events.old.items) }
    ensures same_contents { OnErr result (ShowsSame contents.old contents.new) }
{
    push_event(events, event)?;
    match set_reference(contents, alloc, symbol, entry, mark) {
        Ok(()) => Ok(()),
        Err(NoMemory) => {
            drop_newest(events);
            Err(NoMemory)
        }
    }
}

/// Sets what the event that sets a symbol's reference leaves.
fn set_reference(
    contents: &mut Contents,
    alloc: Global,
    symbol: &Symbol,
    entry: &Key,
    mark: Arc<Body>,
) -> Result<(), NoMemory>
    requires room { events_of contents.old < 2 ^ 64 - 1 }
    ensures ok { OnOk result (SetsReference contents.old contents.new symbol.now (reference_key symbol.now) entry.now (arc_value mark)) }
    ensures err { OnErr result (ShowsSame contents.old contents.new) }
{
    let (name, key) = reference_names(alloc, symbol)?;
    let entry = entry.copy(alloc)?;
    contents.refer(alloc, name, key, entry, mark)
}

/// A copy of a symbol's name, and the key of its reference.
fn reference_names(alloc: Global, symbol: &Symbol) -> Result<(Name, Key), NoMemory>
    ensures { IfOk result (λ names. names ≡ (symbol.now, reference_key symbol.now)) }
{
    let name = symbol.name().copy(alloc)?;
    Ok((name, Key::reference(alloc, symbol)?))
}

/// The event that a client puts a body under a key.
fn event_of_put(alloc: Global, client: u32, key: &Key, body: &Arc<Body>) -> Result<Event, NoMemory>
    ensures { IfOk result (λ event. event ≡ put_event client key.now (arc_value body.now)) }
{
    let key = key.copy(alloc)?;
    let body = SharedBody::make(Arc::try_clone(body)?);
    Ok(Event::Put { client, key, body })
}

/// The event that a client sets a snapshot's name to a body.
fn event_of_name(
    alloc: Global,
    client: u32,
    snap: &SnapName,
    body: &Arc<Body>,
) -> Result<Event, NoMemory>
    ensures { IfOk result (λ event. event ≡ name_event client snap.now (arc_value body.now)) }
{
    let snap = snap.copy(alloc)?;
    let body = SharedBody::make(Arc::try_clone(body)?);
    Ok(Event::Name { client, snap, body })
}

/// The event that a client sets a symbol's reference.
fn event_of_refer(
    alloc: Global,
    client: u32,
    symbol: &Symbol,
    was: Option<&Key>,
    entry: &Key,
    changes: Arc<Changes>,
) -> Result<Event, NoMemory>
    ensures { IfOk result (λ event. event ≡ refer_event client symbol.now (option_copied was.entry) entry.now (arc_value changes)) }
{
    let symbol = symbol.copy(alloc)?;
    let (was, entry) = reference_entries(alloc, was, entry)?;
    Ok(Event::Refer {
        client,
        symbol,
        was,
        entry,
        changes: SharedChanges::make(changes),
    })
}

/// Copies of the entry that a reference was, if there is one, and of that which it becomes.
fn reference_entries(
    alloc: Global,
    was: Option<&Key>,
    entry: &Key,
) -> Result<(Option<Key>, Key), NoMemory>
    ensures { IfOk result (λ entries. entries ≡ (option_copied was.entry, entry.now)) }
{
    let was = copied(alloc, was)?;
    Ok((was, entry.copy(alloc)?))
}

/// A copy of a key, where there is one.
fn copied(alloc: Global, key: Option<&Key>) -> Result<Option<Key>, NoMemory>
    ensures { IfOk result (λ copy. copy ≡ option_copied key.entry) }
{
    match key {
        None => Ok(None),
        Some(key) => Ok(Some(key.copy(alloc)?)),
    }
}
