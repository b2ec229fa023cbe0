ghost use Rattle.std.specs.Prelude.{◌≡◌, ◌<◌, ◌∷◌, map, IfOk, Ok, IfSome};
ghost use Rattle.std.specs.Arc.{arc_value};
ghost use Rattle.key_kind.specs.Keys.{IsKey};
ghost use Rattle.key_kind.specs.KeyText.{key_text};
ghost use Rattle.store_model.specs.Commits.{Rising};
ghost use Rattle.store_model.specs.ChainText.{entry_of};
ghost use Rattle.store_model.specs.declared.chain.ChainMark.TheVariants.{Link, Tomb};
ghost use Rattle.version_chain.specs.Entries.{IsEntry, IsLink};
ghost use Rattle.version_chain.specs.Marking.{element_key};
ghost use Rattle.version_chain.specs.MarkPlans.{IsElementKey};

use crate::puts::Prepared;
use base_types::{Items, Keep, NoMemory};
use bucket_core::Body;
use key_kind::{Key, KeyKind, Name, Symbol};
use std::alloc::Global;
use std::sync::Arc;
use store_model::{ChainMark, Entry, LinkRow};
use version_chain::entry_bytes;

/// The element of a new version under its key: it stands on `was`, and has the link and the tombs of these versions.
pub(crate) fn place_element(
    alloc: Global,
    client: u32,
    serial: u64,
    symbol: &Symbol,
    was: &Option<Key>,
    row: LinkRow,
    buried: &[u64],
) -> Result<Prepared, NoMemory>
    requires was { IfSome was.now (IsElementKey symbol.now) }
    requires link { IsLink row }
    requires rising { Rising buried.now }
    ensures key { IfOk result (λ put. put.key ≡ element_key client symbol.now serial) }
    ensures body { IfOk result (λ put. entry_of (arc_value put.body) ≡ Ok (record { prev = was.now; changes = Link row ∷ map Tomb buried.now })) }
{
    let name = symbol.name();
    let body = element_body(alloc, was, row, buried)?;
    let key = key_of(alloc, client, serial, name)?;
    Ok(Prepared { key, body })
}

/// The key of an element.
fn key_of(alloc: Global, client: u32, serial: u64, name: &Name) -> Result<Key, NoMemory>
    ensures { IfOk result (λ key. key ≡ element_key client name.now serial) }
{
    Ok(Key {
        kind: KeyKind::Version,
        name: name.copy(alloc)?,
        client,
        serial,
        version: 0,
        first: 0,
        last: 0,
    })
}

/// The element of a new version, as bytes.
fn element_body(
    alloc: Global,
    was: &Option<Key>,
    row: LinkRow,
    buried: &[u64],
) -> Result<Arc<Body>, NoMemory>
    requires { IsEntry (record { prev = was.now; changes = Link row ∷ map Tomb buried.now }) }
    ensures { IfOk result (λ body. entry_of (arc_value body) ≡ Ok (record { prev = was.now; changes = Link row ∷ map Tomb buried.now })) }
{
    let changes = marks_of(alloc, row, buried)?;
    let prev = copied(alloc, was)?;
    let bytes = entry_bytes(alloc, &Entry { prev, changes })?;
    Ok(Arc::new(alloc, Body::make(bytes))?)
}

/// A copy of a key, where there is one.
pub(crate) fn copied(alloc: Global, key: &Option<Key>) -> Result<Option<Key>, NoMemory>
    ensures { IfOk result (λ copy. copy ≡ key.now) }
{
    match key {
        None => Ok(None),
        Some(key) => Ok(Some(key.copy(alloc)?)),
    }
}

/// The marks of a new version: its link, and the tombs of these versions.
fn marks_of(alloc: Global, row: LinkRow, buried: &[u64]) -> Result<Items<ChainMark>, NoMemory>
    ensures { IfOk result (λ marks. marks ≡ Link row ∷ map Tomb buried.now) }
{
    let mut marks = Items::new(alloc);
    marks.push(ChainMark::Link(row))?;
    for version in buried {
        marks.push(ChainMark::Tomb { version: *version })?;
    }
    Ok(marks)
}

/// The spelling of an element's key, which its Refer sets.
pub(crate) fn mark_of(alloc: Global, key: &Key) -> Result<Arc<Body>, NoMemory>
    requires { IsKey key.now }
    ensures { IfOk result (λ mark. arc_value mark ≡ key_text key.now) }
{
    Ok(Arc::new(alloc, Body::make(key.bytes(alloc)?))?)
}
