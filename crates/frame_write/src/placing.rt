ghost use Rattle.std.specs.Prelude.{◌≡◌, ◌+◌, ◌<◌, ◌^◌, suc, [], ◌∷◌, ◌++◌, length, IfOk, OnOk, Ok};
ghost use Rattle.std.specs.Arc.{arc_value};
ghost use Rattle.index_tree.specs.IndexText.{index_of};
ghost use Rattle.index_tree.specs.IndexRules.{IsIndex};
ghost use Rattle.key_kind.specs.Names.{IsName};
ghost use Rattle.store_model.specs.OwnPuts.{slots_of};
ghost use Rattle.frame_write.specs.Plans.{puts_seen};
ghost use Rattle.frame_write.specs.Placing.{slot_at, placed, tile_puts, index_key};

use crate::puts::Prepared;
use crate::tiles::Tile;
use base_types::{Items, Keep, NoMemory};
use bucket_core::Body;
use frame_core::Frame;
use index_tree::{Index, Slot, build};
use key_kind::{Key, KeyKind, Name, Symbol};
use std::alloc::Global;
use std::sync::Arc;

/// Tiles under the keys of a try.
#[derive(Drop)]
pub(crate) struct Placed {
    /// Their slots in the index.
    pub(crate) slots: Items<Slot>,
    /// The tiles as they are put.
    pub(crate) puts: Items<Prepared>,
    /// The serial behind them.
    pub(crate) next: u64,
}

/// The key of a tile under this serial.
pub(crate) fn tile_key(
    alloc: Global,
    client: u32,
    name: &Name,
    version: u64,
    serial: u64,
    tile: &Tile,
) -> Result<Key, NoMemory>
    ensures { IfOk result (λ key. key ≡ (slot_at client name.now version serial tile.now).key) }
{
    Ok(Key {
        kind: KeyKind::TableData,
        name: name.copy(alloc)?,
        client,
        serial,
        version,
        first: tile.first,
        last: tile.last,
    })
}

/// A tile as it is put under this key.
pub(crate) fn tile_put(alloc: Global, key: &Key, tile: &Tile) -> Result<Prepared, NoMemory>
    ensures key { IfOk result (λ put. put.key ≡ key.now) }
    ensures body { IfOk result (λ put. arc_value put.body ≡ arc_value tile.now.body) }
{
    Ok(Prepared {
        key: key.copy(alloc)?,
        body: Arc::try_clone(&tile.body)?,
    })
}

impl Placed {
    /// Puts a tile behind the others.
    fn add(
        &mut self,
        alloc: Global,
        client: u32,
        name: &Name,
        version: u64,
        tile: &Tile,
    ) -> Result<(), NoMemory>
        ensures slots { OnOk result (self.new.slots ≡ self.old.slots ++ slot_at client name.now version self.old.next tile.now ∷ []) }
        ensures puts { OnOk result (puts_seen self.new.puts ≡ puts_seen self.old.puts ++ ((slot_at client name.now version self.old.next tile.now).key, arc_value tile.now.body) ∷ []) }
        ensures next { OnOk result (self.new.next ≡ suc self.old.next) }
        ensures fits { OnOk result (self.new.next < 2 ^ 64) }
    {
        let Some(next) = self.next.checked_add(1) else {
            return Err(NoMemory);
        };
        let key = tile_key(alloc, client, name, version, self.next, tile)?;
        self.puts.push(tile_put(alloc, &key, tile)?)?;
        self.slots.push(Slot {
            key,
            part: tile.part,
            first: tile.first,
            last: tile.last,
        })?;
        self.next = next;
        Ok(())
    }
}

/// The tiles under keys from this serial on.
pub(crate) fn place_tiles(
    alloc: Global,
    client: u32,
    serial: u64,
    symbol: &Symbol,
    version: u64,
    tiles: &[Tile],
) -> Result<Placed, NoMemory>
    ensures slots { IfOk result (λ all. all.slots ≡ slots_of (placed client symbol.now version serial tiles.now)) }
    ensures puts { IfOk result (λ all. puts_seen all.puts ≡ tile_puts (placed client symbol.now version serial tiles.now)) }
    ensures next { IfOk result (λ all. all.next ≡ serial + length tiles.now) }
    ensures fits { OnOk result (serial + length tiles.now < 2 ^ 64) }
    ensures is_name { OnOk result (IsName symbol.now) }
{
    let name = symbol.name();
    let mut all = Placed {
        slots: Items::new(alloc),
        puts: Items::new(alloc),
        next: serial,
    };
    for tile in tiles {
        all.add(alloc, client, name, version, tile)?;
    }
    Ok(all)
}

/// The key of the frame's index under this serial.
fn index_key_of(
    alloc: Global,
    client: u32,
    serial: u64,
    symbol: &Symbol,
    version: u64,
    frame: &Frame,
) -> Result<Key, NoMemory>
    ensures { IfOk result (λ key. key ≡ index_key client symbol.now version serial frame.now) }
{
    Ok(Key {
        kind: KeyKind::TableIndex,
        name: symbol.name().copy(alloc)?,
        client,
        serial,
        version,
        first: frame.first_stamp().unwrap_or(0),
        last: frame.last_stamp().unwrap_or(0),
    })
}

/// The spelling of the frame's index over these slots.
fn index_body(alloc: Global, frame: &Frame, slots: Items<Slot>) -> Result<Arc<Body>, NoMemory>
    requires { IsIndex (record { schema = frame.now.schema; rows = length frame.now.rows; slots = slots }) }
    ensures { IfOk result (λ body. index_of (arc_value body) ≡ Ok (record { schema = frame.now.schema; rows = length frame.now.rows; slots = slots })) }
{
    let index = Index {
        schema: frame.schema().copy(alloc)?,
        rows: frame.rows(),
        slots,
    };
    Ok(Arc::new(alloc, Body::make(build(alloc, &index)?))?)
}

/// The index of these slots under its key.
pub(crate) fn place_index(
    alloc: Global,
    client: u32,
    serial: u64,
    symbol: &Symbol,
    version: u64,
    frame: &Frame,
    slots: Items<Slot>,
) -> Result<Prepared, NoMemory>
    requires { IsIndex (record { schema = frame.now.schema; rows = length frame.now.rows; slots = slots }) }
    ensures key { IfOk result (λ put. put.key ≡ index_key client symbol.now version serial frame.now) }
    ensures body { IfOk result (λ put. index_of (arc_value put.body) ≡ Ok (record { schema = frame.now.schema; rows = length frame.now.rows; slots = slots })) }
{
    let body = index_body(alloc, frame, slots)?;
    let key = index_key_of(alloc, client, serial, symbol, version, frame)?;
    Ok(Prepared { key, body })
}
