ghost use Rattle.std.specs.Prelude.{◌≡◌, ◌+◌, ◌≤◌, ◌<◌, ◌^◌, suc, [], ◌∷◌, ◌++◌, map, length, IfOk, OnOk, Ok};
ghost use Rattle.std.specs.Arc.{arc_value};
ghost use Rattle.std.specs.List.{AllByRecursion};
ghost use Rattle.index_tree.specs.IndexText.{index_of};
ghost use Rattle.index_tree.specs.IndexRules.{IsIndex, FitsSlot};
ghost use Rattle.key_kind.specs.Names.{IsName};
ghost use Rattle.frame_write.specs.Plans.{puts_seen};
ghost use Rattle.frame_write.specs.Pieces.{begin_of, end_of, size_of};
ghost use Rattle.index_tree.specs.SlotTexts.{moved};
ghost use Rattle.frame_write.specs.Placing.{slot_at};
ghost use Rattle.frame_write.specs.Laying.{behind, fresh_laid, slots_laid, puts_laid, piece_rows, rows_in, FitsAt, MayMove, MayLay};
ghost use Rattle.frame_write.specs.Layouts.{AddsPiece, IsLaid};
ghost use Rattle.frame_write.specs.SlotKeys.{first_of, last_of, slots_key};
ghost use Rattle.frame_write.specs.Versions.{index_with};

use crate::pieces::Piece;
use crate::placing::{tile_key, tile_put};
use crate::puts::Prepared;
use crate::tiles::{Tile, tiles_of};
use base_types::{Items, Keep, NoMemory};
use bucket_core::Body;
use frame_core::{Part, Schema};
use index_tree::{Slot, SlotRuns, SlotText, build_packed};
use key_kind::{Key, KeyKind, Name, Symbol};
use segment_cut::Cutting;
use std::alloc::Global;
use std::sync::Arc;

/// Slots of a new index, and the tiles among them that are to be put.
#[derive(Drop)]
pub(crate) struct Layout {
    /// The slots, from row 0 on.
    pub(crate) slots: SlotRuns,
    /// The new tiles under keys of their own, as they are put.
    pub(crate) puts: Items<Prepared>,
    /// How many rows the slots have.
    pub(crate) rows: u64,
    /// The serial behind the new keys.
    pub(crate) next: u64,
}

impl Layout {
    /// No slots, where the first key gets this serial.
    fn new(alloc: Global, serial: u64) -> Layout
        ensures { result ≡ record { slots = []; puts = []; rows = 0; next = serial } }
    {
        Layout {
            slots: SlotRuns::new(alloc),
            puts: Items::new(alloc),
            rows: 0,
            next: serial,
        }
    }

    /// Adds what is put for a new tile of a frame that begins at this row, and gives its slot.
    fn add_tile(
        &mut self,
        alloc: Global,
        client: u32,
        name: &Name,
        version: u64,
        begin: u64,
        tile: &Tile,
    ) -> Result<Slot, NoMemory>
        requires is_name { IsName name.now }
        requires fits { FitsAt begin tile.now }
        ensures slot { IfOk result (λ slot. slot ≡ behind begin (slot_at client name.now version self.old.next tile.now)) }
        ensures fits_slot { IfOk result FitsSlot }
        ensures slots { OnOk result (self.new.slots ≡ self.old.slots) }
        ensures puts { OnOk result (puts_seen self.new.puts ≡ puts_seen self.old.puts ++ ((slot_at client name.now version self.old.next tile.now).key, arc_value tile.now.body) ∷ []) }
        ensures rows { OnOk result (self.new.rows ≡ self.old.rows) }
        ensures next { OnOk result (self.new.next ≡ suc self.old.next) }
        ensures fits { OnOk result (self.new.next < 2 ^ 64) }
    {
        let Some(next) = self.next.checked_add(1) else {
            return Err(NoMemory);
        };
        let key = tile_key(alloc, client, name, version, self.next, tile)?;
        self.puts.push(tile_put(alloc, &key, tile)?)?;
        self.next = next;
        Ok(Slot {
            key,
            part: moved_by(tile.part, begin),
            first: tile.first,
            last: tile.last,
        })
    }

    /// Adds what is put for the new tiles of a frame, which begins behind the rows so far, and gives their slots.
    fn add_tiles(
        &mut self,
        alloc: Global,
        client: u32,
        name: &Name,
        version: u64,
        tiles: &[Tile],
    ) -> Result<Items<Slot>, NoMemory>
        requires is_name { IsName name.now }
        requires each { AllByRecursion (FitsAt self.old.rows) tiles.now }
        ensures fresh { IfOk result (λ fresh. fresh ≡ slots_laid (fresh_laid client name.now version self.old.rows self.old.next tiles.now)) }
        ensures fit { IfOk result (λ fresh. AllByRecursion FitsSlot fresh) }
        ensures slots { OnOk result (self.new.slots ≡ self.old.slots) }
        ensures puts { OnOk result (puts_seen self.new.puts ≡ puts_seen self.old.puts ++ puts_laid (fresh_laid client name.now version self.old.rows self.old.next tiles.now)) }
        ensures rows { OnOk result (self.new.rows ≡ self.old.rows) }
        ensures next { OnOk result (self.new.next ≡ self.old.next + length tiles.now) }
        ensures fits { OnOk result (self.old.next < 2 ^ 64 → self.new.next < 2 ^ 64) }
    {
        let begin = self.rows;
        let mut fresh = Items::with_capacity(alloc, tiles.len())?;
        for tile in tiles {
            fresh.push(self.add_tile(alloc, client, name, version, begin, tile)?)?;
        }
        Ok(fresh)
    }

    /// Adds the new tiles of a frame of so many rows, which begins behind the rows so far.
    fn add_fresh(
        &mut self,
        alloc: Global,
        client: u32,
        name: &Name,
        version: u64,
        rows: u64,
        tiles: &[Tile],
    ) -> Result<(), NoMemory>
        requires is_name { IsName name.now }
        requires each { AllByRecursion (FitsAt self.old.rows) tiles.now }
        requires few { self.old.rows + rows < 2 ^ 64 }
        ensures slots { OnOk result (self.new.slots ≡ self.old.slots ++ slots_laid (fresh_laid client name.now version self.old.rows self.old.next tiles.now)) }
        ensures puts { OnOk result (puts_seen self.new.puts ≡ puts_seen self.old.puts ++ puts_laid (fresh_laid client name.now version self.old.rows self.old.next tiles.now)) }
        ensures rows { OnOk result (self.new.rows ≡ self.old.rows + rows) }
        ensures next { OnOk result (self.new.next ≡ self.old.next + length tiles.now) }
        ensures fits { OnOk result (self.old.next < 2 ^ 64 → self.new.next < 2 ^ 64) }
    {
        let fresh = self.add_tiles(alloc, client, name, version, tiles)?;
        self.slots.push(SlotText::of(alloc, fresh.items())?)?;
        self.rows += rows;
        Ok(())
    }

    /// Adds the slots of a run, moved so that it begins behind the rows so far.
    fn add_shared(&mut self, alloc: Global, run: &SlotText) -> Result<(), NoMemory>
        requires run { MayMove run.now }
        requires few { self.old.rows + size_of run.now < 2 ^ 32 }
        ensures slots { OnOk result (self.new.slots ≡ self.old.slots ++ map (moved (begin_of run.now) self.old.rows) run.now) }
        ensures puts { OnOk result (self.new.puts ≡ self.old.puts) }
        ensures rows { OnOk result (self.new.rows ≡ self.old.rows + size_of run.now) }
        ensures next { OnOk result (self.new.next ≡ self.old.next) }
    {
        let from = begin_of(run);
        let to = self.rows;
        self.slots.push_moved(alloc, from, to, run)?;
        self.rows = to + (end_of(run) - from);
        Ok(())
    }
}

/// The part, so many rows further.
fn moved_by(part: Part, rows: u64) -> Part
    requires { part.first_row + rows < 2 ^ 64 }
    ensures { result ≡ record part { first_row = part.first_row + rows } }
{
    Part {
        first_row: part.first_row + rows,
        ..part
    }
}

/// The first row of a run, or 0.
fn begin_of(run: &SlotText) -> u64
    ensures { result ≡ begin_of run.now }
{
    match run.first() {
        Some(span) => span.part.first_row,
        None => 0,
    }
}

/// The row behind the last of a run, or 0.
fn end_of(run: &SlotText) -> u64
    requires { MayMove run.now }
    ensures { result ≡ end_of run.now }
{
    match run.last() {
        Some(span) => span.part.first_row + span.part.rows,
        None => 0,
    }
}

/// Adds the slots of a piece behind those that are there.
fn add_piece(
    alloc: Global,
    client: u32,
    name: &Name,
    version: u64,
    cutting: Cutting,
    piece: &Piece,
    layout: &mut Layout,
) -> Result<(), NoMemory>
    requires is_name { IsName name.now }
    requires piece { MayLay piece.now }
    requires few { layout.old.rows + piece_rows piece.now ≤ 2000000 }
    ensures { OnOk result (AddsPiece client name.now version cutting piece.now layout.old layout.new) }
{
    match piece {
        Piece::Shared(run) => layout.add_shared(alloc, run),
        Piece::Fresh(frame) => {
            let tiles = tiles_of(alloc, frame, cutting)?;
            layout.add_fresh(alloc, client, name, version, frame.rows(), tiles.items())
        }
    }
}

/// The slots of these pieces: fresh ones are cut into tiles of their own, under keys from this serial on, and shared ones are moved.
pub(crate) fn lay_out(
    alloc: Global,
    client: u32,
    serial: u64,
    symbol: &Symbol,
    version: u64,
    pieces: &[Piece],
    cutting: Cutting,
) -> Result<Layout, NoMemory>
    requires each { AllByRecursion MayLay pieces.now }
    requires few { rows_in pieces.now ≤ 2000000 }
    ensures laid { IfOk result (IsLaid client symbol.now version cutting serial pieces.now) }
    ensures is_name { OnOk result (IsName symbol.now) }
{
    let name = symbol.name();
    let mut layout = Layout::new(alloc, serial);
    for piece in pieces {
        add_piece(alloc, client, name, version, cutting, piece, &mut layout)?;
    }
    Ok(layout)
}

/// The index of what was laid out. Its key has the serial behind those of the new tiles, and the stamps of the first and of the
/// last slot.
pub(crate) fn place_slots(
    alloc: Global,
    client: u32,
    symbol: &Symbol,
    version: u64,
    schema: &Schema,
    layout: &Layout,
) -> Result<Prepared, NoMemory>
    requires { IsIndex (index_with schema.now layout.now) }
    ensures key { IfOk result (λ put. put.key ≡ slots_key client symbol.now version layout.now.next layout.now.slots) }
    ensures body { IfOk result (λ put. index_of (arc_value put.body) ≡ Ok (index_with schema.now layout.now)) }
    ensures is_name { OnOk result (IsName symbol.now) }
{
    let key = Key {
        kind: KeyKind::TableIndex,
        name: symbol.name().copy(alloc)?,
        client,
        serial: layout.next,
        version,
        first: first_of(&layout.slots),
        last: last_of(&layout.slots),
    };
    let bytes = build_packed(alloc, schema, layout.rows, &layout.slots)?;
    let body = Arc::new(alloc, Body::make(bytes))?;
    Ok(Prepared { key, body })
}

/// The stamp of the first row of these slots, or 0.
fn first_of(slots: &SlotRuns) -> i64
    ensures { result ≡ first_of slots.now }
{
    match slots.first() {
        Some(span) => span.first,
        None => 0,
    }
}

/// The stamp of their last row, or 0.
fn last_of(slots: &SlotRuns) -> i64
    ensures { result ≡ last_of slots.now }
{
    match slots.last() {
        Some(span) => span.last,
        None => 0,
    }
}
