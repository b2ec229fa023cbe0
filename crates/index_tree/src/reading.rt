ghost use Rattle.std.specs.Prelude.{◌≡◌, ◌||◌, not, ℕ, List, [], ◌∷◌, ◌++◌, length, true, IfOk, IfErr, OnOk, Ok};
ghost use Rattle.index_tree.specs.Names.{AreNoted, has_name};
ghost use Rattle.frame_core.specs.Schemas.{Head};
ghost use Rattle.frame_core.specs.Texts.{same_text};
ghost use Rattle.segment_bytes.specs.Heads.{head_at};
ghost use Rattle.byte_fields.specs.Readers.{Gives};
ghost use Rattle.key_kind.specs.Keys.{IsKey};
ghost use Rattle.key_kind.specs.KeyViews.{key_of};
ghost use Rattle.index_tree.specs.SlotViews.{slot_seen};
ghost use Rattle.index_tree.specs.IndexParts.{columns_at, counts_at, tiles_of};
ghost use Rattle.index_tree.specs.declared.index.Slot.{Slot as ReadSlot};
ghost use Rattle.index_tree.specs.IndexText.{no_reach, reach_of, slot_at, heads_at, slots_at, index_at, index_text, index_of};
ghost use Rattle.index_tree.specs.IndexRules.{IsIndex};
ghost use Rattle.index_tree.specs.IndexFaults.{IsIndexFault, Reads, Stops};

use crate::fault::{IndexFault, Stop};
use crate::index::{Index, Slot};
use crate::reach::Reach;
use crate::slot_view::{SlotView, read_slot};
use base_types::{Items, NoMemory};
use byte_fields::{read_magic, read_u16, read_u32};
use frame_core::{ColName, ColType, Schema};
use segment_bytes::read_head;
use std::alloc::Global;
use std::collections::BTreeSet;

/// The fewest bytes that a slot has: the name in its key has one.
const LEAST_SLOT_BYTES: usize = 67;

/// Reads bytes as an index, in one pass, into memory of its own.
///
/// The bytes are `AIX1`; the number of columns (2 bytes), and for each its type, the length of its name and its name, as in
/// a segment; the number of rows (4 bytes) and of slots (4 bytes); and for each slot the key of a tile, its first row and its
/// rows (4 bytes each), its first and last stamp (8 bytes each), and its first column and its columns (2 bytes each).
/// Nothing follows. Numbers have the high byte first.
///
/// The slots cover the rows and columns in order. A row block has 1 to 100,000 rows and begins where the one before it ends; a
/// slice has 1 to 127 columns, or none where the index has none, and begins where the one before it in its block ends. The
/// slots of a block have the same stamps, which are those of their keys; they do not fall, nor does a block begin below
/// the last stamp of the one before it.
pub fn read(alloc: Global, bytes: &[u8]) -> Result<Index, IndexFault>
    // What is read is what the bytes spell.
    ensures found { IfOk result (λ index. index_of bytes.now ≡ Ok index) }
    ensures spelled { IfOk result (λ index. bytes.now ≡ index_text index) }
    ensures is_index { IfOk result IsIndex }
    // A fault is that of the first bad field.
    ensures fault { IfErr result (IsIndexFault bytes.now) }
{
    match read_index(alloc, bytes) {
        Ok(index) => Ok(index),
        Err(Stop::Bad { left }) => Err(IndexFault::Bad {
            at: bytes.len().saturating_sub(left) as u64,
        }),
        Err(Stop::NoMemory) => Err(IndexFault::NoMemory),
    }
}

fn read_index(alloc: Global, bytes: &[u8]) -> Result<Index, Stop>
    ensures { Reads (λ index. index) result (index_of bytes.now) }
{
    let (schema, columns, rest) = read_columns(alloc, bytes)?;
    let (rows, slots) = read_tiles(alloc, columns, rest)?;
    Ok(Index {
        schema,
        rows: rows as u64,
        slots,
    })
}

/// How many rows an index of so many columns has, and its slots, behind which nothing follows.
fn read_tiles(alloc: Global, columns: u16, bytes: &[u8]) -> Result<(u32, Items<Slot>), Stop>
    ensures { Reads (λ x. (x.0, x.1)) result (tiles_of columns bytes.now) }
{
    let (rows, count, rest) = read_counts(bytes)?;
    let (slots, end) = read_slots(alloc, rows, columns, count, rest)?;
    if !end.is_empty() {
        return Err(Stop::Bad { left: end.len() });
    }
    Ok((rows, slots))
}

/// The schema of an index and the number of its columns, behind the bytes with which each index begins, and what follows them.
#[tactic(auto, unfolding(crate::specs::IndexParts::columns_at))]
pub(crate) fn read_columns(alloc: Global, bytes: &[u8]) -> Result<(Schema, u16, &[u8]), Stop>
    ensures columns { Reads (λ x. ((x.1, x.0.columns), x.2.now)) result (columns_at bytes.now) }
    ensures timed { IfOk result (λ x. x.0.timed ≡ true) }
{
    let rest = read_magic(b"AIX1".as_slice(), bytes)?;
    let (columns, rest) = read_u16(rest)?;
    let (schema, rest) = read_schema(alloc, columns, rest)?;
    Ok((schema, columns, rest))
}

/// How many rows and slots an index has, and what follows.
#[tactic(auto, unfolding(crate::specs::IndexParts::counts_at))]
pub(crate) fn read_counts(bytes: &[u8]) -> Result<(u32, u32, &[u8]), usize>
    ensures { Gives (λ x. ((x.0, x.1), x.2.now)) result (counts_at bytes.now) }
{
    let (rows, rest) = read_u32(bytes)?;
    let (count, rest) = read_u32(rest)?;
    Ok((rows, count, rest))
}

/// Whether no earlier column has the name, which is noted.
fn note_name<'a>(names: &mut BTreeSet<&'a str>, name: &'a str) -> Result<bool, NoMemory>
    ensures is_new { IfOk result (λ new. not new ≡ has_name names.old name.now) }
    ensures noted { OnOk result ((other : List ℕ)
        → has_name names.new other ≡ (same_text other name.now || has_name names.old other)) }
{
    Ok(names.insert(name)?)
}

/// The name of a column, which has 1 to 255 bytes, in memory of its own.
fn make_name(alloc: Global, name: &str) -> Result<ColName, NoMemory>
    ensures { IfOk result (λ made. made ≡ name.now) }
{
    match ColName::make(alloc, name) {
        Ok(made) => Ok(made),
        Err(_) => Err(NoMemory),
    }
}

/// Adds a column of this name, which has 1 to 255 bytes, behind the others.
fn push_column(
    schema: &mut Schema,
    alloc: Global,
    name: &str,
    kind: ColType,
) -> Result<(), NoMemory>
    ensures { OnOk result (schema.new ≡ record schema.old { columns = schema.old.columns ++ (name.now, kind) ∷ [] }) }
{
    schema.push(make_name(alloc, name)?, kind)
}

/// The next column's type and name, which none of the columns whose names are noted has, and what follows. The name is noted.
fn read_new_head<'a>(
    names: &mut BTreeSet<&'a str>,
    bytes: &'a [u8],
) -> Result<(ColType, &'a str, &'a [u8]), Stop>
    ensures head { (earlier : List Head) → AreNoted names.old earlier → Reads (λ x. ((x.1.now, x.0), x.2.now)) result (head_at earlier bytes.now) }
    ensures noted { IfOk result (λ x. (other : List ℕ)
        → has_name names.new other ≡ (same_text other x.1.now || has_name names.old other)) }
{
    let (kind, name, after) = read_head(bytes)?;
    if !note_name(names, name)? {
        return Err(Stop::Bad {
            left: name.len() + after.len(),
        });
    }
    Ok((kind, name, after))
}

/// The schema of so many columns, whose names differ, and what follows them.
fn read_schema(alloc: Global, count: u16, bytes: &[u8]) -> Result<(Schema, &[u8]), Stop>
    ensures columns { Reads (λ x. (x.0.columns, x.1.now)) result (heads_at [] count bytes.now) }
    ensures timed { IfOk result (λ x. x.0.timed ≡ true) }
{
    let mut schema = Schema::empty(alloc, true);
    let mut names = BTreeSet::new(alloc);
    let mut rest = bytes;
    for _ in 0..count {
        let (kind, name, after) = read_new_head(&mut names, rest)?;
        push_column(&mut schema, alloc, name, kind)?;
        rest = after;
    }
    Ok((schema, rest))
}

/// So many slots, which cover the rows and columns, and what follows them. Memory is taken once, and no more than the bytes
/// that are left have slots.
fn read_slots(
    alloc: Global,
    total: u32,
    columns: u16,
    count: u32,
    bytes: &[u8],
) -> Result<(Items<Slot>, &[u8]), Stop>
    ensures { Reads (λ x. (x.0, x.1.now)) result (slots_at total columns no_reach count bytes.now) }
{
    let most = bytes.len() / LEAST_SLOT_BYTES;
    let mut slots = Items::with_capacity(alloc, most.min(count as usize))?;
    let mut reach = Reach::none();
    let mut rest = bytes;
    for _ in 0..count {
        rest = push_next(&mut slots, &mut reach, alloc, total, columns, rest)?;
    }
    if !reach.is_whole(total) {
        return Err(Stop::Bad { left: rest.len() });
    }
    Ok((slots, rest))
}

/// Adds a copy of a slot behind the others.
fn push_slot(slots: &mut Items<Slot>, alloc: Global, slot: &SlotView<'_>) -> Result<(), NoMemory>
    requires { IsKey (key_of slot.now.key) }
    ensures { OnOk result (slots.new ≡ slots.old ++ slot_seen slot.now ∷ []) }
{
    slots.push(slot.to_slot(alloc)?)
}

/// Adds the next slot behind the others, whose reach goes on with it, and gives what follows.
fn push_next<'a>(
    slots: &mut Items<Slot>,
    reach: &mut Reach,
    alloc: Global,
    total: u32,
    columns: u16,
    bytes: &'a [u8],
) -> Result<&'a [u8], Stop>
    ensures pushed { IfOk result (λ rest. (slot : ReadSlot) × (slot_at total columns reach.old bytes.now ≡ Ok (slot, rest.now)) × (slots.new ≡ slots.old ++ slot ∷ []) × (reach.new ≡ reach_of columns slot)) }
    ensures stopped { IfErr result (λ why. Stops why (slot_at total columns reach.old bytes.now)) }
{
    let (slot, rest) = read_slot(total, columns, reach, bytes)?;
    push_slot(slots, alloc, &slot)?;
    *reach = Reach::of(columns, &slot);
    Ok(rest)
}
