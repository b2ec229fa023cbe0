//! The tiles of a version's frame in a range, of the asked columns.

ghost use Rattle.std.specs.Prelude.{◌≡◌, true, Some, filter, option_copied, IfOk, IfErr};
ghost use Rattle.std.specs.List.{list_any, Contains, AllZip, AllByRecursion};
ghost use Rattle.frame_core.specs.Texts.{same_text};
ghost use Rattle.frame_core.specs.Schemas.{Head, AreColumns};
ghost use Rattle.index_tree.specs.declared.index.Index.{Index};
ghost use Rattle.index_tree.specs.Covering.{covers, places_where};
ghost use Rattle.bucket_core.specs.Laws.{Looks};
ghost use Rattle.bucket_core.specs.Calls.{IsSteady};
ghost use Rattle.store_model.specs.Law.{IsClaimed};
ghost use Rattle.store_model.specs.Links.{links};
ghost use Rattle.store_model.specs.Holders.{has_index};
ghost use Rattle.frame_read.specs.Fetches.{RefusesGet, LacksKey, IsIndexKey, IsSlotKey, IsTargetIndex};
ghost use Rattle.reply_model.specs.ReadAnswers.{is_asked, places_asked};
ghost use Rattle.frame_read.specs.TileSets.{IsAskedSchema, RefusesColumns, IsGot, IsFetched, IsFetchKey, RefusesFetch};
ghost use Rattle.frame_read.specs.Wanted.{IsWanted};

use crate::objects::{get_reached, packed_index_of};
use crate::resolving::out_of_memory;
use crate::target::Target;
use crate::tiles::{FetchedTile, Tiles};
use base_types::{Items, Keep, NoMemory};
use bucket_core::Bucket;
use frame_core::{ColName, ColType, FrameMaker, Range, Refusal, Refused, Schema};
use index_tree::{PackedIndex, Slot, covered};
use std::alloc::Global;
use std::sync::Wait;
use version_chain::StoreLaw;

/// The tiles that have the version's rows in the range and of these the asked columns, or all.
///
/// The index is got first; then the columns are judged; then each tile that the index names for the range and the columns is got
/// once, and no other. The bodies are shared with the store and not copied. It may wait for the store.
pub fn fetch<R: Wait, B: Bucket<StoreLaw>>(
    rt: &R,
    alloc: Global,
    bucket: &mut B,
    target: &Target,
    range: Range,
    columns: Option<&[ColName]>,
) -> Result<Tiles, Refused>
    requires linked { has_index (links (B.seen bucket.old) target.now.symbol) target.now.version target.now.index ≡ true }
    ensures looks { Looks IsClaimed (B.number bucket.old) (B.sole bucket.old) (B.seen bucket.old) (B.seen bucket.new) }
    ensures steady { IsSteady B.number B.limit B.faults B.sole bucket.old bucket.new }
    ensures tiles { IfOk result (IsFetched (B.seen bucket.new) target.now range (option_copied columns.entry)) }
    // The version is gone only where it is buried and not held, and a key of it is gone that is wanted: the index's, or, where it has the
    // asked columns, one of a tile in the range.
    ensures refused { IfErr result (RefusesFetch (B.faults bucket.old) (B.faults bucket.new) (B.seen bucket.old) (B.seen bucket.new) target.now (option_copied columns.entry)) }
    ensures lacks { IfErr result (LacksKey (B.seen bucket.new) target.now (IsFetchKey range (option_copied columns.entry))) }
{
    let (schema, slots) = wanted(rt, alloc, bucket, target, range, columns)?;
    match get_tiles(rt, alloc, bucket, target, slots.items()) {
        Ok(tiles) => Ok(Tiles {
            schema,
            range,
            tiles,
        }),
        Err(refused) => Err(refused),
    }
}

/// The schema of the asked columns, by the target's index, and the slots that the range and these columns want. It may wait for
/// the store.
fn wanted<R: Wait, B: Bucket<StoreLaw>>(
    rt: &R,
    alloc: Global,
    bucket: &mut B,
    target: &Target,
    range: Range,
    columns: Option<&[ColName]>,
) -> Result<(Schema, Items<Slot>), Refused>
    requires linked { has_index (links (B.seen bucket.old) target.now.symbol) target.now.version target.now.index ≡ true }
    ensures looks { Looks IsClaimed (B.number bucket.old) (B.sole bucket.old) (B.seen bucket.old) (B.seen bucket.new) }
    ensures steady { IsSteady B.number B.limit B.faults B.sole bucket.old bucket.new }
    ensures wanted { IfOk result (λ both. (index : Index) × IsTargetIndex (B.seen bucket.new) target.now index × IsWanted index range (option_copied columns.entry) both.0 both.1) }
    ensures refused { IfErr result (RefusesFetch (B.faults bucket.old) (B.faults bucket.new) (B.seen bucket.old) (B.seen bucket.new) target.now (option_copied columns.entry)) }
    ensures lacks { IfErr result (LacksKey (B.seen bucket.new) target.now IsIndexKey) }
{
    let index = packed_index_of(rt, alloc, bucket, target)?;
    match wanted_of(alloc, &index, range, columns) {
        Ok(wanted) => Ok(wanted),
        Err(Refusal::NoSuchColumn { clause, position }) => Err(Refused {
            place: target.place,
            why: Refusal::NoSuchColumn { clause, position },
        }),
        Err(_) => Err(out_of_memory(bucket.place())),
    }
}

/// The schema of the asked columns of an index, and the slots that the range and these columns want.
fn wanted_of(
    alloc: Global,
    index: &PackedIndex,
    range: Range,
    columns: Option<&[ColName]>,
) -> Result<(Schema, Items<Slot>), Refusal>
    requires { AreColumns index.now.schema.columns }
    ensures wanted { IfOk result (λ both. IsWanted index.now range (option_copied columns.entry) both.0 both.1) }
    ensures refused { IfErr result (RefusesColumns index.now.schema (option_copied columns.entry)) }
{
    let schema = asked_schema(alloc, index.schema(), columns)?;
    match covered_slots(alloc, index, range, columns) {
        Ok(slots) => Ok((schema, slots)),
        Err(NoMemory) => Err(Refusal::NoMemory),
    }
}

/// The slots that the range and the asked columns want.
fn covered_slots(
    alloc: Global,
    index: &PackedIndex,
    range: Range,
    columns: Option<&[ColName]>,
) -> Result<Items<Slot>, NoMemory>
    ensures { IfOk result (λ slots. slots ≡ filter (covers range (places_asked (option_copied columns.entry) index.now)) index.now.slots) }
{
    let asked = asked_places(alloc, index.schema().columns(), columns)?;
    covered(alloc, index.slots(), range, asked.items())
}

/// The asked columns of a schema, in the order asked; all of them where none is named.
fn asked_schema(
    alloc: Global,
    schema: &Schema,
    columns: Option<&[ColName]>,
) -> Result<Schema, Refusal>
    requires { AreColumns schema.now.columns }
    ensures schema { IfOk result (IsAskedSchema schema.now (option_copied columns.entry)) }
    ensures refused { IfErr result (RefusesColumns schema.now (option_copied columns.entry)) }
{
    match columns {
        Some(names) => named_schema(alloc, schema, names),
        None => Ok(schema.copy(alloc)?),
    }
}

/// The columns of these names, in this order.
fn named_schema(alloc: Global, schema: &Schema, names: &[ColName]) -> Result<Schema, Refusal>
    requires { AreColumns schema.now.columns }
    ensures schema { IfOk result (IsAskedSchema schema.now (Some names.now)) }
    ensures refused { IfErr result (RefusesColumns schema.now (Some names.now)) }
{
    let empty = FrameMaker::make(alloc, schema)?.done();
    match empty.select(alloc, names) {
        Ok(picked) => Ok(picked.schema().copy(alloc)?),
        Err(Refusal::NoSuchColumn { clause, position }) => {
            Err(Refusal::NoSuchColumn { clause, position })
        }
        Err(_) => Err(Refusal::NoMemory),
    }
}

/// The places of the asked columns, rising, counted from 0.
fn asked_places(
    alloc: Global,
    schema: &[(ColName, ColType)],
    columns: Option<&[ColName]>,
) -> Result<Items<u64>, NoMemory>
    ensures { IfOk result (λ places. places ≡ places_where (λ (head : Head). is_asked (option_copied columns.entry) head.0) schema.now) }
{
    let mut places = Items::with_capacity(alloc, schema.len())?;
    for place in 0..schema.len() {
        if is_among(columns, &schema[place].0) {
            places.push(place as u64)?;
        }
    }
    Ok(places)
}

/// Whether a name is asked.
fn is_among(columns: Option<&[ColName]>, name: &ColName) -> bool
    ensures { result ≡ is_asked (option_copied columns.entry) name.now }
{
    match columns {
        Some(names) => has_name(names, name),
        None => true,
    }
}

/// Whether a name is one of these.
fn has_name(names: &[ColName], name: &ColName) -> bool
    ensures { result ≡ list_any (same_text name.now) names.now }
{
    names.iter().any(|other| *name == *other)
}

/// The tiles of these slots of the target's index, one look for each. The bodies are shared with the store and not copied. It may
/// wait for the store.
pub fn get_tiles<R: Wait, B: Bucket<StoreLaw>>(
    rt: &R,
    alloc: Global,
    bucket: &mut B,
    target: &Target,
    slots: &[Slot],
) -> Result<Items<FetchedTile>, Refused>
    requires slots { (index : Index) × IsTargetIndex (B.seen bucket.old) target.now index × AllByRecursion (Contains index.slots) slots.now }
    ensures looks { Looks IsClaimed (B.number bucket.old) (B.sole bucket.old) (B.seen bucket.old) (B.seen bucket.new) }
    ensures steady { IsSteady B.number B.limit B.faults B.sole bucket.old bucket.new }
    ensures tiles { IfOk result (AllZip (IsGot (B.seen bucket.new)) slots.now) }
    ensures refused { IfErr result (RefusesGet (B.faults bucket.old) (B.faults bucket.new) (B.seen bucket.old) (B.seen bucket.new) target.now.symbol target.now.version) }
    ensures lacks { (index : Index) → IsTargetIndex (B.seen bucket.old) target.now index → AllByRecursion (Contains index.slots) slots.now → IfErr result (LacksKey (B.seen bucket.new) target.now (IsSlotKey index slots.now)) }
{
    let Ok(mut tiles) = Items::with_capacity(alloc, slots.len()) else {
        return Err(out_of_memory(bucket.place()));
    };
    for slot in slots {
        let body = get_reached(rt, bucket, target, &slot.key)?;
        let tile = FetchedTile {
            part: slot.part,
            body,
        };
        if tiles.push(tile).is_err() {
            return Err(out_of_memory(bucket.place()));
        }
    }
    Ok(tiles)
}
