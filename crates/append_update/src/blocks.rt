//! Rows of the base, by the tiles of its row blocks.

ghost use Rattle.std.specs.Prelude.{◌≡◌, ◌≤◌, None, length, map, slice_range, IfOk, IfErr};
ghost use Rattle.frame_core.specs.Frames.{Frame as Table, IsFrame};
ghost use Rattle.bucket_core.specs.Laws.{Looks};
ghost use Rattle.bucket_core.specs.Calls.{IsSteady};
ghost use Rattle.store_model.specs.Law.{IsClaimed};
ghost use Rattle.frame_read.specs.Gathers.{AreOfFrame};
ghost use Rattle.frame_read.specs.Wholes.{AreTilesOf};
ghost use Rattle.frame_write.specs.Pieces.{IsRun, begin_of};
ghost use Rattle.append_update.specs.Bases.{rows_of_slots};
ghost use Rattle.append_update.specs.Blocks.{whole, moved_tile, tiles_from};
ghost use Rattle.append_update.specs.Newest.{IsBaseAt};
ghost use Rattle.append_update.specs.Looking.{AnyBase, RefusesBase};

use crate::base::{Base, met_commit, out_of_memory};
use base_types::{Items, Keep, NoMemory};
use bucket_core::Bucket;
use frame_core::{Frame, Range, Refusal, Refused, Schema};
use frame_read::{FetchedTile, Tiles, get_tiles};
use index_tree::Slot;
use key_kind::Symbol;
use std::alloc::Global;
use std::sync::Wait;
use version_chain::StoreLaw;

/// The rows of the row blocks that the slots from one place up to another of the base's index have, by one look for each slot. It may
/// wait for the store.
///
/// Where a key of the version is gone, another client's commit has buried it since the walk; then the refusal is Moved, with the
/// place of the symbol's newest commit.
pub(crate) fn block_frame<R: Wait, B: Bucket<StoreLaw>>(
    rt: &R,
    alloc: Global,
    bucket: &mut B,
    symbol: &Symbol,
    base: &Base,
    from: usize,
    to: usize,
) -> Result<Frame, Refused>
    requires base { IsBaseAt (B.number bucket.old) (B.seen bucket.old) symbol.now base.now }
    requires run { IsRun (length base.now.index.schema.columns) (slice_range base.now.index.slots from to) }
    requires ordered { from ≤ to }
    requires within { to ≤ length base.now.index.slots }
    ensures looks { Looks IsClaimed (B.number bucket.old) (B.sole bucket.old) (B.seen bucket.old) (B.seen bucket.new) }
    ensures steady { IsSteady B.number B.limit B.faults B.sole bucket.old bucket.new }
    ensures frame { (b : IsBaseAt (B.number bucket.old) (B.seen bucket.old) symbol.now base.now) → IfOk result (λ made. made ≡ record b.version.frame { rows = rows_of_slots b.version.frame (slice_range base.now.index.slots from to) }) }
    ensures refused { IfErr result (RefusesBase (B.number bucket.old) symbol.now AnyBase base.now.target.place (B.faults bucket.old) (B.faults bucket.new) (B.seen bucket.old) (B.seen bucket.new)) }
{
    let slots = &base.index.slots.items()[from..to];
    match get_tiles(rt, alloc, bucket, &base.target, slots) {
        Ok(tiles) => match run_frame(alloc, &base.index.schema, slots, tiles) {
            Ok(frame) => Ok(frame),
            Err(_) => Err(out_of_memory(bucket.place())),
        },
        Err(refused) => match refused.why {
            Refusal::VersionGone { .. } => Err(met_commit(rt, alloc, bucket, symbol)),
            _ => Err(refused),
        },
    }
}

/// The rows that the tiles of a run of slots have, as a frame of their own.
fn run_frame(
    alloc: Global,
    schema: &Schema,
    slots: &[Slot],
    tiles: Items<FetchedTile>,
) -> Result<Frame, NoMemory>
    requires { AreOfFrame (tiles_from schema.now (begin_of slots.now) tiles) }
    ensures { IfOk result (λ made. (f : Table) → IsFrame f → AreTilesOf f whole None (tiles_from schema.now (begin_of slots.now) tiles) → f ≡ made) }
{
    let Some(range) = Range::make(None, None) else {
        return Err(NoMemory);
    };
    let tiles = Tiles {
        schema: schema.copy(alloc)?,
        range,
        tiles: moved(alloc, first_row(slots), tiles)?,
    };
    tiles.to_frame(alloc)
}

/// The first row of a run of slots.
pub(crate) fn first_row(slots: &[Slot]) -> u64
    ensures { result ≡ begin_of slots.now }
{
    match slots.first() {
        Some(slot) => slot.part.first_row,
        None => 0,
    }
}

/// These tiles, with their rows counted from a row on.
fn moved(
    alloc: Global,
    begin: u64,
    tiles: Items<FetchedTile>,
) -> Result<Items<FetchedTile>, NoMemory>
    ensures { IfOk result (λ moved. moved ≡ map (moved_tile begin) tiles) }
{
    let mut moved = Items::new(alloc);
    for tile in tiles.into_vec() {
        moved.push(moved_by(begin, tile))?;
    }
    Ok(moved)
}

/// A tile, with its rows counted from a row on.
fn moved_by(begin: u64, tile: FetchedTile) -> FetchedTile
    ensures { result ≡ moved_tile begin tile }
{
    let FetchedTile { mut part, body } = tile;
    part.first_row = part.first_row.saturating_sub(begin);
    FetchedTile { part, body }
}
