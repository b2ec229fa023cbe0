ghost use Rattle.std.specs.Prelude.{◌≡◌, ◌≤◌, [], true, length, map, reverse, IfOk, OnErr};
ghost use Rattle.std.specs.List.{AllByRecursion};
ghost use Rattle.std.specs.Vec.{vec_capacity};
ghost use Rattle.bucket_shared.specs.Passes.{store_of};
ghost use Rattle.library_api.specs.Libraries.{AreSettings};
ghost use Rattle.reply_model.specs.Blocks.{run_cutting};
ghost use Rattle.client_sessions.specs.Rooms.{counts};
ghost use Rattle.client_sessions.specs.Blocks.{clients_of};
ghost use Rattle.client_sessions.specs.Sessions.{AreNamed};
ghost use Rattle.client_sessions.specs.Parts.{IsRun};

use crate::block_rooms::make_rooms;
use crate::blocks::{run_blocks, session};
use crate::room::Room;
use base_types::{Items, NoMemory};
use bucket_core::{Bucket, Gate};
use bucket_shared::Pass;
use expr_clause::Command;
use frame_core::RawFrame;
use library_api::Settings;
use reply_model::Reply;
use std::alloc::Global;
use std::sync::Wait;
use std::thread::Threads;
use version_chain::StoreLaw;

/// The replies of the parts of a script, in the order of their commands.
#[derive(Drop)]
pub struct PartReplies {
    /// Those of the first commands.
    pub first: Items<Reply>,
    /// Those of each block, in the order of the blocks.
    pub blocks: Items<Items<Reply>>,
    /// Those of the last commands.
    pub last: Items<Reply>,
}

/// Memory for the replies of the parts of a script.
#[derive(Drop)]
struct PartRooms {
    first: Room,
    last: Room,
    /// For those of each block, that of the first block last.
    blocks: Vec<Room>,
    /// For a list of them for each block.
    told: Vec<Items<Reply>>,
}

/// The memory, before the first command is carried out.
fn rooms_for(
    alloc: Global,
    first: &[Command],
    blocks: &[Items<Command>],
    last: &[Command],
) -> Result<PartRooms, NoMemory>
    ensures first { IfOk result (λ rooms. rooms.first.count ≡ length first.now) }
    ensures last { IfOk result (λ rooms. rooms.last.count ≡ length last.now) }
    ensures blocks { IfOk result (λ rooms. counts rooms.blocks.items ≡ reverse (map length blocks.now)) }
    ensures none { IfOk result (λ rooms. rooms.told.items ≡ []) }
    ensures space { IfOk result (λ rooms. length blocks.now ≤ vec_capacity rooms.told) }
{
    let told = Vec::with_capacity(alloc, blocks.len())?;
    let blocks = make_rooms(alloc, blocks)?;
    let first = Room::make(alloc, first.len())?;
    let last = Room::make(alloc, last.len())?;
    Ok(PartRooms {
        first,
        last,
        blocks,
        told,
    })
}

/// The settings, copied.
fn again(settings: &Settings) -> Settings
    ensures { result ≡ settings.now }
{
    *settings
}

/// The lists in the other order.
fn in_order(mut told: Vec<Items<Reply>>) -> Items<Items<Reply>>
    ensures { result ≡ reverse told.items }
{
    told.reverse();
    Items::from_vec(told)
}

/// Carries out the parts of a script over one store, and gives the pass back with the replies.
///
/// The first commands run on the caller's thread with the pass. Then each block gets a pass of its own by a split, in the order of
/// the blocks, and runs on a thread of its own; where there is no further pass, the block runs on the caller's thread with the
/// caller's pass. All passes are joined into the caller's again, with which the last commands run. Each client passes the gate
/// before and behind each call of its bucket. The memory for all replies is taken before the first command, and no error comes
/// after it; a command that wants memory has a reply that says so.
pub fn run_parts<R: Threads + Wait + Sync, G: Gate>(
    rt: &R,
    alloc: Global,
    pass: Pass,
    gate: &G,
    settings: Settings,
    frames: &[RawFrame],
    first: &[Command],
    blocks: &[Items<Command>],
    last: &[Command],
) -> (Pass, Result<PartReplies, NoMemory>)
    requires sole { ⟦<Pass as Bucket<StoreLaw>>⟧.sole pass ≡ true }
    requires settings { AreSettings settings }
    requires first { AreNamed (length frames.now) first.now }
    requires blocks { AllByRecursion (AreNamed (length frames.now)) blocks.now }
    requires last { AreNamed (length frames.now) last.now }
    ensures ran { IfOk result.1 (λ replies. IsRun (run_cutting settings.cutting) (clients_of frames.now settings (⟦<Pass as Bucket<StoreLaw>>⟧.limit pass)) (⟦<Pass as Bucket<StoreLaw>>⟧.number pass) (record { first = first.now; blocks = blocks.now; last = last.now }) replies (⟦<Pass as Bucket<StoreLaw>>⟧.seen pass) (⟦<Pass as Bucket<StoreLaw>>⟧.seen result.0)) }
    ensures memory { OnErr result.1 (result.0 ≡ pass) }
    ensures client { ⟦<Pass as Bucket<StoreLaw>>⟧.number result.0 ≡ ⟦<Pass as Bucket<StoreLaw>>⟧.number pass }
    ensures limit { ⟦<Pass as Bucket<StoreLaw>>⟧.limit result.0 ≡ ⟦<Pass as Bucket<StoreLaw>>⟧.limit pass }
    ensures sole { ⟦<Pass as Bucket<StoreLaw>>⟧.sole result.0 ≡ true }
    ensures store { store_of result.0 ≡ store_of pass }
{
    let Ok(rooms) = rooms_for(alloc, first, blocks, last) else {
        return (pass, Err(NoMemory));
    };
    let PartRooms {
        first: first_room,
        last: last_room,
        blocks: rooms,
        told,
    } = rooms;
    let (pass, begun) = session(
        rt,
        alloc,
        pass,
        gate,
        again(&settings),
        frames,
        first,
        first_room,
    );
    let (pass, told) = run_blocks(rt, alloc, pass, gate, settings, frames, blocks, rooms, told);
    let (pass, ended) = session(
        rt,
        alloc,
        pass,
        gate,
        again(&settings),
        frames,
        last,
        last_room,
    );
    let replies = PartReplies {
        first: begun,
        blocks: in_order(told),
        last: ended,
    };
    (pass, Ok(replies))
}
