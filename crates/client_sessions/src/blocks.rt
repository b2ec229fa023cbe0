// Blocks of clients, each carried out over a pass of its own, on a thread of its own.
ghost use Rattle.std.specs.Prelude.{◌≡◌, ◌<◌, ◌≤◌, ◌++◌, ◌∷◌, [], ℕ, List, false, length, map, reverse, IfSome, IsNone};
ghost use Rattle.std.specs.List.{AllByRecursion};
ghost use Rattle.std.specs.Thread.{IsSync};
ghost use Rattle.std.specs.Vec.{vec_len, vec_capacity};
ghost use Rattle.turn_cell.specs.Badges.{Awaits, joined_badge};
ghost use Rattle.bucket_core.specs.Laws.{Looks};
ghost use Rattle.store_model.specs.Law.{IsClaimed};
ghost use Rattle.bucket_shared.specs.Passes.{store_of, badge_of, seen_of, number_of, limit_of};
ghost use Rattle.library_api.specs.Libraries.{AreSettings};
ghost use Rattle.reply_model.specs.Blocks.{run_cutting};
ghost use Rattle.client_sessions.specs.Rooms.{counts};
ghost use Rattle.client_sessions.specs.Sessions.{AreNamed};
ghost use Rattle.client_sessions.specs.Blocks.{clients_of, IsSessionOf, AreRun};

use crate::room::{Room, noted};
use crate::session::carry_out;
use base_types::Items;
use bucket_core::{Gate, Gated};
use bucket_shared::{Kept, Pass, PassName};
use expr_clause::Command;
use frame_core::RawFrame;
use library_api::{Library, Settings};
use reply_model::Reply;
use std::alloc::Global;
use std::marker::Brand;
use std::sync::Wait;
use std::thread::{Threads, join};

/// A client's session over a pass whose store and numbers `K` names.
fn kept_session<K: PassName, R: Wait, G: Gate>(
    rt: &R,
    alloc: Global,
    pass: Pass,
    gate: &G,
    settings: Settings,
    frames: &[RawFrame],
    commands: &[Command],
    room: Room,
) -> (Pass, Items<Reply>)
    requires store { store_of pass ≡ K.store }
    requires badge { badge_of pass ≡ K.badge }
    requires settings { AreSettings settings }
    requires named { AreNamed (length frames.now) commands.now }
    requires room { length commands.now ≡ room.count }
    ensures { IsSessionOf (run_cutting settings.cutting) (clients_of frames.now settings (limit_of pass)) commands.now result.1 pass result.0 }
{
    let mut library = Library::make(Gated::make(Kept::<K>::make(pass), gate), settings);
    let replies = carry_out(rt, alloc, &mut library, commands, frames, room.replies);
    (library.into_bucket().into_inner().into_pass(), replies)
}

/// A client's session over a pass: its commands, one after another, with the gate before and behind each call of the pass.
pub(crate) fn session<R: Wait, G: Gate>(
    rt: &R,
    alloc: Global,
    pass: Pass,
    gate: &G,
    settings: Settings,
    frames: &[RawFrame],
    commands: &[Command],
    room: Room,
) -> (Pass, Items<Reply>)
    requires settings { AreSettings settings }
    requires named { AreNamed (length frames.now) commands.now }
    requires room { length commands.now ≡ room.count }
    ensures { IsSessionOf (run_cutting settings.cutting) (clients_of frames.now settings (limit_of pass)) commands.now result.1 pass result.0 }
{
    kept_session::<Brand, R, G>(rt, alloc, pass, gate, settings, frames, commands, room)
}

/// The first of blocks, those behind it, and the memory for the replies of the first, which is taken from that for all.
fn next_block<'a>(
    blocks: &'a [Items<Command>],
    rooms: &mut Vec<Room>,
) -> Option<(&'a [Command], &'a [Items<Command>], Room)>
    requires rooms { counts rooms.old.items ≡ reverse (map length blocks.now) }
    ensures blocks { IfSome result (λ x. x.0.now ∷ x.1.now ≡ blocks.now) }
    ensures room { IfSome result (λ x. length x.0.now ≡ x.2.count) }
    ensures rest { IfSome result (λ x. counts rooms.new.items ≡ reverse (map length x.1.now)) }
    ensures none { IsNone result → blocks.now ≡ [] }
{
    let (block, rest) = blocks.split_first()?;
    let Some(room) = rooms.pop() else {
        unreachable!();
    };
    Some((block.items(), rest, room))
}

/// The pass, to which the other one is joined, and the replies of one block more, for which there is memory.
fn joined<R: Wait>(
    rt: &R,
    mut pass: Pass,
    other: Pass,
    told: Vec<Items<Reply>>,
    replies: Items<Reply>,
) -> (Pass, Vec<Items<Reply>>)
    requires store { store_of other ≡ store_of pass }
    requires space { vec_len told < vec_capacity told }
    ensures items { result.1.items ≡ told.items ++ replies ∷ [] }
    ensures space { vec_capacity told ≤ vec_capacity result.1 }
    ensures store { store_of result.0 ≡ store_of pass }
    ensures client { number_of result.0 ≡ number_of pass }
    ensures limit { limit_of result.0 ≡ limit_of pass }
    ensures badge { badge_of result.0 ≡ joined_badge (badge_of pass) (badge_of other) (length (seen_of other)) }
    ensures looks { Looks IsClaimed (number_of pass) false (seen_of pass) (seen_of result.0) }
    ensures other_looks { Looks IsClaimed (number_of other) false (seen_of other) (seen_of result.0) }
    ensures awaits { (ns : List ℕ) → Awaits (badge_of pass) (number_of other ∷ ns) → Awaits (badge_of other) [] → Awaits (badge_of result.0) ns }
{
    pass.join(rt, other);
    (pass, noted(told, replies))
}

/// Carries out blocks, each over a pass of its own that is split off here, in order, and joined again; and answers their replies,
/// those of the last block first.
///
/// Where there is no further pass, the block is carried out with this one, before the blocks that follow. `rooms` is memory for the
/// replies of each block, that of the first block last, and `told` for so many lists.
pub(crate) fn run_blocks<R: Threads + Wait + Sync, G: Gate + Sync>(
    rt: &R,
    alloc: Global,
    mut pass: Pass,
    gate: &G,
    settings: Settings,
    frames: &[RawFrame],
    blocks: &[Items<Command>],
    mut rooms: Vec<Room>,
    told: Vec<Items<Reply>>,
) -> (Pass, Vec<Items<Reply>>)
    requires settings { AreSettings settings }
    requires named { AllByRecursion (AreNamed (length frames.now)) blocks.now }
    requires rooms { counts rooms.items ≡ reverse (map length blocks.now) }
    requires none { told.items ≡ [] }
    requires space { length blocks.now ≤ vec_capacity told }
    ensures run { AreRun (run_cutting settings.cutting) (clients_of frames.now settings (limit_of pass)) blocks.now (reverse result.1.items) pass result.0 }
    ensures count { vec_len result.1 ≡ length blocks.now }
    ensures space { vec_capacity told ≤ vec_capacity result.1 }
{
    let Some((commands, rest, room)) = next_block(blocks, &mut rooms) else {
        return (pass, told);
    };
    let Ok(other) = pass.split(rt) else {
        let (pass, replies) = session(rt, alloc, pass, gate, settings, frames, commands, room);
        let (pass, told) = run_blocks(rt, alloc, pass, gate, settings, frames, rest, rooms, told);
        return (pass, noted(told, replies));
    };
    let ((pass, told), (other, replies)) = join(
        rt,
        || -> (Pass, Vec<Items<Reply>>)
            requires { IsSync R.row × IsSync G.row × AreSettings settings × AllByRecursion (AreNamed (length frames.now)) rest.now × (counts rooms.items ≡ reverse (map length rest.now)) × (told.items ≡ []) × (length rest.now ≤ vec_capacity told) }
            ensures { AreRun (run_cutting settings.cutting) (clients_of frames.entry.now settings (limit_of pass)) rest.entry.now (reverse result.1.items) pass result.0 × (vec_len result.1 ≡ length rest.entry.now) × (vec_capacity told ≤ vec_capacity result.1) }
        { run_blocks(rt, alloc, pass, gate, settings, frames, rest, rooms, told) },
        || -> (Pass, Items<Reply>)
            requires { AreSettings settings × AreNamed (length frames.now) commands.now × (length commands.now ≡ room.count) }
            ensures { IsSessionOf (run_cutting settings.cutting) (clients_of frames.entry.now settings (limit_of other)) commands.entry.now result.1 other result.0 }
        { session(rt, alloc, other, gate, settings, frames, commands, room) },
    );
    joined(rt, pass, other, told, replies)
}
