ghost use Rattle.std.specs.Prelude.{◌≡◌, ◌≤◌, [], length};
ghost use Rattle.std.specs.Vec.{vec_capacity};
ghost use Rattle.bucket_core.specs.Calls.{IsSteady};
ghost use Rattle.library_api.specs.Steps.{client_of};
ghost use Rattle.reply_model.specs.Blocks.{run_cutting};
ghost use Rattle.client_sessions.specs.Sessions.{AreNamed, IsSession};

use crate::room::noted;
use base_types::Items;
use bucket_core::Bucket;
use expr_clause::Command;
use frame_core::RawFrame;
use library_api::Library;
use reply_model::{Reply, runs_alone_are_sole};
use std::alloc::Global;
use std::sync::Wait;
use version_chain::StoreLaw;

/// Carries out a client's commands, one after another, and answers their replies in order.
///
/// `replies` is empty, and is the memory for them. No error comes; a command that wants memory has a reply that says so. It may
/// wait for the store.
pub fn carry_out<R: Wait, B: Bucket<StoreLaw>>(
    rt: &R,
    alloc: Global,
    library: &mut Library<B>,
    commands: &[Command],
    frames: &[RawFrame],
    mut replies: Vec<Reply>,
) -> Items<Reply>
    requires named { AreNamed (length frames.now) commands.now }
    requires none { replies.items ≡ [] }
    requires room { length commands.now ≤ vec_capacity replies }
    ensures session { IsSession (run_cutting library.old.settings.cutting) (client_of frames.now library.old.settings (B.number library.old.bucket) (B.limit library.old.bucket)) (B.sole library.old.bucket) (B.faults library.old.bucket) (B.faults library.new.bucket) commands.now result (B.seen library.old.bucket) (B.seen library.new.bucket) }
    ensures steady { IsSteady B.number B.limit B.faults B.sole library.old.bucket library.new.bucket }
    ensures settings { library.new.settings ≡ library.old.settings }
{
    runs_alone_are_sole();
    for command in commands {
        let reply = library.step(rt, alloc, command, frames);
        replies = noted(replies, reply);
    }
    Items::from_vec(replies)
}
