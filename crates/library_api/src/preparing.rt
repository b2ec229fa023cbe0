//! What a command that makes a version has before its first call, and its reply.

ghost use Rattle.std.specs.Prelude.{◌≡◌, Ok, IfOk, IfErr};
ghost use Rattle.frame_core.specs.Limits.{IsStorable};
ghost use Rattle.frame_core.specs.RawFrames.{frame_from, table_of};
ghost use Rattle.frame_write.specs.Writes.{reply_to};
ghost use Rattle.library_api.specs.Frames.{RefusesTable};

use crate::commit_place::CommitPlace;
use crate::reply::{out_of_memory, refusal, with_commits};
use base_types::NoMemory;
use frame_core::{Frame, RawFrame, Refused};
use frame_write::Committed;
use reply_model::{Outcome, Reply};
use std::alloc::Global;

/// A frame that a command brings, and the memory for the place of its commit.
#[derive(Drop)]
pub(crate) struct Prepared {
    pub(crate) frame: Frame,
    pub(crate) commit: CommitPlace,
}

/// Makes the frame of raw columns, and takes the memory for the place of its commit. The refusals are at this place.
pub(crate) fn prepare(alloc: Global, place: u64, raw: &RawFrame) -> Result<Prepared, Refused>
    ensures frame { IfOk result (λ prepared. frame_from raw.now ≡ Ok prepared.frame) }
    ensures storable { IfOk result (λ prepared. IsStorable prepared.frame) }
    ensures refused { IfErr result (RefusesTable (table_of raw.now) place) }
{
    match Frame::make(alloc, raw) {
        Ok(frame) => match CommitPlace::new(alloc) {
            Ok(commit) => Ok(Prepared { frame, commit }),
            Err(NoMemory) => Err(out_of_memory(place)),
        },
        Err(why) => Err(Refused { place, why }),
    }
}

/// The reply of a command that made a version, or was refused. It takes no memory.
pub(crate) fn committed(
    alloc: Global,
    commit: CommitPlace,
    made: Result<Committed, Refused>,
) -> Reply
    ensures { result ≡ reply_to made }
{
    match made {
        Ok(done) => with_commits(
            alloc,
            done.place,
            commit.named(done.place),
            Outcome::Committed {
                version: done.version,
            },
        ),
        Err(refused) => refusal(alloc, refused),
    }
}
