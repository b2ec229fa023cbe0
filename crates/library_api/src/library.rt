ghost use Rattle.std.specs.Prelude.{◌≡◌, true, length};
ghost use Rattle.bucket_core.specs.Calls.{IsSteady};
ghost use Rattle.version_chain.specs.Traces.{GoesOn};
ghost use Rattle.library_api.specs.Libraries.{AreSettings};
ghost use Rattle.library_api.specs.Steps.{is_carried_out, IsNamed, client_of, IsLegalIn, IsIsolatedIn, IsStepAlone};

use crate::settings::Settings;
use crate::step::perform;
use bucket_core::Bucket;
use expr_clause::Command;
use frame_core::RawFrame;
use reply_model::{
    Reply, commands_are_isolated, legal_reclaims_alone_are_sole, legal_replies_alone_are_sole,
};
use std::alloc::Global;
use std::marker::Model;
use std::sync::Wait;
use version_chain::StoreLaw;

/// A client's bucket, and how the client's commands are carried out. A contract sees both.
#[derive(Drop)]
pub struct Library<B> {
    bucket: B,
    settings: Settings,
}

impl<B> Model for Library<B> {
    ghost use Rattle.library_api.specs.Libraries.{Library as Parts, AreSettings};

    ghost Value = { Parts B };

    ghost view = { λ l. record { bucket = l.bucket; settings = l.settings } };

    ghost invariant = { λ l. AreSettings l.settings };
}

impl<B> Library<B> {
    /// The library of a bucket, with these settings.
    pub fn make(bucket: B, settings: Settings) -> Library<B>
        requires settings { AreSettings settings }
        ensures bucket { result.bucket ≡ bucket }
        ensures settings { result.settings ≡ settings }
    {
        Library { bucket, settings }
    }

    /// The bucket again.
    pub fn into_bucket(self) -> B
        ensures { result ≡ self.bucket }
    {
        let Library { bucket, .. } = self;
        bucket
    }

    /// Carries out one command, and answers with a reply that is legal whatever other clients do meanwhile.
    ///
    /// A frame of a command is the one of this number among `frames`, counted from 0; it is tested before any call. The reply is legal
    /// for the window that the command added to what the bucket has seen. It may wait for the store.
    pub fn step<R: Wait>(
        &mut self,
        rt: &R,
        alloc: Global,
        command: &Command,
        frames: &[RawFrame],
    ) -> Reply
    where
        B: Bucket<StoreLaw>,
        requires served { is_carried_out command.now ≡ true }
        requires named { IsNamed (length frames.now) command.now }
        ensures settings { self.new.settings ≡ self.old.settings }
        ensures steady { IsSteady B.number B.limit B.faults B.sole self.old.bucket self.new.bucket }
        ensures grown { GoesOn (B.number self.old.bucket) (B.sole self.old.bucket) (B.seen self.old.bucket) (B.seen self.new.bucket) }
        ensures legal { IsLegalIn (client_of frames.now self.old.settings (B.number self.old.bucket) (B.limit self.old.bucket)) (B.faults self.old.bucket) (B.faults self.new.bucket) (B.seen self.old.bucket) (B.seen self.new.bucket) command.now result }
        // Alone on its symbol a command answers what it would answer where it began.
        ensures isolated { IsIsolatedIn (client_of frames.now self.old.settings (B.number self.old.bucket) (B.limit self.old.bucket)) (B.seen self.old.bucket) (B.seen self.new.bucket) command.now result }
        // Where nobody else makes events a step is that of one client alone.
        ensures alone { IsStepAlone self.old.settings (client_of frames.now self.old.settings (B.number self.old.bucket) (B.limit self.old.bucket)) (B.seen self.old.bucket) (B.seen self.new.bucket) command.now result }
    {
        let reply = perform(rt, alloc, &mut self.bucket, self.settings, command, frames);
        commands_are_isolated();
        legal_replies_alone_are_sole();
        legal_reclaims_alone_are_sole();
        reply
    }
}
