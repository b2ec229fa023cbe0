ghost use Rattle.std.specs.Prelude.{◌≡◌, [], IsErrOf};
ghost use Rattle.program_edge.specs.FailPlans.{no_calls, fails_next, after_call};
ghost use Rattle.program_edge.specs.Memory.{PutIs, written_after};

use crate::fail_plan::FailPlan;
use crate::sink::{Sink, SinkErr};
use std::marker::Model;

/// An output that is kept in memory, some of whose calls fail.
#[derive(Drop)]
pub struct MemorySink {
    bytes: Vec<u8>,
    plan: FailPlan,
}

impl Model for MemorySink {
    ghost use Rattle.program_edge.specs.Memory.{Output};

    ghost Value = { Output };

    ghost view = { λ s. record { bytes = s.bytes.items; plan = s.plan } };
}

impl MemorySink {
    /// An output to which nothing is written.
    ///
    /// The calls of `put` whose numbers, counted from 1, stand in `fails` answer Failed.
    pub fn make(fails: Vec<u64>) -> MemorySink
        ensures { result ≡ record { bytes = []; plan = no_calls fails.items } }
    {
        let plan = FailPlan::make(fails);
        MemorySink {
            bytes: plan.empty(),
            plan,
        }
    }

    /// What is written so far.
    pub fn bytes(&self) -> &[u8]
        ensures { result.now ≡ self.now.bytes }
    {
        self.bytes.as_slice()
    }
}

impl Sink for MemorySink {
    ghost use Rattle.std.specs.Prelude.{Some};

    ghost written = { λ s. Some s.bytes };

    ghost faults = { λ s. s.plan.faults };

    /// Fails exactly where the call's number is among those that fail, and adds nothing then.
    fn put(&mut self, piece: &[u8]) -> Result<(), SinkErr>
        ensures answer { PutIs (fails_next self.old.plan) result }
        ensures written { self.new.bytes ≡ written_after self.old.bytes piece.now result }
        ensures counted { self.new.plan ≡ after_call self.old.plan }
    {
        if self.plan.next() {
            return Err(SinkErr::Failed);
        }
        match self.bytes.extend_from_slice(piece) {
            Ok(()) => Ok(()),
            Err(_) => Err(SinkErr::NoMemory),
        }
    }
}
