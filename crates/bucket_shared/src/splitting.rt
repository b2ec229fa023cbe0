// The splitting and joining of passes.
ghost use Rattle.std.specs.Prelude.{◌≡◌, ◌^◌, ◌-◌, IfOk, OnErr, IsErrOf};
ghost use Rattle.bucket_shared.specs.Passes.{store_of, given_out, LooksOn};
ghost use Rattle.bucket_shared.specs.SeatCalls.{Stays};
ghost use Rattle.bucket_shared.specs.Splits.{IsSplit, HasJoined};

use crate::pass::Pass;
use std::sync::{Arc, Wait};

/// Why there is no further pass.
#[derive(Clone, Copy, Debug)]
pub enum SplitFault {
    NoMemory,
    /// The last client number was given out.
    NoNumber,
}

impl Pass {
    /// A further pass of the store, for the next client. It has seen what this pass has, in which no event is of its client. It
    /// waits for the turn.
    pub fn split<R: Wait>(&mut self, rt: &R) -> Result<Pass, SplitFault>
        ensures looks { LooksOn self.old self.new }
        ensures split { IfOk result (λ made. IsSplit self.old.seated self.new.seated made.seated) }
        ensures no_number { IsErrOf result SplitFault.NoNumber → given_out self.new ≡ 2 ^ 32 - 1 }
        ensures stays { OnErr result (Stays self.old.seated self.new.seated) }
    {
        let Ok(cell) = Arc::try_clone(&self.seated.cell) else {
            self.seated.look(rt);
            return Err(SplitFault::NoMemory);
        };
        match self.seated.share(rt, cell) {
            None => Err(SplitFault::NoNumber),
            Some((seated, number)) => Ok(Pass {
                alloc: self.alloc,
                seated,
                number,
                next: 0,
            }),
        }
    }

    /// Takes in another pass of this store, and then has seen the whole history. It waits for the turn.
    pub fn join<R: Wait>(&mut self, rt: &R, other: Pass)
        requires store { store_of other ≡ store_of self.old }
        ensures { HasJoined self.old.seated other.seated self.new.seated }
    {
        self.seated.merge(rt, other.seated);
    }
}
