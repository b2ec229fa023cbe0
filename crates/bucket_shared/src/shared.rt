// The making of a store.
ghost use Rattle.std.specs.Prelude.{◌≡◌, ◌≤◌, ◌^◌, [], true, IfOk};
ghost use Rattle.bucket_shared.specs.Passes.{given_out};

use crate::pass::Pass;
use crate::store::Store;
use base_types::NoMemory;
use bucket_core::{Bucket, Contents};
use std::alloc::Global;
use turn_cell::TurnCell;
use version_chain::StoreLaw;

/// A store in memory that several clients share, each through a pass of its own.
pub struct Shared;

impl Shared {
    /// An empty store with its first pass, whose client has this number. The store takes no more events once it has as many as
    /// the limit.
    pub fn make(alloc: Global, limit: u64, first_client: u32) -> Result<Pass, NoMemory>
        requires limit { limit ≤ 2 ^ 62 }
        ensures empty { IfOk result (λ pass. ⟦<Pass as Bucket<StoreLaw>>⟧.seen pass ≡ []) }
        ensures client { IfOk result (λ pass. ⟦<Pass as Bucket<StoreLaw>>⟧.number pass ≡ first_client) }
        ensures limit { IfOk result (λ pass. ⟦<Pass as Bucket<StoreLaw>>⟧.limit pass ≡ limit) }
        ensures sole { IfOk result (λ pass. ⟦<Pass as Bucket<StoreLaw>>⟧.sole pass ≡ true) }
        ensures given { IfOk result (λ pass. given_out pass ≡ first_client) }
    {
        let empty = Store {
            contents: Contents::new(alloc),
            given: first_client,
        };
        let (cell, seat) = TurnCell::make(alloc, empty)?;
        Pass::first(alloc, cell, seat, limit, first_client)
    }
}
