// A pass: a client's way to a shared store.
ghost use Rattle.std.specs.Prelude.{◌≡◌, ◌≤◌, ◌^◌, IfOk};
ghost use Rattle.turn_cell.specs.Seats.{view, Rests};
ghost use Rattle.turn_cell.specs.Views.{first_view};
ghost use Rattle.bucket_core.specs.History.{puts_by};
ghost use Rattle.bucket_shared.specs.Stories.{history};

use crate::seated::Seated;
use crate::store::Store;
use base_types::NoMemory;
use std::alloc::Global;
use std::sync::Arc;
use turn_cell::{Seat, TurnCell};

/// One client's way to a shared store. Its changing calls, `get`, `list`, `split` and `join` may wait for the turn, which each
/// takes once; the others wait for nobody. No call fails.
#[derive(Drop)]
pub struct Pass {
    pub(crate) alloc: Global,
    pub(crate) seated: Seated,
    pub(crate) number: u32,
    pub(crate) next: u64,
    ghost numbered: { (view seated.seat).badge.number ≡ number },
    ghost served: { next ≡ puts_by (view seated.seat).badge.number (history seated.seat) },
}

impl Pass {
    /// The first pass of a store that has a cell, with its first seat.
    pub(crate) fn first(
        alloc: Global,
        cell: TurnCell<Store>,
        seat: Seat<Store>,
        limit: u64,
        number: u32,
    ) -> Result<Pass, NoMemory>
        requires cell { seat.table_id ≡ cell }
        requires view { view seat ≡ first_view number }
        requires rests { Rests seat }
        requires limit { limit ≤ 2 ^ 62 }
        ensures seat { IfOk result (λ pass. pass.seated.seat ≡ seat) }
        ensures limit { IfOk result (λ pass. pass.seated.limit ≡ limit) }
    {
        let cell = Arc::new(alloc, cell)?;
        let seated = Seated {
            cell,
            seat,
            limit,
            count: 0,
        };
        Ok(Pass {
            alloc,
            seated,
            number,
            next: 0,
        })
    }
}
