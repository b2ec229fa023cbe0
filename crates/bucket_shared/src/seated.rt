// A seat at a shared store.
ghost use Rattle.std.specs.Prelude.{◌≡◌, ◌≤◌, ◌^◌, length};
ghost use Rattle.std.specs.Arc.{arc_value};
ghost use Rattle.turn_cell.specs.Seats.{view, seen, Rests};
ghost use Rattle.bucket_core.specs.Laws.{IsLawful};
ghost use Rattle.store_model.specs.Law.{IsClaimed};
ghost use Rattle.bucket_shared.specs.Authors.{AreEnded, AreHad};
ghost use Rattle.bucket_shared.specs.Stories.{history};

use crate::store::Store;
use std::sync::Arc;
use turn_cell::{Seat, TurnCell};

/// A seat at a shared store, between two turns. Each of its calls takes the turn once, and has then seen the whole history.
#[derive(Drop)]
pub(crate) struct Seated {
    pub(crate) cell: Arc<TurnCell<Store>>,
    pub(crate) seat: Seat<Store>,
    /// The store takes no more events once it has this many.
    pub(crate) limit: u64,
    /// How many events the seat has seen.
    pub(crate) count: u64,
    ghost at_cell: { seat.table_id ≡ arc_value cell },
    ghost rests: { Rests seat },
    ghost limited: { limit ≤ 2 ^ 62 },
    ghost counted: { count ≡ length (seen seat) },
    ghost lawful: { ∥ IsLawful IsClaimed (history seat) ∥₁ },
    ghost ended: { ∥ AreEnded (view seat).badge (seen seat) ∥₁ },
    ghost had: { ∥ AreHad (view seat).badge (seen seat) ∥₁ },
}
