// Seats at a cell with a tally: the first, further ones, and two that become one.
ghost use Rattle.std.specs.Prelude.{◌≡◌, ◌≢◌, ◌^◌, ◌-◌, ℕ, ◌<◌, List, true, [], ◌∷◌, IfOk, IfSome, IfNone, length};
ghost use mathlib.Core.List.{IsPrefix};
ghost use Rattle.turn_cell.specs.Badges.{Has, Awaits, badge_after_split, new_badge, joined_badge};
ghost use Rattle.turn_cell.specs.Seats.{view, seen, Rests};
ghost use Rattle.turn_tally.specs.Jobs.{Gave};
ghost use Rattle.turn_tally.specs.Marks.{marks_by};

use crate::tally::Tally;
use base_types::NoMemory;
use std::alloc::Global;
use std::sync::Wait;
use turn_cell::{Seat, TurnCell};

/// A cell with an empty history, and two seats at it, with the numbers 0 and 1.
pub fn open<R: Wait>(
    rt: &R,
    alloc: Global,
) -> Result<(TurnCell<Tally>, Seat<Tally>, Seat<Tally>), NoMemory>
    ensures cell { IfOk result (λ t. (t.1.table_id ≡ t.0) × (t.2.table_id ≡ t.0)) }
    ensures rests { IfOk result (λ t. Rests t.1 × Rests t.2) }
    ensures empty { IfOk result (λ t. (seen t.1 ≡ []) × (seen t.2 ≡ [])) }
    ensures first { IfOk result (λ t. (view t.1).badge ≡ record { in_use = true; first = 0; number = 0; joined = []; gave = 1 ∷ [] }) }
    ensures second { IfOk result (λ t. (view t.2).badge ≡ record { in_use = true; first = 0; number = 1; joined = []; gave = [] }) }
{
    let empty = Tally {
        total: 0,
        count: 0,
        given: 0,
    };
    let (cell, mut one) = TurnCell::make(alloc, empty)?;
    let mut tally = cell.take(rt, &mut one);
    let two = cell.split(&mut one);
    tally.given += 1;
    cell.give(&mut one, tally);
    Ok((cell, one, two))
}

/// A seat with the next number, which has seen what this one has. None where the last number was given out.
pub fn share<R: Wait>(rt: &R, cell: &TurnCell<Tally>, seat: &mut Seat<Tally>) -> Option<Seat<Tally>>
    requires cell { seat.old.table_id ≡ cell.now }
    requires rests { Rests seat.old }
    ensures cell { seat.new.table_id ≡ seat.old.table_id }
    ensures rests { Rests seat.new }
    ensures later { IsPrefix (seen seat.old) (seen seat.new) }
    ensures joined { (n : ℕ) → Has (view seat.old).badge n → marks_by n (seen seat.new) ≡ marks_by n (seen seat.old) }
    ensures other { IfSome result (λ p. (p.table_id ≡ seat.old.table_id) × Rests p × (seen p ≡ seen seat.new)) }
    ensures other_badge { IfSome result (λ p. (view p).badge ≡ new_badge (view seat.old).badge (view p).badge.number) }
    ensures other_none { IfSome result (λ p. marks_by (view p).badge.number (seen p) ≡ []) }
    ensures gave { IfSome result (λ p. (view seat.new).badge ≡ badge_after_split (view seat.old).badge (view p).badge.number) }
    ensures above { IfSome result (λ p. (m : ℕ) → Gave (view seat.old).badge m → m < (view p).badge.number) }
    ensures none { IfNone result ((view seat.new).badge ≡ (view seat.old).badge) }
    ensures last { IfNone result ((view seat.new).top ≡ 2 ^ 32 - 1) }
{
    let mut tally = cell.take(rt, seat);
    if tally.given == u32::MAX {
        cell.give(seat, tally);
        return None;
    }
    let other = cell.split(seat);
    tally.given += 1;
    cell.give(seat, tally);
    Some(other)
}

/// Takes in another seat, and then sees the whole history. Nothing of a number that either has was added.
pub fn merge<R: Wait>(rt: &R, cell: &TurnCell<Tally>, seat: &mut Seat<Tally>, other: Seat<Tally>)
    requires cell { seat.old.table_id ≡ cell.now }
    requires rests { Rests seat.old }
    requires other_cell { other.table_id ≡ cell.now }
    requires other_rests { Rests other }
    ensures cell { seat.new.table_id ≡ seat.old.table_id }
    ensures rests { Rests seat.new }
    ensures badge { (view seat.new).badge ≡ joined_badge (view seat.old).badge (view other).badge (length (seen other)) }
    ensures apart { (view seat.old).badge.number ≢ (view other).badge.number }
    ensures later { IsPrefix (seen seat.old) (seen seat.new) }
    ensures other_later { IsPrefix (seen other) (seen seat.new) }
    ensures joined { (n : ℕ) → Has (view seat.old).badge n → marks_by n (seen seat.new) ≡ marks_by n (seen seat.old) }
    ensures other_joined { (n : ℕ) → Has (view other).badge n → marks_by n (seen seat.new) ≡ marks_by n (seen other) }
    ensures awaits { (ns : List ℕ) → Awaits (view seat.old).badge ((view other).badge.number ∷ ns) → Awaits (view other).badge [] → Awaits (view seat.new).badge ns }
{
    cell.join(seat, other);
    let tally = cell.take(rt, seat);
    cell.give(seat, tally);
}
