// Threads that add by turns, each with a seat of its own.
ghost use Rattle.std.specs.Prelude.{◌≡◌, ℕ, List, true, [], ◌++◌, ◌⊎◌, ◌≤◌, IfOk, length, take, All};
ghost use Rattle.std.specs.Bool.{OnTrue};
ghost use Rattle.std.specs.Thread.{IsSync};
ghost use mathlib.Core.List.{IsPrefix};
ghost use Rattle.turn_cell.specs.Badges.{Has, IsSole, Awaits};
ghost use Rattle.turn_cell.specs.Seats.{view, seen, Rests};
ghost use Rattle.turn_tally.specs.Jobs.{AllMade, Gave};
ghost use Rattle.turn_tally.specs.Marks.{marks_by, marks};

use crate::adding::add_list;
use crate::seats::{merge, open, share};
use crate::tally::Tally;
use base_types::{Items, NoMemory};
use std::alloc::Global;
use std::sync::Wait;
use std::thread::{Threads, join};
use turn_cell::{Seat, TurnCell};

/// Two threads add a list of amounts each to a new cell, and their seats are joined afterwards.
///
/// The answer has the seat, which has seen the whole history, and how many amounts of each list fitted.
pub fn two<R: Threads + Wait + Sync>(
    rt: &R,
    alloc: Global,
    a: &[u64],
    b: &[u64],
) -> Result<(TurnCell<Tally>, Seat<Tally>, usize, usize), NoMemory>
    ensures cell { IfOk result (λ t. t.1.table_id ≡ t.0) }
    ensures rests { IfOk result (λ t. Rests t.1) }
    ensures sole { IfOk result (λ t. IsSole (view t.1).badge) }
    ensures first { IfOk result (λ t. marks_by 0 (seen t.1) ≡ marks 0 (take t.2 a.now)) }
    ensures second { IfOk result (λ t. marks_by 1 (seen t.1) ≡ marks 1 (take t.3 b.now)) }
    ensures no_others { IfOk result (λ t. All (λ e. (e.by ≡ 0) ⊎ (e.by ≡ 1)) (seen t.1)) }
{
    let (cell, one, two) = open(rt, alloc)?;
    let shared = &cell;
    let ((mut one, first), (two, second)) = join(
        rt,
        || -> (Seat<Tally>, usize)
            requires { (one.table_id ≡ shared.now) × Rests one }
            ensures { (result.0.table_id ≡ one.table_id) × Rests result.0 × ((view result.0).badge ≡ (view one).badge) × (marks_by (view one).badge.number (seen result.0) ≡ marks_by (view one).badge.number (seen one) ++ marks (view one).badge.number (take result.1 a.entry.now)) }
        { add_list(rt, shared, one, a) },
        || -> (Seat<Tally>, usize)
            requires { (two.table_id ≡ shared.now) × Rests two }
            ensures { (result.0.table_id ≡ two.table_id) × Rests result.0 × ((view result.0).badge ≡ (view two).badge) × (marks_by (view two).badge.number (seen result.0) ≡ marks_by (view two).badge.number (seen two) ++ marks (view two).badge.number (take result.1 b.entry.now)) }
        { add_list(rt, shared, two, b) },
    );
    cell.join(&mut one, two);
    let tally = cell.take(rt, &mut one);
    cell.give(&mut one, tally);
    Ok((cell, one, first, second))
}

/// Each job is done by a thread of its own, with a seat of its own, and the seats are joined again.
///
/// The answer has the seat, and whether every amount of every job fitted.
pub fn add_all<R: Threads + Wait + Sync>(
    rt: &R,
    cell: &TurnCell<Tally>,
    mut seat: Seat<Tally>,
    jobs: &[Items<u64>],
) -> (Seat<Tally>, bool)
    requires cell { seat.table_id ≡ cell.now }
    requires rests { Rests seat }
    ensures cell { result.0.table_id ≡ seat.table_id }
    ensures rests { Rests result.0 }
    ensures later { IsPrefix (seen seat) (seen result.0) }
    ensures first { Has (view seat).badge (view seat).badge.first → Has (view result.0).badge (view result.0).badge.first }
    ensures awaits { (ns : List ℕ) → Awaits (view seat).badge ns → Awaits (view result.0).badge ns }
    ensures made { OnTrue result.1 ((m : ℕ) → Gave (view seat).badge m → AllMade jobs.now m (view result.0).badge (seen result.0)) }
{
    let Some((job, rest)) = jobs.split_first() else {
        return (seat, true);
    };
    let amounts = job.items();
    let Some(other) = share(rt, cell, &mut seat) else {
        return (seat, false);
    };
    let ((mut seat, all), (other, count)) = join(
        rt,
        || -> (Seat<Tally>, bool)
            requires { IsSync R.row × (seat.table_id ≡ cell.now) × Rests seat }
            ensures { (result.0.table_id ≡ seat.table_id) × Rests result.0 × IsPrefix (seen seat) (seen result.0) × (Has (view seat).badge (view seat).badge.first → Has (view result.0).badge (view result.0).badge.first) × ((ns : List ℕ) → Awaits (view seat).badge ns → Awaits (view result.0).badge ns) × OnTrue result.1 ((m : ℕ) → Gave (view seat).badge m → AllMade rest.entry.now m (view result.0).badge (seen result.0)) }
        { add_all(rt, cell, seat, rest) },
        || -> (Seat<Tally>, usize)
            requires { (other.table_id ≡ cell.now) × Rests other }
            ensures { (result.0.table_id ≡ other.table_id) × Rests result.0 × ((view result.0).badge ≡ (view other).badge) × (result.1 ≤ length amounts.entry.now) × (marks_by (view other).badge.number (seen result.0) ≡ marks_by (view other).badge.number (seen other) ++ marks (view other).badge.number (take result.1 amounts.entry.now)) }
        { add_list(rt, cell, other, amounts) },
    );
    merge(rt, cell, &mut seat, other);
    (seat, all && count == amounts.len())
}

/// The same for a sole seat, which is sole again afterwards.
pub fn add_each<R: Threads + Wait + Sync>(
    rt: &R,
    cell: &TurnCell<Tally>,
    seat: Seat<Tally>,
    jobs: &[Items<u64>],
) -> (Seat<Tally>, bool)
    requires cell { seat.table_id ≡ cell.now }
    requires rests { Rests seat }
    requires sole { IsSole (view seat).badge }
    ensures cell { result.0.table_id ≡ seat.table_id }
    ensures rests { Rests result.0 }
    ensures later { IsPrefix (seen seat) (seen result.0) }
    ensures sole { IsSole (view result.0).badge }
    ensures made { OnTrue result.1 (AllMade jobs.now (view seat).badge.number (view result.0).badge (seen result.0)) }
{
    add_all(rt, cell, seat, jobs)
}
