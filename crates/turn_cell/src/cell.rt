// The cell and its calls.
ghost use Rattle.std.specs.Prelude.{◌≡◌, ◌≢◌, ℕ, ◌+◌, ◌^◌, ◌<◌, List, [], ◌∷◌, IfOk, length, drop, All, None, Some};
ghost use mathlib.Core.List.{IsPrefix};
ghost use Rattle.std.specs.Bool.{OnTrue, OnFalse};
ghost use Rattle.turn_cell.specs.Badges.{Among, Has, IsSole, Awaits, joined_at};
ghost use Rattle.turn_cell.specs.Entries.{entries_by};
ghost use Rattle.turn_cell.specs.Views.{first_view, stepped_view, resting_view, view_after_split, view_of_new_seat, joined_view, begun_view, noted_view, Confirmed};
ghost use Rattle.turn_cell.specs.Seats.{view, seen, Rests, Holds};
ghost use Rattle.turn_cell.specs.Finds.{Finds};

use crate::steps::{
    BeginRow, CountEntry, GiveTurn, JoinSeats, LoadCount, LoadRow, PlaceName, SplitSeat, TakeTurn,
};
use crate::storied::{EntryName, Storied};
use crate::view::{Seat, View};
use atomic_table::{Table, TableRule};
use base_types::NoMemory;
use std::alloc::Global;
use std::marker::{Brand, Model, PhantomData};
use std::snapshot::Snapshot;
use std::sync::Wait;
use std::thread;

// The word that counts the entries.
const COUNT: usize = 0;

// The word of the turn: 0 while it is free.
const TURN: usize = 1;

// The word of row 0. The words of the other rows follow it.
const ROWS: usize = 2;

// The slot of the value.
const VALUE: usize = 0;

/// The rule of a cell's words, its slot and its seats.
pub struct Turns<V> {
    value: PhantomData<V>,
}

impl<V: Storied> TableRule<Option<V>, View<V::Entry>, Snapshot<V>> for Turns<V> {
    ghost use Rattle.turn_cell.specs.Rule.{Turned};

    ghost holds = { λ _. Turned V.stands V.author V.row_of V.greatest };

    ghost first = { λ k. first_view (V.greatest k.value) };
}

/// A value that seats take by turns, with the history that the value stands for. A contract sees which cell it is.
#[derive(Drop)]
pub struct TurnCell<V: Storied> {
    table: Table<Option<V>, View<V::Entry>, Snapshot<V>, Turns<V>, Global>,
}

impl<V: Storied> Model for TurnCell<V> {
    ghost use Rattle.std.specs.Prelude.{◌≡◌};
    ghost use Rattle.atomic_table.specs.Seated.{TableId};

    ghost Value = { TableId };

    ghost view = { λ c. c.table.shared.table_id };

    ghost invariant = { λ c. (c.table.shared.table_id.words ≡ 258) × (c.table.shared.table_id.slots ≡ 1) };
}

impl<V: Storied> TurnCell<V> {
    /// A cell with this value and its first seat. The history is empty.
    pub fn make(alloc: Global, value: V) -> Result<(TurnCell<V>, Seat<V>), NoMemory>
    where
        V: Drop,
        requires stands { V.stands value [] }
        ensures cell { IfOk result (λ made. made.1.table_id ≡ made.0) }
        ensures rests { IfOk result (λ made. Rests made.1) }
        ensures view { IfOk result (λ made. view made.1 ≡ first_view (V.greatest value)) }
        ensures sole { IfOk result (λ made. IsSole (view made.1).badge) }
    {
        let about = Snapshot::of(&value);
        let mut slots = Vec::new(alloc);
        slots.push(Some(value))?;
        match Table::new(alloc, &[0; 258], slots, &about) {
            Ok((table, seat)) => Ok((TurnCell { table }, seat)),
            Err(_) => Err(NoMemory),
        }
    }

    /// Waits for the turn and takes the value out. The seat has then seen the whole history.
    pub fn take<R: Wait>(&self, rt: &R, seat: &mut Seat<V>) -> V
        requires cell { seat.old.table_id ≡ self.now }
        requires rests { Rests seat.old }
        ensures cell { seat.new.table_id ≡ seat.old.table_id }
        ensures holds { Holds seat.new }
        ensures stands { V.stands result (seen seat.new) }
        ensures greatest { V.greatest result ≡ (view seat.new).top }
        ensures finds { Finds V.author V.row_of (view seat.old) (view seat.new) }

        // The entries of others may have come, and none of a number that the seat has.
        ensures own { entries_by V.author (view seat.old).badge.number (seen seat.new) ≡ entries_by V.author (view seat.old).badge.number (seen seat.old) }
        ensures joined { (n : ℕ) → Has (view seat.old).badge n → entries_by V.author n (seen seat.new) ≡ entries_by V.author n (seen seat.old) }
    {
        for _ in rt.forever() {
            let found = self
                .table
                .shared
                .compare_exchange::<TakeTurn<V>>(seat, TURN, 0, 1);
            if found == 0 {
                match self.table.shared.exchange(seat, VALUE, None) {
                    Some(value) => return value,
                    None => unreachable!(),
                }
            }
            thread::yield_now();
        }
        unreachable!()
    }

    /// Adds the entry that `N` names at the end of the history.
    pub fn step<N: EntryName<V>>(&self, seat: &mut Seat<V>)
        requires cell { seat.old.table_id ≡ self.now }
        requires holds { Holds seat.old }
        requires author { V.author N.entry ≡ (view seat.old).badge.number }

        // An entry of a row wants that row begun, and an entry without one that no row is begun.
        requires row { V.row_of N.entry ≡ (view seat.old).begun }
        requires room { length (seen seat.old) < 2 ^ 62 }
        ensures cell { seat.new.table_id ≡ seat.old.table_id }
        ensures holds { Holds seat.new }
        ensures view { view seat.new ≡ stepped_view (view seat.old) N.entry }
    {
        self.table
            .shared
            .fetch_add::<CountEntry<V, N>>(seat, COUNT, 1);
    }

    /// Puts the value back and gives the turn.
    pub fn give(&self, seat: &mut Seat<V>, value: V)
        requires cell { seat.old.table_id ≡ self.now }
        requires holds { Holds seat.old }
        requires none_begun { (view seat.old).begun ≡ None }
        requires stands { V.stands value (seen seat.old) }
        requires greatest { V.greatest value ≡ (view seat.old).top }
        ensures cell { seat.new.table_id ≡ seat.old.table_id }
        ensures rests { Rests seat.new }
        ensures view { view seat.new ≡ resting_view (view seat.old) }
    {
        match self.table.shared.exchange(seat, VALUE, Some(value)) {
            None => {}
            Some(_) => unreachable!(),
        }
        self.table.shared.store::<GiveTurn>(seat, TURN, 0);
    }

    /// A new seat, with the next number, which has seen what this one has. It takes no memory.
    ///
    /// The value that is put back later has to say that it has given the number out.
    pub fn split(&self, seat: &mut Seat<V>) -> Seat<V>
        requires cell { seat.old.table_id ≡ self.now }
        requires holds { Holds seat.old }
        requires none_begun { (view seat.old).begun ≡ None }
        requires room { (view seat.old).top + 1 < 2 ^ 32 }
        ensures cell { seat.new.table_id ≡ seat.old.table_id }
        ensures holds { Holds seat.new }
        ensures view { view seat.new ≡ view_after_split (view seat.old) }
        ensures new_cell { result.table_id ≡ seat.old.table_id }
        ensures new_rests { Rests result }
        ensures new_view { view result ≡ view_of_new_seat (view seat.old) }
        ensures new_number { entries_by V.author ((view seat.old).top + 1) (seen seat.old) ≡ [] }
        ensures awaits { (ns : List ℕ) → Awaits (view seat.old).badge ns → Awaits (view seat.new).badge (((view seat.old).top + 1) ∷ ns) }
    {
        self.table.shared.load::<LoadCount<V>>(seat, COUNT);
        self.table.shared.split_seat::<SplitSeat>(seat)
    }

    /// Takes in another seat of this cell. It waits for nobody.
    pub fn join(&self, seat: &mut Seat<V>, mut other: Seat<V>)
        requires cell { seat.old.table_id ≡ self.now }
        requires rests { Rests seat.old }
        requires other_cell { other.table_id ≡ self.now }
        requires other_rests { Rests other }
        ensures cell { seat.new.table_id ≡ seat.old.table_id }
        ensures rests { Rests seat.new }
        ensures view { view seat.new ≡ joined_view (view seat.old) (view other) }
        ensures apart { (view seat.old).badge.number ≢ (view other).badge.number }
        ensures joined_apart { (n l : ℕ) → Among (joined_at n l) (view seat.new).badge.joined → n ≢ (view seat.new).badge.number }
        ensures later { IsPrefix (seen seat.old) (seen seat.new) }
        ensures other_later { IsPrefix (seen other) (seen seat.new) }

        // No entry of a number that one of the two seats has comes in.
        ensures own { entries_by V.author (view seat.old).badge.number (seen seat.new) ≡ entries_by V.author (view seat.old).badge.number (seen seat.old) }
        ensures other_own { entries_by V.author (view other).badge.number (seen seat.new) ≡ entries_by V.author (view other).badge.number (seen other) }
        ensures joined { (n : ℕ) → Has (view seat.old).badge n → entries_by V.author n (seen seat.new) ≡ entries_by V.author n (seen seat.old) }
        ensures other_joined { (n : ℕ) → Has (view other).badge n → entries_by V.author n (seen seat.new) ≡ entries_by V.author n (seen other) }
        ensures awaits { (ns : List ℕ) → Awaits (view seat.old).badge ((view other).badge.number ∷ ns) → Awaits (view other).badge [] → Awaits (view seat.new).badge ns }
        ensures confirmed { Confirmed V.row_of (view seat.new) }
    {
        self.table.shared.load::<LoadCount<V>>(seat, COUNT);
        self.table.shared.load::<LoadCount<V>>(&mut other, COUNT);
        self.table.shared.join_seat::<JoinSeats>(seat, other);
        self.table.shared.load::<LoadCount<V>>(seat, COUNT);
    }

    /// Begins a row: the next entry has to be of this row.
    pub fn begin(&self, seat: &mut Seat<V>, row: u32)
        requires cell { seat.old.table_id ≡ self.now }
        requires holds { Holds seat.old }
        requires none_begun { (view seat.old).begun ≡ None }
        requires row { row < 256 }
        requires room { length (seen seat.old) < 2 ^ 62 }
        ensures cell { seat.new.table_id ≡ seat.old.table_id }
        ensures holds { Holds seat.new }
        ensures view { view seat.new ≡ begun_view (view seat.old) row }
    {
        let count = self.table.shared.load::<LoadCount<V>>(seat, COUNT);
        self.table
            .shared
            .store::<BeginRow>(seat, ROWS + row as usize, count + 1);
    }

    /// Whether the row has no entry after the first `place` of the history, as far as one look can tell. It waits for nobody.
    ///
    /// False comes also where the holder of the turn has begun the row and has not added its entry yet.
    pub fn unchanged(&self, seat: &mut Seat<V>, row: u32, place: u64) -> bool
        requires cell { seat.old.table_id ≡ self.now }
        requires rests { Rests seat.old }
        requires row { row < 256 }
        ensures cell { seat.new.table_id ≡ seat.old.table_id }
        ensures rests { Rests seat.new }
        ensures seen { seen seat.new ≡ seen seat.old }
        ensures same { OnTrue result (view seat.new ≡ view seat.old) }
        ensures none_after { OnTrue result (All (λ e. V.row_of e ≢ Some row) (drop place (seen seat.old))) }
        ensures noted { OnFalse result ((n : ℕ) × (place < n) × (view seat.new ≡ noted_view (view seat.old) row n)) }
        ensures confirmed { Confirmed V.row_of (view seat.new) }
    {
        self.check_row::<Brand>(seat, row, place)
    }

    fn check_row<K: PlaceName>(&self, seat: &mut Seat<V>, row: u32, place: u64) -> bool
        requires cell { seat.old.table_id ≡ self.now }
        requires rests { Rests seat.old }
        requires row { row < 256 }
        requires place { K.place ≡ place }
        ensures cell { seat.new.table_id ≡ seat.old.table_id }
        ensures rests { Rests seat.new }
        ensures seen { seen seat.new ≡ seen seat.old }
        ensures same { OnTrue result (view seat.new ≡ view seat.old) }
        ensures none_after { OnTrue result (All (λ e. V.row_of e ≢ Some row) (drop place (seen seat.old))) }
        ensures noted { OnFalse result ((n : ℕ) × (place < n) × (view seat.new ≡ noted_view (view seat.old) row n)) }
        ensures confirmed { Confirmed V.row_of (view seat.new) }
    {
        let found = self
            .table
            .shared
            .load::<LoadRow<V, K>>(seat, ROWS + row as usize);
        found <= place
    }
}
