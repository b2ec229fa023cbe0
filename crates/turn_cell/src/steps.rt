// What each kind of step tells the seat that makes it. These types are for the proofs alone.
ghost use Rattle.std.specs.Prelude.{ℕ};
ghost use Rattle.turn_cell.specs.Steps.{TakesTurn, CountsEntry, GivesTurn, LoadsCount, BeginsRow, LoadsRow};
ghost use Rattle.turn_cell.specs.Views.{view_after_split, view_of_new_seat, joining_view, spent_view};

use crate::storied::{EntryName, Storied};
use crate::view::View;
use atomic_table::{Join, Play, Split};
use std::marker::{Brand, PhantomData};

/// The turn, from 0 to 1.
pub struct TakeTurn<V> {
    value: PhantomData<V>,
}

impl<V: Storied> Play<Option<V>, View<V::Entry>> for TakeTurn<V> {
    ghost then = { TakesTurn V.stands V.author V.row_of V.greatest };
}

/// The count, plus 1, with the entry that `N` names.
pub struct CountEntry<V, N> {
    value: PhantomData<V>,
    name: PhantomData<N>,
}

impl<V: Storied, N: EntryName<V>> Play<Option<V>, View<V::Entry>> for CountEntry<V, N> {
    ghost then = { CountsEntry N.entry };
}

/// The turn, from 1 to 0.
pub struct GiveTurn;

impl<V, E> Play<Option<V>, View<E>> for GiveTurn {
    ghost then = { GivesTurn };
}

/// A load of the count.
pub struct LoadCount<V> {
    value: PhantomData<V>,
}

impl<V: Storied> Play<Option<V>, View<V::Entry>> for LoadCount<V> {
    ghost then = { LoadsCount V.author V.row_of };
}

/// A store to the word of a row.
pub struct BeginRow;

impl<V, E> Play<Option<V>, View<E>> for BeginRow {
    ghost then = { BeginsRow };
}

/// A place that a call picks, named for contracts alone.
pub trait PlaceName {
    ghost place: { ℕ };
}

impl PlaceName for Brand {
    ghost place = { 0 };
}

/// A load of the word of a row, by a caller who asks about the place that `K` names.
pub struct LoadRow<V, K> {
    value: PhantomData<V>,
    name: PhantomData<K>,
}

impl<V: Storied, K: PlaceName> Play<Option<V>, View<V::Entry>> for LoadRow<V, K> {
    ghost then = { LoadsRow V.row_of K.place };
}

/// A seat gives out the next number.
pub struct SplitSeat;

impl<E> Split<View<E>> for SplitSeat {
    ghost left = { view_after_split };

    ghost right = { view_of_new_seat };
}

/// A seat takes in another.
pub struct JoinSeats;

impl<E> Join<View<E>> for JoinSeats {
    ghost both = { joining_view };

    ghost spent = { spent_view };
}
