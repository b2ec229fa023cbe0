// What a seat knows.
use crate::badge::Badge;
use crate::storied::Storied;
use std::collections::LinkedList;

/// What a seat knows. It exists for contracts alone: no value of it is made.
pub struct View<E> {
    pub badge: Badge,
    /// The entries that the seat has seen, oldest first: the first entries of the history.
    pub seen: LinkedList<E>,
    /// A second list of first entries, which a join leaves until the next look at the count.
    pub told: LinkedList<E>,
    /// No entry after the first `until` is the seat's own.
    pub until: u64,
    /// Whether the seat holds the turn.
    pub turn: bool,
    /// The greatest number given out, as far as the seat knows. The holder of the turn knows it exactly.
    pub top: u32,
    /// The row that the seat has begun.
    pub begun: Option<u32>,
    /// Rows that were found changed, newest first.
    pub notes: LinkedList<Note>,
}

/// The row has an entry at this place, counted from 1, or the next entry of the history is of the row and gets this place.
pub struct Note {
    pub row: u32,
    pub place: u64,
}

/// A seat at one cell. It has no bytes.
pub type Seat<V> = atomic_table::Seat<Option<V>, View<<V as Storied>::Entry>>;
