// The numbers that a seat has and gave.
use std::collections::LinkedList;

/// The numbers of one seat. It exists for contracts alone: no value of it is made.
pub struct Badge {
    /// Whether the seat is in use. A seat that was joined into another is not.
    pub in_use: bool,
    /// The number of the cell's first seat, the same for all seats.
    pub first: u32,
    /// The seat's own number.
    pub number: u32,
    /// The numbers of the seats that were joined into it.
    pub joined: LinkedList<Joined>,
    /// The numbers that it gave at its splits, and those that the seats joined into it gave.
    pub gave: LinkedList<u32>,
}

/// The number of a seat that was joined into another.
pub struct Joined {
    pub number: u32,
    /// How many entries that seat had seen. No later entry has its number as author.
    pub length: u64,
}
