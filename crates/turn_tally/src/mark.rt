// The entries of the history, and their names.
ghost use Rattle.std.specs.Prelude.{None};
ghost use Rattle.turn_tally.specs.declared.mark.Mark.{Mark};

use crate::tally::Tally;
use std::marker::{Brand, PhantomData};
use turn_cell::EntryName;

/// An amount that a seat added, in a row or in none. It exists for contracts alone: no value of it is made.
pub struct Mark {
    pub by: u32,
    pub row: Option<u32>,
    pub amount: u64,
}

/// A mark that a call picks, for contracts alone.
pub trait MarkName {
    ghost mark: { Mark };
}

impl MarkName for Brand {
    ghost mark = { record { by = 0; row = None; amount = 0 } };
}

/// That mark as the name of an entry.
pub struct Named<K> {
    name: PhantomData<K>,
}

impl<K: MarkName> EntryName<Tally> for Named<K> {
    ghost entry = { K.mark };
}
