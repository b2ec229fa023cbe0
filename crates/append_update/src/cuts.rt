//! Where a range divides the slots of a version.

ghost use Rattle.std.specs.Prelude.{◌≡◌, not, filter, length};
ghost use Rattle.frame_core.specs.Ranges.{is_below, is_above};
ghost use Rattle.index_tree.specs.declared.index.Slot.{Slot as Place};
ghost use Rattle.append_update.specs.Bases.{Divides};

use frame_core::Range;
use index_tree::Slot;

/// How many slots of a version lie where, by their stamps. The row block that the range cuts at its beginning has the slots from
/// `below` to `begun`, and the one that it cuts at its end those from `ended` to `reached`; each is empty where the range cuts none.
#[derive(Clone, Copy)]
pub(crate) struct Cuts {
    /// The slots whose last row lies below the range.
    pub(crate) below: usize,
    /// The slots whose first row lies below the range.
    pub(crate) begun: usize,
    /// The slots whose last row does not lie above the range.
    pub(crate) ended: usize,
    /// The slots whose first row does not lie above the range.
    pub(crate) reached: usize,
}

impl Cuts {
    /// Where the range divides these slots.
    pub(crate) fn of(slots: &[Slot], range: Range) -> Cuts
        ensures { Divides range slots.now result }
    {
        Cuts {
            below: ending_below(slots, range),
            begun: beginning_below(slots, range),
            ended: ending_by(slots, range),
            reached: beginning_by(slots, range),
        }
    }
}

/// How many slots end below the range.
fn ending_below(slots: &[Slot], range: Range) -> usize
    ensures { result ≡ length (filter (λ (s : Place). is_below range s.last) slots.now) }
{
    slots.iter().filter(|slot| below(range, slot.last)).count()
}

/// How many slots begin below the range.
fn beginning_below(slots: &[Slot], range: Range) -> usize
    ensures { result ≡ length (filter (λ (s : Place). is_below range s.first) slots.now) }
{
    slots.iter().filter(|slot| below(range, slot.first)).count()
}

/// How many slots end not above the range.
fn ending_by(slots: &[Slot], range: Range) -> usize
    ensures { result ≡ length (filter (λ (s : Place). not (is_above range s.last)) slots.now) }
{
    slots.iter().filter(|slot| !above(range, slot.last)).count()
}

/// How many slots begin not above the range.
fn beginning_by(slots: &[Slot], range: Range) -> usize
    ensures { result ≡ length (filter (λ (s : Place). not (is_above range s.first)) slots.now) }
{
    slots
        .iter()
        .filter(|slot| !above(range, slot.first))
        .count()
}

/// Whether a stamp lies below the range.
pub(crate) fn below(range: Range, stamp: i64) -> bool
    ensures { result ≡ is_below range stamp }
{
    match range.from() {
        Some(from) => stamp < from,
        None => false,
    }
}

/// Whether a stamp lies above the range.
pub(crate) fn above(range: Range, stamp: i64) -> bool
    ensures { result ≡ is_above range stamp }
{
    match range.to() {
        Some(to) => to < stamp,
        None => false,
    }
}
