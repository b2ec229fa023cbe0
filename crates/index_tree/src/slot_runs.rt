ghost use Rattle.std.specs.Prelude.{◌≡◌, ◌-◌, [], ◌++◌, length, map, option_map, slice_get, OnOk, OnErr};
ghost use Rattle.std.specs.List.{AllByRecursion};
ghost use Rattle.index_tree.specs.SlotTexts.{span_of, all_slots, moved as shifted, MayMove};

use crate::slot_text::SlotText;
use crate::span::Span;
use base_types::{Items, NoMemory};
use std::alloc::Global;
use std::marker::Model;

/// The slots of an index in the making: runs of slots, one behind another, whose bytes are shared with where they were,
/// or their own where they are new or were moved. Contracts see the list of all slots.
#[derive(Drop)]
pub struct SlotRuns {
    runs: Items<SlotText>,
    count: usize,
}

impl Model for SlotRuns {
    ghost use Rattle.std.specs.Prelude.{◌≡◌, List, length};
    ghost use Rattle.index_tree.specs.declared.index.Slot.{Slot};
    ghost use Rattle.index_tree.specs.SlotTexts.{all_slots};

    ghost Value = { List Slot };

    ghost view = { λ r. all_slots r.runs };

    ghost invariant = { λ r. r.count ≡ length (all_slots r.runs) };
}

impl SlotRuns {
    /// No slots. It takes no memory.
    pub fn new(alloc: Global) -> SlotRuns
        ensures { result ≡ [] }
    {
        SlotRuns {
            runs: Items::new(alloc),
            count: 0,
        }
    }

    /// How many slots there are.
    pub fn len(&self) -> usize
        ensures { result ≡ length self.now }
    {
        self.count
    }

    /// The runs.
    pub(crate) fn runs(&self) -> &[SlotText]
        ensures { all_slots result.now ≡ self.now }
    {
        self.runs.items()
    }

    /// Adds the slots of a run behind the others. No slot is read or copied.
    pub fn push(&mut self, run: SlotText) -> Result<(), NoMemory>
        ensures ok { OnOk result (self.new ≡ self.old ++ run) }
        ensures err { OnErr result (self.new ≡ self.old) }
    {
        let Some(count) = self.count.checked_add(run.len()) else {
            return Err(NoMemory);
        };
        self.runs.push(run)?;
        self.count = count;
        Ok(())
    }

    /// Adds a run of slots that begins with the row `from`, moved so that it begins with the row `to`. Where nothing moves, no slot
    /// is read or copied.
    pub fn push_moved(
        &mut self,
        alloc: Global,
        from: u64,
        to: u64,
        run: &SlotText,
    ) -> Result<(), NoMemory>
        requires may { AllByRecursion (MayMove from to) run.now }
        ensures ok { OnOk result (self.new ≡ self.old ++ map (shifted from to) run.now) }
        ensures err { OnErr result (self.new ≡ self.old) }
    {
        self.push(run.moved(alloc, from, to)?)
    }

    /// The rows, columns and stamps of the first slot.
    pub fn first(&self) -> Option<Span>
        ensures { result ≡ option_map span_of (slice_get self.now 0) }
    {
        let runs = self.runs.items();
        for run in runs {
            if let Some(span) = run.first() {
                return Some(span);
            }
        }
        None
    }

    /// The rows, columns and stamps of the last slot.
    pub fn last(&self) -> Option<Span>
        ensures { result ≡ option_map span_of (slice_get self.now (length self.now - 1)) }
    {
        let mut runs = self.runs.items();
        while let Some((run, before)) = runs.split_last() {
            if let Some(span) = run.last() {
                return Some(span);
            }
            runs = before;
        }
        None
    }
}
