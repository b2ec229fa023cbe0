//! Parts of lists of texts, and lists behind one another.

ghost use Rattle.std.specs.Prelude.{◌≡◌, ◌+◌, ◌-◌, ◌^◌, ◌<◌, ◌≤◌, ◌++◌, length, map, slice_range, IfOk};
ghost use Rattle.std.specs.List.{AllByRecursion};

use crate::texts::{TextList, start_of};
use base_types::NoMemory;
use std::alloc::Global;

impl TextList {
    /// The texts from one place up to before another, in memory of their own.
    pub fn part(&self, alloc: Global, from: usize, to: usize) -> Result<TextList, NoMemory>
        requires ordered { from ≤ to }
        requires within { to ≤ length self.now }
        ensures { IfOk result (λ part. part ≡ slice_range self.now from to) }
    {
        let start = start_of(&self.ends, from);
        let end = start_of(&self.ends, to);
        let buffer = String::from_str(alloc, &self.buffer.as_str()[start..end])?;
        let ends = lowered(alloc, &self.ends[from..to], start)?;
        Ok(TextList { buffer, ends })
    }

    /// These texts and behind them those of another list, in memory of their own.
    pub fn joined(&self, alloc: Global, other: &TextList) -> Result<TextList, NoMemory>
        ensures { IfOk result (λ both. both ≡ self.now ++ other.now) }
    {
        let first = self.buffer.as_str();
        let more = other.buffer.as_str();
        let mut buffer = String::with_capacity(alloc, first.len() + more.len())?;
        buffer.push_str(first)?;
        buffer.push_str(more)?;
        let ends = raised(alloc, &self.ends, &other.ends, first.len())?;
        Ok(TextList { buffer, ends })
    }
}

/// These ends, each less by so much.
fn lowered(alloc: Global, ends: &[usize], by: usize) -> Result<Vec<usize>, NoMemory>
    requires { AllByRecursion (λ end. by ≤ end) ends.now }
    ensures { IfOk result (λ lower. lower.items ≡ map (λ end. end - by) ends.now) }
{
    let mut lower = Vec::with_capacity(alloc, ends.len())?;
    for end in ends {
        lower.push(*end - by)?;
    }
    Ok(lower)
}

/// The first ends, and behind them the others, each more by so much.
fn raised(alloc: Global, first: &[usize], more: &[usize], by: usize) -> Result<Vec<usize>, NoMemory>
    requires { AllByRecursion (λ end. end + by < 2 ^ 64) more.now }
    ensures { IfOk result (λ ends. ends.items ≡ first.now ++ map (λ end. end + by) more.now) }
{
    let mut ends = Vec::with_capacity(alloc, first.len() + more.len())?;
    ends.extend_from_slice(first)?;
    for end in more {
        ends.push(*end + by)?;
    }
    Ok(ends)
}
