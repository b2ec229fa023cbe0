//! Two parts of groups, made one.

ghost use Rattle.std.specs.Prelude.{◌≡◌, ◌^◌, List, Some, option_to_list, IfOk};
ghost use Rattle.std.specs.List.{AllByRecursion};
ghost use Rattle.frame_core.specs.declared.cell.Cell.{Cell};
ghost use Rattle.group_clause.specs.Tallies.{join_lists, merge};
ghost use Rattle.group_clause.specs.Partials.{Tally as Told, join_tallies, tallies};
ghost use Rattle.group_clause.specs.Keeping.{AreTallies, IsPart, IsTally};
ghost use Rattle.group_clause.specs.Taking.{TakesFirst, TakesJoined, first_cmp};

use crate::group::Group;
use crate::tally::Tally;
use expr_clause::{compare_cells, lent};
use frame_core::NoMemory;
use std::alloc::Global;
use std::cmp::Ordering;
use std::collections::VecDeque;

/// The groups of both, their keys ascending. Each part is gone through once.
pub(crate) fn merged(
    alloc: Global,
    mine: Vec<Group>,
    more: Vec<Group>,
) -> Result<Vec<Group>, NoMemory>
    requires mine { IsPart mine.items }
    requires more { IsPart more.items }
    ensures { IfOk result (λ merged. merged.items ≡ merge tallies mine.items more.items) }
{
    let mut merged = Vec::with_capacity(alloc, mine.len().saturating_add(more.len()))?;
    let mut mine = VecDeque::from_vec(mine);
    let mut more = VecDeque::from_vec(more);
    while let Some(group) = next_group(alloc, &mut mine, &mut more)? {
        merged.push(group)?;
    }
    Ok(merged)
}

/// Takes the group of the least key out of both parts.
fn next_group(
    alloc: Global,
    mine: &mut VecDeque<Group>,
    more: &mut VecDeque<Group>,
) -> Result<Option<Group>, NoMemory>
    requires mine { IsPart mine.old.items }
    requires more { IsPart more.old.items }
    ensures next { IfOk result (λ next. TakesFirst mine.old.items more.old.items next mine.new.items more.new.items) }
    ensures mine { IsPart mine.new.items }
    ensures more { IsPart more.new.items }
{
    match first_order(mine, more) {
        Ordering::Less => Ok(mine.pop_front()),
        Ordering::Greater => Ok(more.pop_front()),
        Ordering::Equal => {
            let group = joined_group(alloc, mine.pop_front(), more.pop_front())?;
            Ok(group)
        }
    }
}

/// Which part has the lesser first key; a part without groups comes last.
fn first_order(mine: &VecDeque<Group>, more: &VecDeque<Group>) -> Ordering
    ensures { result ≡ first_cmp mine.now.items more.now.items }
{
    match (mine.front(), more.front()) {
        (Some(mine), Some(more)) => compare_cells(lent(&mine.key), lent(&more.key)),
        (Some(_), None) => Ordering::Less,
        (None, _) => Ordering::Greater,
    }
}

/// Two groups of one key as one.
fn joined_group(
    alloc: Global,
    mine: Option<Group>,
    more: Option<Group>,
) -> Result<Option<Group>, NoMemory>
    requires mine { AreTallies (2 ^ 62) (option_to_list mine) }
    requires more { AreTallies (2 ^ 62) (option_to_list more) }
    ensures { IfOk result (λ joined. (g h : Cell × List Told) → mine ≡ Some g → more ≡ Some h → joined ≡ Some (h.0, join_lists join_tallies g.1 h.1)) }
{
    match (mine, more) {
        (Some(mine), Some(more)) => {
            let tallies = joined(alloc, mine.tallies, more.tallies)?;
            Ok(Some(Group {
                key: more.key,
                tallies,
            }))
        }
        _ => Ok(None),
    }
}

/// The tallies of both, output by output.
fn joined(alloc: Global, mine: Vec<Tally>, more: Vec<Tally>) -> Result<Vec<Tally>, NoMemory>
    requires mine { AllByRecursion (IsTally (2 ^ 62)) mine.items }
    requires more { AllByRecursion (IsTally (2 ^ 62)) more.items }
    ensures { IfOk result (λ joined. joined.items ≡ join_lists join_tallies mine.items more.items) }
{
    let mut joined = Vec::with_capacity(alloc, mine.len().max(more.len()))?;
    let mut mine = VecDeque::from_vec(mine);
    let mut more = VecDeque::from_vec(more);
    while let Some(tally) = next_tally(&mut mine, &mut more) {
        joined.push(tally)?;
    }
    Ok(joined)
}

/// Takes the tallies of the next output out of both.
fn next_tally(mine: &mut VecDeque<Tally>, more: &mut VecDeque<Tally>) -> Option<Tally>
    requires mine { AllByRecursion (IsTally (2 ^ 62)) mine.old.items }
    requires more { AllByRecursion (IsTally (2 ^ 62)) more.old.items }
    ensures next { TakesJoined mine.old.items more.old.items result mine.new.items more.new.items }
    ensures mine { AllByRecursion (IsTally (2 ^ 62)) mine.new.items }
    ensures more { AllByRecursion (IsTally (2 ^ 62)) more.new.items }
{
    match (mine.pop_front(), more.pop_front()) {
        (Some(mine), Some(more)) => Some(mine.join(more)),
        (Some(mine), None) => Some(mine),
        (None, more) => more,
    }
}
