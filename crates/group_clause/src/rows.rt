//! Groups as the rows of a frame.

ghost use Rattle.std.specs.Prelude.{◌≡◌, ◌++◌, ◌^◌, [], ◌∷◌, pos, Some, drop, length, map, option_map, true, false, MatchOption, None, IfOk};
ghost use Rattle.std.specs.List.{AllByRecursion};
ghost use Rattle.frame_core.specs.Ranges.{InOrder};
ghost use Rattle.frame_core.specs.Frames.{cell_of, last_stamp};
ghost use Rattle.expr_clause.specs.Cells.{if_whole};
ghost use Rattle.expr_clause.specs.Asking.{group_row};
ghost use Rattle.group_clause.specs.Tallies.{made_all};
ghost use Rattle.group_clause.specs.Partials.{tallies, tally_makes};
ghost use Rattle.group_clause.specs.Keeping.{AreTallies, IsTally};
ghost use Rattle.group_clause.specs.Making.{GivesRows, GroupFits, TalliesFit};

use crate::group::Group;
use crate::tally::Tally;
use expr_clause::{Agg, Out, lent};
use frame_core::{Cell, CellRef, FrameMaker, NoMemory};

/// Adds a row for each group up to the first of which a sum is outside i64, and gives the number of that group, counted from 1.
pub(crate) fn push_groups(
    maker: &mut FrameMaker,
    groups: &[Group],
    outs: &[Out],
) -> Result<Option<u64>, NoMemory>
    requires empty { maker.old.rows ≡ [] }
    requires whole { maker.old.begun ≡ [] }
    requires fits { AllByRecursion (GroupFits maker.old.schema.columns (map (λ o. o.agg) outs.now)) groups.now }
    requires tallies { AreTallies (2 ^ 62) groups.now }
    ensures rows { IfOk result (GivesRows (map (λ o. o.agg) outs.now) groups.now maker.new.rows) }
    ensures whole { IfOk result (λ bad. bad ≡ None → maker.new.begun ≡ []) }
    ensures schema { maker.new.schema ≡ maker.old.schema }
{
    for place in 0..groups.len() {
        if !push_group(maker, &groups[place], outs)? {
            return Ok(Some(place as u64 + 1));
        }
    }
    Ok(None)
}

/// Adds the row of a group, unless a sum is outside i64.
fn push_group(maker: &mut FrameMaker, group: &Group, outs: &[Out]) -> Result<bool, NoMemory>
    requires whole { maker.old.begun ≡ [] }
    requires rising { InOrder (last_stamp maker.old.rows) (Some (pos 0)) }
    requires fits { GroupFits maker.old.schema.columns (map (λ o. o.agg) outs.now) group.now }
    requires tallies { AllByRecursion (IsTally (2 ^ 62)) group.now.1 }
    ensures row { IfOk result (λ done. MatchOption (made_all tallies (map (λ o. o.agg) outs.now) group.now.1) (done ≡ false)
        (λ cs. (done ≡ true) × (maker.new ≡ record maker.old { rows = maker.old.rows ++ group_row (group.now.0, cs) ∷ [] }))) }
    ensures schema { maker.new.schema ≡ maker.old.schema }
{
    maker.cell(lent(&group.key))?;
    if !push_outs(maker, &group.tallies, outs)? {
        return Ok(false);
    }
    maker.end_row(0)?;
    Ok(true)
}

/// Adds what each aggregator makes of its tally to the row that is begun, up to the first sum outside i64.
fn push_outs(maker: &mut FrameMaker, kept: &[Tally], outs: &[Out]) -> Result<bool, NoMemory>
    requires fits { TalliesFit (drop (length maker.old.begun) maker.old.schema.columns) (map (λ o. o.agg) outs.now) kept.now }
    requires tallies { AllByRecursion (IsTally (2 ^ 62)) kept.now }
    ensures cells { IfOk result (λ done. MatchOption (made_all tallies (map (λ o. o.agg) outs.now) kept.now) (done ≡ false)
        (λ cs. (done ≡ true) × (maker.new ≡ record maker.old { begun = maker.old.begun ++ cs }))) }
    ensures schema { maker.new.schema ≡ maker.old.schema }
{
    for place in 0..outs.len() {
        match made(outs[place].agg, &kept[place]) {
            Some(cell) => maker.cell(cell)?,
            None => return Ok(false),
        }
    }
    Ok(true)
}

/// What an aggregator makes of a tally, if a sum is an i64.
fn made(agg: Agg, tally: &Tally) -> Option<CellRef<'_>>
    requires { IsTally (2 ^ 62) tally.now }
    ensures { option_map cell_of result ≡ tally_makes agg tally.now }
{
    match agg {
        Agg::Sum => whole(tally.sum),
        Agg::Count => Some(CellRef::Int(tally.count as i64)),
        Agg::Min => lent_if(&tally.least),
        Agg::Max => lent_if(&tally.greatest),
    }
}

/// A number as a cell, where it is an i64.
fn whole<'a>(number: i128) -> Option<CellRef<'a>>
    ensures { option_map cell_of result ≡ if_whole number }
{
    match i64::try_from(number) {
        Ok(number) => Some(CellRef::Int(number)),
        Err(_) => None,
    }
}

/// The cell that is there, lent.
fn lent_if(cell: &Option<Cell>) -> Option<CellRef<'_>>
    ensures { option_map cell_of result ≡ cell.now }
{
    match cell {
        Some(cell) => Some(lent(cell)),
        None => None,
    }
}
