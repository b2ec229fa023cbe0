//! What holds of all partial groups. These functions do nothing; their clauses are the statements.

ghost use Rattle.group_clause.specs.Partials.{MergedInAnyOrder, PartialsMerge};

/// Partials merged in any order give the group of all lines.
#[tactic(auto, using(crate::proofs::TallyLaws::merged_in_any_order))]
pub fn groups_merge_in_any_order()
    ensures { MergedInAnyOrder }
{}

/// What is kept of lines is what is kept of two parts of them, merged.
#[tactic(auto, using(crate::proofs::TallyLaws::partials_merge))]
pub fn parts_merge()
    ensures { PartialsMerge }
{}
