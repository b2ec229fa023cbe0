//! The columns that clauses name.

ghost use Rattle.std.specs.Prelude.{◌≡◌, ◌++◌, ◌∷◌, [], map, OnOk, IfOk};
ghost use Rattle.expr_clause.specs.declared.clause.Out.{Out as Output};
ghost use Rattle.expr_clause.specs.Exprs.{columns_of};
ghost use Rattle.expr_clause.specs.Typing.{clause_columns};

use crate::clause::{Clause, Out};
use crate::expr::Expr;
use base_types::{Items, Keep, NoMemory};
use frame_core::ColName;
use std::alloc::Global;

/// The columns that a clause names, in order: those of its expression, or the key and then the columns of the outputs.
pub fn clause_names(alloc: Global, clause: &Clause) -> Result<Items<ColName>, NoMemory>
    ensures { IfOk result (λ names. names ≡ clause_columns clause.now) }
{
    let mut names = Items::new(alloc);
    match clause {
        Clause::DateRange(_) => {}
        Clause::Filter(expr) => add_names(alloc, expr, &mut names)?,
        Clause::Apply { expr, .. } => add_names(alloc, expr, &mut names)?,
        Clause::Group { key, outs } => {
            names.push(key.copy(alloc)?)?;
            add_outs(alloc, outs.items(), &mut names)?;
        }
    }
    Ok(names)
}

/// Adds the names of columns in an expression, from left to right.
#[tactic(auto, using(crate::proofs::Levels::at_int, crate::proofs::Levels::at_flag, crate::proofs::Levels::at_text, crate::proofs::Levels::at_moment, crate::proofs::Levels::at_col, crate::proofs::Levels::at_unary, crate::proofs::Levels::at_binary, crate::proofs::Levels::at_among, crate::proofs::Names::add_none, crate::proofs::Names::add_both))]
fn add_names(alloc: Global, expr: &Expr, names: &mut Items<ColName>) -> Result<(), NoMemory>
    ensures { OnOk result (names.new ≡ names.old ++ columns_of expr.now) }
{
    match expr {
        Expr::Col(name) => names.push(name.copy(alloc)?),
        Expr::Unary { arg, .. } => add_names(alloc, arg.get(), names),
        Expr::Binary { left, right, .. } => {
            add_names(alloc, left.get(), names)?;
            add_names(alloc, right.get(), names)
        }
        Expr::Among { arg, .. } => add_names(alloc, arg.get(), names),
        Expr::Int(_) | Expr::Flag(_) | Expr::Text(_) | Expr::Moment(_) => Ok(()),
    }
}

/// Adds the names of the columns that outputs are made of.
fn add_outs(alloc: Global, outs: &[Out], names: &mut Items<ColName>) -> Result<(), NoMemory>
    ensures { OnOk result (names.new ≡ names.old ++ map (λ (o : Output). o.of) outs.now) }
{
    for out in outs {
        names.push(out.of.copy(alloc)?)?;
    }
    Ok(())
}
