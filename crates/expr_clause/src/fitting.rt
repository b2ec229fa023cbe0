//! The limits on the clauses of a read.

ghost use Rattle.std.specs.Prelude.{◌≡◌, nat_le};
ghost use Rattle.std.specs.List.{list_all};
ghost use Rattle.expr_clause.specs.Fitting.{depth, fits, is_small, is_small_clause, left_of, nodes, small_lists};

use crate::clause::Clause;
use crate::expr::Expr;

/// Whether there are at most 16 clauses, and each of their expressions has at most 256 nodes, a depth of at most 32, and
/// 1 to 64 literals in each list. It takes no memory.
pub fn fits(clauses: &[Clause]) -> bool
    ensures { result ≡ fits clauses.now }
{
    clauses.len() <= 16 && all_small(clauses)
}

/// Whether the expressions of all clauses are within their limits.
fn all_small(clauses: &[Clause]) -> bool
    ensures { result ≡ list_all is_small_clause clauses.now }
{
    for clause in clauses {
        if !is_small_one(clause) {
            return false;
        }
    }
    true
}

/// Whether the expression of a clause is within its limits.
fn is_small_one(clause: &Clause) -> bool
    ensures { result ≡ is_small_clause clause.now }
{
    match clause {
        Clause::Filter(expr) => is_small_expr(expr),
        Clause::Apply { expr, .. } => is_small_expr(expr),
        Clause::DateRange(_) => true,
        Clause::Group { .. } => true,
    }
}

/// Whether an expression is within its limits. Its depth is tested first, so that no call goes deeper than the limit.
fn is_small_expr(expr: &Expr) -> bool
    ensures { result ≡ is_small expr.now }
{
    let shallow = is_within_depth(expr, 32);
    let few = shallow && nodes_left(expr, 256).is_some();
    few && lists_fit(expr)
}

/// Whether an expression has at most this depth.
#[tactic(auto, using(crate::proofs::Levels::at_int, crate::proofs::Levels::at_flag, crate::proofs::Levels::at_text, crate::proofs::Levels::at_moment, crate::proofs::Levels::at_col, crate::proofs::Levels::at_unary, crate::proofs::Levels::at_binary, crate::proofs::Levels::at_among))]
fn is_within_depth(expr: &Expr, most: u64) -> bool
    ensures { result ≡ nat_le (depth expr.now) most }
{
    match expr {
        Expr::Unary { arg, .. } => 1 <= most && is_within_depth(arg.get(), most - 1),
        Expr::Binary { left, right, .. } => {
            let first = 1 <= most && is_within_depth(left.get(), most - 1);
            first && is_within_depth(right.get(), most - 1)
        }
        Expr::Among { arg, .. } => 1 <= most && is_within_depth(arg.get(), most - 1),
        Expr::Int(_) | Expr::Flag(_) | Expr::Text(_) | Expr::Moment(_) | Expr::Col(_) => 1 <= most,
    }
}

/// How many nodes of so many are left after those of an expression, if it has no more.
#[tactic(auto, using(crate::proofs::Levels::at_int, crate::proofs::Levels::at_flag, crate::proofs::Levels::at_text, crate::proofs::Levels::at_moment, crate::proofs::Levels::at_col, crate::proofs::Levels::at_unary, crate::proofs::Levels::at_binary, crate::proofs::Levels::at_among))]
fn nodes_left(expr: &Expr, most: u64) -> Option<u64>
    ensures { result ≡ left_of most (nodes expr.now) }
{
    match expr {
        Expr::Unary { arg, .. } => match most.checked_sub(1) {
            Some(rest) => nodes_left(arg.get(), rest),
            None => None,
        },
        Expr::Binary { left, right, .. } => match most.checked_sub(1) {
            Some(rest) => match nodes_left(left.get(), rest) {
                Some(rest) => nodes_left(right.get(), rest),
                None => None,
            },
            None => None,
        },
        Expr::Among { arg, .. } => match most.checked_sub(1) {
            Some(rest) => nodes_left(arg.get(), rest),
            None => None,
        },
        Expr::Int(_) | Expr::Flag(_) | Expr::Text(_) | Expr::Moment(_) | Expr::Col(_) => {
            most.checked_sub(1)
        }
    }
}

/// Whether each list of an expression has as many literals as are allowed.
#[tactic(auto, using(crate::proofs::Levels::at_int, crate::proofs::Levels::at_flag, crate::proofs::Levels::at_text, crate::proofs::Levels::at_moment, crate::proofs::Levels::at_col, crate::proofs::Levels::at_unary, crate::proofs::Levels::at_binary, crate::proofs::Levels::at_among))]
fn lists_fit(expr: &Expr) -> bool
    ensures { result ≡ small_lists expr.now }
{
    match expr {
        Expr::Unary { arg, .. } => lists_fit(arg.get()),
        Expr::Binary { left, right, .. } => {
            let first = lists_fit(left.get());
            let second = lists_fit(right.get());
            first && second
        }
        Expr::Among { arg, list, .. } => {
            let inner = lists_fit(arg.get());
            let count = list.len();
            inner && 1 <= count && count <= 64
        }
        Expr::Int(_) | Expr::Flag(_) | Expr::Text(_) | Expr::Moment(_) | Expr::Col(_) => true,
    }
}
