//! The type of an expression.

ghost use Rattle.std.specs.Prelude.{◌≡◌, Some};
ghost use Rattle.std.specs.List.{list_all};
ghost use Rattle.frame_core.specs.Schemas.{same_type};
ghost use Rattle.expr_clause.specs.Exprs.{among_type, arithmetic_type, binary_type, equality_type, expr_type, flags_type, has_type, literal_type, order_type, type_named, unary_type};

use crate::expr::{BinOp, Expr, Literal, UnOp};
use frame_core::{ColName, ColType, place_of_name};

/// The type of the column of this name.
pub fn type_of_name(name: &ColName, columns: &[(ColName, ColType)]) -> Option<ColType>
    ensures { result ≡ type_named columns.now name.now }
{
    match place_of_name(name, columns) {
        Some(place) => columns.get(place).map(|column| column.1),
        None => None,
    }
}

/// The type of an expression over these columns, if it has one.
#[tactic(auto, using(crate::proofs::Levels::at_int, crate::proofs::Levels::at_flag, crate::proofs::Levels::at_text, crate::proofs::Levels::at_moment, crate::proofs::Levels::at_col, crate::proofs::Levels::at_unary, crate::proofs::Levels::at_binary, crate::proofs::Levels::at_among))]
pub fn type_of_expr(expr: &Expr, columns: &[(ColName, ColType)]) -> Option<ColType>
    ensures { result ≡ expr_type columns.now expr.now }
{
    match expr {
        Expr::Int(_) => Some(ColType::Int),
        Expr::Flag(_) => Some(ColType::Flag),
        Expr::Text(_) => Some(ColType::Text),
        Expr::Moment(_) => Some(ColType::Stamp),
        Expr::Col(name) => type_of_name(name, columns),
        Expr::Unary { op, arg } => unary_kind(*op, type_of_expr(arg.get(), columns)),
        Expr::Binary { op, left, right } => {
            let left = type_of_expr(left.get(), columns);
            let right = type_of_expr(right.get(), columns);
            binary_kind(*op, left, right)
        }
        Expr::Among { arg, list, .. } => among_kind(type_of_expr(arg.get(), columns), list.items()),
    }
}

/// The type of an operator with this operand.
fn unary_kind(op: UnOp, arg: Option<ColType>) -> Option<ColType>
    ensures { result ≡ unary_type op arg }
{
    match (op, arg) {
        (UnOp::Not, Some(ColType::Flag)) => Some(ColType::Flag),
        (UnOp::Neg, Some(ColType::Int)) => Some(ColType::Int),
        (UnOp::Abs, Some(ColType::Int)) => Some(ColType::Int),
        _ => None,
    }
}

/// The type of an operator between these operands.
fn binary_kind(op: BinOp, left: Option<ColType>, right: Option<ColType>) -> Option<ColType>
    ensures { result ≡ binary_type op left right }
{
    match op {
        BinOp::Add | BinOp::Sub | BinOp::Mul => arithmetic_kind(left, right),
        BinOp::Lt | BinOp::Le | BinOp::Gt | BinOp::Ge => order_kind(left, right),
        BinOp::Eq | BinOp::Ne => equality_kind(left, right),
        BinOp::And | BinOp::Xor | BinOp::Or => flags_kind(left, right),
    }
}

fn arithmetic_kind(left: Option<ColType>, right: Option<ColType>) -> Option<ColType>
    ensures { result ≡ arithmetic_type left right }
{
    match (left, right) {
        (Some(ColType::Int), Some(ColType::Int)) => Some(ColType::Int),
        _ => None,
    }
}

fn order_kind(left: Option<ColType>, right: Option<ColType>) -> Option<ColType>
    ensures { result ≡ order_type left right }
{
    match (left, right) {
        (Some(ColType::Int), Some(ColType::Int)) => Some(ColType::Flag),
        (Some(ColType::Stamp), Some(ColType::Stamp)) => Some(ColType::Flag),
        _ => None,
    }
}

fn equality_kind(left: Option<ColType>, right: Option<ColType>) -> Option<ColType>
    ensures { result ≡ equality_type left right }
{
    match (left, right) {
        (Some(first), Some(second)) if are_same(first, second) => Some(ColType::Flag),
        _ => None,
    }
}

fn flags_kind(left: Option<ColType>, right: Option<ColType>) -> Option<ColType>
    ensures { result ≡ flags_type left right }
{
    match (left, right) {
        (Some(ColType::Flag), Some(ColType::Flag)) => Some(ColType::Flag),
        _ => None,
    }
}

/// Whether two types are the same.
fn are_same(a: ColType, b: ColType) -> bool
    ensures { result ≡ same_type a b }
{
    match (a, b) {
        (ColType::Int, ColType::Int) => true,
        (ColType::Flag, ColType::Flag) => true,
        (ColType::Text, ColType::Text) => true,
        (ColType::Stamp, ColType::Stamp) => true,
        _ => false,
    }
}

/// The type of a test for membership: a flag, where the operand and all literals have one type.
fn among_kind(arg: Option<ColType>, list: &[Literal]) -> Option<ColType>
    ensures { result ≡ among_type arg list.now }
{
    match arg {
        Some(kind) if are_of(kind, list) => Some(ColType::Flag),
        _ => None,
    }
}

/// Whether all literals are of this type.
fn are_of(kind: ColType, list: &[Literal]) -> bool
    ensures { result ≡ list_all (λ l. has_type (literal_type l) (Some kind)) list.now }
{
    for literal in list {
        if !are_same(type_of_literal(literal), kind) {
            return false;
        }
    }
    true
}

fn type_of_literal(literal: &Literal) -> ColType
    ensures { result ≡ literal_type literal.now }
{
    match literal {
        Literal::Int(_) => ColType::Int,
        Literal::Flag(_) => ColType::Flag,
        Literal::Text(_) => ColType::Text,
        Literal::Moment(_) => ColType::Stamp,
    }
}
