use base_types::{Items, Text};
use frame_core::ColName;
use sqlite_items::Boxed;

/// A value that is written out in a clause.
#[derive(Drop)]
pub enum Literal {
    Int(i64),
    Flag(bool),
    Text(Text),
    /// A moment, in nanoseconds since 1970.
    Moment(i64),
}

/// An operator with one operand.
#[derive(Clone, Copy)]
pub enum UnOp {
    Neg,
    Not,
    Abs,
}

/// An operator between two operands.
#[derive(Clone, Copy)]
pub enum BinOp {
    Add,
    Sub,
    Mul,
    Lt,
    Le,
    Gt,
    Ge,
    Eq,
    Ne,
    And,
    Xor,
    Or,
}

/// An expression over the columns of a row.
#[derive(Drop)]
pub enum Expr {
    Int(i64),
    Flag(bool),
    Text(Text),
    /// A moment, in nanoseconds since 1970.
    Moment(i64),
    /// The cell of a column.
    Col(ColName),
    Unary {
        op: UnOp,
        arg: Boxed<Expr>,
    },
    Binary {
        op: BinOp,
        left: Boxed<Expr>,
        right: Boxed<Expr>,
    },
    /// Whether the operand is one of these literals, or, negated, none of them.
    Among {
        arg: Boxed<Expr>,
        list: Items<Literal>,
        negated: bool,
    },
}
