use crate::expr::Expr;
use base_types::Items;
use frame_core::{ColName, Range};

/// What a group makes of the cells of a column.
#[derive(Clone, Copy)]
pub enum Agg {
    Sum,
    Min,
    Max,
    Count,
}

/// An output of a group: its name, and how it is made of which column.
#[derive(Drop)]
pub struct Out {
    pub name: ColName,
    pub agg: Agg,
    pub of: ColName,
}

/// A clause of a read. Clauses are carried out in the order given.
#[derive(Drop)]
pub enum Clause {
    /// The rows whose stamps lie in the range, both ends included.
    DateRange(Range),
    /// The rows on which the expression is true.
    Filter(Expr),
    /// A column of the expression's values, in place of the one of its name or behind the others.
    Apply { name: ColName, expr: Expr },
    /// One row for each distinct cell of the key, in ascending order: the key, and then the outputs over the key's rows.
    Group { key: ColName, outs: Items<Out> },
}
