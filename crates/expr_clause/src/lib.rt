//! The language of requests: what a client may ask of a store.
#![tactic(auto)]

mod cells;
mod clause;
mod command;
mod evaluating;
mod expr;
mod fitting;
mod kinds;
mod naming;
mod operands;
mod typing;
mod viewed;

pub use base_types::{Items, Keep, NoMemory};
pub use cells::{Overflowed, absent_cell, compare_cells, flag_in, lent};
pub use clause::{Agg, Clause, Out};
pub use command::{AsOf, Command, Pick};
pub use evaluating::{RowCells, eval_row};
pub use expr::{BinOp, Expr, Literal, UnOp};
pub use fitting::fits;
use frame_core::ColName;
pub use naming::clause_names;
pub use operands::eval_cells;
pub use sqlite_items::Boxed;
pub use typing::{check, schema_after};
pub use viewed::eval;

/// The symbols that a snapshot is to hold, seen as a list.
pub type Picks = Items<Pick>;

/// Names of columns, seen as a list.
pub type ColNames = Items<ColName>;

/// The literals of an expression, seen as a list.
pub type Literals = Items<Literal>;

/// The outputs of a group, seen as a list.
pub type Outs = Items<Out>;

/// The clauses of a read, seen as a list.
pub type Clauses = Items<Clause>;
