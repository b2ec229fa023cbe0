ghost use Rattle.std.specs.Prelude.{[]};

use expr_clause::{BinOp, Boxed, Expr, RowCells, eval_row};
use frame_core::{CellRef, ColName};
use std::alloc::Global;
use std::test::Fail;

// A row without columns.
struct NoColumns;

impl RowCells for NoColumns {
    ghost columns = { λ r. [] };

    ghost cells = { λ r. [] };

    fn named(&self, _name: &ColName) -> CellRef<'_> {
        CellRef::Int(0)
    }
}

// An operator between two whole numbers, and its value, if it is an i64.
const VALUES: &[(BinOp, i64, i64, Option<i64>)] = &[
    (BinOp::Sub, 99, 3, Some(96)),
    (BinOp::Add, i64::MAX, 0, Some(i64::MAX)),
    (BinOp::Add, i64::MAX, 1, None),
    (BinOp::Sub, i64::MIN, 1, None),
    (BinOp::Mul, i64::MIN, -1, None),
    (BinOp::Lt, 99, 105, None), // a flag
];

fn has_value(alloc: Global, row: &(BinOp, i64, i64, Option<i64>)) -> Result<bool, Fail> {
    let left = Boxed::new(alloc, Expr::Int(row.1))?;
    let right = Boxed::new(alloc, Expr::Int(row.2))?;
    let expr = Expr::Binary {
        op: row.0,
        left,
        right,
    };
    let value = match eval_row(&expr, &NoColumns) {
        Ok(CellRef::Int(n)) => Some(n),
        _ => None,
    };
    Ok(value == row.3)
}

#[test]
fn arithmetic_has_a_value_where_it_is_an_i64(rt: HostRuntime) -> Result<(), Fail> {
    for (row, case) in VALUES.iter().enumerate() {
        assert!(rt; has_value(rt.alloc(), case)?, "row {row}");
    }
    Ok(())
}
