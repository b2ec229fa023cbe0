use expr_clause::{BinOp, Boxed, Clause, Clauses, Expr, Literal, Literals, UnOp, fits};
use frame_core::{CellRef, ColName, Column, Frame, Items, RawFrame, Refusal};
use row_clauses::apply_clauses;
use std::alloc::Global;
use std::test::Fail;

// Stamps, and two columns of numbers with their names.
type Numbers = (
    &'static [i64],
    (&'static str, &'static [i64]),
    (&'static str, &'static [i64]),
);

// A time, a price and a size.
const TRADES: Numbers = (
    &[1, 2, 2, 4, 9],
    ("price", &[100, 101, 102, 99, 105]),
    ("size", &[5, 7, 1, 3, 2]),
);

// All numbers are 0 but that of b in row 3 and that of a in row 7.
const BIG: Numbers = (
    &[1, 2, 3, 4, 5, 6, 7, 8],
    ("a", &[0, 0, 0, 0, 0, 0, i64::MAX, 0]),
    ("b", &[0, 0, i64::MAX, 0, 0, 0, 0, 0]),
);

fn ints(alloc: Global, numbers: &[i64]) -> Result<Column, Fail> {
    Ok(Column::Ints(Items::from_slice(alloc, numbers)?))
}

fn frame_of(alloc: Global, numbers: &Numbers) -> Result<Frame, Fail> {
    let mut names = Items::new(alloc);
    names.push(ColName::make(alloc, numbers.1.0)?)?;
    names.push(ColName::make(alloc, numbers.2.0)?)?;
    let mut columns = Items::new(alloc);
    columns.push(ints(alloc, numbers.1.1)?)?;
    columns.push(ints(alloc, numbers.2.1)?)?;
    let stamps = Items::from_slice(alloc, numbers.0)?;
    let raw = RawFrame {
        stamps,
        names,
        columns,
    };
    Ok(Frame::make(alloc, &raw)?)
}

fn column(alloc: Global, name: &str) -> Result<Boxed<Expr>, Fail> {
    Ok(Boxed::new(alloc, Expr::Col(ColName::make(alloc, name)?))?)
}

fn number(alloc: Global, n: i64) -> Result<Boxed<Expr>, Fail> {
    Ok(Boxed::new(alloc, Expr::Int(n))?)
}

fn both(op: BinOp, left: Boxed<Expr>, right: Boxed<Expr>) -> Expr {
    Expr::Binary { op, left, right }
}

// apply NAME = COLUMN + 1
fn one_more(alloc: Global, name: &str, of: &str) -> Result<Clause, Fail> {
    let expr = both(BinOp::Add, column(alloc, of)?, number(alloc, 1)?);
    Ok(Clause::Apply {
        name: ColName::make(alloc, name)?,
        expr,
    })
}

// apply x = a + 1 |> apply y = b + 1
fn two_sums(alloc: Global) -> Result<Clauses, Fail> {
    let mut clauses = Clauses::new(alloc);
    clauses.push(one_more(alloc, "x", "a")?)?;
    clauses.push(one_more(alloc, "y", "b")?)?;
    Ok(clauses)
}

// filter b == 0 |> apply x = a + 1
fn kept_sum(alloc: Global) -> Result<Clauses, Fail> {
    let expr = both(BinOp::Eq, column(alloc, "b")?, number(alloc, 0)?);
    let mut clauses = Clauses::new(alloc);
    clauses.push(Clause::Filter(expr))?;
    clauses.push(one_more(alloc, "x", "a")?)?;
    Ok(clauses)
}

// price isin [99, 101]
fn among(alloc: Global) -> Result<Boxed<Expr>, Fail> {
    let mut list = Literals::new(alloc);
    list.push(Literal::Int(99))?;
    list.push(Literal::Int(101))?;
    let arg = column(alloc, "price")?;
    Ok(Boxed::new(
        alloc,
        Expr::Among {
            arg,
            list,
            negated: false,
        },
    )?)
}

// ~(size > 5)
fn small(alloc: Global) -> Result<Boxed<Expr>, Fail> {
    let large = both(BinOp::Gt, column(alloc, "size")?, number(alloc, 5)?);
    let arg = Boxed::new(alloc, large)?;
    Ok(Boxed::new(alloc, Expr::Unary { op: UnOp::Not, arg })?)
}

// filter price isin [99, 101] & ~(size > 5) |> apply n = price - size
fn worked(alloc: Global) -> Result<Clauses, Fail> {
    let filter = both(BinOp::And, among(alloc)?, small(alloc)?);
    let expr = both(BinOp::Sub, column(alloc, "price")?, column(alloc, "size")?);
    let name = ColName::make(alloc, "n")?;
    let mut clauses = Clauses::new(alloc);
    clauses.push(Clause::Filter(filter))?;
    clauses.push(Clause::Apply { name, expr })?;
    Ok(clauses)
}

// filter price
fn untrue(alloc: Global) -> Result<Clauses, Fail> {
    let mut clauses = Clauses::new(alloc);
    clauses.push(Clause::Filter(Expr::Col(ColName::make(alloc, "price")?)))?;
    Ok(clauses)
}

fn applied(
    alloc: Global,
    numbers: &Numbers,
    clauses: &Clauses,
) -> Result<Result<Frame, Refusal>, Fail> {
    let frame = frame_of(alloc, numbers)?;
    if !fits(clauses.items()) {
        return Ok(Err(Refusal::NoMemory));
    }
    Ok(apply_clauses(alloc, frame, clauses.items()))
}

fn refusal_of(
    alloc: Global,
    numbers: &Numbers,
    clauses: &Clauses,
) -> Result<Option<Refusal>, Fail> {
    Ok(applied(alloc, numbers, clauses)?.err())
}

// Whether a frame has one row, of this stamp and these numbers.
fn is_row(frame: &Frame, stamp: i64, numbers: &[i64]) -> bool {
    let cols = frame.schema().len();
    if frame.rows() != 1 || cols != numbers.len() || frame.stamp(0) != stamp {
        return false;
    }
    for place in 0..cols {
        if !matches!(frame.cell(0, place as u64), CellRef::Int(n) if n == numbers[place]) {
            return false;
        }
    }
    true
}

#[test]
fn the_least_row_refuses_at_its_first_failing_clause(rt: HostRuntime) -> Result<(), Fail> {
    let alloc = rt.alloc();
    let third = Refusal::Overflow { clause: 2, row: 3 };
    let seventh = Refusal::Overflow { clause: 2, row: 7 };
    assert!(rt; refusal_of(alloc, &BIG, &two_sums(alloc)?)? == Some(third));
    assert!(rt; refusal_of(alloc, &BIG, &kept_sum(alloc)?)? == Some(seventh));
    Ok(())
}

#[test]
fn clauses_that_do_not_fit_the_frame_are_refused(rt: HostRuntime) -> Result<(), Fail> {
    let alloc = rt.alloc();
    let absent = Refusal::NoSuchColumn {
        clause: 1,
        position: 1,
    };
    let untyped = Refusal::TypeMismatch { clause: 1 };
    assert!(rt; refusal_of(alloc, &BIG, &worked(alloc)?)? == Some(absent));
    assert!(rt; refusal_of(alloc, &TRADES, &untrue(alloc)?)? == Some(untyped));
    Ok(())
}

#[test]
fn a_filter_and_a_computed_column_give_one_row(rt: HostRuntime) -> Result<(), Fail> {
    let alloc = rt.alloc();
    let given = applied(alloc, &TRADES, &worked(alloc)?)?;
    assert!(rt; matches!(&given, Ok(frame) if is_row(frame, 4, &[99, 3, 96])));
    Ok(())
}
