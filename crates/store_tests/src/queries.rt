ghost use Rattle.std.specs.Prelude.{◌≡◌, ◌<◌, true, length, IfOk, ℕ};
ghost use Rattle.library_api.specs.Steps.{is_carried_out, IsNamed};

use crate::asks::{library, step};
use crate::stores::{store, symbol, tiles};
use base_types::Items;
use bucket_core::PlainBucket;
use expr_clause::{
    Agg, AsOf, BinOp, Boxed, Clause, Clauses, ColNames, Command, Expr, Literal, Literals, Out,
    Outs, UnOp,
};
use frame_core::{CellRef, ColName, Column, Frame, Range, RawFrame, Refusal, TextList};
use key_kind::Symbol;
use library_api::{Library, is_carried_out};
use reply_model::{Outcome, Reply};
use std::alloc::Global;
use std::sync::Wait;
use std::test::Fail;
use version_chain::StoreLaw;

/// The cells of one column.
#[derive(Clone, Copy)]
enum Cells {
    Ints(&'static [i64]),
    Texts(&'static [&'static str]),
}

/// A cell that is expected.
#[derive(Clone, Copy)]
enum Wanted {
    Int(i64),
    Text(&'static str),
}

/// Stamps, and the columns by their names.
type Table = (&'static [i64], &'static [(&'static str, Cells)]);

/// A time, a price and a size.
const TRADES: Table = (
    &[1, 2, 2, 4, 9],
    &[
        ("price", Cells::Ints(&[100, 101, 102, 99, 105])),
        ("size", Cells::Ints(&[5, 7, 1, 3, 2])),
    ],
);

/// All numbers are 0 but that of b in row 3 and that of a in row 7.
const BIG: Table = (
    &[1, 2, 3, 4, 5, 6, 7, 8],
    &[
        ("a", Cells::Ints(&[0, 0, 0, 0, 0, 0, i64::MAX, 0])),
        ("b", Cells::Ints(&[0, 0, i64::MAX, 0, 0, 0, 0, 0])),
    ],
);

/// Quantities of two symbols.
const LOTS: Table = (
    &[1, 2, 3],
    &[
        ("sym", Cells::Texts(&["x", "x", "y"])),
        ("q", Cells::Ints(&[i64::MAX - 1, 1, 5])),
    ],
);

/// The same with one more of the first symbol.
const MORE_LOTS: Table = (
    &[1, 2, 3, 4],
    &[
        ("sym", Cells::Texts(&["x", "x", "y", "x"])),
        ("q", Cells::Ints(&[i64::MAX - 1, 1, 5, 1])),
    ],
);

fn column_of(alloc: Global, cells: Cells) -> Result<Column, Fail> {
    match cells {
        Cells::Ints(numbers) => Ok(Column::Ints(Items::from_slice(alloc, numbers)?)),
        Cells::Texts(texts) => {
            let mut list = TextList::new(alloc);
            for text in texts {
                list.push(text)?;
            }
            Ok(Column::Texts(list))
        }
    }
}

fn raw_of(alloc: Global, table: Table) -> Result<RawFrame, Fail> {
    let mut raw = RawFrame {
        stamps: Items::from_slice(alloc, table.0)?,
        names: Items::new(alloc),
        columns: Items::new(alloc),
    };
    for (name, cells) in table.1 {
        raw.names.push(ColName::make(alloc, name)?)?;
        raw.columns.push(column_of(alloc, *cells)?)?;
    }
    Ok(raw)
}

// ---- clauses

fn column(alloc: Global, name: &str) -> Result<Expr, Fail> {
    Ok(Expr::Col(ColName::make(alloc, name)?))
}

fn both(alloc: Global, op: BinOp, left: Expr, right: Expr) -> Result<Expr, Fail> {
    let left = Boxed::new(alloc, left)?;
    let right = Boxed::new(alloc, right)?;
    Ok(Expr::Binary { op, left, right })
}

// An operator between a column and a number.
fn with_number(alloc: Global, op: BinOp, name: &str, number: i64) -> Result<Expr, Fail> {
    both(alloc, op, column(alloc, name)?, Expr::Int(number))
}

fn not(alloc: Global, expr: Expr) -> Result<Expr, Fail> {
    let arg = Boxed::new(alloc, expr)?;
    Ok(Expr::Unary { op: UnOp::Not, arg })
}

fn apply(alloc: Global, name: &str, expr: Expr) -> Result<Clause, Fail> {
    let name = ColName::make(alloc, name)?;
    Ok(Clause::Apply { name, expr })
}

fn out(alloc: Global, name: &str, agg: Agg, of: &str) -> Result<Out, Fail> {
    let name = ColName::make(alloc, name)?;
    let of = ColName::make(alloc, of)?;
    Ok(Out { name, agg, of })
}

// NAME = OF + 1
fn one_more(alloc: Global, name: &str, of: &str) -> Result<Clause, Fail> {
    apply(alloc, name, with_number(alloc, BinOp::Add, of, 1)?)
}

// apply x = a + 1, and then apply y = b + 1
fn two_sums(alloc: Global, clauses: &mut Clauses) -> Result<(), Fail> {
    clauses.push(one_more(alloc, "x", "a")?)?;
    Ok(clauses.push(one_more(alloc, "y", "b")?)?)
}

// groupby sym agg total=sum(q), n=count(q)
fn totals(alloc: Global, clauses: &mut Clauses) -> Result<(), Fail> {
    let mut outs = Outs::new(alloc);
    outs.push(out(alloc, "total", Agg::Sum, "q")?)?;
    outs.push(out(alloc, "n", Agg::Count, "q")?)?;
    push_group(alloc, clauses, "sym", outs)
}

fn push_group(alloc: Global, clauses: &mut Clauses, key: &str, outs: Outs) -> Result<(), Fail> {
    let key = ColName::make(alloc, key)?;
    Ok(clauses.push(Clause::Group { key, outs })?)
}

// groupby price agg n=count(size), and then date_range 1..2
fn untimed(alloc: Global, clauses: &mut Clauses) -> Result<(), Fail> {
    let mut outs = Outs::new(alloc);
    outs.push(out(alloc, "n", Agg::Count, "size")?)?;
    push_group(alloc, clauses, "price", outs)?;
    let range = Range::make(Some(1), Some(2)).unwrap();
    Ok(clauses.push(Clause::DateRange(range))?)
}

// price < ask
fn below_ask(alloc: Global) -> Result<Expr, Fail> {
    both(
        alloc,
        BinOp::Lt,
        column(alloc, "price")?,
        column(alloc, "ask")?,
    )
}

// filter bid > 1 & price < ask
fn absent(alloc: Global, clauses: &mut Clauses) -> Result<(), Fail> {
    let above = with_number(alloc, BinOp::Gt, "bid", 1)?;
    let both = both(alloc, BinOp::And, above, below_ask(alloc)?)?;
    Ok(clauses.push(Clause::Filter(both))?)
}

// price isin [99, 101]
fn among(alloc: Global) -> Result<Expr, Fail> {
    let arg = Boxed::new(alloc, column(alloc, "price")?)?;
    let mut list = Literals::new(alloc);
    list.push(Literal::Int(99))?;
    list.push(Literal::Int(101))?;
    Ok(Expr::Among {
        arg,
        list,
        negated: false,
    })
}

// ~(size > 5)
fn small(alloc: Global) -> Result<Expr, Fail> {
    not(alloc, with_number(alloc, BinOp::Gt, "size", 5)?)
}

// filter price isin [99, 101] & ~(size > 5)
fn chosen(alloc: Global) -> Result<Clause, Fail> {
    Ok(Clause::Filter(both(alloc, BinOp::And, among(alloc)?, small(alloc)?)?))
}

// price - size
fn less(alloc: Global) -> Result<Expr, Fail> {
    both(
        alloc,
        BinOp::Sub,
        column(alloc, "price")?,
        column(alloc, "size")?,
    )
}

// filter price isin [99, 101] & ~(size > 5), and then apply n = price - size
fn computed(alloc: Global, clauses: &mut Clauses) -> Result<(), Fail> {
    clauses.push(chosen(alloc)?)?;
    Ok(clauses.push(apply(alloc, "n", less(alloc)?)?)?)
}

// filter price
fn untrue(alloc: Global, clauses: &mut Clauses) -> Result<(), Fail> {
    Ok(clauses.push(Clause::Filter(column(alloc, "price")?))?)
}

/// What is asked of the rows, by what its clauses are.
#[derive(Clone, Copy)]
enum Query {
    /// No clause, but columns of these names.
    Columns(&'static [&'static str]),
    TwoSums,
    Totals,
    Absent,
    Untrue,
    Untimed,
    Computed,
}

fn clauses_of(alloc: Global, query: Query) -> Result<Clauses, Fail> {
    let mut clauses = Clauses::new(alloc);
    match query {
        Query::Columns(_) => Ok(()),
        Query::TwoSums => two_sums(alloc, &mut clauses),
        Query::Totals => totals(alloc, &mut clauses),
        Query::Absent => absent(alloc, &mut clauses),
        Query::Untrue => untrue(alloc, &mut clauses),
        Query::Untimed => untimed(alloc, &mut clauses),
        Query::Computed => computed(alloc, &mut clauses),
    }?;
    Ok(clauses)
}

fn columns_of(alloc: Global, query: Query) -> Result<Option<ColNames>, Fail> {
    let Query::Columns(names) = query else {
        return Ok(None);
    };
    let mut list = ColNames::new(alloc);
    for name in names {
        list.push(ColName::make(alloc, name)?)?;
    }
    Ok(Some(list))
}

// ---- the library

fn write(alloc: Global) -> Result<Command, Fail>
    ensures served { IfOk result (λ command. is_carried_out command ≡ true) }
    ensures named { IfOk result (λ command. IsNamed 1 command) }
{
    Ok(Command::Write {
        symbol: symbol(alloc)?,
        frame: 0,
        at: Some(50),
        prune: false,
    })
}

fn read(alloc: Global, name: &str, query: Query) -> Result<Command, Fail>
    ensures { IfOk result (λ command. (n : ℕ) → IsNamed n command) }
{
    Ok(Command::Read {
        symbol: Symbol::make(alloc, name)?,
        as_of: AsOf::Back(1),
        range: Range::make(None, None).unwrap(),
        columns: columns_of(alloc, query)?,
        clauses: clauses_of(alloc, query)?,
    })
}

// A library whose S has this table, in tiles of so many rows.
fn written<R: Wait>(
    rt: &R,
    alloc: Global,
    table: Table,
    rows: u32,
) -> Result<Library<PlainBucket<StoreLaw>>, Fail> {
    let mut library = library(store(alloc, 1_000)?, tiles(rows, 127));
    write_one(rt, alloc, &mut library, raw_of(alloc, table)?)?;
    Ok(library)
}

fn write_one<R: Wait>(
    rt: &R,
    alloc: Global,
    library: &mut Library<PlainBucket<StoreLaw>>,
    raw: RawFrame,
) -> Result<(), Fail> {
    let command = write(alloc)?;
    let _ = step(rt, alloc, library, &command, &[raw]);
    Ok(())
}

// What a read answers, if its clauses are within the limits.
fn read_one<R: Wait>(
    rt: &R,
    alloc: Global,
    library: &mut Library<PlainBucket<StoreLaw>>,
    name: &str,
    query: Query,
) -> Result<Option<Reply>, Fail> {
    let command = read(alloc, name, query)?;
    if is_carried_out(&command) {
        Ok(Some(step(rt, alloc, library, &command, &[])))
    } else {
        Ok(None)
    }
}

// ---- what is wanted

/// The cells of each row, or the refusal.
#[derive(Clone, Copy)]
enum Answer {
    Rows(&'static [&'static [Wanted]]),
    Refused(Refusal),
}

fn is_cell(cell: CellRef<'_>, wanted: Wanted) -> bool {
    match (cell, wanted) {
        (CellRef::Int(number), Wanted::Int(other)) => number == other,
        (CellRef::Text(text), Wanted::Text(other)) => text == other,
        _ => false,
    }
}

fn has_row(frame: &Frame, row: u64, wanted: &[Wanted]) -> bool {
    let columns = frame.schema().len();
    if columns != wanted.len() || row >= frame.rows() {
        return false;
    }
    for place in 0..columns {
        if !is_cell(frame.cell(row, place as u64), wanted[place]) {
            return false;
        }
    }
    true
}

fn has_rows(frame: &Frame, wanted: &[&[Wanted]]) -> bool {
    for place in 0..wanted.len() {
        if !has_row(frame, place as u64, wanted[place]) {
            return false;
        }
    }
    frame.rows() == wanted.len() as u64
}

fn is_answer(reply: &Reply, place: u64, answer: Answer) -> bool {
    reply.place == place
        && match (&reply.outcome, answer) {
            (Outcome::Whole { frame, .. }, Answer::Rows(rows)) => has_rows(frame, rows),
            (Outcome::Refused { why }, Answer::Refused(wanted)) => *why == wanted,
            _ => false,
        }
}

/// A table, the rows of its tiles, the symbol that is read, what is asked, and the place and the answer.
type Row = (Table, u32, &'static str, Query, u64, Answer);

fn answers_so<R: Wait>(rt: &R, alloc: Global, row: &Row) -> Result<bool, Fail> {
    let mut library = written(rt, alloc, row.0, row.1)?;
    match read_one(rt, alloc, &mut library, row.2, row.3)? {
        Some(reply) => Ok(is_answer(&reply, row.4, row.5)),
        None => Ok(false),
    }
}

const READS: &[(&str, Row)] = &[
    (
        "the least row that overflows, at its first failing clause",
        (
            BIG,
            2,
            "S",
            Query::TwoSums,
            7,
            Answer::Refused(Refusal::Overflow { clause: 2, row: 3 }),
        ),
    ),
    (
        "a sum up to the greatest number, and a number of cells",
        (
            LOTS,
            100,
            "S",
            Query::Totals,
            4,
            Answer::Rows(&[
                &[Wanted::Text("x"), Wanted::Int(i64::MAX), Wanted::Int(2)],
                &[Wanted::Text("y"), Wanted::Int(5), Wanted::Int(1)],
            ]),
        ),
    ),
    (
        "a sum above it, at the least group",
        (
            MORE_LOTS,
            100,
            "S",
            Query::Totals,
            4,
            Answer::Refused(Refusal::GroupOverflow {
                clause: 1,
                group: 1,
            }),
        ),
    ),
    (
        "an absent column that is asked",
        (
            TRADES,
            100,
            "S",
            Query::Columns(&["price", "bid"]),
            4,
            Answer::Refused(Refusal::NoSuchColumn {
                clause: 0,
                position: 2,
            }),
        ),
    ),
    (
        "an absent column in a filter",
        (
            TRADES,
            100,
            "S",
            Query::Absent,
            4,
            Answer::Refused(Refusal::NoSuchColumn {
                clause: 1,
                position: 1,
            }),
        ),
    ),
    (
        "a filter that is no flag",
        (
            TRADES,
            100,
            "S",
            Query::Untrue,
            4,
            Answer::Refused(Refusal::TypeMismatch { clause: 1 }),
        ),
    ),
    (
        "a range of stamps behind a group",
        (
            TRADES,
            100,
            "S",
            Query::Untimed,
            4,
            Answer::Refused(Refusal::NotTimeIndexed { clause: 2 }),
        ),
    ),
    (
        "a symbol that is not there",
        (
            TRADES,
            100,
            "X",
            Query::Untimed,
            4,
            Answer::Refused(Refusal::NoSuchSymbol),
        ),
    ),
    (
        "a filter by a list and by what is not, and a computed column",
        (
            TRADES,
            100,
            "S",
            Query::Computed,
            4,
            Answer::Rows(&[&[Wanted::Int(99), Wanted::Int(3), Wanted::Int(96)]]),
        ),
    ),
];

#[test]
fn a_read_answers_what_its_clauses_give(rt: HostRuntime) -> Result<(), Fail> {
    for (name, row) in READS {
        assert!(rt; answers_so(&rt, rt.alloc(), row)?, "{name}");
    }
    Ok(())
}
