use expr_clause::{Agg, BinOp, Boxed, Clause, Clauses, Expr, Out, Outs, check, fits};
use frame_core::{ColName, ColType, Range, Refusal, Schema};
use std::alloc::Global;
use std::test::Fail;

fn column(alloc: Global, name: &str) -> Result<Expr, Fail> {
    Ok(Expr::Col(ColName::make(alloc, name)?))
}

fn both(alloc: Global, op: BinOp, left: Expr, right: Expr) -> Result<Expr, Fail> {
    let left = Boxed::new(alloc, left)?;
    let right = Boxed::new(alloc, right)?;
    Ok(Expr::Binary { op, left, right })
}

// A time, a price and a size.
fn schema(alloc: Global) -> Result<Schema, Fail> {
    let mut schema = Schema::empty(alloc, true);
    schema.push(ColName::make(alloc, "price")?, ColType::Int)?;
    schema.push(ColName::make(alloc, "size")?, ColType::Int)?;
    Ok(schema)
}

// filter NAME > 1 & price < ask
fn compared(alloc: Global, name: &str) -> Result<Clauses, Fail> {
    let above = both(alloc, BinOp::Gt, column(alloc, name)?, Expr::Int(1))?;
    let below = both(
        alloc,
        BinOp::Lt,
        column(alloc, "price")?,
        column(alloc, "ask")?,
    )?;
    let mut clauses = Clauses::new(alloc);
    clauses.push(Clause::Filter(both(alloc, BinOp::And, above, below)?))?;
    Ok(clauses)
}

// filter price
fn untrue(alloc: Global) -> Result<Clauses, Fail> {
    let mut clauses = Clauses::new(alloc);
    clauses.push(Clause::Filter(column(alloc, "price")?))?;
    Ok(clauses)
}

// groupby price agg n=count(size)
fn counted(alloc: Global) -> Result<Clause, Fail> {
    let mut outs = Outs::new(alloc);
    outs.push(Out {
        name: ColName::make(alloc, "n")?,
        agg: Agg::Count,
        of: ColName::make(alloc, "size")?,
    })?;
    let key = ColName::make(alloc, "price")?;
    Ok(Clause::Group { key, outs })
}

// groupby price agg n=count(size), and then date_range 1..2
fn untimed(alloc: Global) -> Result<Clauses, Fail> {
    let mut clauses = Clauses::new(alloc);
    clauses.push(counted(alloc)?)?;
    if let Some(range) = Range::make(Some(1), Some(2)) {
        clauses.push(Clause::DateRange(range))?;
    }
    Ok(clauses)
}

fn refusal_of(alloc: Global, clauses: &Clauses) -> Result<Option<Refusal>, Fail> {
    if !fits(clauses.items()) {
        return Ok(None);
    }
    match check(alloc, clauses.items(), &schema(alloc)?) {
        Ok(_) => Ok(None),
        Err(refusal) => Ok(Some(refusal)),
    }
}

#[test]
fn clauses_that_do_not_fit_are_refused_at_their_place(rt: HostRuntime) -> Result<(), Fail> {
    let alloc = rt.alloc();
    let first = Refusal::NoSuchColumn {
        clause: 1,
        position: 1,
    };
    let third = Refusal::NoSuchColumn {
        clause: 1,
        position: 3,
    };
    assert!(rt; refusal_of(alloc, &compared(alloc, "bid")?)? == Some(first));
    assert!(rt; refusal_of(alloc, &compared(alloc, "size")?)? == Some(third));
    assert!(rt; refusal_of(alloc, &untrue(alloc)?)? == Some(Refusal::TypeMismatch { clause: 1 }));
    assert!(rt;
        refusal_of(alloc, &untimed(alloc)?)? == Some(Refusal::NotTimeIndexed { clause: 2 })
    );
    Ok(())
}
