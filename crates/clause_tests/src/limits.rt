use expr_clause::{BinOp, Boxed, Clause, Clauses, Expr, Literal, Literals, UnOp, fits};
use std::alloc::Global;
use std::test::Fail;

// So many operators with one operand over an expression.
fn under(alloc: Global, count: u64, expr: Expr) -> Result<Expr, Fail> {
    let mut whole = expr;
    for _ in 0..count {
        whole = Expr::Unary {
            op: UnOp::Not,
            arg: Boxed::new(alloc, whole)?,
        };
    }
    Ok(whole)
}

// 15 operators between flags, each with 15 operators over its left flag: 256 nodes, of which the deepest stands at 31.
fn comb(alloc: Global) -> Result<Expr, Fail> {
    let mut whole = Expr::Flag(true);
    for _ in 0..15 {
        let left = Boxed::new(alloc, under(alloc, 15, Expr::Flag(true))?)?;
        whole = Expr::Binary {
            op: BinOp::And,
            left,
            right: Boxed::new(alloc, whole)?,
        };
    }
    Ok(whole)
}

// A test for membership in a list of so many literals.
fn among(alloc: Global, count: u64) -> Result<Expr, Fail> {
    let mut list = Literals::new(alloc);
    for _ in 0..count {
        list.push(Literal::Int(1))?;
    }
    Ok(Expr::Among {
        arg: Boxed::new(alloc, Expr::Int(1))?,
        list,
        negated: false,
    })
}

fn fits_alone(alloc: Global, expr: Expr) -> Result<bool, Fail> {
    let mut clauses = Clauses::new(alloc);
    clauses.push(Clause::Filter(expr))?;
    Ok(fits(clauses.items()))
}

// So many filters without a limit of their own.
fn fit_together(alloc: Global, count: u64) -> Result<bool, Fail> {
    let mut clauses = Clauses::new(alloc);
    for _ in 0..count {
        clauses.push(Clause::Filter(Expr::Flag(true)))?;
    }
    Ok(fits(clauses.items()))
}

#[test]
fn an_expression_has_at_most_256_nodes(rt: HostRuntime) -> Result<(), Fail> {
    let alloc = rt.alloc();
    assert!(rt; fits_alone(alloc, comb(alloc)?)?);
    assert!(rt; !fits_alone(alloc, under(alloc, 1, comb(alloc)?)?)?);
    Ok(())
}

#[test]
fn an_expression_is_at_most_32_deep(rt: HostRuntime) -> Result<(), Fail> {
    let alloc = rt.alloc();
    assert!(rt; fits_alone(alloc, under(alloc, 31, Expr::Flag(true))?)?);
    assert!(rt; !fits_alone(alloc, under(alloc, 32, Expr::Flag(true))?)?);
    Ok(())
}

#[test]
fn a_list_has_1_to_64_literals(rt: HostRuntime) -> Result<(), Fail> {
    let alloc = rt.alloc();
    assert!(rt; !fits_alone(alloc, among(alloc, 0)?)?);
    assert!(rt; fits_alone(alloc, among(alloc, 64)?)?);
    assert!(rt; !fits_alone(alloc, among(alloc, 65)?)?);
    Ok(())
}

#[test]
fn a_read_has_at_most_16_clauses(rt: HostRuntime) -> Result<(), Fail> {
    let alloc = rt.alloc();
    assert!(rt; fit_together(alloc, 16)?);
    assert!(rt; !fit_together(alloc, 17)?);
    Ok(())
}
