//! Which clauses fit a schema, and the schema that they give.

ghost use Rattle.std.specs.Prelude.{◌≡◌, ◌<◌, ◌++◌, ◌∷◌, [], length, true, false, IfOk, OnOk, Some, None, is_some, option_map, slice_set, if◌then◌else◌};
ghost use Rattle.frame_core.specs.declared.cell.ColType.TheVariants as types;
ghost use Rattle.frame_core.specs.Refusals.{Answers};
ghost use Rattle.frame_core.specs.Selecting.{place_of};
ghost use Rattle.expr_clause.specs.Exprs.{expr_type, has_type};
ghost use Rattle.expr_clause.specs.Fitting.{fits};
ghost use Rattle.expr_clause.specs.Typing.{absent_from, agg_type, check, check_clause, group_columns, needs_time, out_type, schema_after, with_column};

use crate::clause::{Agg, Clause, Out};
use crate::expr::Expr;
use crate::kinds::{type_of_expr, type_of_name};
use crate::naming::clause_names;
use base_types::{Keep, NoMemory};
use frame_core::{ColName, ColType, Refusal, Schema, place_of_name};
use std::alloc::Global;

/// The schema that the clauses give of this one, or the refusal of the first clause that does not fit.
///
/// Within a clause absent columns come first, at the position of the first one, then types, then a range of stamps where
/// rows have none. Clauses and positions are counted from 1.
pub fn check(alloc: Global, clauses: &[Clause], schema: &Schema) -> Result<Schema, Refusal>
    requires { fits clauses.now ≡ true }
    ensures { Answers result (check clauses.now schema.now) }
{
    let mut given = schema.copy(alloc)?;
    for number in 0..clauses.len() {
        given = check_one(alloc, number as u64 + 1, &clauses[number], &given)?;
    }
    Ok(given)
}

/// The schema that a clause of this number gives, or its refusal.
fn check_one(alloc: Global, clause: u64, what: &Clause, schema: &Schema) -> Result<Schema, Refusal>
    ensures { Answers result (check_clause clause what.now schema.now) }
{
    let names = clause_names(alloc, what)?;
    if let Some(position) = first_absent(names.items(), schema.columns()) {
        return Err(Refusal::NoSuchColumn { clause, position });
    }
    match schema_after(alloc, what, schema)? {
        None => Err(Refusal::TypeMismatch { clause }),
        Some(given) => {
            if speaks_of_time(what) && !schema.timed() {
                Err(Refusal::NotTimeIndexed { clause })
            } else {
                Ok(given)
            }
        }
    }
}

/// The position of the first name that is no column, counted from 1.
fn first_absent(names: &[ColName], columns: &[(ColName, ColType)]) -> Option<u64>
    ensures { result ≡ absent_from 1 columns.now names.now }
{
    for place in 0..names.len() {
        if place_of_name(&names[place], columns).is_none() {
            return Some(place as u64 + 1);
        }
    }
    None
}

/// Whether a clause speaks of stamps.
fn speaks_of_time(clause: &Clause) -> bool
    ensures { result ≡ needs_time clause.now }
{
    match clause {
        Clause::DateRange(_) => true,
        Clause::Filter(_) | Clause::Apply { .. } | Clause::Group { .. } => false,
    }
}

/// The schema that a clause gives, where its types fit.
pub fn schema_after(
    alloc: Global,
    clause: &Clause,
    schema: &Schema,
) -> Result<Option<Schema>, NoMemory>
    ensures { IfOk result (λ given. given ≡ schema_after clause.now schema.now) }
{
    match clause {
        Clause::DateRange(_) => Ok(Some(schema.copy(alloc)?)),
        Clause::Filter(expr) => filtered(alloc, expr, schema),
        Clause::Apply { name, expr } => applied(alloc, name, expr, schema),
        Clause::Group { key, outs } => grouped(alloc, key, outs.items(), schema.columns()),
    }
}

/// The schema itself, where the expression is a flag.
fn filtered(alloc: Global, expr: &Expr, schema: &Schema) -> Result<Option<Schema>, NoMemory>
    ensures { IfOk result (λ given. given ≡ (if has_type types.Flag (expr_type schema.now.columns expr.now) then Some schema.now else None)) }
{
    match type_of_expr(expr, schema.columns()) {
        Some(ColType::Flag) => Ok(Some(schema.copy(alloc)?)),
        Some(ColType::Int) | Some(ColType::Text) | Some(ColType::Stamp) | None => Ok(None),
    }
}

/// The schema with a column of the expression's type, where it has one.
fn applied(
    alloc: Global,
    name: &ColName,
    expr: &Expr,
    schema: &Schema,
) -> Result<Option<Schema>, NoMemory>
    ensures { IfOk result (λ given. given ≡ option_map (λ kind. record schema.now { columns = with_column name.now kind schema.now.columns })
        (expr_type schema.now.columns expr.now)) }
{
    match type_of_expr(expr, schema.columns()) {
        Some(kind) => Ok(Some(with_one(alloc, name, kind, schema)?)),
        None => Ok(None),
    }
}

/// The schema with a column more, or with this one in the place of the one of its name.
fn with_one(
    alloc: Global,
    name: &ColName,
    kind: ColType,
    schema: &Schema,
) -> Result<Schema, NoMemory>
    ensures { IfOk result (λ given. given ≡ record schema.now { columns = with_column name.now kind schema.now.columns }) }
{
    let columns = schema.columns();
    match place_of_name(name, columns) {
        None => {
            let mut given = schema.copy(alloc)?;
            given.push(name.copy(alloc)?, kind)?;
            Ok(given)
        }
        Some(place) => replaced(alloc, place, name, kind, schema.timed(), columns),
    }
}

/// A schema of these columns, with this one at a place.
fn replaced(
    alloc: Global,
    place: usize,
    name: &ColName,
    kind: ColType,
    timed: bool,
    columns: &[(ColName, ColType)],
) -> Result<Schema, NoMemory>
    requires { place < length columns.now }
    ensures { IfOk result (λ given. given ≡ record { timed = timed; columns = slice_set columns.now place (name.now, kind) }) }
{
    let given = Schema::empty(alloc, timed);
    between(
        alloc,
        &columns[..place],
        name,
        kind,
        &columns[place + 1..],
        given,
    )
}

/// The schema with these columns, then this one, and then those.
fn between(
    alloc: Global,
    front: &[(ColName, ColType)],
    name: &ColName,
    kind: ColType,
    back: &[(ColName, ColType)],
    schema: Schema,
) -> Result<Schema, NoMemory>
    ensures { IfOk result (λ given. given ≡ record schema { columns = ((schema.columns ++ front.now) ++ (name.now, kind) ∷ []) ++ back.now }) }
{
    let mut given = schema;
    add_columns(alloc, front, &mut given)?;
    given.push(name.copy(alloc)?, kind)?;
    add_columns(alloc, back, &mut given)?;
    Ok(given)
}

/// Adds these columns behind those of a schema.
fn add_columns(
    alloc: Global,
    columns: &[(ColName, ColType)],
    given: &mut Schema,
) -> Result<(), NoMemory>
    ensures { OnOk result (given.new ≡ record given.old { columns = given.old.columns ++ columns.now }) }
{
    for (name, kind) in columns {
        given.push(name.copy(alloc)?, *kind)?;
    }
    Ok(())
}

/// The schema of a group: its key, and then its outputs, where their types fit and no name stands twice.
fn grouped(
    alloc: Global,
    key: &ColName,
    outs: &[Out],
    columns: &[(ColName, ColType)],
) -> Result<Option<Schema>, NoMemory>
    ensures { IfOk result (λ given. given ≡ option_map (λ all. record { timed = false; columns = all }) (group_columns columns.now key.now outs.now)) }
{
    let mut given = Schema::empty(alloc, false);
    match type_of_name(key, columns) {
        None => return Ok(None),
        Some(kind) => given.push(key.copy(alloc)?, kind)?,
    }
    for out in outs {
        match type_of_new(out, columns, given.columns()) {
            None => return Ok(None),
            Some(kind) => given.push(out.name.copy(alloc)?, kind)?,
        }
    }
    Ok(Some(given))
}

/// The type of an output, where it has one and its name does not stand among those that were made.
fn type_of_new(
    out: &Out,
    columns: &[(ColName, ColType)],
    made: &[(ColName, ColType)],
) -> Option<ColType>
    ensures { result ≡ (if is_some (place_of out.now.name made.now) then None else out_type columns.now out.now) }
{
    if place_of_name(&out.name, made).is_some() {
        return None;
    }
    type_of_agg(out.agg, type_of_name(&out.of, columns)?)
}

/// The type of what an aggregator makes of a column, if it takes it.
fn type_of_agg(agg: Agg, kind: ColType) -> Option<ColType>
    ensures { result ≡ agg_type agg kind }
{
    match (agg, kind) {
        (Agg::Count, _) => Some(ColType::Int),
        (Agg::Sum, ColType::Int) => Some(ColType::Int),
        (Agg::Sum, _) => None,
        (_, ColType::Int) => Some(ColType::Int),
        (_, ColType::Stamp) => Some(ColType::Stamp),
        (_, _) => None,
    }
}
