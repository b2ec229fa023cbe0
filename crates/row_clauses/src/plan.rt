//! The names of a run are looked up once, for all its rows.

ghost use Rattle.std.specs.Prelude.{◌≡◌, ◌+◌, [], length, map, IfOk, OnOk};
ghost use Rattle.expr_clause.specs.Typing.{clause_columns, put_at};
ghost use Rattle.row_clauses.specs.Lying.{count_after, lay, places_from, spot};
ghost use Rattle.row_clauses.specs.Plans.{IsAdded, IsPlan};

use base_types::{Items, Keep, NoMemory};
use expr_clause::{Clause, clause_names, schema_after};
use frame_core::{ColName, ColType, Schema, place_of_name};
use std::alloc::Global;

/// What a run does, its columns named by places. A row's cells are those of the frame's row, and behind them those that the
/// run computed.
#[derive(Drop)]
pub(crate) struct Plan {
    /// The schema after the clauses.
    pub schema: Schema,
    /// Where the columns of that schema lie among the cells.
    pub layout: Vec<usize>,
    /// How many cells there are in the end.
    pub count: usize,
    /// Where each clause finds the columns that it names, in the order in which it names them.
    pub spots: Items<Items<Option<usize>>>,
}

/// The plan of clauses over rows of this schema.
pub(crate) fn planned(alloc: Global, clauses: &[Clause], schema: &Schema) -> Result<Plan, NoMemory>
    ensures { IfOk result (λ plan. IsPlan schema.now clauses.now plan) }
{
    let mut plan = unplanned(alloc, schema)?;
    for clause in clauses {
        plan.add(alloc, clause)?;
    }
    Ok(plan)
}

/// The plan of no clause.
fn unplanned(alloc: Global, schema: &Schema) -> Result<Plan, NoMemory>
    ensures schema { IfOk result (λ plan. plan.schema ≡ schema.now) }
    ensures layout { IfOk result (λ plan. plan.layout.items ≡ places_from 0 (length schema.now.columns)) }
    ensures count { IfOk result (λ plan. plan.count ≡ length schema.now.columns) }
    ensures spots { IfOk result (λ plan. plan.spots ≡ []) }
{
    let layout = first_places(alloc, schema.len())?;
    let schema = schema.copy(alloc)?;
    let count = schema.len();
    Ok(Plan {
        schema,
        layout,
        count,
        spots: Items::new(alloc),
    })
}

/// The places of so many columns, one after another.
fn first_places(alloc: Global, count: usize) -> Result<Vec<usize>, NoMemory>
    ensures { IfOk result (λ layout. layout.items ≡ places_from 0 count) }
{
    let mut layout = Vec::with_capacity(alloc, count)?;
    for place in 0..count {
        layout.push(place)?;
    }
    Ok(layout)
}

impl Plan {
    /// Adds a clause behind the others.
    fn add(&mut self, alloc: Global, clause: &Clause) -> Result<(), NoMemory>
        ensures { OnOk result (IsAdded clause.now self.old self.new) }
    {
        let spots = spots_of(alloc, clause, &self.schema, &self.layout)?;
        self.spots.push(spots)?;
        self.lay(clause)?;
        if let Some(schema) = schema_after(alloc, clause, &self.schema)? {
            self.schema = schema;
        }
        Ok(())
    }

    /// Gives the column that a clause computes its place, behind the other cells.
    fn lay(&mut self, clause: &Clause) -> Result<(), NoMemory>
        ensures layout { OnOk result (self.new.layout.items ≡ lay clause.now self.old.schema.columns self.old.layout.items self.old.count) }
        ensures count { OnOk result (self.new.count ≡ count_after clause.now self.old.count) }
        ensures schema { self.new.schema ≡ self.old.schema }
        ensures spots { self.new.spots ≡ self.old.spots }
    {
        if let Clause::Apply { name, .. } = clause {
            let place = place_of_name(name, self.schema.columns());
            put_place(&mut self.layout, place, self.count)?;
            self.count = after_one(self.count)?;
        }
        Ok(())
    }
}

/// One more. So many cells are not in memory.
fn after_one(count: usize) -> Result<usize, NoMemory>
    ensures { IfOk result (λ more. more ≡ count + 1) }
{
    match count.checked_add(1) {
        Some(more) => Ok(more),
        None => Err(NoMemory),
    }
}

/// Puts a place of a cell in the place of a column, or behind those of the others.
fn put_place(layout: &mut Vec<usize>, column: Option<usize>, cell: usize) -> Result<(), NoMemory>
    ensures { OnOk result (layout.new.items ≡ put_at column cell layout.old.items) }
{
    match column {
        Some(column) => {
            if column < layout.len() {
                layout[column] = cell;
            }
        }
        None => layout.push(cell)?,
    }
    Ok(())
}

/// Where a clause finds the columns that it names, in the order in which it names them.
fn spots_of(
    alloc: Global,
    clause: &Clause,
    schema: &Schema,
    layout: &[usize],
) -> Result<Items<Option<usize>>, NoMemory>
    ensures { IfOk result (λ spots. spots ≡ map (spot schema.now.columns layout.now) (clause_columns clause.now)) }
{
    let names = clause_names(alloc, clause)?;
    let mut spots = Items::with_capacity(alloc, names.len())?;
    for name in names.items() {
        spots.push(spot(name, schema.columns(), layout))?;
    }
    Ok(spots)
}

/// Where the column of a name lies. A checked clause names no column that is not there.
fn spot(name: &ColName, columns: &[(ColName, ColType)], layout: &[usize]) -> Option<usize>
    ensures { result ≡ spot columns.now layout.now name.now }
{
    match place_of_name(name, columns) {
        Some(place) => layout.get(place).copied(),
        None => None,
    }
}
