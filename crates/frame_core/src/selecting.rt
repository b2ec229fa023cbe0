//! The asked columns of a frame.

ghost use Rattle.std.specs.Prelude.{◌≡◌, ◌<◌, [], length, map, take, slice_index_or, if◌then◌else◌, None, Ok, IfOk};
ghost use Rattle.std.specs.List.{AllByRecursion, list_any};
ghost use Rattle.frame_core.specs.Schemas.{Head, Schema as Heading};
ghost use Rattle.frame_core.specs.Texts.{same_text};
ghost use Rattle.frame_core.specs.Refusals.{Answers};
ghost use Rattle.frame_core.specs.Selecting.{place_of, places_of, at_places, select, refuse_position};

use crate::cell::ColType;
use crate::column::Column;
use crate::frame::Frame;
use crate::making::repeats;
use crate::name::ColName;
use crate::refusal::Refusal;
use crate::schema::Schema;
use base_types::{Items, Keep, NoMemory};
use std::alloc::Global;

impl Frame {
    /// The columns of these names, in the order asked, in memory of their own.
    ///
    /// It refuses the first name that the frame lacks or that repeats one before it, as position of clause 0, counted from 1.
    pub fn select(&self, alloc: Global, names: &[ColName]) -> Result<Frame, Refusal>
        ensures { Answers result (refuse_position (select names.now self.now)) }
    {
        let places = asked_places(alloc, names, self.schema.columns())?;
        let schema = picked_schema(alloc, &self.schema, places.items())?;
        let stamps = Items::from_slice(alloc, self.stamps.items())?;
        let columns = picked_columns(alloc, self.columns.items(), places.items())?;
        Ok(Frame {
            schema,
            stamps,
            columns,
        })
    }
}

/// The place of a name among the columns, counted from 0.
pub fn place_of_name(name: &ColName, columns: &[(ColName, ColType)]) -> Option<usize>
    ensures { result ≡ place_of name.now columns.now }
{
    for place in 0..columns.len() {
        if *name == columns[place].0 {
            return Some(place);
        }
    }
    None
}

/// The places of the asked names, or the first that is absent or repeats one before it.
fn asked_places(
    alloc: Global,
    names: &[ColName],
    columns: &[(ColName, ColType)],
) -> Result<Items<usize>, Refusal>
    ensures { Answers result (refuse_position (places_of 1 [] names.now columns.now)) }
{
    let mut places = Items::with_capacity(alloc, names.len())?;
    for asked in 0..names.len() {
        match new_place(names, asked, columns) {
            Some(place) => places.push(place)?,
            None => {
                return Err(Refusal::NoSuchColumn {
                    clause: 0,
                    position: asked as u64 + 1,
                });
            }
        }
    }
    Ok(places)
}

/// The place of an asked name, unless it is absent or repeats one before it.
fn new_place(names: &[ColName], asked: usize, columns: &[(ColName, ColType)]) -> Option<usize>
    requires { asked < length names.now }
    ensures { result ≡ (if list_any (same_text (slice_index_or names.now asked [])) (take asked names.now) then None else place_of (slice_index_or names.now asked []) columns.now) }
{
    if repeats(names, asked) {
        return None;
    }
    place_of_name(&names[asked], columns)
}

/// The names and types at these places.
fn picked_schema(alloc: Global, schema: &Schema, places: &[usize]) -> Result<Schema, NoMemory>
    requires { AllByRecursion (λ k. k < length schema.now.columns) places.now }
    ensures { IfOk result (λ picked. picked ≡ record { timed = schema.now.timed; columns = at_places places.now schema.now.columns }) }
{
    let mut picked = Schema::empty(alloc, schema.timed());
    for place in places {
        let (name, kind) = schema.at(*place);
        picked.push(name.copy(alloc)?, *kind)?;
    }
    Ok(picked)
}

/// Copies of the columns at these places.
fn picked_columns(
    alloc: Global,
    columns: &[Column],
    places: &[usize],
) -> Result<Items<Column>, NoMemory>
    requires { AllByRecursion (λ k. k < length columns.now) places.now }
    ensures { IfOk result (λ picked. picked ≡ at_places places.now columns.now) }
{
    let mut picked = Items::with_capacity(alloc, places.len())?;
    for place in places {
        picked.push(columns[*place].copy(alloc)?)?;
    }
    Ok(picked)
}
