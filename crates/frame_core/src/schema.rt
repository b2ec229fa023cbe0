ghost use Rattle.std.specs.Prelude.{◌≡◌, ◌<◌, ◌++◌, ◌∷◌, [], length, slice_get, Some, IfOk, OnOk, OnErr};
ghost use Rattle.std.specs.List.{AllByRecursion};
ghost use Rattle.frame_core.specs.Schemas.{Schema as Heading, Head, IsColName};

use crate::cell::ColType;
use crate::name::ColName;
use base_types::{Items, Keep, NoMemory};
use std::alloc::Global;
use std::marker::Model;

/// Whether the rows have stamps of their own, and the name and type of each column.
#[derive(Drop)]
pub struct Schema {
    timed: bool,
    columns: Items<(ColName, ColType)>,
}

impl Model for Schema {
    ghost use Rattle.frame_core.specs.Schemas.{Schema as Heading};

    ghost Value = { Heading };

    ghost view = { λ s. record { timed = s.timed; columns = s.columns } };
}

impl Schema {
    /// A schema without columns. It takes no memory.
    pub fn empty(alloc: Global, timed: bool) -> Schema
        ensures { result ≡ record { timed = timed; columns = [] } }
    {
        Schema {
            timed,
            columns: Items::new(alloc),
        }
    }

    /// Adds a column behind the others.
    pub fn push(&mut self, name: ColName, kind: ColType) -> Result<(), NoMemory>
        ensures ok { OnOk result (self.new ≡ record self.old { columns = self.old.columns ++ (name, kind) ∷ [] }) }
        ensures err { OnErr result (self.new ≡ self.old) }
    {
        self.columns.push((name, kind))
    }

    /// Whether the rows have stamps of their own.
    pub fn timed(&self) -> bool
        ensures { result ≡ self.now.timed }
    {
        self.timed
    }

    /// The name and type of each column, in order.
    pub fn columns(&self) -> &[(ColName, ColType)]
        ensures { result.now ≡ self.now.columns }
    {
        self.columns.items()
    }

    /// How many columns there are.
    pub fn len(&self) -> usize
        ensures { result ≡ length self.now.columns }
    {
        self.columns.len()
    }

    /// The name and type of the column at a place, counted from 0.
    pub fn at(&self, place: usize) -> &(ColName, ColType)
        requires { place < length self.now.columns }
        ensures { slice_get self.now.columns place ≡ Some result.now }
    {
        self.columns.at(place)
    }
}

impl Keep for Schema {
    fn copy(&self, alloc: Global) -> Result<Schema, NoMemory>
        ensures copy { IfOk result (λ copy. copy ≡ self.now) }
        ensures named { OnOk result (AllByRecursion (λ (c : Head). IsColName c.0) self.now.columns) }
    {
        let mut copy = Schema::empty(alloc, self.timed);
        for (name, kind) in self.columns.items() {
            copy.push(name.copy(alloc)?, *kind)?;
        }
        Ok(copy)
    }
}
