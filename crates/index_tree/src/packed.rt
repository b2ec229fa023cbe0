ghost use Rattle.std.specs.Prelude.{◌≡◌, IfOk, Ok};
ghost use Rattle.std.specs.Arc.{arc_value};
ghost use Rattle.index_tree.specs.IndexText.{index_of};
ghost use Rattle.index_tree.specs.IndexRules.{IsIndex};
ghost use Rattle.index_tree.specs.IndexFaults.{Reads};
ghost use Rattle.index_tree.specs.declared.index.Index.{Index};

use crate::fault::Stop;
use crate::reading::{read_columns, read_counts};
use crate::slot_text::SlotText;
use base_types::{Body, NoMemory};
use frame_core::Schema;
use std::alloc::Global;
use std::marker::Model;
use std::sync::Arc;

/// An index whose slots stay where and as they are spelled. Contracts see the index.
#[derive(Drop)]
pub struct PackedIndex {
    schema: Schema,
    rows: u64,
    slots: SlotText,
}

impl Model for PackedIndex {
    ghost use Rattle.index_tree.specs.declared.index.Index.{Index};

    ghost Value = { Index };

    ghost view = { λ p. record { schema = p.schema; rows = p.rows; slots = p.slots } };
}

impl PackedIndex {
    /// The columns of the frame.
    pub fn schema(&self) -> &Schema
        ensures { result.now ≡ self.now.schema }
    {
        &self.schema
    }

    /// How many rows the frame has.
    pub fn rows(&self) -> u64
        ensures { result ≡ self.now.rows }
    {
        self.rows
    }

    /// The tiles, in order of their first row and then of their first column.
    pub fn slots(&self) -> &SlotText
        ensures { result.now ≡ self.now.slots }
    {
        &self.slots
    }
}

/// The index that a body spells, of which it is known that it does: its columns are read, and its slots stay where they are.
pub fn open(alloc: Global, body: &Arc<Body>) -> Result<PackedIndex, NoMemory>
    requires spelled { (index : Index) × (index_of (arc_value body.now) ≡ Ok index) }
    ensures found { IfOk result (λ packed. index_of (arc_value body.now) ≡ Ok packed) }
    ensures is_index { IfOk result IsIndex }
{
    match open_front(alloc, body, body.bytes()) {
        Ok(packed) => Ok(packed),
        Err(Stop::NoMemory) => Err(NoMemory),
        Err(Stop::Bad { .. }) => unreachable!(),
    }
}

/// As `open`, where the body's bytes are lent beside it.
fn open_front(alloc: Global, body: &Arc<Body>, bytes: &[u8]) -> Result<PackedIndex, Stop>
    requires bytes { bytes.now ≡ arc_value body.now }
    requires spelled { (index : Index) × (index_of (arc_value body.now) ≡ Ok index) }
    ensures found { Reads (λ packed. packed) result (index_of (arc_value body.now)) }
    ensures is_index { IfOk result IsIndex }
{
    let (schema, _, rest) = read_columns(alloc, bytes)?;
    let (rows, count, rest) = read_counts(rest)?;
    let from = bytes.len() - rest.len();
    let shared = share(body)?;
    Ok(PackedIndex {
        schema,
        rows: rows as u64,
        slots: SlotText::within(shared, from, count as usize),
    })
}

/// One more share of a body.
fn share(body: &Arc<Body>) -> Result<Arc<Body>, NoMemory>
    ensures { IfOk result (λ shared. arc_value shared ≡ arc_value body.now) }
{
    Ok(Arc::try_clone(body)?)
}
