ghost use Rattle.std.specs.Prelude.{◌≡◌, ◌<◌, ◌^◌, ◌++◌, length, IfOk, OnOk, Ok};
ghost use Rattle.std.specs.List.{flat_map, AllByRecursion};
ghost use Rattle.segment_bytes.specs.Heads.{head_text};
ghost use Rattle.index_tree.specs.IndexText.{slot_text, front_text, index_text, index_of};
ghost use Rattle.index_tree.specs.IndexRules.{IsIndex, FitsSlot};
ghost use Rattle.index_tree.specs.SlotTexts.{all_slots};

use crate::index::{Index, Slot};
use crate::slot_runs::SlotRuns;
use crate::slot_text::SlotText;
use base_types::NoMemory;
use byte_fields::{put_bytes, put_i64, put_u16, put_u32};
use frame_core::{ColName, ColType, Schema};
use key_kind::put_key;
use segment_bytes::put_head;
use std::alloc::Global;

/// The one spelling of an index. Memory is taken once.
pub fn build(alloc: Global, index: &Index) -> Result<Vec<u8>, NoMemory>
    requires { IsIndex index.now }
    ensures text { IfOk result (λ v. v.items ≡ index_text index.now) }
    ensures read { IfOk result (λ v. index_of v.items ≡ Ok index.now) }
{
    let slots = index.slots.items();
    let length = front_len(&index.schema).saturating_add(slots_len(slots));
    let mut out = Vec::with_capacity(alloc, length)?;
    put_front(&mut out, &index.schema, index.rows, slots.len())?;
    put_slots(&mut out, slots)?;
    Ok(out)
}

/// The one spelling of the index of this schema, so many rows and these slots, which are copied as they are spelled. Memory is
/// taken once.
pub fn build_packed(
    alloc: Global,
    schema: &Schema,
    rows: u64,
    slots: &SlotRuns,
) -> Result<Vec<u8>, NoMemory>
    requires { IsIndex (record { schema = schema.now; rows = rows; slots = slots.now }) }
    ensures text { IfOk result (λ v. v.items ≡ index_text (record { schema = schema.now; rows = rows; slots = slots.now })) }
    ensures read { IfOk result (λ v. index_of v.items ≡ Ok (record { schema = schema.now; rows = rows; slots = slots.now })) }
{
    let runs = slots.runs();
    let length = front_len(schema).saturating_add(runs_len(runs));
    let mut out = Vec::with_capacity(alloc, length)?;
    put_front(&mut out, schema, rows, slots.len())?;
    put_runs(&mut out, runs)?;
    Ok(out)
}

/// How many bytes stand before the slots of an index.
fn front_len(schema: &Schema) -> usize {
    let mut length: usize = 14;
    for (name, _) in schema.columns() {
        length = length.saturating_add(name.text().len()).saturating_add(2);
    }
    length
}

/// How many bytes the spellings of slots have.
pub(crate) fn slots_len(slots: &[Slot]) -> usize {
    let mut length: usize = 0;
    for slot in slots {
        let name = slot.key.name.text().len();
        length = length.saturating_add(name).saturating_add(66);
    }
    length
}

/// How many bytes runs of slots have.
fn runs_len(runs: &[SlotText]) -> usize {
    let mut length: usize = 0;
    for run in runs {
        length = length.saturating_add(run.bytes().len());
    }
    length
}

/// Adds what stands before the slots of an index: its columns, its rows and how many slots there are.
fn put_front(out: &mut Vec<u8>, schema: &Schema, rows: u64, count: usize) -> Result<(), NoMemory>
    requires few_columns { length schema.now.columns < 2 ^ 16 }
    requires few_rows { rows < 2 ^ 32 }
    requires few_slots { count < 2 ^ 32 }
    ensures { OnOk result (out.new.items ≡ out.old.items ++ front_text schema.now rows count) }
{
    put_bytes(out, b"AIX1".as_slice())?;
    put_u16(out, schema.len() as u16)?;
    put_heads(out, schema.columns())?;
    put_u32(out, rows as u32)?;
    put_u32(out, count as u32)
}

/// Adds the type and name of each column.
fn put_heads(out: &mut Vec<u8>, columns: &[(ColName, ColType)]) -> Result<(), NoMemory>
    ensures { OnOk result (out.new.items ≡ out.old.items ++ flat_map head_text columns.now) }
{
    for (name, kind) in columns {
        put_head(out, name, *kind)?;
    }
    Ok(())
}

/// Adds a slot.
pub(crate) fn put_slot(out: &mut Vec<u8>, slot: &Slot) -> Result<(), NoMemory>
    requires { FitsSlot slot.now }
    ensures { OnOk result (out.new.items ≡ out.old.items ++ slot_text slot.now) }
{
    put_key(out, &slot.key)?;
    put_u32(out, slot.part.first_row as u32)?;
    put_u32(out, slot.part.rows as u32)?;
    put_i64(out, slot.first)?;
    put_i64(out, slot.last)?;
    put_u16(out, slot.part.first_col as u16)?;
    put_u16(out, slot.part.cols as u16)
}

/// Adds slots, one behind another.
pub(crate) fn put_slots(out: &mut Vec<u8>, slots: &[Slot]) -> Result<(), NoMemory>
    requires { AllByRecursion FitsSlot slots.now }
    ensures { OnOk result (out.new.items ≡ out.old.items ++ flat_map slot_text slots.now) }
{
    for slot in slots {
        put_slot(out, slot)?;
    }
    Ok(())
}

/// Adds the slots of runs, one behind another, as they are spelled.
fn put_runs(out: &mut Vec<u8>, runs: &[SlotText]) -> Result<(), NoMemory>
    ensures { OnOk result (out.new.items ≡ out.old.items ++ flat_map slot_text (all_slots runs.now)) }
{
    for run in runs {
        put_bytes(out, run.bytes())?;
    }
    Ok(())
}
