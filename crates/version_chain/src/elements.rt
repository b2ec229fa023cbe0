ghost use Rattle.std.specs.Prelude.{◌≡◌, ◌++◌, length, flat_map, IfOk, IfErr, IfSome, OnOk, Ok};
ghost use Rattle.std.specs.List.{AllByRecursion};
ghost use Rattle.key_kind.specs.declared.key.KeyKind.TheVariants.{Version as version_kind};
ghost use Rattle.key_kind.specs.Keys.{FitsFields};
ghost use Rattle.store_model.specs.ChainText.{mark_text, optional_key_text, optional_key_at, entry_text, entry_of};
ghost use Rattle.version_chain.specs.Entries.{IsKeyOf, IsMark, IsEntry, FitsMark, FitsEntry};
ghost use Rattle.version_chain.specs.ChainFaults.{IsFaultOf};
ghost use Rattle.version_chain.specs.Reads.{Reads};

use crate::fault::EntryFault;
use crate::fields::{Stop, read_key};
use crate::marks::{put_mark, read_marks};
use base_types::NoMemory;
use byte_fields::{put_bytes, put_u8, put_u64, read_magic, read_u8, read_u64};
use key_kind::{Key, KeyKind, put_key};
use std::alloc::Global;
use store_model::{ChainMark, Entry};

/// The one spelling of an element (`entry_read` has its layout).
pub fn entry_bytes(alloc: Global, entry: &Entry) -> Result<Vec<u8>, NoMemory>
    requires { IsEntry entry.now }
    ensures text { IfOk result (λ bytes. bytes.items ≡ entry_text entry.now) }
    ensures read { IfOk result (λ bytes. entry_of bytes.items ≡ Ok entry.now) }
{
    let mut out = Vec::new(alloc);
    put_bytes(&mut out, b"AVE1".as_slice())?;
    put_prev(&mut out, &entry.prev)?;
    put_u64(&mut out, entry.changes.len() as u64)?;
    put_marks(&mut out, entry.changes.items())?;
    Ok(out)
}

/// Adds a byte 0, or a byte 1 and the key of the element before.
fn put_prev(out: &mut Vec<u8>, prev: &Option<Key>) -> Result<(), NoMemory>
    requires { IfSome prev.now (IsKeyOf version_kind) }
    ensures text { OnOk result (out.new.items ≡ out.old.items ++ optional_key_text prev.now) }
    ensures fits { OnOk result (IfSome prev.now FitsFields) }
{
    match prev {
        None => put_u8(out, 0),
        Some(key) => {
            put_u8(out, 1)?;
            put_key(out, key)
        }
    }
}

/// Adds marks at the end.
fn put_marks(out: &mut Vec<u8>, marks: &[ChainMark]) -> Result<(), NoMemory>
    requires { AllByRecursion IsMark marks.now }
    ensures text { OnOk result (out.new.items ≡ out.old.items ++ flat_map mark_text marks.now) }
    ensures fits { OnOk result (AllByRecursion FitsMark marks.now) }
{
    for mark in marks {
        put_mark(out, mark)?;
    }
    Ok(())
}

/// Reads bytes as an element of a chain.
///
/// The bytes are `AVE1`; a byte 0, or a byte 1 and the `Version` key of the element before; the number of marks (8 bytes, at least
/// 1); and for each mark its number in a byte and its fields. 1 is a Link: version (8), stamp (8), rows (4) and a `TableIndex` key;
/// 2 a Tomb: version (8); 3 a Hold: the holder's client (4) and serial (8), version (8); 4 a Release: the holder's client and
/// serial; 5 a Discard: the number of pieces (8, at least 1), and client (4) and serial (8) of each, ascending. The marks are one
/// Link, then Tombs in ascending order of version, then at most one Discard; or one or more such Tombs; or one Hold, one Release
/// or one Discard. Nothing follows. Numbers have the high byte first.
pub fn entry_read(alloc: Global, bytes: &[u8]) -> Result<Entry, EntryFault>
    ensures found { IfOk result (λ entry. entry_of bytes.now ≡ Ok entry) }
    ensures spelled { IfOk result (λ entry. bytes.now ≡ entry_text entry) }
    ensures is_entry { IfOk result IsEntry }
    ensures fits { IfOk result FitsEntry }
    ensures refused { IfErr result (IsFaultOf (length bytes.now) (entry_of bytes.now)) }
{
    match read_entry(alloc, bytes) {
        Ok(entry) => Ok(entry),
        Err(Stop::Left(left)) => Err(EntryFault::Bad {
            at: bytes.len().saturating_sub(left) as u64,
        }),
        Err(Stop::NoMemory) => Err(EntryFault::NoMemory),
    }
}

/// The element before, if any, and what follows.
fn read_prev(alloc: Global, bytes: &[u8]) -> Result<(Option<Key>, &[u8]), Stop>
    ensures { Reads (λ x. (x.0, x.1.now)) result (optional_key_at bytes.now) }
{
    let (flag, rest) = read_u8(bytes)?;
    match flag {
        0 => Ok((None, rest)),
        1 => {
            let (key, rest) = read_key(alloc, KeyKind::Version, rest)?;
            Ok((Some(key), rest))
        }
        _ => Err(Stop::Left(bytes.len())),
    }
}

/// The element that the bytes spell.
#[tactic(auto, unfolding(store_model::specs::ChainText::entry_of, store_model::specs::ChainText::entry_at))]
fn read_entry(alloc: Global, bytes: &[u8]) -> Result<Entry, Stop>
    ensures { Reads (λ entry. entry) result (entry_of bytes.now) }
{
    let rest = read_magic(b"AVE1".as_slice(), bytes)?;
    let (prev, rest) = read_prev(alloc, rest)?;
    let (count, marks) = read_u64(rest)?;
    if count == 0 {
        return Err(Stop::Left(rest.len()));
    }
    let (changes, end) = read_marks(alloc, count, marks)?;
    if !end.is_empty() {
        return Err(Stop::Left(end.len()));
    }
    Ok(Entry { prev, changes })
}
