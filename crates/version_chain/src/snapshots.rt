ghost use Rattle.std.specs.Prelude.{◌≡◌, ◌++◌, None, length, flat_map, option_map, option_copied, IfOk, IfErr, OnOk, Ok};
ghost use Rattle.std.specs.List.{AllByRecursion};
ghost use Rattle.key_kind.specs.KeyText.{name_text, name_at};
ghost use Rattle.store_model.specs.ChainText.{snap_row_text, snap_rows_at, snap_text, snap_of};
ghost use Rattle.version_chain.specs.SnapBodies.{IsSnapRow, IsSnap, FitsSnapRow, FitsSnap};
ghost use Rattle.version_chain.specs.ChainFaults.{IsFaultOf};
ghost use Rattle.version_chain.specs.Reads.{Reads, symbol_rises, snap_row_at};

use crate::fault::EntryFault;
use crate::fields::{Stop, put_holder, read_holder, read_key};
use base_types::{Items, NoMemory};
use byte_fields::{put_bytes, put_u8, put_u64, read_magic, read_u64};
use key_kind::{KeyKind, Symbol, put_key, view_name};
use std::alloc::Global;
use store_model::{SnapBody, SnapRow};

/// The one spelling of a snapshot's body (`snap_read` has its layout).
pub fn snap_bytes(alloc: Global, body: &SnapBody) -> Result<Vec<u8>, NoMemory>
    requires { IsSnap body.now }
    ensures text { IfOk result (λ bytes. bytes.items ≡ snap_text body.now) }
    ensures read { IfOk result (λ bytes. snap_of bytes.items ≡ Ok body.now) }
{
    let mut out = Vec::new(alloc);
    put_bytes(&mut out, b"ASN1".as_slice())?;
    put_holder(&mut out, body.holder)?;
    put_u64(&mut out, body.rows.len() as u64)?;
    put_rows(&mut out, body.rows.items())?;
    Ok(out)
}

/// Adds the name of a symbol at the end, behind its length.
fn put_symbol(out: &mut Vec<u8>, symbol: &Symbol) -> Result<(), NoMemory>
    ensures { OnOk result (out.new.items ≡ out.old.items ++ name_text symbol.now) }
{
    let name = symbol.name().text();
    put_u8(out, name.len() as u8)?;
    put_bytes(out, name.as_bytes())
}

/// Adds a symbol of a snapshot at the end.
fn put_row(out: &mut Vec<u8>, row: &SnapRow) -> Result<(), NoMemory>
    requires { IsSnapRow row.now }
    ensures text { OnOk result (out.new.items ≡ out.old.items ++ snap_row_text row.now) }
    ensures fits { OnOk result (FitsSnapRow row.now) }
{
    put_symbol(out, &row.symbol)?;
    put_u64(out, row.version)?;
    put_key(out, &row.index)
}

/// Adds the symbols of a snapshot at the end.
fn put_rows(out: &mut Vec<u8>, rows: &[SnapRow]) -> Result<(), NoMemory>
    requires { AllByRecursion IsSnapRow rows.now }
    ensures text { OnOk result (out.new.items ≡ out.old.items ++ flat_map snap_row_text rows.now) }
    ensures fits { OnOk result (AllByRecursion FitsSnapRow rows.now) }
{
    for row in rows {
        put_row(out, row)?;
    }
    Ok(())
}

/// Reads bytes as a snapshot's body.
///
/// The bytes are `ASN1`; the holder's client (4 bytes) and serial (8); the number of symbols (8, at least 1); and for each symbol,
/// in ascending order, the length of its name (1), the name, the version (8) and a `TableIndex` key. Nothing follows. Numbers have
/// the high byte first.
pub fn snap_read(alloc: Global, bytes: &[u8]) -> Result<SnapBody, EntryFault>
    ensures found { IfOk result (λ body. snap_of bytes.now ≡ Ok body) }
    ensures spelled { IfOk result (λ body. bytes.now ≡ snap_text body) }
    ensures is_snap { IfOk result IsSnap }
    ensures fits { IfOk result FitsSnap }
    ensures refused { IfErr result (IsFaultOf (length bytes.now) (snap_of bytes.now)) }
{
    match read_snap(alloc, bytes) {
        Ok(body) => Ok(body),
        Err(Stop::Left(left)) => Err(EntryFault::Bad {
            at: bytes.len().saturating_sub(left) as u64,
        }),
        Err(Stop::NoMemory) => Err(EntryFault::NoMemory),
    }
}

/// The snapshot's body that the bytes spell.
#[tactic(auto, unfolding(store_model::specs::ChainText::snap_of, store_model::specs::ChainText::snap_at))]
fn read_snap(alloc: Global, bytes: &[u8]) -> Result<SnapBody, Stop>
    ensures { Reads (λ body. body) result (snap_of bytes.now) }
{
    let rest = read_magic(b"ASN1".as_slice(), bytes)?;
    let (holder, rest) = read_holder(rest)?;
    let (count, rows) = read_u64(rest)?;
    if count == 0 {
        return Err(Stop::Left(rest.len()));
    }
    let (rows, end) = read_rows(alloc, count, rows)?;
    if !end.is_empty() {
        return Err(Stop::Left(end.len()));
    }
    Ok(SnapBody { holder, rows })
}

/// Whether a symbol stands behind that of the row before.
fn rises(before: Option<&SnapRow>, symbol: &Symbol) -> bool
    ensures { result ≡ symbol_rises (option_map (λ row. row.symbol) (option_copied before.entry)) symbol.now }
{
    match before {
        Some(row) => row.symbol.name() < symbol.name(),
        None => true,
    }
}

/// The next symbol, with memory of its own, and what follows.
fn read_symbol(alloc: Global, bytes: &[u8]) -> Result<(Symbol, &[u8]), Stop>
    ensures { Reads (λ x. (x.0, x.1.now)) result (name_at bytes.now) }
{
    let (name, rest) = match view_name(bytes) {
        Ok(read) => read,
        Err(left) => return Err(Stop::Left(left)),
    };
    match Symbol::make(alloc, name) {
        Ok(symbol) => Ok((symbol, rest)),
        Err(_) => Err(Stop::NoMemory),
    }
}

/// The next row, behind the one before, and what follows.
fn read_row<'a>(
    alloc: Global,
    before: Option<&SnapRow>,
    bytes: &'a [u8],
) -> Result<(SnapRow, &'a [u8]), Stop>
    ensures { Reads (λ x. (x.0, x.1.now)) result (snap_row_at (option_map (λ row. row.symbol) (option_copied before.entry)) bytes.now) }
{
    let (symbol, rest) = read_symbol(alloc, bytes)?;
    if !rises(before, &symbol) {
        return Err(Stop::Left(bytes.len() - 1));
    }
    let (version, rest) = read_u64(rest)?;
    let (index, rest) = read_key(alloc, KeyKind::TableIndex, rest)?;
    let row = SnapRow {
        symbol,
        version,
        index,
    };
    Ok((row, rest))
}

/// So many rows, ascending by symbol, and what follows. Memory is taken as the rows are read, and not by their number.
fn read_rows(alloc: Global, count: u64, bytes: &[u8]) -> Result<(Items<SnapRow>, &[u8]), Stop>
    ensures { Reads (λ x. (x.0, x.1.now)) result (snap_rows_at None count bytes.now) }
{
    let mut rows = Items::new(alloc);
    let mut rest = bytes;
    for _ in 0..count {
        let (row, after) = read_row(alloc, rows.items().last(), rest)?;
        rows.push(row)?;
        rest = after;
    }
    Ok((rows, rest))
}
