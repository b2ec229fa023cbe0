use std::alloc::Global;
use std::test::Fail;
use store_model::{ChainMark, Entry, SnapBody};
use version_chain::{EntryFault, entry_bytes, entry_read, snap_bytes, snap_read};

// Behind the element of symbol `S`, client 1, serial 2: a Link of version 3, stamp 5 and 2 rows with the index of client 1, serial 6,
// stamps 1 to 9; Tombs of 0 and 1; a Discard of the piece of client 2, serial 7.
const LINK_TOMBS_DISCARD: &[u8] = b"AVE1\x01\
\x03\x01S\0\0\0\x01\0\0\0\0\0\0\0\x02\0\0\0\0\0\0\0\0\0\0\0\0\0\0\0\0\0\0\0\0\0\0\0\0\
\0\0\0\0\0\0\0\x04\
\x01\0\0\0\0\0\0\0\x03\0\0\0\0\0\0\0\x05\0\0\0\x02\
\x02\x01S\0\0\0\x01\0\0\0\0\0\0\0\x06\0\0\0\0\0\0\0\x03\0\0\0\0\0\0\0\x01\0\0\0\0\0\0\0\x09\
\x02\0\0\0\0\0\0\0\0\
\x02\0\0\0\0\0\0\0\x01\
\x05\0\0\0\0\0\0\0\x01\0\0\0\x02\0\0\0\0\0\0\0\x07";

// Holder 1, 4, and symbol `S` at version 3 with the same index.
const ONE_SYMBOL: &[u8] = b"ASN1\0\0\0\x01\0\0\0\0\0\0\0\x04\0\0\0\0\0\0\0\x01\
\x01S\0\0\0\0\0\0\0\x03\
\x02\x01S\0\0\0\x01\0\0\0\0\0\0\0\x06\0\0\0\0\0\0\0\x03\0\0\0\0\0\0\0\x01\0\0\0\0\0\0\0\x09";

// Where bytes are no element.
fn fault(alloc: Global, bytes: &[u8]) -> Option<u64> {
    match entry_read(alloc, bytes) {
        Err(EntryFault::Bad { at }) => Some(at),
        _ => None,
    }
}

// Where bytes are no snapshot.
fn snap_fault(alloc: Global, bytes: &[u8]) -> Option<u64> {
    match snap_read(alloc, bytes) {
        Err(EntryFault::Bad { at }) => Some(at),
        _ => None,
    }
}

// The bytes with another byte at a place.
fn with(alloc: Global, bytes: &[u8], place: usize, byte: u8) -> Result<Vec<u8>, Fail> {
    let mut changed = Vec::from_slice(alloc, bytes)?;
    if let Some(old) = changed.get_mut(place) {
        *old = byte;
    }
    Ok(changed)
}

// Whether a mark is a Link of version 3, stamp 5 and 2 rows.
fn is_link(mark: &ChainMark) -> bool {
    match mark {
        ChainMark::Link(row) => row.version == 3 && row.stamp == 5 && row.rows == 2,
        _ => false,
    }
}

fn has_four_marks(entry: &Entry) -> bool {
    match entry.changes.items() {
        [link, _, tomb, _] => is_link(link) && matches!(tomb, ChainMark::Tomb { version: 1 }),
        _ => false,
    }
}

// Whether the bytes are read as that element, which is spelled by them.
fn is_read_and_spelled(alloc: Global) -> Result<bool, Fail> {
    let entry = entry_read(alloc, LINK_TOMBS_DISCARD)?;
    let bytes = entry_bytes(alloc, &entry)?;
    Ok(has_four_marks(&entry) && bytes.as_slice() == LINK_TOMBS_DISCARD)
}

#[test]
fn an_element_has_these_151_bytes(rt: HostRuntime) -> Result<(), Fail> {
    assert!(rt; LINK_TOMBS_DISCARD.len() == 151);
    assert!(rt; is_read_and_spelled(rt.alloc())?);
    Ok(())
}

// The place of a byte of the element, another byte for it, and where the fault is.
const BROKEN: &[(usize, u8, u64)] = &[
    (0, 0, 0), // another magic
    (4, 2, 4), // neither 0 nor 1 before the key
    (5, 2, 5), // an element before that is an index
    (51, 0, 44), // no mark
    (52, 6, 52), // no such mark
    (73, 1, 73), // a tile in place of an index
    (112, 1, 112), // a second Link
    (121, 3, 121), // a Hold behind a Tomb
    (129, 0, 122), // a Tomb that does not rise
    (138, 0, 131), // no piece
    (51, 5, 151), // a mark too few
    (51, 3, 130), // a byte after the last field
];

fn fault_with(alloc: Global, place: usize, byte: u8) -> Result<Option<u64>, Fail> {
    let bytes = with(alloc, LINK_TOMBS_DISCARD, place, byte)?;
    Ok(fault(alloc, bytes.as_slice()))
}

#[test]
fn each_rule_of_an_element_has_its_place(rt: HostRuntime) -> Result<(), Fail> {
    for (place, byte, at) in BROKEN {
        let fault = fault_with(rt.alloc(), *place, *byte)?;
        assert!(rt; fault == Some(*at), "at {place}");
    }
    Ok(())
}

#[test]
fn an_element_that_is_cut_is_no_element(rt: HostRuntime) {
    for length in 0..LINK_TOMBS_DISCARD.len() {
        let fault = fault(rt.alloc(), &LINK_TOMBS_DISCARD[..length]);
        assert!(rt; fault.is_some(), "cut at {length}");
    }
}

fn has_one_row(body: &SnapBody) -> bool {
    body.holder.client == 1 && body.holder.serial == 4 && body.rows.len() == 1
}

// Whether the bytes are read as that snapshot, which is spelled by them.
fn is_snapshot(alloc: Global) -> Result<bool, Fail> {
    let body = snap_read(alloc, ONE_SYMBOL)?;
    let bytes = snap_bytes(alloc, &body)?;
    Ok(has_one_row(&body) && bytes.as_slice() == ONE_SYMBOL)
}

#[test]
fn a_snapshot_has_these_bytes(rt: HostRuntime) -> Result<(), Fail> {
    assert!(rt; is_snapshot(rt.alloc())?);
    Ok(())
}

// The place of a byte of the snapshot, another byte for it, and where the fault is.
const BROKEN_SNAPSHOTS: &[(usize, u8, u64)] = &[
    (23, 0, 16), // no symbol
    (34, 3, 34), // an element in place of an index
];

fn snap_fault_with(alloc: Global, place: usize, byte: u8) -> Result<Option<u64>, Fail> {
    let bytes = with(alloc, ONE_SYMBOL, place, byte)?;
    Ok(snap_fault(alloc, bytes.as_slice()))
}

#[test]
fn each_rule_of_a_snapshot_has_its_place(rt: HostRuntime) -> Result<(), Fail> {
    for (place, byte, at) in BROKEN_SNAPSHOTS {
        let fault = snap_fault_with(rt.alloc(), *place, *byte)?;
        assert!(rt; fault == Some(*at), "at {place}");
    }
    Ok(())
}
