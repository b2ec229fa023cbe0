use crate::columns::{Cells, Sheet, frame_of};
use frame_core::{CellRef, ColType};
use segment_bytes::{SegView, encode, view};
use std::alloc::Global;
use std::test::Fail;

const NUMBER: Sheet = Sheet {
    stamps: &[1],
    names: &["a"],
    columns: &[Cells::Ints(&[5])],
};

// The spelling of that.
const ONE_NUMBER: &[u8] = b"ASG1\0\0\0\x01\0\x01\0\0\0\0\0\0\0\x01\x01\x01a\0\0\0\0\0\0\0\x05";

const TEXTS: Sheet = Sheet {
    stamps: &[1, 2],
    names: &["s"],
    columns: &[Cells::Texts(&["x", ""])],
};

// The spelling of that.
const TWO_TEXTS: &[u8] =
    b"ASG1\0\0\0\x02\0\x01\0\0\0\0\0\0\0\x01\0\0\0\0\0\0\0\x02\x03\x01s\0\0\0\x01\0\0\0\x01x";

// Stamps 1 and 2, and columns `a` to `d`, one of each type.
const ALL_TYPES: &[u8] = b"ASG1\0\0\0\x02\0\x04\0\0\0\0\0\0\0\x01\0\0\0\0\0\0\0\x02\
\x01\x01a\0\0\0\0\0\0\0\x05\xff\xff\xff\xff\xff\xff\xff\xff\
\x02\x01b\x01\0\
\x03\x01c\0\0\0\x01\0\0\0\x01x\
\x04\x01d\0\0\0\0\0\0\0\x07\0\0\0\0\0\0\0\x08";

// Whether a frame is spelled by these bytes.
fn is_spelled(alloc: Global, sheet: &Sheet, bytes: &[u8]) -> Result<bool, Fail> {
    let frame = frame_of(alloc, sheet)?;
    let spelled = encode(alloc, &frame)?;
    Ok(spelled.as_slice() == bytes)
}

// Where the bytes are at fault as a segment; none where they spell a frame.
fn fault_at(bytes: &[u8]) -> Option<u64> {
    match view(bytes) {
        Ok(_) => None,
        Err(fault) => Some(fault.at),
    }
}

// The stamp of a row; none outside the segment.
fn stamp(seen: &SegView<'_>, row: u64) -> Option<i64> {
    if row < seen.rows() {
        Some(seen.stamp(row))
    } else {
        None
    }
}

// The name and the type of a column; none outside the segment.
fn head<'a>(seen: &SegView<'a>, column: u64) -> Option<(&'a str, ColType)> {
    if column < seen.cols() {
        Some((seen.name(column), seen.kind(column)))
    } else {
        None
    }
}

// The cell of a column and a row, found by its column; none outside the segment.
fn cell<'a>(seen: &SegView<'a>, column: u64, row: u64) -> Option<CellRef<'a>> {
    if column >= seen.cols() {
        return None;
    }
    let cells = seen.column(column);
    if row < cells.len() {
        Some(cells.cell(row))
    } else {
        None
    }
}

fn is_number(seen: &SegView<'_>) -> bool {
    seen.rows() == 1
        && seen.cols() == 1
        && stamp(seen, 0) == Some(1)
        && head(seen, 0) == Some(("a", ColType::Int))
        && matches!(cell(seen, 0, 0), Some(CellRef::Int(5)))
}

fn are_texts(seen: &SegView<'_>) -> bool {
    matches!(cell(seen, 0, 0), Some(CellRef::Text("x")))
        && matches!(cell(seen, 0, 1), Some(CellRef::Text("")))
}

fn has_heads(seen: &SegView<'_>) -> bool {
    stamp(seen, 1) == Some(2)
        && stamp(seen, 2).is_none()
        && head(seen, 2) == Some(("c", ColType::Text))
}

fn has_each_type(seen: &SegView<'_>) -> bool {
    matches!(cell(seen, 0, 1), Some(CellRef::Int(-1)))
        && matches!(cell(seen, 1, 0), Some(CellRef::Flag(true)))
        && matches!(cell(seen, 1, 1), Some(CellRef::Flag(false)))
        && matches!(cell(seen, 2, 0), Some(CellRef::Text("x")))
        && matches!(cell(seen, 3, 1), Some(CellRef::Stamp(8)))
}

// Whether the frame in memory that these bytes give is spelled by them.
fn is_spelled_again(alloc: Global, bytes: &[u8]) -> Result<bool, Fail> {
    let seen = view(bytes)?;
    let frame = seen.to_frame(alloc)?;
    let spelled = encode(alloc, &frame)?;
    Ok(spelled.as_slice() == bytes)
}

// The number with a byte behind it.
const A_BYTE_MORE: &[u8] = b"ASG1\0\0\0\x01\0\x01\0\0\0\0\0\0\0\x01\x01\x01a\0\0\0\0\0\0\0\x05\0";

// The number without its last byte.
const A_BYTE_LESS: &[u8] = b"ASG1\0\0\0\x01\0\x01\0\0\0\0\0\0\0\x01\x01\x01a\0\0\0\0\0\0\0";

// The head of 2,000,000 rows of 5 columns.
const FIVE_COLUMNS: &[u8] = b"ASG1\0\x1e\x84\x80\0\x05";

// Whether the segment of all types is at fault wherever it is cut.
fn is_refused_where_cut() -> bool {
    for length in 0..ALL_TYPES.len() {
        if fault_at(&ALL_TYPES[..length]).is_none() {
            return false;
        }
    }
    true
}

// Where the segment of all types is at fault with another byte at a place.
fn fault_with(alloc: Global, place: usize, byte: u8) -> Result<Option<u64>, Fail> {
    let mut changed = Vec::from_slice(alloc, ALL_TYPES)?;
    if let Some(old) = changed.get_mut(place) {
        *old = byte;
    }
    Ok(fault_at(&changed))
}

fn is_at_fault(alloc: Global, place: usize, byte: u8, at: u64) -> Result<bool, Fail> {
    Ok(fault_with(alloc, place, byte)? == Some(at))
}

// What a segment that is seen has.
enum Seen {
    Number,
    Texts,
    EachType,
}

fn has(seen: &SegView<'_>, what: &Seen) -> bool {
    match what {
        Seen::Number => is_number(seen),
        Seen::Texts => are_texts(seen),
        Seen::EachType => has_heads(seen) && has_each_type(seen),
    }
}

fn is_seen(bytes: &[u8], what: &Seen) -> bool {
    matches!(view(bytes), Ok(seen) if has(&seen, what))
}

enum Case {
    // A frame, and the bytes that spell it.
    Spelled(&'static Sheet, &'static [u8]),
    Seen(&'static [u8], Seen),
    SpelledAgain,
    // Bytes, and where they are at fault.
    Fault(&'static [u8], u64),
    WhereCut,
    // The place of a byte of the segment of all types, another byte for it, and where the fault is.
    Broken(usize, u8, u64),
}

fn holds(alloc: Global, case: &Case) -> Result<bool, Fail> {
    match case {
        Case::Spelled(sheet, bytes) => is_spelled(alloc, sheet, bytes),
        Case::Seen(bytes, what) => Ok(is_seen(bytes, what)),
        Case::SpelledAgain => is_spelled_again(alloc, ALL_TYPES),
        Case::Fault(bytes, at) => Ok(fault_at(bytes) == Some(*at)),
        Case::WhereCut => Ok(is_refused_where_cut()),
        Case::Broken(place, byte, at) => is_at_fault(alloc, *place, *byte, *at),
    }
}

const CASES: &[(&str, Case)] = &[
    (
        "one whole number has these 29 bytes",
        Case::Spelled(&NUMBER, ONE_NUMBER),
    ),
    (
        "one whole number is seen",
        Case::Seen(ONE_NUMBER, Seen::Number),
    ),
    (
        "a text and the empty text have these 38 bytes",
        Case::Spelled(&TEXTS, TWO_TEXTS),
    ),
    (
        "a text and the empty text are seen",
        Case::Seen(TWO_TEXTS, Seen::Texts),
    ),
    (
        "cells of each type are read",
        Case::Seen(ALL_TYPES, Seen::EachType),
    ),
    ("a view in memory is spelled as before", Case::SpelledAgain),
    (
        "a byte more is a fault behind all",
        Case::Fault(A_BYTE_MORE, 29),
    ),
    (
        "a byte less is a fault at its field",
        Case::Fault(A_BYTE_LESS, 21),
    ),
    (
        "more than 8,000,000 cells are a fault at the columns",
        Case::Fault(FIVE_COLUMNS, 8),
    ),
    ("a segment that is cut is refused", Case::WhereCut),
    ("another magic", Case::Broken(3, b'2', 0)),
    ("more than 2,000,000 rows", Case::Broken(4, 1, 4)),
    ("more than 4,096 columns", Case::Broken(8, 16, 8)),
    ("a stamp that falls", Case::Broken(17, 3, 18)),
    ("no type in the first column", Case::Broken(26, 0, 26)),
    ("no type in the second column", Case::Broken(45, 5, 45)),
    ("a name without bytes", Case::Broken(27, 0, 27)),
    ("a name that is not UTF-8", Case::Broken(28, 255, 28)),
    ("the name of an earlier column", Case::Broken(47, b'a', 47)),
    ("a flag that is neither 0 nor 1", Case::Broken(48, 2, 48)),
    ("a text of more than 65,535 bytes", Case::Broken(54, 1, 53)),
    ("an end that falls", Case::Broken(60, 0, 57)),
    ("a text that is not UTF-8", Case::Broken(61, 255, 61)),
];

#[test]
fn segments_and_their_faults(rt: HostRuntime) -> Result<(), Fail> {
    for (name, case) in CASES {
        assert!(rt; holds(rt.alloc(), case)?, "{name}");
    }
    Ok(())
}
