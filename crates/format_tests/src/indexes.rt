ghost use Rattle.std.specs.Prelude.{◌≡◌, IfOk};
ghost use Rattle.std.specs.Arc.{arc_value};
ghost use Rattle.index_tree.specs.IndexRules.{IsIndex};

use frame_core::{ColType, Range};
use index_tree::{
    Body, Index, IndexFault, Keep, PackedIndex, Slot, SlotRuns, Span, build, build_packed, covered,
    covering, open, read,
};
use key_kind::KeyKind;
use std::alloc::Global;
use std::sync::Arc;
use std::test::Fail;

// Five rows of the Int column `a`, in one tile of symbol S with the stamps 1 to 9.
const ONE_TILE: &[u8] = b"AIX1\0\x01\x01\x01a\0\0\0\x05\0\0\0\x01\
\x01\x01S\0\0\0\x01\0\0\0\0\0\0\0\0\0\0\0\0\0\0\0\0\0\0\0\0\0\0\0\x01\0\0\0\0\0\0\0\x09\
\0\0\0\0\0\0\0\x05\0\0\0\0\0\0\0\x01\0\0\0\0\0\0\0\x09\0\0\0\x01";

// Five rows of the Int columns `a` and `b`: two rows with a tile for each column, and three rows in one tile.
const THREE_TILES: &[u8] = b"AIX1\0\x02\x01\x01a\x01\x01b\0\0\0\x05\0\0\0\x03\
\x01\x01S\0\0\0\x01\0\0\0\0\0\0\0\0\0\0\0\0\0\0\0\0\0\0\0\0\0\0\0\x01\0\0\0\0\0\0\0\x02\
\0\0\0\0\0\0\0\x02\0\0\0\0\0\0\0\x01\0\0\0\0\0\0\0\x02\0\0\0\x01\
\x01\x01S\0\0\0\x01\0\0\0\0\0\0\0\x01\0\0\0\0\0\0\0\0\0\0\0\0\0\0\0\x01\0\0\0\0\0\0\0\x02\
\0\0\0\0\0\0\0\x02\0\0\0\0\0\0\0\x01\0\0\0\0\0\0\0\x02\0\x01\0\x01\
\x01\x01S\0\0\0\x01\0\0\0\0\0\0\0\x02\0\0\0\0\0\0\0\0\0\0\0\0\0\0\0\x02\0\0\0\0\0\0\0\x09\
\0\0\0\x02\0\0\0\x03\0\0\0\0\0\0\0\x02\0\0\0\0\0\0\0\x09\0\0\0\x02";

// No columns and no rows.
const EMPTY: &[u8] = b"AIX1\0\0\0\0\0\0\0\0\0\0";

// Where reading finds the first bad field.
fn fault_of(alloc: Global, bytes: &[u8]) -> Option<u64> {
    match read(alloc, bytes) {
        Err(IndexFault::Bad { at }) => Some(at),
        _ => None,
    }
}

// The key of the one tile, and what it holds.
fn is_the_tile(slot: &Slot) -> bool {
    let (key, part) = (&slot.key, &slot.part);
    key.kind == KeyKind::TableData
        && key.name.text() == "S"
        && (key.client, key.serial, key.version) == (1, 0, 0)
        && (key.first, key.last) == (1, 9)
        && (part.first_row, part.rows, part.first_col, part.cols) == (0, 5, 0, 1)
        && (slot.first, slot.last) == (1, 9)
}

fn is_one_tile(index: &Index) -> bool {
    match (index.schema.columns(), index.slots.items()) {
        ([(name, kind)], [slot]) => {
            index.rows == 5
                && index.schema.timed()
                && name.text() == "a"
                && *kind == ColType::Int
                && is_the_tile(slot)
        }
        _ => false,
    }
}

fn is_read_as_one_tile(alloc: Global) -> bool {
    ONE_TILE.len() == 84 && matches!(&read(alloc, ONE_TILE), Ok(index) if is_one_tile(index))
}

// The bytes of the index that was read, and of its copy.
fn rebuilt(alloc: Global, bytes: &[u8]) -> Result<Vec<u8>, Fail> {
    let index: Index = read(alloc, bytes)?.copy(alloc)?;
    Ok(build(alloc, &index)?)
}

fn body_of(alloc: Global, bytes: &[u8]) -> Result<Arc<Body>, Fail>
    ensures { IfOk result (λ body. arc_value body ≡ bytes.now) }
{
    let bytes = Vec::from_slice(alloc, bytes)?;
    Ok(Arc::new(alloc, Body::make(bytes))?)
}

// The index of these bytes, which are read once so that they are known to spell one, with its slots where they lie.
fn opened(alloc: Global, bytes: &[u8]) -> Result<PackedIndex, Fail>
    ensures { IfOk result IsIndex }
{
    let _read = read(alloc, bytes)?;
    let body = body_of(alloc, bytes)?;
    Ok(open(alloc, &body)?)
}

// The bytes of the index that was opened, of which no slot was read.
fn reopened(alloc: Global, bytes: &[u8]) -> Result<Vec<u8>, Fail> {
    let index = opened(alloc, bytes)?;
    let mut slots = SlotRuns::new(alloc);
    slots.push(index.slots().copy(alloc)?)?;
    Ok(build_packed(alloc, index.schema(), index.rows(), &slots)?)
}

// Whether the index that was read and the one that was opened have these bytes again.
fn has_its_bytes(alloc: Global, bytes: &[u8]) -> Result<bool, Fail> {
    let read = rebuilt(alloc, bytes)?;
    let opened = reopened(alloc, bytes)?;
    Ok(read.as_slice() == bytes && opened.as_slice() == bytes)
}

fn has_no_ends(slots: &SlotRuns) -> bool {
    slots.len() == 0 && slots.first().is_none() && slots.last().is_none()
}

fn is_first(span: Span) -> bool {
    (span.part.first_row, span.part.rows, span.part.cols) == (0, 2, 1)
        && (span.first, span.last) == (1, 2)
}

fn is_last(span: Span) -> bool {
    (span.part.first_row, span.part.rows, span.part.cols) == (2, 3, 2)
        && (span.first, span.last) == (2, 9)
}

fn has_the_slots_twice(slots: &SlotRuns) -> bool {
    match (slots.first(), slots.last()) {
        (Some(first), Some(last)) => slots.len() == 6 && is_first(first) && is_last(last),
        _ => false,
    }
}

// Whether slots have no ends, and then those of the index twice.
fn go_behind_others(alloc: Global, index: &PackedIndex) -> Result<bool, Fail> {
    let mut slots = SlotRuns::new(alloc);
    let none = has_no_ends(&slots);
    slots.push(index.slots().copy(alloc)?)?;
    slots.push(index.slots().copy(alloc)?)?;
    Ok(none && has_the_slots_twice(&slots))
}

fn are_three(slots: &[Slot]) -> bool {
    match slots {
        [_, second, _] => second.key.serial == 1 && second.part.first_col == 1,
        _ => false,
    }
}

// Whether slots where they lie tell their ends, go behind others, and are read.
fn are_slots(alloc: Global) -> Result<bool, Fail> {
    let index = opened(alloc, THREE_TILES)?;
    let behind = go_behind_others(alloc, &index)?;
    let slots = index.slots().to_slots(alloc)?;
    Ok(behind && are_three(slots.items()))
}

// Where the fields of `ONE_TILE` begin.
const FIELDS: &[u64] = &[
    0, 4, 6, 7, 8, 9, 13, 17, 18, 19, 20, 24, 32, 40, 48, 56, 60, 64, 72, 80, 82,
];

// The field in which a place lies.
fn field_of(place: u64) -> u64 {
    let mut field = 0;
    for start in FIELDS {
        if *start <= place {
            field = *start;
        }
    }
    field
}

// Whether each cut is a fault at its field.
fn is_at_fault_where_cut(alloc: Global) -> bool {
    for length in 0..ONE_TILE.len() {
        if fault_of(alloc, &ONE_TILE[..length]) != Some(field_of(length as u64)) {
            return false;
        }
    }
    true
}

// `ONE_TILE` with a byte behind it.
const A_BYTE_MORE: &[u8] = b"AIX1\0\x01\x01\x01a\0\0\0\x05\0\0\0\x01\
\x01\x01S\0\0\0\x01\0\0\0\0\0\0\0\0\0\0\0\0\0\0\0\0\0\0\0\0\0\0\0\x01\0\0\0\0\0\0\0\x09\
\0\0\0\0\0\0\0\x05\0\0\0\0\0\0\0\x01\0\0\0\0\0\0\0\x09\0\0\0\x01\0";

// Where the bytes are at fault with two of them changed.
fn fault_with(
    alloc: Global,
    bytes: &[u8],
    one: (usize, u8),
    two: (usize, u8),
) -> Result<Option<u64>, Fail> {
    let mut changed = Vec::from_slice(alloc, bytes)?;
    for (place, byte) in [one, two] {
        if place < changed.len() {
            changed[place] = byte;
        }
    }
    Ok(fault_of(alloc, &changed))
}

// Two places with another byte for each, and where the fault is.
type Change = ((usize, u8), (usize, u8), u64);

fn is_at_fault(alloc: Global, bytes: &[u8], change: &Change) -> Result<bool, Fail> {
    let (one, two, at) = change;
    Ok(fault_with(alloc, bytes, *one, *two)? == Some(*at))
}

// Where an index of 128 columns and five rows is at fault, with a first slice of so many columns: that number is at 463.
fn wide_fault(alloc: Global, cols: u8) -> Result<Option<u64>, Fail> {
    let mut bytes = Vec::from_slice(alloc, b"AIX1\0\x80")?;
    for name in 0..128u8 {
        bytes.extend_from_slice(&[1, 1, name])?;
    }
    bytes.extend_from_slice(&ONE_TILE[9..83])?;
    bytes.push(cols)?;
    Ok(fault_of(alloc, &bytes))
}

// The ends of a range and columns, and the places of the tiles of `THREE_TILES` that they ask for.
type Asked = (Option<i64>, Option<i64>, &'static [u64], &'static [u64]);

// Whether the tiles that are asked for are those.
fn are_covered(alloc: Global, asked: &Asked) -> Result<bool, Fail> {
    let (from, to, columns, places) = asked;
    match Range::make(*from, *to) {
        Some(range) => {
            let index = read(alloc, THREE_TILES)?;
            Ok(covering(alloc, &index, range, columns)?.items() == *places)
        }
        None => Ok(false),
    }
}

fn have_serials(slots: &[Slot], serials: &[u64]) -> bool {
    slots.len() == serials.len()
        && slots
            .iter()
            .zip(serials)
            .all(|(slot, serial)| slot.key.serial == *serial)
}

// Whether the slots that are asked for, where they lie, have those serials.
fn are_found(alloc: Global, asked: &Asked) -> Result<bool, Fail> {
    let (from, to, columns, serials) = asked;
    match Range::make(*from, *to) {
        Some(range) => {
            let index = opened(alloc, THREE_TILES)?;
            let slots = covered(alloc, index.slots(), range, columns)?;
            Ok(have_serials(slots.items(), serials))
        }
        None => Ok(false),
    }
}

enum Case {
    OneTile,
    Again(&'static [u8]),
    Slots,
    WhereCut,
    AByteMore,
    // The one tile with two bytes changed.
    OneTileBroken(Change),
    // The three tiles with two bytes changed.
    ThreeTilesBroken(Change),
    // The columns of the first slice of a wide index, and where the fault is.
    Wide(u8, u64),
}

fn holds(alloc: Global, case: &Case) -> Result<bool, Fail> {
    match case {
        Case::OneTile => Ok(is_read_as_one_tile(alloc)),
        Case::Again(bytes) => has_its_bytes(alloc, bytes),
        Case::Slots => are_slots(alloc),
        Case::WhereCut => Ok(is_at_fault_where_cut(alloc)),
        Case::AByteMore => Ok(fault_of(alloc, A_BYTE_MORE) == Some(84)),
        Case::OneTileBroken(change) => is_at_fault(alloc, ONE_TILE, change),
        Case::ThreeTilesBroken(change) => is_at_fault(alloc, THREE_TILES, change),
        Case::Wide(cols, at) => Ok(wide_fault(alloc, *cols)? == Some(*at)),
    }
}

const CASES: &[(&str, Case)] = &[
    ("an index of one tile has these 84 bytes", Case::OneTile),
    (
        "an index of one tile has its bytes again",
        Case::Again(ONE_TILE),
    ),
    (
        "an index of three tiles has its bytes again",
        Case::Again(THREE_TILES),
    ),
    (
        "an index of no tiles has its bytes again",
        Case::Again(EMPTY),
    ),
    (
        "slots that are spelled tell their ends and go behind others",
        Case::Slots,
    ),
    ("a field that is cut is the fault", Case::WhereCut),
    (
        "a byte more is a fault behind the last field",
        Case::AByteMore,
    ),
    // With 127 the slice stands, and the next one is missed.
    ("a slice has at most 127 columns", Case::Wide(128, 463)),
    ("a slice may have 127 columns", Case::Wide(127, 465)),
    (
        "another magic",
        Case::OneTileBroken(((3, b'2'), (3, b'2'), 0)),
    ),
    ("no type", Case::OneTileBroken(((6, 5), (6, 5), 6))),
    (
        "a name without bytes",
        Case::OneTileBroken(((7, 0), (7, 0), 7)),
    ),
    (
        "a name that is not UTF-8",
        Case::OneTileBroken(((8, 255), (8, 255), 8)),
    ),
    (
        "a row that no tile has",
        Case::OneTileBroken(((12, 6), (12, 6), 84)),
    ),
    (
        "a tile beyond the last row",
        Case::OneTileBroken(((12, 4), (12, 4), 60)),
    ),
    ("no tile", Case::OneTileBroken(((16, 0), (16, 0), 17))),
    ("a second tile", Case::OneTileBroken(((16, 2), (16, 2), 84))),
    (
        "the key of an index",
        Case::OneTileBroken(((17, 2), (17, 2), 17)),
    ),
    (
        "a key whose name has a blank",
        Case::OneTileBroken(((19, b' '), (19, b' '), 19)),
    ),
    (
        "a first row that is not 0",
        Case::OneTileBroken(((59, 1), (59, 1), 56)),
    ),
    ("no rows", Case::OneTileBroken(((63, 0), (63, 0), 60))),
    (
        "131,077 rows in one block",
        Case::OneTileBroken(((10, 2), (61, 2), 60)),
    ),
    (
        "a first stamp that is not the key's",
        Case::OneTileBroken(((71, 2), (71, 2), 64)),
    ),
    (
        "a last stamp that is not the key's",
        Case::OneTileBroken(((79, 8), (79, 8), 72)),
    ),
    (
        "stamps that fall",
        Case::OneTileBroken(((47, 10), (71, 10), 72)),
    ),
    (
        "a first column that is not 0",
        Case::OneTileBroken(((81, 1), (81, 1), 80)),
    ),
    ("no columns", Case::OneTileBroken(((83, 0), (83, 0), 82))),
    (
        "a tile beyond the last column",
        Case::OneTileBroken(((83, 2), (83, 2), 82)),
    ),
    (
        "the name of an earlier column",
        Case::ThreeTilesBroken(((11, b'a'), (11, b'a'), 11)),
    ),
    (
        "a slice with another first row",
        Case::ThreeTilesBroken(((129, 1), (129, 1), 126)),
    ),
    (
        "a slice with other rows",
        Case::ThreeTilesBroken(((133, 1), (133, 1), 130)),
    ),
    (
        "a slice with another first stamp",
        Case::ThreeTilesBroken(((117, 0), (141, 0), 134)),
    ),
    (
        "a slice with another last stamp",
        Case::ThreeTilesBroken(((125, 3), (149, 3), 142)),
    ),
    (
        "a slice of columns that the one before has",
        Case::ThreeTilesBroken(((151, 0), (151, 0), 150)),
    ),
    (
        "a block that begins where the one before does",
        Case::ThreeTilesBroken(((86, 2), (86, 2), 126)),
    ),
    (
        "a block that overlaps the one before",
        Case::ThreeTilesBroken(((196, 1), (196, 1), 193)),
    ),
    (
        "a block that leaves out a row",
        Case::ThreeTilesBroken(((196, 3), (196, 3), 193)),
    ),
    (
        "a block that begins below the last stamp",
        Case::ThreeTilesBroken(((184, 1), (208, 1), 201)),
    ),
    (
        "a block whose first slice is left out",
        Case::ThreeTilesBroken(((218, 1), (218, 1), 217)),
    ),
    (
        "a block whose last slice is left out",
        Case::ThreeTilesBroken(((220, 1), (220, 1), 221)),
    ),
    (
        "a last row that is left out",
        Case::ThreeTilesBroken(((200, 2), (200, 2), 221)),
    ),
];

#[test]
fn indexes_and_their_faults(rt: HostRuntime) -> Result<(), Fail> {
    for (name, case) in CASES {
        assert!(rt; holds(rt.alloc(), case)?, "{name}");
    }
    Ok(())
}

// A range and columns, and the tiles that they ask for in an index that was read, and in one whose slots are found where they lie: there
// the serial of each one's key is its place.
fn are_given(alloc: Global, asked: &Asked) -> Result<bool, Fail> {
    let covered = are_covered(alloc, asked)?;
    let found = are_found(alloc, asked)?;
    Ok(covered && found)
}

const ASKED: &[(&str, Asked)] = &[
    ("every row", (None, None, &[0, 1], &[0, 1, 2])),
    (
        "both blocks have stamp 2",
        (Some(2), Some(2), &[0, 1], &[0, 1, 2]),
    ),
    (
        "between the edges of the last",
        (Some(3), Some(8), &[0, 1], &[2]),
    ),
    ("from the last stamp", (Some(9), None, &[0, 1], &[2])),
    ("up to the first stamp", (None, Some(1), &[0, 1], &[0, 1])),
    ("above the last stamp", (Some(10), None, &[0, 1], &[])),
    ("below the first stamp", (None, Some(0), &[0, 1], &[])),
    ("no columns take the first", (None, None, &[], &[0, 2])),
    ("the first column", (None, None, &[0], &[0, 2])),
    ("the second column", (None, None, &[1], &[1, 2])),
    (
        "columns twice and one that is not there",
        (None, None, &[7, 1, 0, 1], &[0, 1, 2]),
    ),
    ("columns that are not there", (None, None, &[2, 7], &[])),
    (
        "the second column up to the first stamp",
        (None, Some(1), &[1], &[1]),
    ),
];

#[test]
fn a_range_and_columns_take_their_tiles(rt: HostRuntime) -> Result<(), Fail> {
    for (name, asked) in ASKED {
        assert!(rt; are_given(rt.alloc(), asked)?, "{name}");
    }
    Ok(())
}
