use base_types::Keep;
use key_kind::{Key, KeyFault, KeyKind, Name, NameFault, SnapName, Symbol, view_key_of};
use std::alloc::Global;
use std::test::Fail;

// The tile of symbol S that client 1 put first: version 0, stamps 1 to 9.
fn tile(alloc: Global) -> Result<Key, Fail> {
    let name = Symbol::make(alloc, "S")?.name().copy(alloc)?;
    Ok(Key {
        kind: KeyKind::TableData,
        name,
        client: 1,
        serial: 0,
        version: 0,
        first: 1,
        last: 9,
    })
}

// The spelling of that key, as the format gives it.
const TILE: &[u8] =
    b"\x01\x01S\0\0\0\x01\0\0\0\0\0\0\0\0\0\0\0\0\0\0\0\0\0\0\0\0\0\0\0\x01\0\0\0\0\0\0\0\x09";

// Whether the spelling is read as the key of the tile, whole, and the key is spelled so.
fn is_read_and_spelled(alloc: Global) -> Result<bool, Fail> {
    let (key, length) = Key::read(alloc, TILE)?;
    let tile = tile(alloc)?;
    let bytes = key.bytes(alloc)?;
    Ok(key.same(&tile) && length == 39 && bytes.as_slice() == TILE)
}

fn begins_no_key(alloc: Global, bytes: &[u8]) -> bool {
    matches!(Key::read(alloc, bytes), Err(KeyFault::NotAKey))
}

fn repeated(alloc: Global, letter: char, length: u64) -> Result<String, Fail> {
    let mut text = String::new(alloc);
    for _ in 0..length {
        text.push(letter)?;
    }
    Ok(text)
}

// Whether so many letters are a name, or else refused for their length.
fn is_name_or_not(alloc: Global, letter: char, length: u64, good: bool) -> Result<bool, Fail> {
    let text = repeated(alloc, letter, length)?;
    match Name::make(alloc, text.as_str()).err() {
        None => Ok(good),
        Some(NameFault::Length) => Ok(!good),
        Some(_) => Ok(false),
    }
}

fn is_bad_at(fault: Option<NameFault>, place: u64) -> bool {
    matches!(fault, Some(NameFault::Byte { at }) if at == place)
}

fn reference(alloc: Global, symbol: &str) -> Result<Key, Fail> {
    Ok(Key::reference(alloc, &Symbol::make(alloc, symbol)?)?)
}

fn snapshot(alloc: Global, name: &str) -> Result<Key, Fail> {
    Ok(Key::snapshot(alloc, &SnapName::make(alloc, name)?)?)
}

// Whether a tile stands before a reference, that before one with a longer name, and that before a snapshot.
fn stand_in_order(alloc: Global) -> Result<bool, Fail> {
    let tile = tile(alloc)?;
    let first = reference(alloc, "A")?;
    let later = reference(alloc, "AA")?;
    let snapshot = snapshot(alloc, "A")?;
    Ok(tile < first && first < later && later < snapshot && !first.same(&snapshot))
}

enum Case {
    Spelled,
    NoKey(&'static [u8]),
    // A letter, how often it stands, and whether that is a name.
    Letters(char, u64, bool),
    // A text that is none, and the place of its first bad byte.
    BadSnap(&'static str, u64),
    BadSymbol(&'static str, u64),
    Order,
    OtherKind,
}

fn holds(alloc: Global, case: &Case) -> Result<bool, Fail> {
    match case {
        Case::Spelled => is_read_and_spelled(alloc),
        Case::NoKey(bytes) => Ok(begins_no_key(alloc, bytes)),
        Case::Letters(letter, length, good) => is_name_or_not(alloc, *letter, *length, *good),
        Case::BadSnap(text, at) => Ok(is_bad_at(SnapName::make(alloc, text).err(), *at)),
        Case::BadSymbol(text, at) => Ok(is_bad_at(Symbol::make(alloc, text).err(), *at)),
        Case::Order => stand_in_order(alloc),
        Case::OtherKind => Ok(matches!(view_key_of(KeyKind::TableIndex, TILE), Err(39))),
    }
}

const CASES: &[(&str, Case)] = &[
    ("a key of a tile has these 39 bytes", Case::Spelled),
    ("no byte begins no key", Case::NoKey(b"")),
    ("another kind begins no key", Case::NoKey(b"\x07\x01S")),
    ("no name begins no key", Case::NoKey(b"\x01\0")),
    (
        "a name that is cut off begins no key",
        Case::NoKey(b"\x01\x02S"),
    ),
    (
        "a blank in the name begins no key",
        Case::NoKey(b"\x01\x01 "),
    ),
    ("no letters are no name", Case::Letters('~', 0, false)),
    (
        "one of the least byte is a name",
        Case::Letters('!', 1, true),
    ),
    (
        "255 of the greatest byte are a name",
        Case::Letters('~', 255, true),
    ),
    ("256 letters are no name", Case::Letters('~', 256, false)),
    (
        "a snapshot's name is refused at its first bad byte",
        Case::BadSnap("a b\u{7f}", 1),
    ),
    (
        "a symbol is refused at its first bad byte",
        Case::BadSymbol("ab\u{7f}", 2),
    ),
    ("keys stand by kind and then by name", Case::Order),
    (
        "a view of another kind is at fault at its first byte",
        Case::OtherKind,
    ),
];

#[test]
fn keys_and_names(rt: HostRuntime) -> Result<(), Fail> {
    for (name, case) in CASES {
        assert!(rt; holds(rt.alloc(), case)?, "{name}");
    }
    Ok(())
}
