use crate::stores::symbol;
use base_types::{Items, Keep};
use frame_core::{Asked, Refusal};
use frame_read::choose;
use key_kind::{Key, KeyKind};
use std::alloc::Global;
use std::test::Fail;
use store_model::LinkRow;
use version_chain::SymbolState;

// The key of the index of this version.
fn index(alloc: Global, version: u64) -> Result<Key, Fail> {
    let name = symbol(alloc)?.name().copy(alloc)?;
    Ok(Key {
        kind: KeyKind::TableIndex,
        name,
        client: 1,
        serial: version,
        version,
        first: 0,
        last: 0,
    })
}

// The numbers of the versions and their stamps.
const VERSIONS: &[(u64, i64)] = &[(0, 10), (1, 40), (2, 20), (3, 30)];

fn links(alloc: Global) -> Result<Items<LinkRow>, Fail> {
    let mut links = Items::new(alloc);
    for (version, stamp) in VERSIONS {
        links.push(LinkRow {
            version: *version,
            stamp: *stamp,
            rows: 1,
            index: index(alloc, *version)?,
        })?;
    }
    Ok(links)
}

// The state with these versions, of which 1 is buried.
fn state(alloc: Global) -> Result<SymbolState, Fail> {
    let was = Some(index(alloc, 0)?);
    let tombs = Items::from_slice(alloc, &[1u64])?;
    let links = links(alloc)?;
    Ok(SymbolState {
        was,
        links,
        tombs,
        holds: Items::new(alloc),
        consumed: Items::new(alloc),
        place: 12,
    })
}

// Whether this version is chosen; where it is none, whether the refusal says what was asked.
fn chooses(state: &SymbolState, asked: Asked, version: Option<u64>) -> bool {
    match choose(state, asked) {
        Ok(row) => version == Some(row.version),
        Err(why) => version.is_none() && why == Refusal::NoSuchVersion { asked },
    }
}

// The same in the state above.
fn is_chosen(alloc: Global, asked: Asked, version: Option<u64>) -> Result<bool, Fail> {
    let state = state(alloc)?;
    Ok(chooses(&state, asked, version))
}

// What is asked, and the version that is chosen: buried ones are passed over, and a moment takes the greatest number, not the greatest
// stamp.
const CHOICES: &[(Asked, Option<u64>)] = &[
    (Asked::Back(1), Some(3)),
    (Asked::Back(3), Some(0)),
    (Asked::Back(0), None),
    (Asked::Back(4), None),
    (Asked::Moment(30), Some(3)),
    (Asked::Moment(29), Some(2)),
    (Asked::Moment(10), Some(0)),
    (Asked::Moment(9), None),
    (Asked::Number(2), Some(2)),
    (Asked::Number(1), None),
];

#[test]
fn the_version_that_is_asked_is_chosen(rt: HostRuntime) -> Result<(), Fail> {
    for (row, (asked, version)) in CHOICES.iter().enumerate() {
        assert!(rt; is_chosen(rt.alloc(), *asked, *version)?, "row {row}");
    }
    Ok(())
}
