use crate::asks::{Answer, Ask, Told, answers_so, asked, library};
use crate::stores::{FIVE, store, symbol, tiles};
use base_types::Items;
use bucket_core::{Bucket, Counting, Event, Flaky, PlainBucket, When};
use expr_clause::Command;
use frame_core::Refusal;
use index_tree::{Index, Slot, read as read_index};
use key_kind::KeyKind;
use library_api::{Library, is_carried_out};
use segment_cut::Cutting;
use std::alloc::Global;
use std::sync::Wait;
use std::test::Fail;
use version_chain::StoreLaw;

// What a write answers in a store that is full at the refer.
fn written_to_a_full_store<R: Wait>(rt: &R, alloc: Global) -> Result<Answer, Fail> {
    let mut library = library(store(alloc, 3)?, Cutting::largest());
    asked(rt, alloc, &mut library, Ask::Write(FIVE))
}

#[test]
fn a_full_store_answers_the_refer_with_its_count(rt: HostRuntime) -> Result<(), Fail> {
    let answer = written_to_a_full_store(&rt, rt.alloc())?;
    assert!(rt; answer == (3, Told::Refused(Refusal::Spent { count: 3 })));
    Ok(())
}

// The fifth call of the store, the refer, fails after its effect.
const LOST: &[(Ask, Answer)] = &[
    (Ask::Write(FIVE), (3, Told::Refused(Refusal::StoreFault))),
    (Ask::Read, (4, Told::Whole(0, 5))),
    (Ask::Keys, (4, Told::Keys(1, 1, 1, 1, 0))),
];

// Whether a library answers so over a store whose fifth call fails after its effect, and how many events there are then.
fn loses_its_answer<R: Wait>(rt: &R, alloc: Global) -> Result<(bool, usize), Fail> {
    let fails = Items::from_slice(alloc, &[(5, When::After)])?;
    let mut library = library(Flaky::make(store(alloc, 1_000)?, fails), Cutting::largest());
    let good = answers_so(rt, alloc, &mut library, LOST)?;
    Ok((good, library.into_bucket().into_inner().events().len()))
}

#[test]
fn a_commit_whose_answer_was_lost_stands(rt: HostRuntime) -> Result<(), Fail> {
    assert!(rt; loses_its_answer(&rt, rt.alloc())? == (true, 4));
    Ok(())
}

const APPENDS: &[(Ask, Answer)] = &[
    (Ask::Append(&[9]), (8, Told::Committed(1))),
    (Ask::Append(&[10]), (12, Told::Committed(2))),
];

// A store in which S has five rows, whose last stamp is 9.
fn five_rows<R: Wait>(rt: &R, alloc: Global) -> Result<PlainBucket<StoreLaw>, Fail> {
    let mut library = library(store(alloc, 1_000)?, Cutting::largest());
    let _ = asked(rt, alloc, &mut library, Ask::Write(FIVE))?;
    Ok(library.into_bucket())
}

// Whether appends to five rows answer so, and how many elements, indexes and tiles they get.
fn append_gets<R: Wait>(rt: &R, alloc: Global) -> Result<(bool, u64, u64, u64), Fail> {
    let counting = Counting::make(five_rows(rt, alloc)?);
    let mut library = library(counting, Cutting::largest());
    let good = answers_so(rt, alloc, &mut library, APPENDS)?;
    let bucket = library.into_bucket();
    Ok((
        good,
        bucket.gets(KeyKind::Version),
        bucket.gets(KeyKind::TableIndex),
        bucket.gets(KeyKind::TableData),
    ))
}

#[test]
fn an_append_gets_the_newest_element_and_its_index_and_no_tile(
    rt: HostRuntime,
) -> Result<(), Fail> {
    assert!(rt; append_gets(&rt, rt.alloc())? == (true, 2, 2, 0));
    Ok(())
}

// Six rows in tiles of two, and two rows between the third and the fourth.
const IN_THE_MIDDLE: &[(Ask, Answer)] = &[
    (
        Ask::Write(&[10, 20, 30, 40, 50, 60]),
        (6, Told::Committed(0)),
    ),
    (Ask::Update(&[25, 35]), (11, Told::Committed(1))),
];

// The first row of each slot of the new index, and the serial of its tile: the first and the last are shared, and not put again.
const SLOTS: &[(u64, u64)] = &[(0, 0), (2, 5), (4, 6), (5, 2)];

// The index that was put last.
fn last_index(alloc: Global, bucket: &PlainBucket<StoreLaw>) -> Result<Option<Index>, Fail> {
    for event in bucket.events().iter().rev() {
        if let Event::Put { key, body, .. } = event {
            if key.kind == KeyKind::TableIndex {
                return Ok(Some(read_index(alloc, body.bytes())?));
            }
        }
    }
    Ok(None)
}

fn are_slots(slots: &[Slot], wanted: &[(u64, u64)]) -> bool {
    slots.len() == wanted.len()
        && slots.iter().zip(wanted).all(|(slot, (row, serial))| slot.part.first_row == *row
            && slot.key.serial == *serial)
}

// The store of that update, if its commands answer so.
fn updated<R: Wait>(rt: &R, alloc: Global) -> Result<Option<PlainBucket<StoreLaw>>, Fail> {
    let mut library = library(store(alloc, 1_000)?, tiles(2, 127));
    let good = answers_so(rt, alloc, &mut library, IN_THE_MIDDLE)?;
    Ok(if good {
        Some(library.into_bucket())
    } else {
        None
    })
}

// Whether the newest index of the store has these slots.
fn has_slots(alloc: Global, bucket: &PlainBucket<StoreLaw>) -> Result<bool, Fail> {
    match last_index(alloc, bucket)? {
        Some(index) => Ok(are_slots(index.slots.items(), SLOTS)),
        None => Ok(false),
    }
}

// Whether the update leaves them.
fn leaves_slots<R: Wait>(rt: &R, alloc: Global) -> Result<bool, Fail> {
    match updated(rt, alloc)? {
        Some(bucket) => has_slots(alloc, &bucket),
        None => Ok(false),
    }
}

#[test]
fn a_shared_slot_follows_the_new_rows_and_is_not_put(rt: HostRuntime) -> Result<(), Fail> {
    assert!(rt; leaves_slots(&rt, rt.alloc())?);
    Ok(())
}

// Whether a step carries out a question for keys.
fn carries_out_keys(alloc: Global) -> Result<bool, Fail> {
    let symbol = symbol(alloc)?;
    Ok(is_carried_out(&Command::Keys { symbol }))
}

// Whether it carries out a question for symbols.
fn carries_out_symbols() -> bool {
    is_carried_out(&Command::Symbols)
}

#[test]
fn a_step_carries_out_what_it_says(rt: HostRuntime) -> Result<(), Fail> {
    assert!(rt; carries_out_keys(rt.alloc())?);
    assert!(rt; !carries_out_symbols());
    Ok(())
}
