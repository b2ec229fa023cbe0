use base_types::{Items, Keep, Text};
use std::alloc::Global;
use std::test::Fail;

fn are_seven_and_eight(items: &Items<i64>) -> bool {
    items.len() == 2 && *items.at(0) == 7 && *items.at(1) == 8
}

// Whether a list has no items, and then two that were pushed, and its copy has them too.
fn stand_in_order(alloc: Global) -> Result<bool, Fail> {
    let mut items = Items::new(alloc);
    let empty = items.is_empty();
    items.push(7)?;
    items.push(8)?;
    let copy = items.copy(alloc)?.into_vec();
    Ok(empty && are_seven_and_eight(&items) && copy.as_slice() == [7, 8].as_slice())
}

// Whether 1, 2 and 3 are a copied slice with another behind it.
fn are_extended(alloc: Global) -> Result<bool, Fail> {
    let mut items = Items::from_slice(alloc, &[1u8, 2])?;
    items.extend(&[3])?;
    Ok(items.items() == [1, 2, 3].as_slice())
}

// Whether they are two slices that were joined.
fn are_joined(alloc: Global) -> Result<bool, Fail> {
    let joined = Items::joined(alloc, &[1u8], &[2, 3])?;
    Ok(joined.items() == [1, 2, 3].as_slice())
}

fn is_price(text: &Text) -> bool {
    text.text() == "price" && text.len() == 5
}

// Whether a text equals its copy, and one with a later byte is greater.
fn are_ordered(alloc: Global) -> Result<bool, Fail> {
    let price = Text::make(alloc, "price")?;
    let copy = price.copy(alloc)?;
    let pride = Text::make(alloc, "pride")?;
    Ok(is_price(&price) && copy == price && pride > price)
}

enum Case {
    Order,
    Extended,
    Joined,
    Texts,
}

fn holds(alloc: Global, case: &Case) -> Result<bool, Fail> {
    match case {
        Case::Order => stand_in_order(alloc),
        Case::Extended => are_extended(alloc),
        Case::Joined => are_joined(alloc),
        Case::Texts => are_ordered(alloc),
    }
}

const CASES: &[(&str, Case)] = &[
    (
        "items stand in the order in which they were pushed",
        Case::Order,
    ),
    ("a slice is copied at once", Case::Extended),
    ("slices are joined at once", Case::Joined),
    (
        "texts are equal by their bytes and ordered by them",
        Case::Texts,
    ),
];

#[test]
fn lists_and_texts(rt: HostRuntime) -> Result<(), Fail> {
    for (name, case) in CASES {
        assert!(rt; holds(rt.alloc(), case)?, "{name}");
    }
    Ok(())
}
