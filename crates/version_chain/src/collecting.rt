ghost use Rattle.std.specs.Prelude.{◌≡◌, ◌++◌, [], ◌∷◌, not, map, filter, filter_map, flat_map, fold, reverse, IfOk, OnOk};
ghost use Rattle.key_kind.specs.Keys.{same_holder};
ghost use Rattle.store_model.specs.ChainText.{tomb_of};
ghost use Rattle.store_model.specs.PlainWalks.{row_of, pieces_of, holds_after_mark, tombs_in, rows_in, pieces_in, holds_in};
ghost use Rattle.version_chain.specs.States.{hold_of};
ghost use Rattle.version_chain.specs.Elements.{IsCollected};

use crate::marks::tomb_version;
use crate::state::SymbolState;
use base_types::{Items, NoMemory};
use bucket_core::PieceName;
use key_kind::{Holder, Key};
use std::alloc::Global;
use store_model::{ChainMark, Entry, HoldRow, LinkRow};

/// The state of a symbol that the elements of its chain give, of which the newest is the first.
pub(crate) fn collect(
    alloc: Global,
    was: Option<Key>,
    elements: Items<Entry>,
    place: u64,
) -> Result<SymbolState, NoMemory>
    ensures { IfOk result (IsCollected was elements place) }
{
    let tombs = find_tombs(alloc, elements.items())?;
    let holds = find_holds(alloc, elements.items())?;
    let consumed = find_pieces(alloc, elements.items())?;
    let links = take_links(alloc, elements)?;
    Ok(SymbolState {
        was,
        links,
        tombs,
        holds,
        consumed,
        place,
    })
}

/// Adds the versions of Tombs.
pub(crate) fn add_tombs(tombs: &mut Items<u64>, marks: &[ChainMark]) -> Result<(), NoMemory>
    ensures { OnOk result (tombs.new ≡ tombs.old ++ filter_map tomb_of marks.now) }
{
    for mark in marks {
        if let Some(version) = tomb_version(mark) {
            tombs.push(version)?;
        }
    }
    Ok(())
}

/// The buried versions, those of the newest element first.
pub(crate) fn find_tombs(alloc: Global, elements: &[Entry]) -> Result<Items<u64>, NoMemory>
    ensures { IfOk result (λ tombs. tombs ≡ tombs_in elements.now) }
{
    let mut tombs = Items::new(alloc);
    for element in elements {
        add_tombs(&mut tombs, element.changes.items())?;
    }
    Ok(tombs)
}

/// Adds the pieces of Discards.
fn add_pieces(pieces: &mut Items<PieceName>, marks: &[ChainMark]) -> Result<(), NoMemory>
    ensures { OnOk result (pieces.new ≡ pieces.old ++ flat_map pieces_of marks.now) }
{
    for mark in marks {
        if let ChainMark::Discard { pieces: consumed } = mark {
            pieces.extend(consumed.items())?;
        }
    }
    Ok(())
}

/// The consumed pieces, those of the newest element first.
fn find_pieces(alloc: Global, elements: &[Entry]) -> Result<Items<PieceName>, NoMemory>
    ensures { IfOk result (λ pieces. pieces ≡ pieces_in elements.now) }
{
    let mut pieces = Items::new(alloc);
    for element in elements {
        add_pieces(&mut pieces, element.changes.items())?;
    }
    Ok(pieces)
}

/// The holds without those of a holder.
fn without(alloc: Global, holds: &[HoldRow], holder: Holder) -> Result<Items<HoldRow>, NoMemory>
    ensures { IfOk result (λ kept. map hold_of kept ≡ filter (λ w. not (same_holder holder w.holder)) (map hold_of holds.now)) }
{
    let mut kept = Items::new(alloc);
    for hold in holds {
        if holder != hold.holder {
            kept.push(*hold)?;
        }
    }
    Ok(kept)
}

/// The holds behind a mark, where these stand before it. The newest comes first.
fn after_mark(
    alloc: Global,
    holds: Items<HoldRow>,
    mark: &ChainMark,
) -> Result<Items<HoldRow>, NoMemory>
    ensures { IfOk result (λ after. map hold_of after ≡ holds_after_mark (map hold_of holds) mark.now) }
{
    match mark {
        ChainMark::Hold { holder, version } => {
            let hold = HoldRow {
                holder: *holder,
                version: *version,
            };
            Items::joined(alloc, &[hold], holds.items())
        }
        ChainMark::Release { holder } => without(alloc, holds.items(), *holder),
        _ => Ok(holds),
    }
}

/// The holds behind the marks of an element.
fn after_marks(
    alloc: Global,
    before: Items<HoldRow>,
    marks: &[ChainMark],
) -> Result<Items<HoldRow>, NoMemory>
    ensures { IfOk result (λ after. map hold_of after ≡ fold holds_after_mark (map hold_of before) marks.now) }
{
    let mut holds = before;
    for mark in marks {
        holds = after_mark(alloc, holds, mark)?;
    }
    Ok(holds)
}

/// The unreleased holds, the newest first.
fn find_holds(alloc: Global, elements: &[Entry]) -> Result<Items<HoldRow>, NoMemory>
    ensures { IfOk result (λ holds. map hold_of holds ≡ holds_in elements.now) }
{
    let mut holds = Items::new(alloc);
    for place in (0..elements.len()).rev() {
        holds = after_marks(alloc, holds, elements[place].changes.items())?;
    }
    Ok(holds)
}

/// Adds the link of a mark, if it has one.
fn add_link(links: &mut Items<LinkRow>, mark: ChainMark) -> Result<(), NoMemory>
    ensures { OnOk result (links.new ≡ links.old ++ filter_map row_of (mark ∷ [])) }
{
    match mark {
        ChainMark::Link(row) => links.push(row),
        _ => Ok(()),
    }
}

/// Adds the links of an element, the last first, and moves them.
fn add_links(links: &mut Items<LinkRow>, element: Entry) -> Result<(), NoMemory>
    ensures { OnOk result (links.new ≡ links.old ++ reverse (filter_map row_of element.changes)) }
{
    let mut rest = element.changes.into_vec();
    while let Some(mark) = rest.pop() {
        add_link(links, mark)?;
    }
    Ok(())
}

/// The links, the oldest first. They are moved and not copied.
pub(crate) fn take_links(alloc: Global, elements: Items<Entry>) -> Result<Items<LinkRow>, NoMemory>
    ensures { IfOk result (λ links. links ≡ reverse (rows_in elements)) }
{
    let mut links = Items::new(alloc);
    let mut rest = elements.into_vec();
    while let Some(element) = rest.pop() {
        add_links(&mut links, element)?;
    }
    Ok(links)
}
