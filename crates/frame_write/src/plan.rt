ghost use Rattle.std.specs.Prelude.{◌≡◌, [], ◌∷◌, ◌++◌, IfOk, IfSome, OnOk};
ghost use Rattle.std.specs.Arc.{arc_value};
ghost use Rattle.frame_core.specs.Limits.{IsStorable};
ghost use Rattle.key_kind.specs.Keys.{IsKey};
ghost use Rattle.key_kind.specs.KeyText.{key_text};
ghost use Rattle.bucket_core.specs.History.{History};
ghost use Rattle.segment_cut.specs.Cuttings.{Cutting};
ghost use Rattle.index_tree.specs.IndexRules.{IsIndex};
ghost use Rattle.store_model.specs.Commits.{Rising};
ghost use Rattle.version_chain.specs.MarkPlans.{IsElementKey};
ghost use Rattle.version_chain.specs.Tips.{IsTipOf};
ghost use Rattle.version_chain.specs.Entries.{IsLink};
ghost use Rattle.frame_write.specs.Placing.{AreTilesOf};
ghost use Rattle.frame_write.specs.WritePlans.{IsTable, IsWritePlan};
ghost use Rattle.frame_write.specs.Links.{FitsPlan};
ghost use Rattle.frame_write.specs.Versions.{index_with, AddsElement, IsLaidTable, MayPlan, IsPlanOf};

use crate::changes::{changes_of, changes_with};
use crate::elements::{copied, mark_of, place_element};
use crate::laying::{Layout, lay_out, place_slots};
use crate::options::Options;
use crate::pieces::LinkPlan;
use crate::placing::{Placed, place_index, place_tiles};
use crate::puts::Prepared;
use crate::tiles::Tile;
use base_types::{Items, Keep, NoMemory};
use bucket_core::{Body, Changes};
use frame_core::{Frame, Schema};
use key_kind::{Key, Symbol};
use std::alloc::Global;
use std::sync::Arc;
use store_model::LinkRow;
use version_chain::ChainTip;

/// All that a try puts and refers, built before its first put.
#[derive(Drop)]
pub(crate) struct Plan {
    /// The new tiles in the order of the index, the index, and the element.
    pub(crate) puts: Items<Prepared>,
    /// The symbol's reference on which the element stands.
    pub(crate) was: Option<Key>,
    /// The key of the element.
    pub(crate) entry: Key,
    /// The spelling of that key.
    pub(crate) mark: Arc<Body>,
    /// What the commit changes.
    pub(crate) changes: Arc<Changes>,
    /// The number of the new version.
    pub(crate) version: u64,
}

/// The tiles and the index of a frame, as they are put.
#[derive(Drop)]
struct Table {
    /// The tiles, and then the index.
    puts: Items<Prepared>,
    /// The key of the index.
    index: Key,
    /// The serial behind them.
    next: u64,
}

/// What a Refer names of an element that is put.
#[derive(Drop)]
struct Entered {
    /// The symbol's reference on which the element stands.
    was: Option<Key>,
    /// The key of the element.
    entry: Key,
    /// The spelling of that key.
    mark: Arc<Body>,
}

/// A table, and behind its puts the element that links its index.
#[derive(Drop)]
struct Linked {
    /// The puts of the table, and then the element.
    puts: Items<Prepared>,
    /// The element.
    entered: Entered,
}

/// The plan of a try on the symbol's tip, for the client's puts from this serial on.
pub(crate) fn plan_write(
    alloc: Global,
    client: u32,
    serial: u64,
    symbol: &Symbol,
    tip: &ChainTip,
    frame: &Frame,
    tiles: &[Tile],
    options: &Options,
) -> Result<Plan, NoMemory>
    requires storable { IsStorable frame.now }
    requires tiles { AreTilesOf frame.now options.now.cutting tiles.now }
    requires was { IfSome tip.now.was (IsElementKey symbol.now) }
    requires rising { Rising tip.now.buried }
    ensures { IfOk result (λ plan. (before : History) → IsTipOf before symbol.now options.now.prune tip.now → IsWritePlan client serial before symbol.now frame.now options.now plan) }
{
    let version = tip.next;
    let table = put_table(alloc, client, serial, symbol, version, frame, tiles)?;
    let linked = link_table(
        alloc,
        client,
        symbol,
        tip,
        options.stamp(),
        frame.rows(),
        table,
    )?;
    let changes = changes_of(alloc, frame, options.stamp(), tip.buried.items())?;
    Ok(Plan {
        puts: linked.puts,
        was: linked.entered.was,
        entry: linked.entered.entry,
        mark: linked.entered.mark,
        changes,
        version,
    })
}

/// The frame's tiles under keys from this serial on, and behind them its index.
fn put_table(
    alloc: Global,
    client: u32,
    serial: u64,
    symbol: &Symbol,
    version: u64,
    frame: &Frame,
    tiles: &[Tile],
) -> Result<Table, NoMemory>
    requires storable { IsStorable frame.now }
    requires tiles { (cutting : Cutting) × AreTilesOf frame.now cutting tiles.now }
    ensures { IfOk result (IsTable client serial symbol.now version frame.now tiles.now) }
{
    let placed = place_tiles(alloc, client, serial, symbol, version, tiles)?;
    let Some(last) = placed.next.checked_add(1) else {
        return Err(NoMemory);
    };
    let Placed {
        slots,
        mut puts,
        next,
    } = placed;
    let put = place_index(alloc, client, next, symbol, version, frame, slots)?;
    let index = add_put(alloc, put, &mut puts)?;
    Ok(Table {
        puts,
        index,
        next: last,
    })
}

/// Adds a put behind the others, and gives a copy of its key.
fn add_put(alloc: Global, put: Prepared, puts: &mut Items<Prepared>) -> Result<Key, NoMemory>
    ensures key { IfOk result (λ key. key ≡ put.key) }
    ensures puts { OnOk result (puts.new ≡ puts.old ++ put ∷ []) }
{
    let key = put.key.copy(alloc)?;
    puts.push(put)?;
    Ok(key)
}

/// The plan of a try to make a version in pieces on the symbol's tip, for the client's puts from this serial on.
pub(crate) fn plan_link(
    alloc: Global,
    client: u32,
    serial: u64,
    symbol: &Symbol,
    tip: &ChainTip,
    link: &LinkPlan,
    options: &Options,
) -> Result<Plan, NoMemory>
    requires was { IfSome tip.now.was (IsElementKey symbol.now) }
    requires rising { Rising tip.now.buried }
    requires fits { (before : History) × MayPlan client serial before symbol.now options.now.prune tip.now × FitsPlan before symbol.now options.now.at link.now }
    ensures { IfOk result (λ made. (before : History) → MayPlan client serial before symbol.now options.now.prune tip.now → FitsPlan before symbol.now options.now.at link.now → IsPlanOf client serial before symbol.now options.now link.now.change link.now.pieces made) }
{
    let version = tip.next;
    let layout = lay_out(
        alloc,
        client,
        serial,
        symbol,
        version,
        link.pieces.items(),
        options.cutting,
    )?;
    let rows = layout.rows;
    let table = lay_table(alloc, client, symbol, version, &link.schema, layout)?;
    let linked = link_table(alloc, client, symbol, tip, options.stamp(), rows, table)?;
    let changes = changes_with(alloc, &link.change, tip.buried.items())?;
    Ok(Plan {
        puts: linked.puts,
        was: linked.entered.was,
        entry: linked.entered.entry,
        mark: linked.entered.mark,
        changes,
        version,
    })
}

/// The tiles that were laid out, and behind them their index.
fn lay_table(
    alloc: Global,
    client: u32,
    symbol: &Symbol,
    version: u64,
    schema: &Schema,
    layout: Layout,
) -> Result<Table, NoMemory>
    requires { IsIndex (index_with schema.now layout) }
    ensures { IfOk result (IsLaidTable client symbol.now version schema.now layout) }
{
    let Some(last) = layout.next.checked_add(1) else {
        return Err(NoMemory);
    };
    let put = place_slots(alloc, client, symbol, version, schema, &layout)?;
    let mut puts = layout.puts;
    let index = add_put(alloc, put, &mut puts)?;
    Ok(Table {
        puts,
        index,
        next: last,
    })
}

/// Adds the element that links the version of an index behind the puts of its table. It stands on the symbol's tip.
fn link_table(
    alloc: Global,
    client: u32,
    symbol: &Symbol,
    tip: &ChainTip,
    stamp: i64,
    rows: u64,
    table: Table,
) -> Result<Linked, NoMemory>
    requires was { IfSome tip.now.was (IsElementKey symbol.now) }
    requires rising { Rising tip.now.buried }
    requires link { IsLink (record { version = tip.now.next; stamp = stamp; rows = rows; index = table.index }) }
    ensures { IfOk result (AddsElement client table.next symbol.now tip.now (record { version = tip.now.next; stamp = stamp; rows = rows; index = table.index }) table.puts) }
{
    let Table {
        mut puts,
        index,
        next,
    } = table;
    let row = LinkRow {
        version: tip.next,
        stamp,
        rows,
        index,
    };
    let buried = tip.buried.items();
    let put = place_element(alloc, client, next, symbol, &tip.was, row, buried)?;
    let entry = add_put(alloc, put, &mut puts)?;
    let entered = enter(alloc, &tip.was, entry)?;
    Ok(Linked { puts, entered })
}

/// What a Refer names of the element under this key, which stands on `was`.
fn enter(alloc: Global, was: &Option<Key>, entry: Key) -> Result<Entered, NoMemory>
    requires { IsKey entry }
    ensures was { IfOk result (λ entered. entered.was ≡ was.now) }
    ensures entry { IfOk result (λ entered. entered.entry ≡ entry) }
    ensures mark { IfOk result (λ entered. arc_value entered.mark ≡ key_text entry) }
{
    let mark = mark_of(alloc, &entry)?;
    let was = copied(alloc, was)?;
    Ok(Entered { was, entry, mark })
}
