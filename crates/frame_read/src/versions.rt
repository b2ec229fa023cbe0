//! The versions of a symbol.

ghost use Rattle.std.specs.Prelude.{◌≡◌, ℕ, [], map, Ok, IfOk, IfErr};
ghost use Rattle.key_kind.specs.Names.{Name};
ghost use Rattle.bucket_core.specs.History.{History};
ghost use Rattle.bucket_core.specs.Laws.{Looks};
ghost use Rattle.bucket_core.specs.Calls.{IsSteady};
ghost use Rattle.store_model.specs.Law.{IsClaimed, IsLawful};
ghost use Rattle.store_model.specs.Library.{state_of};
ghost use Rattle.version_chain.specs.States.{IsStateOf};
ghost use Rattle.reply_model.specs.declared.outcome.Outcome.TheVariants.{Versions};
ghost use Rattle.reply_model.specs.ReadAnswers.{versions_answer};
ghost use Rattle.frame_read.specs.Versions.{row_counted, row_in, IsVersionList, IsVersionsRefusal, RefusesVersions};

use crate::counts::{Counts, count_holds, count_versions};
use crate::resolving::out_of_memory;
use base_types::{Items, NoMemory};
use bucket_core::Bucket;
use frame_core::{Refusal, Refused};
use key_kind::Symbol;
use reply_model::VersionRow;
use std::alloc::Global;
use std::sync::Wait;
use store_model::LinkRow;
use version_chain::{StoreLaw, SymbolState, walk};

/// Every version ever linked of a symbol.
#[derive(Drop)]
pub struct VersionList {
    /// In ascending order, buried ones included.
    pub rows: Items<VersionRow>,
    /// The number of events that the look at the symbol's reference has seen.
    pub place: u64,
}

/// Every version ever linked of a symbol, with its stamp, whether it is live, and how many holds it has, by one walk along the symbol's
/// chain. It may wait for the store. A symbol without a reference is refused with NoSuchSymbol.
pub fn list_versions<R: Wait, B: Bucket<StoreLaw>>(
    rt: &R,
    alloc: Global,
    bucket: &mut B,
    symbol: &Symbol,
) -> Result<VersionList, Refused>
    ensures looks { Looks IsClaimed (B.number bucket.old) (B.sole bucket.old) (B.seen bucket.old) (B.seen bucket.new) }
    ensures steady { IsSteady B.number B.limit B.faults B.sole bucket.old bucket.new }
    ensures listed { IfOk result (IsVersionList (B.seen bucket.old) (B.seen bucket.new) symbol.now) }
    ensures refused { IfErr result (RefusesVersions (B.faults bucket.old) (B.faults bucket.new) (B.seen bucket.old) (B.seen bucket.new) symbol.now) }
{
    let state = walk(rt, alloc, bucket, symbol)?;
    listed(alloc, &state)
}

/// The versions of a walked symbol. One without a reference is refused with NoSuchSymbol.
fn listed(alloc: Global, state: &SymbolState) -> Result<VersionList, Refused>
    ensures listed { (h : History) (symbol : Name) → ∥ IsLawful h ∥₁ → IsStateOf h symbol state.now → IfOk result (λ list. (list.place ≡ state.now.place) × (versions_answer (state_of h symbol) ≡ Ok (record { outcome = Versions list.rows; marks = [] }))) }
    ensures refused { (before now : ℕ) (h : History) (symbol : Name) → IsStateOf h symbol state.now → IfErr result (λ refused. (refused.place ≡ state.now.place) × IsVersionsRefusal before now h symbol refused.why) }
{
    let place = state.place;
    if state.was.is_none() {
        return Err(Refused {
            place,
            why: Refusal::NoSuchSymbol,
        });
    }
    match version_rows(alloc, state) {
        Ok(rows) => Ok(VersionList { rows, place }),
        Err(NoMemory) => Err(out_of_memory(place)),
    }
}

/// The rows of the links of a state.
pub(crate) fn version_rows(
    alloc: Global,
    state: &SymbolState,
) -> Result<Items<VersionRow>, NoMemory>
    ensures { IfOk result (λ rows. rows ≡ map (row_in state.now) state.now.links) }
{
    let tombs = count_versions(alloc, state.tombs.items())?;
    let holds = count_holds(alloc, state.holds.items())?;
    let rows = rows_of(alloc, state.links.items(), &tombs, &holds)?;
    Ok(rows)
}

/// The rows of links, where versions have so many tombs and holds.
fn rows_of(
    alloc: Global,
    links: &[LinkRow],
    tombs: &Counts,
    holds: &Counts,
) -> Result<Items<VersionRow>, NoMemory>
    ensures { IfOk result (λ rows. rows ≡ map (row_counted tombs.now holds.now) links.now) }
{
    let mut rows = Items::new(alloc);
    for row in links {
        rows.push(VersionRow {
            version: row.version,
            stamp: row.stamp,
            live: tombs.of(row.version) == 0,
            holds: holds.of(row.version),
        })?;
    }
    Ok(rows)
}
