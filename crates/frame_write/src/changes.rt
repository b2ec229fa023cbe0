ghost use Rattle.std.specs.Prelude.{◌≡◌, true, ◌∷◌, IfOk};
ghost use Rattle.std.specs.Arc.{arc_value};
ghost use Rattle.bucket_core.specs.declared.event.Change.TheVariants.{Wrote};
ghost use Rattle.store_model.specs.Commits.{is_version};
ghost use Rattle.reply_model.specs.Answering.{removed};

use base_types::{Items, Keep, NoMemory};
use bucket_core::{Change, Changes};
use frame_core::Frame;
use std::alloc::Global;
use std::sync::Arc;

/// The changes of a write: the new version, and what it buries, if anything.
pub(crate) fn changes_of(
    alloc: Global,
    frame: &Frame,
    at: i64,
    buried: &[u64],
) -> Result<Arc<Changes>, NoMemory>
    ensures { IfOk result (λ changes. arc_value changes ≡ Wrote frame.now at ∷ removed buried.now) }
{
    let frame = frame.copy(alloc)?;
    commit_changes(alloc, Change::Wrote { frame, at }, buried)
}

/// The changes of a commit: this one, and what it buries, if anything.
fn commit_changes(alloc: Global, change: Change, buried: &[u64]) -> Result<Arc<Changes>, NoMemory>
    ensures { IfOk result (λ changes. arc_value changes ≡ change ∷ removed buried.now) }
{
    let mut changes = Items::new(alloc);
    changes.push(change)?;
    if !buried.is_empty() {
        let versions = Items::from_slice(alloc, buried)?;
        changes.push(Change::Removed { versions })?;
    }
    Ok(Arc::new(alloc, changes)?)
}

/// The changes of a commit that makes this version, in memory of their own: the change, and what is buried, if anything.
pub(crate) fn changes_with(
    alloc: Global,
    change: &Change,
    buried: &[u64],
) -> Result<Arc<Changes>, NoMemory>
    requires { is_version change.now ≡ true }
    ensures { IfOk result (λ changes. arc_value changes ≡ change.now ∷ removed buried.now) }
{
    let change = copy_change(alloc, change)?;
    commit_changes(alloc, change, buried)
}

/// The same change, in memory of its own. Only changes that make a version are copied.
fn copy_change(alloc: Global, change: &Change) -> Result<Change, NoMemory>
    requires { is_version change.now ≡ true }
    ensures { IfOk result (λ copy. copy ≡ change.now) }
{
    match change {
        Change::Wrote { frame, at } => Ok(Change::Wrote {
            frame: frame.copy(alloc)?,
            at: *at,
        }),
        Change::Appended { frame, at } => Ok(Change::Appended {
            frame: frame.copy(alloc)?,
            at: *at,
        }),
        Change::Updated { frame, range, at } => Ok(Change::Updated {
            frame: frame.copy(alloc)?,
            range: *range,
            at: *at,
        }),
        _ => unreachable!(),
    }
}
