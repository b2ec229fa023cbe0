//! A read: the version that is asked, and what is asked of its frame.

ghost use Rattle.std.specs.Prelude.{◌≡◌, ℕ, Bool, true, option_copied, IfOk, IfErr};
ghost use Rattle.key_kind.specs.Names.{Name};
ghost use Rattle.bucket_core.specs.History.{History};
ghost use Rattle.bucket_core.specs.Laws.{Looks};
ghost use Rattle.bucket_core.specs.Calls.{IsSteady};
ghost use Rattle.store_model.specs.Law.{IsClaimed};
ghost use Rattle.expr_clause.specs.declared.command.AsOf.{AsOf as Asks};
ghost use Rattle.expr_clause.specs.Fitting.{fits};
ghost use Rattle.library_api.specs.Finds.{HasFound};
ghost use Rattle.library_api.specs.Steps.{plain_reply, refusal_reply, IsLegalForAll};

use crate::reply::{out_of_memory, plain, refusal};
use bucket_core::Bucket;
use expr_clause::{AsOf, Clause, Command};
use frame_core::{ColName, Frame, Range, Refusal, Refused};
use frame_read::{Target, fetch, fetched_tiles_have_what_is_asked, resolve};
use key_kind::Symbol;
use parallel_read::run_clauses;
use reply_model::{Outcome, Reply};
use std::alloc::Global;
use std::sync::Wait;
use version_chain::StoreLaw;

/// What a read found: a version's number, what was asked of its frame, and the place at which it is so.
#[derive(Drop)]
struct VersionRead {
    version: u64,
    frame: Frame,
    place: u64,
}

/// The version that is asked, with what the clauses give of the rows in the range and the asked columns of its frame.
fn read_frame<R: Wait, B: Bucket<StoreLaw>>(
    rt: &R,
    alloc: Global,
    bucket: &mut B,
    symbol: &Symbol,
    as_of: &AsOf,
    range: Range,
    columns: Option<&[ColName]>,
    clauses: &[Clause],
) -> Result<VersionRead, Refused>
    requires small { fits clauses.now ≡ true }
    ensures looks { Looks IsClaimed (B.number bucket.old) (B.sole bucket.old) (B.seen bucket.old) (B.seen bucket.new) }
    ensures steady { IsSteady B.number B.limit B.faults B.sole bucket.old bucket.new }
    ensures whole { IfOk result (λ found. IsLegalForAll (B.number bucket.old) (B.faults bucket.old) (B.faults bucket.new) (B.seen bucket.old) (B.seen bucket.new) (Command.Read symbol.now as_of.now range (option_copied columns.entry) clauses.now) (plain_reply found.place (Outcome.Whole found.version found.frame))) }
    ensures refused { IfErr result (λ refused. IsLegalForAll (B.number bucket.old) (B.faults bucket.old) (B.faults bucket.new) (B.seen bucket.old) (B.seen bucket.new) (Command.Read symbol.now as_of.now range (option_copied columns.entry) clauses.now) (refusal_reply refused)) }
{
    let target = resolve(rt, alloc, bucket, symbol, as_of)?;
    match frame_of(rt, alloc, bucket, &target, range, columns, clauses) {
        Ok(frame) => Ok(VersionRead {
            version: target.version,
            frame,
            place: target.place,
        }),
        Err(refused) => Err(refused),
    }
}

/// What the clauses give of the rows in the range and the asked columns of the frame of a version that was found.
fn frame_of<R: Wait, B: Bucket<StoreLaw>>(
    rt: &R,
    alloc: Global,
    bucket: &mut B,
    target: &Target,
    range: Range,
    columns: Option<&[ColName]>,
    clauses: &[Clause],
) -> Result<Frame, Refused>
    requires found { (client : ℕ) × (sole : Bool) × (before : ℕ) × (old : History) × (symbol : Name) × (as_of : Asks) × HasFound client sole before old (B.number bucket.old) (B.sole bucket.old) (B.faults bucket.old) (B.seen bucket.old) symbol as_of target.now }
    requires small { fits clauses.now ≡ true }
    ensures looks { Looks IsClaimed (B.number bucket.old) (B.sole bucket.old) (B.seen bucket.old) (B.seen bucket.new) }
    ensures steady { IsSteady B.number B.limit B.faults B.sole bucket.old bucket.new }
    ensures whole { (client : ℕ) (sole : Bool) (before : ℕ) (old : History) (symbol : Name) (as_of : Asks) → HasFound client sole before old (B.number bucket.old) (B.sole bucket.old) (B.faults bucket.old) (B.seen bucket.old) symbol as_of target.now → IfOk result (λ frame. IsLegalForAll client before (B.faults bucket.new) old (B.seen bucket.new) (Command.Read symbol as_of range (option_copied columns.entry) clauses.now) (plain_reply target.now.place (Outcome.Whole target.now.version frame))) }
    ensures refused { (client : ℕ) (sole : Bool) (before : ℕ) (old : History) (symbol : Name) (as_of : Asks) → HasFound client sole before old (B.number bucket.old) (B.sole bucket.old) (B.faults bucket.old) (B.seen bucket.old) symbol as_of target.now → IfErr result (λ refused. IsLegalForAll client before (B.faults bucket.new) old (B.seen bucket.new) (Command.Read symbol as_of range (option_copied columns.entry) clauses.now) (refusal_reply refused)) }
{
    let tiles = fetch(rt, alloc, bucket, target, range, columns)?;
    fetched_tiles_have_what_is_asked();
    match run_clauses(alloc, &tiles, clauses) {
        Ok(frame) => Ok(frame),
        Err(Refusal::NoMemory) => Err(out_of_memory(bucket.place())),
        Err(why) => Err(Refused {
            place: target.place,
            why,
        }),
    }
}

/// Reads what the clauses give of the rows in the range and the asked columns of the version that is asked, with the place of the
/// look that found the version. It may wait for the store.
pub(crate) fn read<R: Wait, B: Bucket<StoreLaw>>(
    rt: &R,
    alloc: Global,
    bucket: &mut B,
    symbol: &Symbol,
    as_of: &AsOf,
    range: Range,
    columns: Option<&[ColName]>,
    clauses: &[Clause],
) -> Reply
    requires small { fits clauses.now ≡ true }
    ensures looks { Looks IsClaimed (B.number bucket.old) (B.sole bucket.old) (B.seen bucket.old) (B.seen bucket.new) }
    ensures steady { IsSteady B.number B.limit B.faults B.sole bucket.old bucket.new }
    ensures legal { IsLegalForAll (B.number bucket.old) (B.faults bucket.old) (B.faults bucket.new) (B.seen bucket.old) (B.seen bucket.new) (Command.Read symbol.now as_of.now range (option_copied columns.entry) clauses.now) result }
{
    match read_frame(rt, alloc, bucket, symbol, as_of, range, columns, clauses) {
        Ok(found) => plain(
            alloc,
            found.place,
            Outcome::Whole {
                version: found.version,
                frame: found.frame,
            },
        ),
        Err(refused) => refusal(alloc, refused),
    }
}
