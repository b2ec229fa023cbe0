//! One command, by its kind.

ghost use Rattle.std.specs.Prelude.{◌≡◌, ◌<◌, true, Some, length, slice_get, option_copied};
ghost use Rattle.key_kind.specs.Names.{Name as NameBytes};
ghost use Rattle.bucket_core.specs.Calls.{IsSteady};
ghost use Rattle.version_chain.specs.Traces.{GoesOn};
ghost use Rattle.reply_model.specs.Kinds.{kind_of, kind_makes};
ghost use Rattle.reply_model.specs.Standing.{GrowsAlone, LaysOut};
ghost use Rattle.reply_model.specs.Blocks.{run_cutting};
ghost use Rattle.library_api.specs.Libraries.{AreSettings};
ghost use Rattle.library_api.specs.Steps.{is_carried_out, reads_or_makes, IsNamed, client_of, IsLegalIn, LooksFirst};

use crate::appending::append;
use crate::burying::{delete, prune};
use crate::keys::keys;
use crate::reading::read;
use crate::reclaiming::reclaim;
use crate::settings::Settings;
use crate::updating::{delete_range, update};
use crate::versions::versions;
use crate::writing::write;
use base_types::Items;
use bucket_core::Bucket;
use expr_clause::{Command, fits};
use frame_core::RawFrame;
use reply_model::Reply;
use std::alloc::Global;
use std::sync::Wait;
use version_chain::StoreLaw;

/// Carries out one command over a bucket. It may wait for the store.
pub(crate) fn perform<R: Wait, B: Bucket<StoreLaw>>(
    rt: &R,
    alloc: Global,
    bucket: &mut B,
    settings: Settings,
    command: &Command,
    frames: &[RawFrame],
) -> Reply
    requires settings { AreSettings settings }
    requires served { is_carried_out command.now ≡ true }
    requires named { IsNamed (length frames.now) command.now }
    ensures steady { IsSteady B.number B.limit B.faults B.sole bucket.old bucket.new }
    ensures grown { GoesOn (B.number bucket.old) (B.sole bucket.old) (B.seen bucket.old) (B.seen bucket.new) }
    ensures legal { IsLegalIn (client_of frames.now settings (B.number bucket.old) (B.limit bucket.old)) (B.faults bucket.old) (B.faults bucket.new) (B.seen bucket.old) (B.seen bucket.new) command.now result }
    // Where nobody else makes events, it is known how a new version is laid out, and where a reclaim looked.
    ensures lays { GrowsAlone (B.number bucket.old) (B.seen bucket.old) (B.seen bucket.new) → LaysOut (run_cutting settings.cutting) (client_of frames.now settings (B.number bucket.old) (B.limit bucket.old)).session command.now result (B.seen bucket.old) (B.seen bucket.new) }
    ensures looked { (named : NameBytes) → command.now ≡ Command.Reclaim named → LooksFirst (B.number bucket.old) (B.seen bucket.old) (B.seen bucket.new) result }
{
    match command {
        Command::Delete { symbol, versions } => {
            delete(rt, alloc, bucket, symbol, lent(versions), settings.tries)
        }
        Command::Prune { symbol } => prune(rt, alloc, bucket, symbol, settings.tries),
        Command::Reclaim { symbol } => reclaim(rt, alloc, bucket, symbol, settings.tries),
        _ => read_or_make(rt, alloc, bucket, settings, command, frames),
    }
}

/// Carries out a command that reads a symbol, or makes a version of it. It may wait for the store.
fn read_or_make<R: Wait, B: Bucket<StoreLaw>>(
    rt: &R,
    alloc: Global,
    bucket: &mut B,
    settings: Settings,
    command: &Command,
    frames: &[RawFrame],
) -> Reply
    requires settings { AreSettings settings }
    requires served { is_carried_out command.now ≡ true }
    requires of_kind { reads_or_makes (kind_of command.now) ≡ true }
    requires named { IsNamed (length frames.now) command.now }
    ensures steady { IsSteady B.number B.limit B.faults B.sole bucket.old bucket.new }
    ensures grown { GoesOn (B.number bucket.old) (B.sole bucket.old) (B.seen bucket.old) (B.seen bucket.new) }
    ensures legal { IsLegalIn (client_of frames.now settings (B.number bucket.old) (B.limit bucket.old)) (B.faults bucket.old) (B.faults bucket.new) (B.seen bucket.old) (B.seen bucket.new) command.now result }
    // Where nobody else makes events, it is known how a new version is laid out.
    ensures lays { GrowsAlone (B.number bucket.old) (B.seen bucket.old) (B.seen bucket.new) → LaysOut (run_cutting settings.cutting) (client_of frames.now settings (B.number bucket.old) (B.limit bucket.old)).session command.now result (B.seen bucket.old) (B.seen bucket.new) }
{
    match command {
        Command::Read {
            symbol,
            as_of,
            range,
            columns,
            clauses,
        } => {
            let columns = lent(columns);
            let clauses = clauses.items();
            read(rt, alloc, bucket, symbol, as_of, *range, columns, clauses)
        }
        Command::Keys { symbol } => keys(rt, alloc, bucket, symbol),
        Command::Versions { symbol } => versions(rt, alloc, bucket, symbol),
        _ => make_version(rt, alloc, bucket, settings, command, frames),
    }
}

/// Carries out a command that makes a version. It may wait for the store.
fn make_version<R: Wait, B: Bucket<StoreLaw>>(
    rt: &R,
    alloc: Global,
    bucket: &mut B,
    settings: Settings,
    command: &Command,
    frames: &[RawFrame],
) -> Reply
    requires settings { AreSettings settings }
    requires served { is_carried_out command.now ≡ true }
    requires of_kind { kind_makes (kind_of command.now) ≡ true }
    requires named { IsNamed (length frames.now) command.now }
    ensures steady { IsSteady B.number B.limit B.faults B.sole bucket.old bucket.new }
    ensures grown { GoesOn (B.number bucket.old) (B.sole bucket.old) (B.seen bucket.old) (B.seen bucket.new) }
    ensures legal { IsLegalIn (client_of frames.now settings (B.number bucket.old) (B.limit bucket.old)) (B.faults bucket.old) (B.faults bucket.new) (B.seen bucket.old) (B.seen bucket.new) command.now result }
    // Where nobody else makes events, it is known how a new version is laid out.
    ensures lays { GrowsAlone (B.number bucket.old) (B.seen bucket.old) (B.seen bucket.new) → LaysOut (run_cutting settings.cutting) (client_of frames.now settings (B.number bucket.old) (B.limit bucket.old)).session command.now result (B.seen bucket.old) (B.seen bucket.new) }
{
    match command {
        Command::Write {
            symbol,
            frame,
            at,
            prune,
        } => {
            let options = settings.options(*at, *prune);
            let raw = frame_at(frames, *frame);
            write(rt, alloc, bucket, symbol, raw, &options)
        }
        Command::Append {
            symbol,
            frame,
            at,
            prune,
        } => {
            let options = settings.options(*at, *prune);
            let raw = frame_at(frames, *frame);
            append(rt, alloc, bucket, symbol, raw, &options)
        }
        Command::Update {
            symbol,
            frame,
            range,
            upsert,
            at,
            prune,
        } => {
            let options = settings.options(*at, *prune);
            let raw = frame_at(frames, *frame);
            update(rt, alloc, bucket, symbol, raw, *range, *upsert, &options)
        }
        Command::DeleteRange {
            symbol,
            range,
            at,
            prune,
        } => {
            let options = settings.options(*at, *prune);
            delete_range(rt, alloc, bucket, symbol, *range, &options)
        }
        _ => unreachable!(),
    }
}

/// Whether a step carries out the command. It does so to a read whose clauses are within their limits.
pub fn is_carried_out(command: &Command) -> bool
    ensures { result ≡ is_carried_out command.now }
{
    match command {
        Command::Read { clauses, .. } => fits(clauses.items()),
        Command::Stage { .. }
        | Command::Finalize { .. }
        | Command::Discard { .. }
        | Command::Snapshot { .. }
        | Command::DeleteSnapshot { .. }
        | Command::Symbols
        | Command::Snapshots => false,
        _ => true,
    }
}

/// The frame of this number, counted from 0.
fn frame_at(frames: &[RawFrame], number: u64) -> &RawFrame
    requires { number < length frames.now }
    ensures { slice_get frames.now number ≡ Some result.now }
{
    &frames[number as usize]
}

/// The items, lent.
fn lent<T>(items: &Option<Items<T>>) -> Option<&[T]>
    ensures { option_copied result ≡ items.now }
{
    match items {
        Some(items) => Some(items.items()),
        None => None,
    }
}
