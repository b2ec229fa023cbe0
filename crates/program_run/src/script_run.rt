ghost use Rattle.std.specs.Prelude.{◌≡◌, ◌≢◌, ◌≤◌, ℤ, true, List, Option, IsOk, IsErrOf, IfOk, OnErr, length, map, string_bytes};
ghost use Rattle.std.specs.List.{list_any};
ghost use Rattle.base_types.specs.Faults.{Rose};
ghost use Rattle.frame_core.specs.Texts.{Text as Bytes};
ghost use Rattle.bucket_shared.specs.Passes.{store_of, seen_of, number_of, limit_of, sole_of};
ghost use Rattle.program_edge.specs.Shelves.{Held};
ghost use Rattle.program_edge.specs.Clocks.{IsReading};
ghost use Rattle.reply_model.specs.Windows.{is_refused};
ghost use Rattle.library_api.specs.Libraries.{AreSettings};
ghost use Rattle.reply_model.specs.Blocks.{run_cutting};
ghost use Rattle.client_sessions.specs.Blocks.{clients_of};
ghost use Rattle.client_sessions.specs.Parts.{IsRun as IsPartsRun};
ghost use Rattle.program_run.specs.CommandLine.{IsTries};
ghost use Rattle.program_run.specs.Program.{Shelf as Files, run_alone, wants_memory, some_outcome, replies_status, run_of, stop_status, stopped};
ghost use Rattle.program_run.specs.Endings.{RunEnds, JobEnds, Ends, start_of, IsTranscript, StopsByUsage, StopsByScript, StopsByFetch, StopsByPut, WantsMemory, StopsByFile, IsOfOne, IsRunOrFails};
ghost use Rattle.program_run.specs.Jobs.{AreReady};
ghost use Rattle.program_run.specs.Preparing.{parts_in, job_in};

use crate::prepare::{Plan, prepare};
use crate::print::{print_stop, print_transcript};
use crate::stop::{Halt, Stop};
use crate::words::Options;
use base_types::{Items, NoMemory, Text};
use bucket_core::{Bucket, Gate};
use bucket_shared::Pass;
use client_sessions::{PartReplies, run_parts};
use frame_core::Refusal;
use library_api::Settings;
use program_edge::{Clock, Shelf, Sink, SinkErr};
use reply_model::{Outcome, Reply, runs_alone_are_sole};
use std::alloc::Global;
use std::sync::Wait;
use std::thread::Threads;

/// The clauses of a read may use so many threads.
const WORKERS: u32 = 4;

/// What a run leaves: the status, and the pass of its store.
#[derive(Drop)]
pub struct Ran {
    pub status: u8,
    pub pass: Pass,
}

fn is_refusal(outcome: &Outcome) -> bool
    ensures { result ≡ is_refused outcome.now }
{
    matches!(outcome, Outcome::Refused { .. })
}

fn wants_memory(outcome: &Outcome) -> bool
    ensures { result ≡ wants_memory outcome.now }
{
    matches!(
        outcome,
        Outcome::Refused {
            why: Refusal::NoMemory
        }
    )
}

fn some_refused(replies: &[Reply]) -> bool
    ensures { result ≡ some_outcome is_refused replies.now }
{
    replies.iter().any(|reply| is_refusal(&reply.outcome))
}

fn some_want_memory(replies: &[Reply]) -> bool
    ensures { result ≡ some_outcome wants_memory replies.now }
{
    replies.iter().any(|reply| wants_memory(&reply.outcome))
}

/// Whether a reply of a part is a refusal.
fn part_refused(replies: &Items<Reply>) -> bool
    ensures { result ≡ some_outcome is_refused replies.now }
{
    some_refused(replies.items())
}

/// Whether a reply of a part is want of memory.
fn part_wants_memory(replies: &Items<Reply>) -> bool
    ensures { result ≡ some_outcome wants_memory replies.now }
{
    some_want_memory(replies.items())
}

fn some_block_refused(blocks: &[Items<Reply>]) -> bool
    ensures { result ≡ list_any (some_outcome is_refused) blocks.now }
{
    blocks.iter().any(|block| part_refused(block))
}

fn some_block_wants_memory(blocks: &[Items<Reply>]) -> bool
    ensures { result ≡ list_any (some_outcome wants_memory) blocks.now }
{
    blocks.iter().any(|block| part_wants_memory(block))
}

/// 6 where a reply is want of memory, else 1 where one is a refusal, else 0.
fn status_of(replies: &PartReplies) -> u8
    ensures { result ≡ replies_status replies.now }
{
    let PartReplies {
        first,
        blocks,
        last,
    } = replies;
    if part_wants_memory(first)
        || some_block_wants_memory(blocks.items())
        || part_wants_memory(last)
    {
        6
    } else if part_refused(first) || some_block_refused(blocks.items()) || part_refused(last) {
        1
    } else {
        0
    }
}

/// The status of a run, all of whose lines were printed or not.
fn status_after(printed: Result<(), SinkErr>, status: u8) -> u8
    ensures all { IsOk printed → result ≡ status }
    ensures failed { IsErrOf printed SinkErr.Failed → result ≡ 5 }
    ensures memory { IsErrOf printed SinkErr.NoMemory → result ≡ 6 }
{
    match printed {
        Ok(()) => status,
        Err(SinkErr::Failed) => 5,
        Err(SinkErr::NoMemory) => 6,
    }
}

/// Prints the transcript of the replies, of clients of these names, where the history ends at this place.
fn run_replies<S: Sink>(
    alloc: Global,
    out: &mut S,
    names: &[Text],
    replies: &PartReplies,
    end: u64,
) -> u8
    ensures { RunEnds (run_of names.now replies.now end) (S.faults out.old) (S.faults out.new) (S.written out.old) (S.written out.new) result }
{
    let printed = print_transcript(alloc, out, names, replies, end);
    status_after(printed, status_of(replies))
}

fn status_of_stop(stop: &Stop) -> u8
    ensures { result ≡ stop_status stop.now }
{
    match stop {
        Stop::Usage => 2,
        Stop::BadScript => 3,
        Stop::Unreadable(_) => 4,
        Stop::BadFile(_) => 7,
    }
}

/// Prints why a run stops.
pub fn run_stop<S: Sink>(alloc: Global, out: &mut S, stop: &Stop) -> u8
    ensures { RunEnds (stopped stop.now) (S.faults out.old) (S.faults out.new) (S.written out.old) (S.written out.new) result }
{
    let printed = print_stop(alloc, out, stop);
    status_after(printed, status_of_stop(stop))
}

/// Carries out the parts of a plan over the store of a pass.
fn carry_out_parts<R: Threads + Wait + Sync, G: Gate>(
    rt: &R,
    alloc: Global,
    gate: &G,
    pass: Pass,
    settings: Settings,
    plan: &Plan,
) -> (Pass, Result<PartReplies, NoMemory>)
    requires sole { sole_of pass ≡ true }
    requires settings { AreSettings settings }
    requires ready { AreReady (length plan.now.frames) (parts_in plan.now) }
    ensures ran { IfOk result.1 (λ replies. IsPartsRun (run_cutting settings.cutting) (clients_of plan.now.frames settings (limit_of pass)) (number_of pass) (parts_in plan.now) replies (seen_of pass) (seen_of result.0)) }
    ensures memory { OnErr result.1 (result.0 ≡ pass) }
    ensures client { number_of result.0 ≡ number_of pass }
    ensures limit { limit_of result.0 ≡ limit_of pass }
    ensures sole { sole_of result.0 ≡ true }
    ensures store { store_of result.0 ≡ store_of pass }
{
    run_parts(
        rt,
        alloc,
        pass,
        gate,
        settings,
        plan.frames.items(),
        plan.first.items(),
        plan.blocks.items(),
        plan.last.items(),
    )
}

/// Prints the transcript of the replies, where there was memory for them. The status is 6 where there was none.
fn end_run<S: Sink>(
    alloc: Global,
    out: &mut S,
    names: &[Text],
    replies: Result<PartReplies, NoMemory>,
    end: u64,
) -> u8
    ensures told { IfOk replies (λ told. RunEnds (run_of names.now told end) (S.faults out.old) (S.faults out.new) (S.written out.old) (S.written out.new) result) }
    ensures memory { OnErr replies ((result ≡ 6) × (S.faults out.new ≡ S.faults out.old) × (S.written out.new ≡ S.written out.old)) }
{
    match replies {
        Ok(replies) => run_replies(alloc, out, names, &replies, end),
        Err(NoMemory) => 6,
    }
}

/// Carries out the parts of a plan at a moment, and prints the replies.
fn run_plan<R: Threads + Wait + Sync, S: Sink, G: Gate>(
    rt: &R,
    alloc: Global,
    out: &mut S,
    gate: &G,
    pass: Pass,
    moment: i64,
    plan: &Plan,
) -> Ran
    requires sole { sole_of pass ≡ true }
    requires tries { IsTries plan.now.options.tries }
    requires ready { AreReady (length plan.now.frames) (parts_in plan.now) }
    ensures client { number_of result.pass ≡ number_of pass }
    ensures limit { limit_of result.pass ≡ limit_of pass }
    ensures sole { sole_of result.pass ≡ true }
    ensures store { store_of result.pass ≡ store_of pass }
    ensures ends { (words : List Bytes) (holds : Held) (reading : Option ℤ) → IsReading reading moment → JobEnds (start_of words holds reading pass) (job_in plan.now) (S.faults out.old) (S.faults out.new) (S.written out.old) (S.written out.new) result.status (seen_of result.pass) }
{
    let Options { cutting, tries } = plan.options;
    let settings = Settings {
        cutting,
        tries,
        workers: WORKERS,
        moment,
    };
    let (pass, replies) = carry_out_parts(rt, alloc, gate, pass, settings, plan);
    let status = end_run(alloc, out, plan.names.items(), replies, pass.place());
    Ran { status, pass }
}

/// Prepares a run, and carries it out or prints why it stops.
fn run_words<R: Threads + Wait + Sync, F: Shelf, S: Sink, G: Gate>(
    rt: &R,
    alloc: Global,
    words: &[String],
    shelf: &mut F,
    out: &mut S,
    gate: &G,
    moment: i64,
    pass: Pass,
) -> Ran
    requires sole { sole_of pass ≡ true }
    ensures client { number_of result.pass ≡ number_of pass }
    ensures limit { limit_of result.pass ≡ limit_of pass }
    ensures sole { sole_of result.pass ≡ true }
    ensures store { store_of result.pass ≡ store_of pass }
    ensures ends { (reading : Option ℤ) → IsReading reading moment → Ends (start_of (map string_bytes words.now) (F.holds shelf.old) reading pass) (F.faults shelf.old) (F.faults shelf.new) (S.faults out.old) (S.faults out.new) (S.written out.old) (S.written out.new) result.status (seen_of result.pass) }
    ensures shelf_kept { result.status ≢ 4 → result.status ≢ 5 → result.status ≢ 6 → F.faults shelf.new ≡ F.faults shelf.old }
{
    match prepare(alloc, words, shelf) {
        Ok(plan) => run_plan(rt, alloc, out, gate, pass, moment, &plan),
        Err(Halt::Stop(stop)) => Ran {
            status: run_stop(alloc, out, &stop),
            pass,
        },
        Err(Halt::NoMemory) => Ran { status: 6, pass },
    }
}

/// Runs the script that the words name: `run SCRIPT`, with options.
///
/// It calls the clock once, fetches the script and reads it, fetches and reads each loaded file in order, and carries out the parts
/// of the script over the shared store of the pass: the first commands with the pass, each client on a thread of its own with a
/// pass of its own, and then the last commands with the pass, into which all others were joined. Each client passes the gate
/// before and behind each call of its bucket. Then it prints the replies in the script's order, each line by a put of its own.
/// After a refused put nothing more is put. The pass comes back with every status.
pub fn run<R: Threads + Wait + Sync, F: Shelf, S: Sink, C: Clock, G: Gate>(
    rt: &R,
    alloc: Global,
    words: &[String],
    shelf: &mut F,
    out: &mut S,
    clock: &mut C,
    gate: &G,
    pass: Pass,
) -> Ran
    // No other pass of the store is in use.
    requires sole { sole_of pass ≡ true }
    // 0 and 1: the replies of all clients are legal in the one history that comes back, each for a window of its own; each added
    // event lies in a window of its own client; and the whole transcript of the replies was written.
    ensures transcript { result.status ≤ 1 → IsTranscript (start_of (map string_bytes words.now) (F.holds shelf.old) (C.reading clock.old) pass) (S.written out.old) (S.written out.new) result.status (seen_of result.pass) }
    // 2, 3, 4 and 7: one line was written, and the history is as it was.
    ensures usage { result.status ≡ 2 → StopsByUsage (start_of (map string_bytes words.now) (F.holds shelf.old) (C.reading clock.old) pass) (S.written out.old) (S.written out.new) (seen_of result.pass) }
    ensures bad_script { result.status ≡ 3 → StopsByScript (start_of (map string_bytes words.now) (F.holds shelf.old) (C.reading clock.old) pass) (S.written out.old) (S.written out.new) (seen_of result.pass) }
    ensures unreadable { result.status ≡ 4 → StopsByFetch (start_of (map string_bytes words.now) (F.holds shelf.old) (C.reading clock.old) pass) (F.faults shelf.old) (F.faults shelf.new) (S.written out.old) (S.written out.new) (seen_of result.pass) }
    ensures bad_file { result.status ≡ 7 → StopsByFile (start_of (map string_bytes words.now) (F.holds shelf.old) (C.reading clock.old) pass) (S.written out.old) (S.written out.new) (seen_of result.pass) }

    // What was written is a front of what was due.
    ensures refused_put { result.status ≡ 5 → Rose (S.faults out.old) (S.faults out.new) × StopsByPut (start_of (map string_bytes words.now) (F.holds shelf.old) (C.reading clock.old) pass) (F.faults shelf.old) (F.faults shelf.new) (S.written out.old) (S.written out.new) (seen_of result.pass) }
    ensures memory { result.status ≡ 6 → WantsMemory (start_of (map string_bytes words.now) (F.holds shelf.old) (C.reading clock.old) pass) (F.faults shelf.old) (F.faults shelf.new) (S.written out.old) (S.written out.new) (seen_of result.pass) }

    // No failure is passed over: the output's count of faults stands still but for 5, and the shelf's but for 4, 5 and 6.
    ensures output_kept { result.status ≢ 5 → S.faults out.new ≡ S.faults out.old }
    ensures shelf_kept { result.status ≢ 4 → result.status ≢ 5 → result.status ≢ 6 → F.faults shelf.new ≡ F.faults shelf.old }

    ensures statuses { result.status ≤ 7 }
    ensures client { number_of result.pass ≡ number_of pass }
    ensures limit { limit_of result.pass ≡ limit_of pass }
    ensures sole { sole_of result.pass ≡ true }
    ensures store { store_of result.pass ≡ store_of pass }

    // Where one client alone at a time runs on an empty store, there is no other answer than this run, but for want of memory and for
    // failures of the output and of the shelf.
    ensures complete { (held : Files) (told : Bytes) (moment : ℤ) → IsOfOne (start_of (map string_bytes words.now) (F.holds shelf.old) (C.reading clock.old) pass) held told moment (S.written out.old) (seen_of result.pass) → IsRunOrFails (run_alone moment held (map string_bytes words.now)) (F.faults shelf.old) (F.faults shelf.new) (S.faults out.old) (S.faults out.new) told (S.written out.new) result.status }
{
    let moment = clock.now();
    runs_alone_are_sole();
    run_words(rt, alloc, words, shelf, out, gate, moment, pass)
}
