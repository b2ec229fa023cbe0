//! What is put to the output: each line by a put of its own.

ghost use Rattle.std.specs.Prelude.{◌≡◌, ◌<◌, ◌++◌, ℕ, List, Some, codes, length, map, slice_get, IfOk, OnOk};
ghost use Rattle.std.specs.List.{concat};
ghost use Rattle.frame_core.specs.Frames.{Row};
ghost use Rattle.reply_text.specs.FrameText.{ended, record_text, row_fields, frame_lines};
ghost use Rattle.reply_text.specs.Replies.{version_line, symbol_line, lines_after, reply_lines, part_lines, clients_lines, end_line};
ghost use Rattle.program_run.specs.Transcript.{transcript};
ghost use Rattle.program_run.specs.Program.{stop_text, stop_line};
ghost use Rattle.program_run.specs.Endings.{Prints};

use crate::stop::Stop;
use base_types::{Items, NoMemory, Text};
use client_sessions::PartReplies;
use frame_core::Frame;
use key_kind::SnapName;
use program_edge::{Sink, SinkErr};
use reply_model::{Outcome, Reply, SymbolRow, VersionRow};
use reply_text::{
    end_line, header_line, push_end, push_row, push_text, reply_line, symbol_line, version_line,
};
use std::alloc::Global;

/// Puts one line.
fn put_line<S: Sink>(out: &mut S, line: &[u8]) -> Result<(), SinkErr>
    ensures { Prints S.written S.faults out.old out.new line.now result }
{
    out.put(line)
}

/// Puts a line that was made, where there was memory for it.
fn put_made<S: Sink>(out: &mut S, line: Result<Vec<u8>, NoMemory>) -> Result<(), SinkErr>
    ensures { (text : List ℕ) → IfOk line (λ made. made.items ≡ text) → Prints S.written S.faults out.old out.new text result }
{
    match line {
        Ok(line) => out.put(line.as_slice()),
        Err(NoMemory) => Err(SinkErr::NoMemory),
    }
}

/// Puts a row, counted from 0. The line is used again for each.
fn put_row<S: Sink>(out: &mut S, line: &mut Vec<u8>, frame: &Frame, row: u64) -> Result<(), SinkErr>
    requires { row < length frame.now.rows }
    ensures { (r : Row) → slice_get frame.now.rows row ≡ Some r → Prints S.written S.faults out.old out.new (record_text (row_fields frame.now.schema.timed r)) result }
{
    line.clear();
    match push_row(line, frame, row) {
        Ok(()) => put_line(out, line.as_slice()),
        Err(NoMemory) => Err(SinkErr::NoMemory),
    }
}

/// Puts the rows of a frame.
fn print_rows<S: Sink>(alloc: Global, out: &mut S, frame: &Frame) -> Result<(), SinkErr>
    ensures { Prints S.written S.faults out.old out.new (concat (map (λ (r : Row). record_text (row_fields frame.now.schema.timed r)) frame.now.rows)) result }
{
    let mut line = Vec::new(alloc);
    for row in 0..frame.rows() {
        put_row(out, &mut line, frame, row)?;
    }
    Ok(())
}

/// Puts a frame: its header and its rows.
fn print_frame<S: Sink>(alloc: Global, out: &mut S, frame: &Frame) -> Result<(), SinkErr>
    ensures { Prints S.written S.faults out.old out.new (concat (frame_lines frame.now)) result }
{
    put_made(out, header_line(alloc, frame))?;
    print_rows(alloc, out, frame)
}

/// Puts the lines of versions.
fn print_versions<S: Sink>(alloc: Global, out: &mut S, rows: &[VersionRow]) -> Result<(), SinkErr>
    ensures { Prints S.written S.faults out.old out.new (concat (map version_line rows.now)) result }
{
    for row in rows {
        put_made(out, version_line(alloc, row))?;
    }
    Ok(())
}

/// Puts the lines of symbols.
fn print_symbols<S: Sink>(alloc: Global, out: &mut S, rows: &[SymbolRow]) -> Result<(), SinkErr>
    ensures { Prints S.written S.faults out.old out.new (concat (map symbol_line rows.now)) result }
{
    for row in rows {
        put_made(out, symbol_line(alloc, row))?;
    }
    Ok(())
}

/// The line of a name.
fn name_line(alloc: Global, name: &str) -> Result<Vec<u8>, NoMemory>
    ensures { IfOk result (λ line. line.items ≡ ended name.now) }
{
    let mut line = Vec::from_slice(alloc, name.as_bytes())?;
    push_end(&mut line)?;
    Ok(line)
}

/// Puts the lines of names.
fn print_names<S: Sink>(alloc: Global, out: &mut S, names: &[SnapName]) -> Result<(), SinkErr>
    ensures { Prints S.written S.faults out.old out.new (concat (map ended names.now)) result }
{
    for name in names {
        put_made(out, name_line(alloc, name.name().text()))?;
    }
    Ok(())
}

/// Puts the lines that follow the line of a reply.
fn print_after<S: Sink>(alloc: Global, out: &mut S, outcome: &Outcome) -> Result<(), SinkErr>
    ensures { Prints S.written S.faults out.old out.new (concat (lines_after outcome.now)) result }
{
    match outcome {
        Outcome::Whole { frame, .. } => print_frame(alloc, out, frame),
        Outcome::Versions { rows } => print_versions(alloc, out, rows.items()),
        Outcome::Symbols { rows } => print_symbols(alloc, out, rows.items()),
        Outcome::Snapshots { names } => print_names(alloc, out, names.items()),
        _ => Ok(()),
    }
}

/// Puts a reply, to the command of this number of whoever speaks.
fn print_reply<S: Sink>(
    alloc: Global,
    out: &mut S,
    who: &str,
    number: u64,
    reply: &Reply,
) -> Result<(), SinkErr>
    ensures { Prints S.written S.faults out.old out.new (concat (reply_lines who.now number reply.now)) result }
{
    put_made(out, reply_line(alloc, who, number, reply))?;
    print_after(alloc, out, &reply.outcome)
}

/// Puts the replies to whoever speaks, numbered from 1.
fn print_replies<S: Sink>(
    alloc: Global,
    out: &mut S,
    who: &str,
    replies: &[Reply],
) -> Result<(), SinkErr>
    ensures { Prints S.written S.faults out.old out.new (concat (part_lines who.now 1 replies.now)) result }
{
    for (place, reply) in replies.iter().enumerate() {
        print_reply(alloc, out, who, place as u64 + 1, reply)?;
    }
    Ok(())
}

/// Puts the replies of a part, whose name is that of whoever speaks.
fn print_part<S: Sink>(
    alloc: Global,
    out: &mut S,
    who: &str,
    replies: &Items<Reply>,
) -> Result<(), SinkErr>
    ensures { Prints S.written S.faults out.old out.new (concat (part_lines who.now 1 replies.now)) result }
{
    print_replies(alloc, out, who, replies.items())
}

/// Puts the last replies and the end, at this place.
fn print_end<S: Sink>(
    alloc: Global,
    out: &mut S,
    last: &Items<Reply>,
    end: u64,
) -> Result<(), SinkErr>
    ensures { Prints S.written S.faults out.old out.new (concat (part_lines (codes "last") 1 last.now) ++ end_line end) result }
{
    print_part(alloc, out, "last", last)?;
    put_made(out, end_line(alloc, end))
}

/// Puts the replies of clients of these names, in order.
fn print_clients<S: Sink>(
    alloc: Global,
    out: &mut S,
    names: &[Text],
    blocks: &[Items<Reply>],
) -> Result<(), SinkErr>
    ensures { Prints S.written S.faults out.old out.new (concat (clients_lines names.now blocks.now)) result }
{
    let Some((name, other_names)) = names.split_first() else {
        return Ok(());
    };
    let Some((replies, other_blocks)) = blocks.split_first() else {
        return Ok(());
    };
    print_part(alloc, out, name.text(), replies)?;
    print_clients(alloc, out, other_names, other_blocks)
}

/// Puts the transcript of the replies of all parts, of clients of these names, where the history ends at this place.
pub fn print_transcript<S: Sink>(
    alloc: Global,
    out: &mut S,
    names: &[Text],
    replies: &PartReplies,
    end: u64,
) -> Result<(), SinkErr>
    ensures { Prints S.written S.faults out.old out.new (concat (transcript names.now replies.now end)) result }
{
    print_part(alloc, out, "first", &replies.first)?;
    print_clients(alloc, out, names, replies.blocks.items())?;
    print_end(alloc, out, &replies.last, end)
}

/// Adds that a file of this name cannot be read.
#[tactic(auto, using(reply_text::proofs::Lines::lines))]
fn push_unreadable(line: &mut Vec<u8>, name: &str) -> Result<(), NoMemory>
    ensures { OnOk result (line.new.items ≡ line.old.items ++ (codes "cannot read " ++ name.now)) }
{
    push_text(line, "cannot read ")?;
    push_text(line, name)
}

/// Adds what is said of a stop.
#[tactic(auto, unfolding(crate::specs::Program::stop_text))]
fn push_stop(line: &mut Vec<u8>, stop: &Stop) -> Result<(), NoMemory>
    ensures { OnOk result (line.new.items ≡ line.old.items ++ stop_text stop.now) }
{
    match stop {
        Stop::Usage => push_text(
            line,
            "usage: arctic run SCRIPT or arctic gen N, with --workers --rows --cols --tries",
        ),
        Stop::BadScript => push_text(line, "script"),
        Stop::Unreadable(name) => push_unreadable(line, name.text()),
        Stop::BadFile(name) => push_text(line, name.text()),
    }
}

/// The line of a stop.
#[tactic(auto, unfolding(crate::specs::Program::stop_line))]
fn make_stop_line(alloc: Global, stop: &Stop) -> Result<Vec<u8>, NoMemory>
    ensures { IfOk result (λ line. line.items ≡ stop_line stop.now) }
{
    let mut line = Vec::from_slice(alloc, b"arctic: ")?;
    push_stop(&mut line, stop)?;
    push_end(&mut line)?;
    Ok(line)
}

/// Puts the line of a stop.
pub fn print_stop<S: Sink>(alloc: Global, out: &mut S, stop: &Stop) -> Result<(), SinkErr>
    ensures { Prints S.written S.faults out.old out.new (stop_line stop.now) result }
{
    put_made(out, make_stop_line(alloc, stop))
}
