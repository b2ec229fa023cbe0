//! The pieces of printed lines, each added to the end of a line.

ghost use Rattle.std.specs.Prelude.{◌≡◌, ◌++◌, OnOk, decimal, codes};
ghost use Rattle.std.specs.Fmt.{signed_decimal};
ghost use Rattle.reply_text.specs.Commas.{comma_before};
ghost use Rattle.reply_text.specs.FrameText.{ended};
ghost use Rattle.reply_text.specs.Replies.{field, version_text, place_text, asked_text, extent_text, refusal_name, refusal_fields};

use base_types::NoMemory;
use frame_core::{Asked, Extent, Refusal};
use itoa::Buffer;

/// Adds a text.
pub fn push_text(line: &mut Vec<u8>, text: &str) -> Result<(), NoMemory>
    ensures { OnOk result (line.new.items ≡ line.old.items ++ text.now) }
{
    Ok(line.extend_from_slice(text.as_bytes())?)
}

/// Adds the comma before the field of a place, counted from 0; before the first one only where something stands before it.
pub fn push_comma(line: &mut Vec<u8>, stands: bool, place: usize) -> Result<(), NoMemory>
    ensures { OnOk result (line.new.items ≡ line.old.items ++ comma_before stands place) }
{
    if stands || place > 0 {
        push_text(line, ",")
    } else {
        Ok(())
    }
}

/// Adds the end of the line.
pub fn push_end(line: &mut Vec<u8>) -> Result<(), NoMemory>
    ensures { OnOk result (line.new.items ≡ ended line.old.items) }
{
    Ok(line.push(b'\n')?)
}

/// Adds a number.
pub fn push_number(line: &mut Vec<u8>, number: u64) -> Result<(), NoMemory>
    ensures { OnOk result (line.new.items ≡ line.old.items ++ decimal number) }
{
    let mut buffer = Buffer::new();
    push_text(line, buffer.format(number))
}

/// Adds a number with its sign.
pub fn push_int(line: &mut Vec<u8>, number: i64) -> Result<(), NoMemory>
    ensures { OnOk result (line.new.items ≡ line.old.items ++ signed_decimal number) }
{
    let mut buffer = Buffer::new();
    push_text(line, buffer.format(number))
}

/// Adds a place.
#[tactic(auto, using(crate::proofs::Lines::lines), unfolding(crate::specs::Replies::place_text))]
pub fn push_place(line: &mut Vec<u8>, place: u64) -> Result<(), NoMemory>
    ensures { OnOk result (line.new.items ≡ line.old.items ++ place_text place) }
{
    push_text(line, "@")?;
    push_number(line, place)
}

/// Adds a version.
#[tactic(auto, using(crate::proofs::Lines::lines), unfolding(crate::specs::Replies::version_text))]
pub fn push_version(line: &mut Vec<u8>, version: u64) -> Result<(), NoMemory>
    ensures { OnOk result (line.new.items ≡ line.old.items ++ version_text version) }
{
    push_text(line, "v")?;
    push_number(line, version)
}

/// Adds a field: its name and its number.
#[tactic(auto, using(crate::proofs::Lines::lines), unfolding(crate::specs::Replies::field))]
pub fn push_field(line: &mut Vec<u8>, name: &str, number: u64) -> Result<(), NoMemory>
    ensures { OnOk result (line.new.items ≡ line.old.items ++ field name.now number) }
{
    push_text(line, " ")?;
    push_text(line, name)?;
    push_text(line, "=")?;
    push_number(line, number)
}

/// Adds two fields.
#[tactic(auto, using(crate::proofs::Lines::lines))]
fn push_two_fields(
    line: &mut Vec<u8>,
    name: &str,
    number: u64,
    second: &str,
    other: u64,
) -> Result<(), NoMemory>
    ensures { OnOk result (line.new.items ≡ line.old.items ++ (field name.now number ++ field second.now other)) }
{
    push_field(line, name, number)?;
    push_field(line, second, other)
}

/// Adds the version that was asked.
#[tactic(auto, using(crate::proofs::Lines::lines), unfolding(crate::specs::Replies::asked_text))]
fn push_asked(line: &mut Vec<u8>, asked: Asked) -> Result<(), NoMemory>
    ensures { OnOk result (line.new.items ≡ line.old.items ++ (codes " asked=" ++ asked_text asked)) }
{
    push_text(line, " asked=")?;
    match asked {
        Asked::Number(number) => push_number(line, number),
        Asked::Back(back) => {
            push_text(line, "-")?;
            push_number(line, back)
        }
        Asked::Moment(moment) => {
            push_text(line, "time:")?;
            push_int(line, moment)
        }
    }
}

/// Adds the last and the first stamp of a refused append.
#[tactic(auto, using(crate::proofs::Lines::lines))]
fn push_stamps(line: &mut Vec<u8>, last: i64, first: i64) -> Result<(), NoMemory>
    ensures { OnOk result (line.new.items ≡ line.old.items ++ ((codes " last=" ++ signed_decimal last) ++ (codes " first=" ++ signed_decimal first))) }
{
    push_text(line, " last=")?;
    push_int(line, last)?;
    push_text(line, " first=")?;
    push_int(line, first)
}

fn extent_name(what: Extent) -> &'static str
    ensures { result.now ≡ extent_text what }
{
    match what {
        Extent::Rows => "rows",
        Extent::Columns => "columns",
        Extent::Cells => "cells",
        Extent::OneText => "onetext",
        Extent::TextBytes => "textbytes",
    }
}

/// Adds what is too large, and the limit.
#[tactic(auto, using(crate::proofs::Lines::lines))]
fn push_limit(line: &mut Vec<u8>, what: Extent, limit: u64) -> Result<(), NoMemory>
    ensures { OnOk result (line.new.items ≡ line.old.items ++ ((codes " what=" ++ extent_text what) ++ field (codes "limit") limit)) }
{
    push_text(line, " what=")?;
    push_text(line, extent_name(what))?;
    push_field(line, "limit", limit)
}

/// The number and the name of a refusal.
fn refusal_name(why: Refusal) -> &'static str
    ensures { result.now ≡ refusal_name why }
{
    match why {
        Refusal::NoMemory => "1 NoMemory",
        Refusal::StoreFault => "2 StoreFault",
        Refusal::NoSuchSymbol => "3 NoSuchSymbol",
        Refusal::NoSuchVersion { .. } => "4 NoSuchVersion",
        Refusal::VersionGone { .. } => "5 VersionGone",
        Refusal::Moved { .. } => "6 Moved",
        Refusal::Unsorted { .. } => "7 Unsorted",
        Refusal::SchemaDiffers { .. } => "8 SchemaDiffers",
        Refusal::AppendBefore { .. } => "9 AppendBefore",
        Refusal::OutsideRange { .. } => "10 OutsideRange",
        Refusal::EmptyUpdate => "11 EmptyUpdate",
        Refusal::NoSuchColumn { .. } => "12 NoSuchColumn",
        Refusal::TypeMismatch { .. } => "13 TypeMismatch",
        Refusal::Overflow { .. } => "14 Overflow",
        Refusal::GroupOverflow { .. } => "15 GroupOverflow",
        Refusal::NotTimeIndexed { .. } => "16 NotTimeIndexed",
        Refusal::SnapshotExists => "17 SnapshotExists",
        Refusal::NoSuchSnapshot => "18 NoSuchSnapshot",
        Refusal::NoStaged => "19 NoStaged",
        Refusal::StagedOverlap { .. } => "20 StagedOverlap",
        Refusal::Spent { .. } => "21 Spent",
        Refusal::TooLarge { .. } => "22 TooLarge",
    }
}

/// Adds the fields of a refusal.
fn push_refusal_fields(line: &mut Vec<u8>, why: Refusal) -> Result<(), NoMemory>
    ensures { OnOk result (line.new.items ≡ line.old.items ++ refusal_fields why) }
{
    match why {
        Refusal::NoSuchVersion { asked } => push_asked(line, asked),
        Refusal::VersionGone { version } => push_field(line, "version", version),
        Refusal::Moved { now } => push_field(line, "now", now),
        Refusal::Unsorted { row } => push_field(line, "row", row),
        Refusal::SchemaDiffers { column } => push_field(line, "column", column),
        Refusal::AppendBefore { last, first } => push_stamps(line, last, first),
        Refusal::OutsideRange { row } => push_field(line, "row", row),
        Refusal::NoSuchColumn { clause, position } => {
            push_two_fields(line, "clause", clause, "position", position)
        }
        Refusal::TypeMismatch { clause } => push_field(line, "clause", clause),
        Refusal::Overflow { clause, row } => push_two_fields(line, "clause", clause, "row", row),
        Refusal::GroupOverflow { clause, group } => {
            push_two_fields(line, "clause", clause, "group", group)
        }
        Refusal::NotTimeIndexed { clause } => push_field(line, "clause", clause),
        Refusal::StagedOverlap { piece } => push_field(line, "piece", piece),
        Refusal::Spent { count } => push_field(line, "count", count),
        Refusal::TooLarge { what, limit } => push_limit(line, what, limit),
        _ => Ok(()),
    }
}

/// Adds a refusal: its number, its name and its fields.
#[tactic(auto, using(crate::proofs::Lines::lines))]
pub fn push_refusal(line: &mut Vec<u8>, why: Refusal) -> Result<(), NoMemory>
    ensures { OnOk result (line.new.items ≡ line.old.items ++ (codes "err " ++ refusal_name why ++ refusal_fields why)) }
{
    push_text(line, "err ")?;
    push_text(line, refusal_name(why))?;
    push_refusal_fields(line, why)
}
