//! The line of a reply, and of the end.

ghost use Rattle.std.specs.Prelude.{◌≡◌, ◌++◌, IfOk, OnOk};
ghost use Rattle.std.specs.List.{join_with_byte};
ghost use Rattle.reply_text.specs.Replies.{listed_text, left_text, reply_line, end_line};

use crate::line::{push_comma, push_end, push_number, push_place, push_text};
use crate::outcome_text::push_outcome;
use base_types::NoMemory;
use key_kind::Symbol;
use reply_model::Reply;
use std::alloc::Global;

/// Adds the place of the list that a command went by, where it made one.
#[tactic(auto, using(crate::proofs::Lines::lines), unfolding(crate::specs::Replies::listed_text))]
fn push_listed(line: &mut Vec<u8>, listed: Option<u64>) -> Result<(), NoMemory>
    ensures { OnOk result (line.new.items ≡ line.old.items ++ listed_text listed) }
{
    match listed {
        None => Ok(()),
        Some(place) => {
            push_text(line, " listed=")?;
            push_place(line, place)
        }
    }
}

/// Adds symbols between commas.
fn push_symbols(line: &mut Vec<u8>, symbols: &[Symbol]) -> Result<(), NoMemory>
    ensures { OnOk result (line.new.items ≡ line.old.items ++ join_with_byte 44 symbols.now) }
{
    for (place, symbol) in symbols.iter().enumerate() {
        push_comma(line, false, place)?;
        push_text(line, symbol.name().text())?;
    }
    Ok(())
}

/// Adds the symbols of which a hold was left, where there are any.
#[tactic(auto, using(crate::proofs::Lines::lines))]
fn push_left(line: &mut Vec<u8>, left: &[Symbol]) -> Result<(), NoMemory>
    ensures { OnOk result (line.new.items ≡ line.old.items ++ left_text left.now) }
{
    if left.is_empty() {
        return Ok(());
    }
    push_text(line, " left=")?;
    push_symbols(line, left)
}

/// The line of a reply, to the command of this number of whoever speaks.
#[tactic(auto, using(crate::proofs::Lines::lines), unfolding(crate::specs::Replies::reply_line))]
pub fn reply_line(alloc: Global, who: &str, number: u64, reply: &Reply) -> Result<Vec<u8>, NoMemory>
    ensures { IfOk result (λ line. line.items ≡ reply_line who.now number reply.now) }
{
    let mut line = Vec::new(alloc);
    push_text(&mut line, who)?;
    push_text(&mut line, ".")?;
    push_number(&mut line, number)?;
    push_text(&mut line, " ")?;
    push_place(&mut line, reply.place)?;
    push_text(&mut line, " ")?;
    push_outcome(&mut line, &reply.outcome)?;
    push_listed(&mut line, reply.listed)?;
    push_left(&mut line, reply.left.items())?;
    push_end(&mut line)?;
    Ok(line)
}

/// The line of the end, at this place.
#[tactic(auto, using(crate::proofs::Lines::lines), unfolding(crate::specs::Replies::end_line))]
pub fn end_line(alloc: Global, place: u64) -> Result<Vec<u8>, NoMemory>
    ensures { IfOk result (λ line. line.items ≡ end_line place) }
{
    let mut line = Vec::from_slice(alloc, b"end ")?;
    push_place(&mut line, place)?;
    push_end(&mut line)?;
    Ok(line)
}
