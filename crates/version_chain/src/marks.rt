ghost use Rattle.std.specs.Prelude.{◌≡◌, ◌++◌, true, None, OnOk, nat_lt, option_map};
ghost use Rattle.std.specs.Option.{option_map_or};
ghost use Rattle.byte_fields.specs.Readers.{Gives};
ghost use Rattle.store_model.specs.ChainText.{mark_text, start, form_behind, form_at, link_at, tomb_at, hold_at, discard_at, mark_at, marks_at, tomb_of};
ghost use Rattle.version_chain.specs.Entries.{IsLink, IsMark, FitsRow, FitsMark};
ghost use Rattle.version_chain.specs.Reads.{Reads, form_of};

use crate::fields::{Stop, put_holder, read_holder, read_key};
use crate::pieces::{put_pieces, read_pieces};
use base_types::{Items, NoMemory};
use byte_fields::{put_i64, put_u8, put_u32, put_u64, read_i64, read_u8, read_u32, read_u64};
use key_kind::{KeyKind, put_key};
use std::alloc::Global;
use store_model::{ChainMark, LinkRow};

/// What may come next in an element.
#[derive(Clone, Copy)]
pub(crate) enum Next {
    Anything,
    TombOrDiscard,
    Tomb,
    Nothing,
}

impl Next {
    /// What may come next behind a mark of this number, where such a mark may stand here.
    fn behind(self, tag: u8) -> Option<Next>
        ensures { option_map form_of result ≡ form_behind (form_of self) tag }
    {
        match self {
            Next::Anything => match tag {
                1 => Some(Next::TombOrDiscard),
                2 => Some(Next::Tomb),
                3..=5 => Some(Next::Nothing),
                _ => None,
            },
            Next::TombOrDiscard => match tag {
                2 => Some(Next::TombOrDiscard),
                5 => Some(Next::Nothing),
                _ => None,
            },
            Next::Tomb => match tag {
                2 => Some(Next::Tomb),
                _ => None,
            },
            Next::Nothing => None,
        }
    }
}

/// The number of the next mark with what may come behind it, and what follows.
fn read_tag(next: Next, bytes: &[u8]) -> Result<((u8, Next), &[u8]), usize>
    ensures { Gives (λ x. ((x.0.0, form_of x.0.1), x.1.now)) result (form_at (form_of next) bytes.now) }
{
    let (tag, rest) = read_u8(bytes)?;
    match next.behind(tag) {
        Some(behind) => Ok(((tag, behind), rest)),
        None => Err(bytes.len()),
    }
}

/// The next link, and what follows.
fn read_link(alloc: Global, bytes: &[u8]) -> Result<(LinkRow, &[u8]), Stop>
    ensures { Reads (λ x. (ChainMark.Link x.0, x.1.now)) result (link_at bytes.now) }
{
    let (version, rest) = read_u64(bytes)?;
    let (stamp, rest) = read_i64(rest)?;
    let (rows, rest) = read_u32(rest)?;
    let (index, rest) = read_key(alloc, KeyKind::TableIndex, rest)?;
    let row = LinkRow {
        version,
        stamp,
        rows: rows as u64,
        index,
    };
    Ok((row, rest))
}

/// Whether a version is above that of the Tomb before.
fn is_above(tomb: Option<u64>, version: u64) -> bool
    ensures { result ≡ option_map_or (λ n. nat_lt n version) tomb true }
{
    match tomb {
        Some(before) => before < version,
        None => true,
    }
}

/// The next buried version, above that of the Tomb before, and what follows.
fn read_tomb(tomb: Option<u64>, bytes: &[u8]) -> Result<(u64, &[u8]), usize>
    ensures { Gives (λ x. (ChainMark.Tomb x.0, x.1.now)) result (tomb_at tomb bytes.now) }
{
    let (version, rest) = read_u64(bytes)?;
    if is_above(tomb, version) {
        Ok((version, rest))
    } else {
        Err(bytes.len())
    }
}

/// The next Hold, and what follows.
fn read_hold(bytes: &[u8]) -> Result<(ChainMark, &[u8]), usize>
    ensures { Gives (λ x. (x.0, x.1.now)) result (hold_at bytes.now) }
{
    let (holder, rest) = read_holder(bytes)?;
    let (version, rest) = read_u64(rest)?;
    Ok((ChainMark::Hold { holder, version }, rest))
}

/// The next Discard, and what follows.
fn read_discard(alloc: Global, bytes: &[u8]) -> Result<(ChainMark, &[u8]), Stop>
    ensures { Reads (λ x. (x.0, x.1.now)) result (discard_at bytes.now) }
{
    let (count, rest) = read_u64(bytes)?;
    if count == 0 {
        return Err(Stop::Left(bytes.len()));
    }
    let (pieces, rest) = read_pieces(alloc, count, rest)?;
    Ok((ChainMark::Discard { pieces }, rest))
}

/// The next mark, of this number, and what follows.
fn read_mark(
    alloc: Global,
    tag: u8,
    tomb: Option<u64>,
    bytes: &[u8],
) -> Result<(ChainMark, &[u8]), Stop>
    ensures { Reads (λ x. (x.0, x.1.now)) result (mark_at tag tomb bytes.now) }
{
    match tag {
        1 => {
            let (row, rest) = read_link(alloc, bytes)?;
            Ok((ChainMark::Link(row), rest))
        }
        2 => {
            let (version, rest) = read_tomb(tomb, bytes)?;
            Ok((ChainMark::Tomb { version }, rest))
        }
        3 => Ok(read_hold(bytes)?),
        4 => {
            let (holder, rest) = read_holder(bytes)?;
            Ok((ChainMark::Release { holder }, rest))
        }
        _ => read_discard(alloc, bytes),
    }
}

/// The version of a Tomb.
pub(crate) fn tomb_version(mark: &ChainMark) -> Option<u64>
    ensures { result ≡ tomb_of mark.now }
{
    match mark {
        ChainMark::Tomb { version } => Some(*version),
        _ => None,
    }
}

/// So many marks in one of the forms of an element, and what follows. Memory is taken as the marks are read, and not by their
/// number.
pub(crate) fn read_marks(
    alloc: Global,
    count: u64,
    bytes: &[u8],
) -> Result<(Items<ChainMark>, &[u8]), Stop>
    ensures { Reads (λ x. (x.0, x.1.now)) result (marks_at start None count bytes.now) }
{
    let mut marks = Items::new(alloc);
    let mut next = Next::Anything;
    let mut tomb = None;
    let mut rest = bytes;
    for _ in 0..count {
        let ((tag, behind), after) = read_tag(next, rest)?;
        let (mark, after) = read_mark(alloc, tag, tomb, after)?;
        tomb = tomb_version(&mark);
        marks.push(mark)?;
        next = behind;
        rest = after;
    }
    Ok((marks, rest))
}

/// Adds a Link at the end.
fn put_link(out: &mut Vec<u8>, row: &LinkRow) -> Result<(), NoMemory>
    requires { IsLink row.now }
    ensures text { OnOk result (out.new.items ≡ out.old.items ++ mark_text (ChainMark.Link row.now)) }
    ensures fits { OnOk result (FitsRow row.now) }
{
    put_u8(out, 1)?;
    put_u64(out, row.version)?;
    put_i64(out, row.stamp)?;
    put_u32(out, row.rows as u32)?;
    put_key(out, &row.index)
}

/// Adds a mark at the end.
pub(crate) fn put_mark(out: &mut Vec<u8>, mark: &ChainMark) -> Result<(), NoMemory>
    requires { IsMark mark.now }
    ensures text { OnOk result (out.new.items ≡ out.old.items ++ mark_text mark.now) }
    ensures fits { OnOk result (FitsMark mark.now) }
{
    match mark {
        ChainMark::Link(row) => put_link(out, row),
        ChainMark::Tomb { version } => {
            put_u8(out, 2)?;
            put_u64(out, *version)
        }
        ChainMark::Hold { holder, version } => {
            put_u8(out, 3)?;
            put_holder(out, *holder)?;
            put_u64(out, *version)
        }
        ChainMark::Release { holder } => {
            put_u8(out, 4)?;
            put_holder(out, *holder)
        }
        ChainMark::Discard { pieces } => {
            put_u8(out, 5)?;
            put_u64(out, pieces.len() as u64)?;
            put_pieces(out, pieces.items())
        }
        // No rule of marks is kept by a Compact yet.
        ChainMark::Compact(_) => unreachable!(),
    }
}
