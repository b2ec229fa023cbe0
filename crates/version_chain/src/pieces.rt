ghost use Rattle.std.specs.Prelude.{◌≡◌, ◌++◌, true, None, OnOk, flat_map, nat_le};
ghost use Rattle.std.specs.List.{AllByRecursion};
ghost use Rattle.std.specs.Option.{option_map_or};
ghost use Rattle.byte_fields.specs.Readers.{Gives};
ghost use Rattle.store_model.specs.ChainText.{piece_text, piece_before, pieces_at};
ghost use Rattle.version_chain.specs.Entries.{FitsPiece};
ghost use Rattle.version_chain.specs.Reads.{Reads, piece_rises, piece_at};

use crate::fields::Stop;
use base_types::{Items, NoMemory};
use bucket_core::PieceName;
use byte_fields::{put_u32, put_u64, read_u32, read_u64};
use std::alloc::Global;

/// Whether a piece stands before another, by client and serial.
fn stands_before(piece: PieceName, other: PieceName) -> bool
    ensures { result ≡ piece_before piece other }
{
    piece.client < other.client || (piece.client == other.client && piece.serial < other.serial)
}

/// Whether a client is no lower than that of the piece before.
fn keeps_client(before: Option<PieceName>, client: u32) -> bool
    ensures { result ≡ option_map_or (λ p. nat_le p.client client) before true }
{
    match before {
        Some(piece) => piece.client <= client,
        None => true,
    }
}

/// Whether a piece stands behind the one before.
fn rises(before: Option<PieceName>, piece: PieceName) -> bool
    ensures { result ≡ piece_rises before piece }
{
    match before {
        Some(other) => stands_before(other, piece),
        None => true,
    }
}

/// The next piece, behind the one before, and what follows.
fn read_piece(before: Option<PieceName>, bytes: &[u8]) -> Result<(PieceName, &[u8]), usize>
    ensures { Gives (λ x. (x.0, x.1.now)) result (piece_at before bytes.now) }
{
    let (client, after) = read_u32(bytes)?;
    if !keeps_client(before, client) {
        return Err(bytes.len());
    }
    let (serial, rest) = read_u64(after)?;
    let piece = PieceName { client, serial };
    if !rises(before, piece) {
        return Err(after.len());
    }
    Ok((piece, rest))
}

/// So many pieces, ascending, and what follows. Memory is taken as the pieces are read, and not by their number.
pub(crate) fn read_pieces(
    alloc: Global,
    count: u64,
    bytes: &[u8],
) -> Result<(Items<PieceName>, &[u8]), Stop>
    ensures { Reads (λ x. (x.0, x.1.now)) result (pieces_at None count bytes.now) }
{
    let mut pieces = Items::new(alloc);
    let mut before = None;
    let mut rest = bytes;
    for _ in 0..count {
        let (piece, after) = read_piece(before, rest)?;
        pieces.push(piece)?;
        before = Some(piece);
        rest = after;
    }
    Ok((pieces, rest))
}

/// Adds a piece at the end.
fn put_piece(out: &mut Vec<u8>, piece: PieceName) -> Result<(), NoMemory>
    ensures text { OnOk result (out.new.items ≡ out.old.items ++ piece_text piece) }
    ensures fits { FitsPiece piece }
{
    put_u32(out, piece.client)?;
    put_u64(out, piece.serial)
}

/// Adds pieces at the end.
pub(crate) fn put_pieces(out: &mut Vec<u8>, pieces: &[PieceName]) -> Result<(), NoMemory>
    ensures text { OnOk result (out.new.items ≡ out.old.items ++ flat_map piece_text pieces.now) }
    ensures fits { OnOk result (AllByRecursion FitsPiece pieces.now) }
{
    for piece in pieces {
        put_piece(out, *piece)?;
    }
    Ok(())
}
