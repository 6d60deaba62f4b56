// What is laid over the pending pieces goes into the list, where no number has an owner yet.
ghost use Rattle.std.specs.Prelude.{◌≡◌, ℕ, ◌+◌, ◌<◌, ◌≤◌, ◌^◌, None, IfOk, OnOk, OnErr};
ghost use Rattle.sp_reasm.specs.Owners.{or_else};
ghost use Rattle.sp_reasm.specs.Pieces.{owner_of, has, past_of, size_of, spot_len, IsSpot};
ghost use Rattle.sp_reasm.specs.inside.Filling.{undone, IsKept, IsPut, IsFilled};

use crate::pending::Pending;
use crate::piece::{Content, Piece, Spot};
use sp_base::{ByteList, NoMemory};
use std::alloc::Global;

/// A piece of these data or this gap, from a number on.
fn kept(alloc: Global, at: u64, part: Spot<'_>) -> Result<Option<Piece>, NoMemory>
    ensures { IfOk result (IsKept at part.entry) }
{
    match part {
        Spot::Bytes(bytes) => {
            let bytes = ByteList::from_slice(alloc, bytes)?;
            Ok(Some(Piece {
                start: at,
                content: Content::Bytes(bytes),
            }))
        }
        Spot::Missing(len) => Ok(Some(Piece {
            start: at,
            content: Content::Missing(len),
        })),
        Spot::Free(_) => Ok(None),
    }
}

/// Puts a piece between the others, and notes where it begins.
fn put(pieces: &mut Pending, starts: &mut Vec<u64>, piece: Piece) -> Result<(), NoMemory>
    requires some { 0 < size_of piece.content }
    requires fits { past_of piece ≤ 2 ^ 62 }
    requires free { (q : ℕ) → piece.start ≤ q → q < past_of piece → owner_of pieces.old q ≡ None }
    ensures ok { OnOk result ((q : ℕ)
        → owner_of pieces.new q ≡ or_else (owner_of pieces.old q) (has piece q)) }
    ensures err { OnErr result (pieces.new ≡ pieces.old) }
    ensures back { undone starts.new.items pieces.new ≡ undone starts.old.items pieces.old }
{
    let start = piece.start;
    pieces.insert(piece)?;
    match starts.push(start) {
        Ok(()) => Ok(()),
        Err(_) => {
            pieces.remove(start);
            Err(NoMemory)
        }
    }
}

/// Puts what the cover has at a number into the list, where the number has no owner, and answers where to go on.
fn put_at(
    alloc: Global,
    pieces: &mut Pending,
    start: u64,
    cover: Spot<'_>,
    at: u64,
    starts: &mut Vec<u64>,
) -> Result<u64, NoMemory>
    requires fits { start + spot_len cover ≤ 2 ^ 62 }
    requires within { at < start + spot_len cover }
    ensures ok { IfOk result
        (IsPut (owner_of pieces.old) (owner_of pieces.new) start cover.entry at) }
    ensures back { undone starts.new.items pieces.new ≡ undone starts.old.items pieces.old }
{
    let room = match pieces.spot(at) {
        Spot::Bytes(bytes) => return Ok(at + bytes.len() as u64),
        Spot::Missing(len) => return Ok(at + len),
        Spot::Free(room) => room,
    };
    let part = cover.part(start, at, room);
    let next = at + part.len();
    match kept(alloc, at, part)? {
        Some(piece) => {
            put(pieces, starts, piece)?;
            Ok(next)
        }
        None => Ok(next),
    }
}

/// Puts what the cover has from a number on into the list, and notes where each new piece begins.
fn put_all(
    alloc: Global,
    pieces: &mut Pending,
    start: u64,
    cover: Spot<'_>,
    from: u64,
    starts: &mut Vec<u64>,
) -> Result<(), NoMemory>
    requires { start + spot_len cover ≤ 2 ^ 62 }
    ensures ok { OnOk result
        (IsFilled (owner_of pieces.old) (owner_of pieces.new) start cover.entry from) }
    ensures back { undone starts.new.items pieces.new ≡ undone starts.old.items pieces.old }
{
    let end = start + cover.len();
    let mut at = from;
    while at < end {
        at = put_at(alloc, pieces, start, cover, at, starts)?;
    }
    Ok(())
}

/// Takes the pieces that begin at these numbers away, the last first.
fn undo(pieces: &mut Pending, starts: &mut Vec<u64>)
    ensures { pieces.new ≡ undone starts.old.items pieces.old }
{
    while let Some(start) = starts.pop() {
        pieces.remove(start);
    }
}

/// Puts what the cover has from a number on into the list, where no number has an owner yet, or changes nothing.
pub(crate) fn fill(
    alloc: Global,
    pieces: &mut Pending,
    start: u64,
    cover: Spot<'_>,
    from: u64,
) -> Result<(), NoMemory>
    requires { start + spot_len cover ≤ 2 ^ 62 }
    ensures ok { OnOk result
        (IsFilled (owner_of pieces.old) (owner_of pieces.new) start cover.entry from) }
    ensures err { OnErr result (pieces.new ≡ pieces.old) }
{
    let mut starts = Vec::new(alloc);
    match put_all(alloc, pieces, start, cover, from, &mut starts) {
        Ok(()) => Ok(()),
        Err(_) => {
            undo(pieces, &mut starts);
            Err(NoMemory)
        }
    }
}
