// Searches for the tokens of a set, piece by piece: the members as in `token_sets`, the place from which the search goes, `/`
// where the view ends behind the last piece or `,` where it doesn't, and the pieces in hexadecimal, `-` for none, with spaces
// between them and commas between pieces. The answers are those before any piece and behind each, and behind `/` that when the
// view has ended then, if it does: `?` and the least undecided place, `@` and the place that was found, or `.` for Nowhere.
ghost use Rattle.std.specs.Prelude.{◌≤◌, ◌^◌};

use crate::texts::put;
use crate::token_sets::put_members;
use sp_match::{Regex, SetFault, TokenSet};
use sp_sync::{Found, Search};
use std::alloc::{AllocError, Global};

/// The last place of a byte, and one more.
const FARTHEST: u64 = 4_611_686_018_427_387_904;

/// Gives the byte that is wanted, or tells the end behind the last one. Whether there was something to tell.
fn tell(search: &mut Search<'_>, from: u64, bytes: &[u8], ended: bool) -> bool {
    if let Found::Need = search.found() {
        let wants = search.wants();
        let at = wants.saturating_sub(from);
        if at < bytes.len() as u64 {
            if wants < FARTHEST {
                search.give(bytes[at as usize]);
            }
            return wants < FARTHEST;
        }
        if ended {
            search.end();
        }
        return ended;
    }
    false
}

/// Gives all bytes that are wanted and there, and the end if the view has ended.
fn advance(search: &mut Search<'_>, from: u64, bytes: &[u8], ended: bool) {
    for _ in 0..u64::MAX {
        if !tell(search, from, bytes, ended) {
            break;
        }
    }
}

/// Puts the answer behind the others.
fn show(alloc: Global, got: &mut String, search: &Search<'_>) -> Result<(), AllocError> {
    match search.found() {
        Found::Need => {
            let start = search.start();
            put(got, format!(in alloc; "?{start}"))
        }
        Found::At(place) => put(got, format!(in alloc; "@{place}")),
        Found::Nowhere => got.push_str("."),
    }
}

/// Puts a piece behind those that are there.
fn add_piece(alloc: Global, piece: &str, bytes: &mut Vec<u8>) -> Result<(), AllocError> {
    let Ok(more) = hex::decode(alloc, piece) else {
        return Ok(());
    };
    let added = bytes.extend_from_slice(more.as_slice());
    drop(more);
    added
}

/// The answers before any piece and behind each, and that of the ended view.
fn show_each(
    alloc: Global,
    search: &mut Search<'_>,
    bytes: &mut Vec<u8>,
    from: u64,
    pieces: &str,
    ends: bool,
    got: &mut String,
) -> Result<(), AllocError> {
    show(alloc, got, search)?;
    for piece in pieces.split(',') {
        if piece == "-" {
            break;
        }
        if piece != "+" {
            add_piece(alloc, piece, bytes)?;
        }
        advance(search, from, bytes.as_slice(), false);
        got.push_str(",")?;
        show(alloc, got, search)?;
    }
    if ends {
        advance(search, from, bytes.as_slice(), true);
        got.push_str("/")?;
        show(alloc, got, search)?;
    }
    Ok(())
}

/// The answers of a new search.
fn searched(
    alloc: Global,
    set: &TokenSet,
    from: u64,
    pieces: &str,
    ends: bool,
    got: &mut String,
) -> Result<(), AllocError> {
    if from > FARTHEST {
        return got.push_str("too far");
    }
    let mut search = match Search::new(alloc, set, from) {
        Ok(search) => search,
        Err(_) => return Err(AllocError),
    };
    let mut bytes = Vec::new(alloc);
    let said = show_each(alloc, &mut search, &mut bytes, from, pieces, ends, got);
    drop(search);
    drop(bytes);
    said
}

/// What the search finds, from a place, in pieces with what stands before them.
fn told(alloc: Global, members: &[Regex], rest: &str, got: &mut String) -> Result<(), AllocError> {
    let Some((from, rest)) = rest.split_once(" ") else {
        return Ok(());
    };
    let Some((end, pieces)) = rest.split_once(" ") else {
        return Ok(());
    };
    let from = from.parse::<u64>().unwrap_or(0);
    match TokenSet::build(alloc, members) {
        Ok(set) => {
            let said = searched(alloc, &set, from, pieces, end == "/", got);
            drop(set);
            said
        }
        Err(SetFault::NoMemory) => Err(AllocError),
        Err(_) => got.push_str("no set"),
    }
}

pub fn answer(alloc: Global, question: &str, got: &mut String) -> Result<(), AllocError> {
    let Some((text, rest)) = question.split_once(" ") else {
        return Ok(());
    };
    let mut members = Vec::new(alloc);
    let said = match put_members(alloc, text, &mut members) {
        Ok(()) => told(alloc, members.as_slice(), rest, got),
        Err(fault) => Err(fault),
    };
    drop(members);
    said
}
