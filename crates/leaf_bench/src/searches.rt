//! A search in a text: the first line is `whole`, which gives it at once, or `bytes`, which gives it byte by byte and asks behind
//! each. Each line that follows is a member as in `token_sets`; behind an empty line stands the text. Says where a token begins,
//! and how many bytes the search has asked for.
ghost use Rattle.std.specs.Prelude.{◌≤◌, length};

use crate::token_sets::{put, read_set};
use sp_match::TokenSet;
use sp_sync::{Found, Search};
use std::alloc::{AllocError, Global};

/// More bytes than a text has.
const LONGEST: usize = 268_435_456;

/// Gives all bytes that are wanted and there. How many they are.
fn advance(search: &mut Search<'_>, text: &[u8]) -> u64
    requires { length text.now ≤ 268435456 }
{
    let mut given: u64 = 0;
    for _ in 0..u64::MAX {
        match search.found() {
            Found::Need => {
                let at = search.wants();
                if at >= text.len() as u64 {
                    break;
                }
                search.give(text[at as usize]);
                given = given.wrapping_add(1);
            }
            _ => break,
        }
    }
    given
}

/// The same where the text has ended.
fn finish(search: &mut Search<'_>, text: &[u8]) -> u64
    requires { length text.now ≤ 268435456 }
{
    let mut given: u64 = 0;
    for _ in 0..u64::MAX {
        given = given.wrapping_add(advance(search, text));
        match search.found() {
            Found::Need => search.end(),
            _ => break,
        }
    }
    given
}

/// The same for a text that grows byte by byte up to its end.
fn by_bytes(search: &mut Search<'_>, text: &[u8]) -> u64
    requires { length text.now ≤ 268435456 }
{
    let mut given: u64 = 0;
    for i in 0..text.len() {
        given = given.wrapping_add(advance(search, &text[..i]));
        match search.found() {
            Found::Need => {}
            _ => break,
        }
    }
    given.wrapping_add(finish(search, text))
}

/// What a search comes to.
#[derive(Clone, Copy)]
struct Sum {
    found: Found,
    given: u64,
}

/// What the search in a text comes to, if the text isn't too long.
fn sum_of(
    alloc: Global,
    set: &TokenSet,
    input: &[u8],
    text: &[u8],
) -> Result<Option<Sum>, AllocError> {
    if text.len() > LONGEST {
        return Ok(None);
    }
    let mut search = match Search::new(alloc, set, 0) {
        Ok(search) => search,
        Err(_) => return Err(AllocError),
    };
    let given = match input {
        [b'w', ..] => finish(&mut search, text),
        _ => by_bytes(&mut search, text),
    };
    let found = search.found();
    drop(search);
    Ok(Some(Sum { found, given }))
}

/// What an input comes to, if its set is built.
fn run(alloc: Global, input: &[u8]) -> Result<Option<Sum>, AllocError> {
    match read_set(alloc, input)? {
        Some((set, text)) => {
            let sum = sum_of(alloc, &set, input, text);
            drop(set);
            sum
        }
        None => Ok(None),
    }
}

pub fn work(alloc: Global, input: &[u8], said: &mut String) -> Result<(), AllocError> {
    match run(alloc, input)? {
        Some(sum) => {
            let given = sum.given;
            match sum.found {
                Found::At(place) => put(
                    said,
                    format!(in alloc; "at {place}, {given} bytes asked for\n"),
                ),
                _ => put(
                    said,
                    format!(in alloc; "nowhere, {given} bytes asked for\n"),
                ),
            }
        }
        None => said.push_str("no such set\n"),
    }
}
