//! A text, token by token against a set. The first line is `whole`, which asks for the verdict behind the last byte alone, so of
//! one token, or `bytes`, which asks behind each byte and takes one token after another. Each line that follows is a member as in
//! `token_sets`; behind an empty line stands the text. Says how many tokens there were, and how many bytes they have.
ghost use Rattle.std.specs.Prelude.{◌≡◌, ◌≤◌, ◌<◌, ℕ, length, IfOk};
ghost use Rattle.sp_match.specs.Sizes.{steps};

use crate::token_sets::{put, read_set};
use sp_match::{Matcher, TokenSet, Verdict};
use std::alloc::{AllocError, Global};

/// More bytes than a text has.
const LONGEST: usize = 268_435_456;

/// What the tokens of a text come to.
#[derive(Clone, Copy)]
struct Sum {
    tokens: u64,
    bytes: u64,
}

/// A matcher that has read nothing.
fn matcher_of(alloc: Global, set: &TokenSet) -> Result<Matcher<'_>, AllocError>
    ensures { IfOk result (λ matcher. steps matcher ≡ 0) }
{
    match Matcher::new(alloc, set) {
        Ok(matcher) => Ok(matcher),
        Err(_) => Err(AllocError),
    }
}

/// The length of a match, 0 where there is none.
fn length_of(verdict: Verdict) -> u64 {
    match verdict {
        Verdict::Match { length, .. } => length,
        _ => 0,
    }
}

/// The bytes of the token at the front, 0 where there is none, by a verdict behind each byte.
fn read_token(matcher: &mut Matcher<'_>, text: &[u8]) -> u64
    requires short { length text.now ≤ 268435456 }
    requires new { steps matcher.old ≡ 0 }
{
    for byte in text {
        matcher.step(*byte);
        match matcher.verdict(false) {
            Verdict::Need => {}
            verdict => return length_of(verdict),
        }
    }
    length_of(matcher.verdict(true))
}

/// The same by one verdict at the end.
fn read_whole(matcher: &mut Matcher<'_>, text: &[u8]) -> u64
    requires short { length text.now ≤ 268435456 }
    requires new { steps matcher.old ≡ 0 }
{
    for byte in text {
        matcher.step(*byte);
    }
    length_of(matcher.verdict(true))
}

/// The bytes of the token at the front, 0 where there is none.
fn first_token(alloc: Global, set: &TokenSet, text: &[u8]) -> Result<u64, AllocError>
    requires { length text.now ≤ 268435456 }
{
    let mut matcher = matcher_of(alloc, set)?;
    let length = read_token(&mut matcher, text);
    drop(matcher);
    Ok(length)
}

/// All tokens, one after another; a byte where none begins is passed over.
fn all_tokens(alloc: Global, set: &TokenSet, text: &[u8]) -> Result<Sum, AllocError>
    requires { length text.now ≤ 268435456 }
{
    let mut sum = Sum {
        tokens: 0,
        bytes: 0,
    };
    let mut at = 0;
    for _ in 0..text.len() {
        if at >= text.len() {
            break;
        }
        let length = first_token(alloc, set, &text[at..])?;
        if length > 0 {
            sum.tokens = sum.tokens.wrapping_add(1);
            sum.bytes = sum.bytes.wrapping_add(length);
        }
        at = at.saturating_add(length.max(1) as usize);
    }
    Ok(sum)
}

/// The token that has the whole text, by one verdict at its end.
fn whole(alloc: Global, set: &TokenSet, text: &[u8]) -> Result<Sum, AllocError>
    requires { length text.now ≤ 268435456 }
{
    let mut matcher = matcher_of(alloc, set)?;
    let bytes = read_whole(&mut matcher, text);
    drop(matcher);
    Ok(Sum {
        tokens: u64::from(bytes > 0),
        bytes,
    })
}

/// What a text comes to, if it isn't too long.
fn sum_of(
    alloc: Global,
    set: &TokenSet,
    input: &[u8],
    text: &[u8],
) -> Result<Option<Sum>, AllocError> {
    if text.len() > LONGEST {
        return Ok(None);
    }
    match input {
        [b'w', ..] => Ok(Some(whole(alloc, set, text)?)),
        _ => Ok(Some(all_tokens(alloc, set, text)?)),
    }
}

/// What an input comes to, if its set is built.
fn run(alloc: Global, input: &[u8]) -> Result<Option<Sum>, AllocError> {
    match read_set(alloc, input)? {
        Some((set, text)) => {
            let sum = sum_of(alloc, &set, input, text);
            drop(set);
            sum
        }
        None => Ok(None),
    }
}

pub fn work(alloc: Global, input: &[u8], said: &mut String) -> Result<(), AllocError> {
    match run(alloc, input)? {
        Some(sum) => {
            let tokens = sum.tokens;
            let bytes = sum.bytes;
            put(
                said,
                format!(in alloc; "{tokens} tokens of {bytes} bytes\n"),
            )
        }
        None => said.push_str("no such set\n"),
    }
}
