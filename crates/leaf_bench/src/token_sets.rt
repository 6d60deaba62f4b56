//! What inputs share: their lines, the members of a token set as they write them, and what is said of them.
//!
//! A member is a line: `r` and the text of a regular expression, or `l` and the bytes of a literal.
ghost use Rattle.std.specs.Prelude.{◌≤◌, length};

use sp_match::{Regex, RegexFault, SetFault, TokenSet, parse};
use std::alloc::{AllocError, Global};

/// Puts a text behind what is there.
pub fn put(said: &mut String, text: Result<String, AllocError>) -> Result<(), AllocError> {
    let text = text?;
    let put = said.push_str(text.as_str());
    drop(text);
    put
}

/// The text of an input; empty where it is none.
pub fn text_of(input: &[u8]) -> &str {
    std::str::from_utf8(input).unwrap_or("")
}

/// The member of this text, if it is one.
fn member(alloc: Global, text: &[u8]) -> Result<Option<Regex>, AllocError> {
    match text {
        [b'l', bytes @ ..] => match Regex::literal(alloc, bytes) {
            Ok(regex) => Ok(Some(regex)),
            Err(_) => Err(AllocError),
        },
        [b'r', text @ ..] => match parse(alloc, text) {
            Ok(regex) => Ok(Some(regex)),
            Err(RegexFault::Bad(_)) => Ok(None),
            Err(RegexFault::NoMemory) => Err(AllocError),
        },
        _ => Ok(None),
    }
}

/// Where the first line ends.
fn line_end(text: &[u8]) -> usize
    ensures { result ≤ length text.now }
{
    for i in 0..text.len() {
        if text[i] == b'\n' {
            return i;
        }
    }
    text.len()
}

/// What stands behind the first line.
pub fn behind_line(text: &[u8]) -> &[u8] {
    let end = line_end(text);
    if end < text.len() {
        &text[end + 1..]
    } else {
        &text[end..]
    }
}

/// Puts the members into a list, one a line up to an empty line. What stands behind that.
fn read_members<'t>(
    alloc: Global,
    lines: &'t [u8],
    all: &mut Vec<Regex>,
) -> Result<&'t [u8], AllocError> {
    let mut rest = lines;
    for _ in 0..lines.len() {
        let end = line_end(rest);
        let line = &rest[..end];
        rest = behind_line(rest);
        if line.is_empty() {
            break;
        }
        if let Some(regex) = member(alloc, line)? {
            all.push(regex)?;
        }
    }
    Ok(rest)
}

/// The set of the members in the lines behind the first one, if there is one, and what stands behind them.
pub fn read_set<'t>(
    alloc: Global,
    input: &'t [u8],
) -> Result<Option<(TokenSet, &'t [u8])>, AllocError> {
    let mut members = Vec::new(alloc);
    let built = match read_members(alloc, behind_line(input), &mut members) {
        Ok(text) => match TokenSet::build(alloc, members.as_slice()) {
            Ok(set) => Ok(Some((set, text))),
            Err(SetFault::NoMemory) => Err(AllocError),
            Err(_) => Ok(None),
        },
        Err(fault) => Err(fault),
    };
    drop(members);
    built
}
