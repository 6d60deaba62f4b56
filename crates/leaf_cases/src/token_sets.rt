// The members of a token set as cases write them: commas stand between them, and each is `r` and the text of a regular
// expression or `l` and the bytes of a literal, in hexadecimal; `-` stands for none.
use sp_match::{Regex, RegexFault, parse};
use std::alloc::{AllocError, Global};

/// The member of this kind with this text or these bytes, if it is one.
fn member(alloc: Global, kind: &str, text: &[u8]) -> Result<Option<Regex>, AllocError> {
    match kind {
        "l" => match Regex::literal(alloc, text) {
            Ok(regex) => Ok(Some(regex)),
            Err(_) => Err(AllocError),
        },
        "r" => match parse(alloc, text) {
            Ok(regex) => Ok(Some(regex)),
            Err(RegexFault::Bad(_)) => Ok(None),
            Err(RegexFault::NoMemory) => Err(AllocError),
        },
        _ => Ok(None),
    }
}

/// The member that a part of the text writes, if it is one.
fn written(alloc: Global, part: &str) -> Result<Option<Regex>, AllocError> {
    let (kind, digits) = match (part.get(..1), part.get(1..)) {
        (Some(kind), Some(digits)) => (kind, digits),
        _ => return Ok(None),
    };
    let Ok(text) = hex::decode(alloc, digits) else {
        return Ok(None);
    };
    let member = member(alloc, kind, text.as_slice());
    drop(text);
    member
}

/// Puts the members of a text into a list.
pub fn put_members(alloc: Global, text: &str, all: &mut Vec<Regex>) -> Result<(), AllocError> {
    for part in text.split(',') {
        if let Some(regex) = written(alloc, part)? {
            all.push(regex)?;
        }
    }
    Ok(())
}
