// Bytes against token sets: the members as in `token_sets`, a space, and the bytes in hexadecimal, `-` for a set that is only
// built, or `+` for no bytes. The answer is `E` and the number of the first member that has the empty word, `T` for too many
// positions, `ok` for a set that is built, or the verdicts before any byte and after each, with more to come and, behind `/`,
// with the input ended: `?` for Need, `.` for None, and the member's number and the length of a match.
ghost use Rattle.std.specs.Prelude.{◌≡◌, ◌≤◌, length};
ghost use Rattle.sp_match.specs.Sizes.{steps};

use crate::texts::put;
use crate::token_sets::put_members;
use sp_match::{Matcher, Regex, SetFault, TokenSet, Verdict};
use std::alloc::{AllocError, Global};

fn show(alloc: Global, got: &mut String, verdict: Verdict) -> Result<(), AllocError> {
    match verdict {
        Verdict::Need => got.push_str("?"),
        Verdict::None => got.push_str("."),
        Verdict::Match { token, length } => put(got, format!(in alloc; "{token}:{length}")),
    }
}

/// The verdicts before any byte and after each.
fn show_each(
    alloc: Global,
    matcher: &mut Matcher<'_>,
    input: &[u8],
    ended: bool,
    got: &mut String,
) -> Result<(), AllocError>
    requires short { length input.now ≤ 65536 }
    requires new { steps matcher.old ≡ 0 }
{
    show(alloc, got, matcher.verdict(ended))?;
    for byte in input {
        matcher.step(*byte);
        got.push_str(",")?;
        show(alloc, got, matcher.verdict(ended))?;
    }
    Ok(())
}

/// The verdicts of a new matcher.
fn verdicts(
    alloc: Global,
    set: &TokenSet,
    input: &[u8],
    ended: bool,
    got: &mut String,
) -> Result<(), AllocError>
    requires { length input.now ≤ 65536 }
{
    let mut matcher = match Matcher::new(alloc, set) {
        Ok(matcher) => matcher,
        Err(_) => return Err(AllocError),
    };
    let said = show_each(alloc, &mut matcher, input, ended, got);
    drop(matcher);
    said
}

/// The verdicts with more to come, and with the input ended.
fn both(alloc: Global, set: &TokenSet, input: &[u8], got: &mut String) -> Result<(), AllocError> {
    if input.len() > 65536 {
        return Ok(());
    }
    verdicts(alloc, set, input, false, got)?;
    got.push_str("/")?;
    verdicts(alloc, set, input, true, got)
}

/// What the set and the bytes give.
fn matched(alloc: Global, set: &TokenSet, bytes: &str, got: &mut String) -> Result<(), AllocError> {
    if bytes == "-" {
        return got.push_str("ok");
    }
    let digits = if bytes == "+" { "" } else { bytes };
    let Ok(input) = hex::decode(alloc, digits) else {
        return Ok(());
    };
    let said = both(alloc, set, input.as_slice(), got);
    drop(input);
    said
}

/// What the members and the bytes give.
fn told(alloc: Global, members: &[Regex], bytes: &str, got: &mut String) -> Result<(), AllocError> {
    match TokenSet::build(alloc, members) {
        Ok(set) => {
            let said = matched(alloc, &set, bytes, got);
            drop(set);
            said
        }
        Err(SetFault::Empty(i)) => put(got, format!(in alloc; "E{i}")),
        Err(SetFault::TooMany) => got.push_str("T"),
        Err(SetFault::NoMemory) => Err(AllocError),
    }
}

pub fn answer(alloc: Global, question: &str, got: &mut String) -> Result<(), AllocError> {
    let Some((text, bytes)) = question.split_once(" ") else {
        return Ok(());
    };
    let mut members = Vec::new(alloc);
    let said = match put_members(alloc, text, &mut members) {
        Ok(()) => told(alloc, members.as_slice(), bytes, got),
        Err(fault) => Err(fault),
    };
    drop(members);
    said
}
