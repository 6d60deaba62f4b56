// What can be wrong with one token.
ghost use Rattle.std.specs.Prelude.{◌≡◌, ◌≤◌, ◌<◌, ◌-◌, ◌^◌, ◌↔◌, length, take, drop, IfOk, IsTrue, MatchOption};
ghost use Rattle.sp_base.specs.Kinds.{module_kind_number};
ghost use Rattle.sp_base.specs.declared.kinds.MKind.{MKind};
ghost use Rattle.sp_lex.specs.Faults.{between, IsTokenFault, IsOwnFault};
ghost use Rattle.sp_lex.specs.Literals.{number_value};
ghost use Rattle.sp_regex.specs.Syntax.{IsRegexText};

use crate::kinds::TokenKind;
use crate::numbers::is_too_large;
use sp_base::{MKind, NoMemory};
use sp_regex::RegexFault;
use std::alloc::Global;

/// What stands between the first byte and the last.
pub fn between(bytes: &[u8]) -> &[u8]
    ensures { result.now ≡ between bytes.now }
{
    if bytes.len() < 2 {
        return &bytes[..0];
    }
    &bytes[1..bytes.len() - 1]
}

/// Whether the text is one of a regular expression.
fn is_regex_text(alloc: Global, text: &[u8]) -> Result<bool, NoMemory>
    ensures { IfOk result (λ is. IsTrue is ↔ IsRegexText text.now) }
{
    match sp_regex::parse(alloc, text) {
        Ok(_) => Ok(true),
        Err(RegexFault::Bad(_)) => Ok(false),
        Err(RegexFault::NoMemory) => Err(NoMemory),
    }
}

/// What is wrong with a token of the kind by its own bytes.
pub(crate) fn own_fault(
    alloc: Global,
    kind: TokenKind,
    bytes: &[u8],
) -> Result<Option<MKind>, NoMemory>
    ensures { IfOk result (λ fault. MatchOption fault ((m : MKind) → ¬ IsOwnFault kind bytes.now m)
        (λ m. IsOwnFault kind bytes.now m)) }
{
    let fault = match kind {
        TokenKind::Number if is_too_large(bytes) => Some(MKind::LiteralRange),
        TokenKind::Regex if !is_regex_text(alloc, between(bytes))? => Some(MKind::BadRegex),
        _ => None,
    };
    Ok(fault)
}
