// The refusal of a text behind its longest run.
ghost use Rattle.std.specs.Prelude.{◌≡◌, ◌≤◌, length, drop};
ghost use Rattle.sp_lex.specs.Faults.{most_bytes};
ghost use Rattle.sp_lex.specs.declared.tokens.ReadFault.TheVariants as fault_is;
ghost use Rattle.sp_phrases.specs.Runs.{unexpected, refused_at, refused_with};

use sp_base::{MKind, Span};
use sp_lex::{ReadFault, Token, TokenKind};

/// What a token is refused with where no text goes on with it: M30 where it is a word out of profile, and else M3.
pub fn unexpected(kind: TokenKind) -> MKind
    ensures { result ≡ unexpected kind }
{
    match kind {
        TokenKind::Absent(_) => MKind::OutOfProfile,
        _ => MKind::Unexpected,
    }
}

/// The refusal at a token, or at the end of the text.
pub(crate) fn refusal(text: &[u8], tokens: &[Token], at: usize) -> ReadFault
    requires small { length text.now ≤ most_bytes }
    ensures { result ≡ fault_is.Diag (refused_at (length text.now) (drop at tokens.now))
        (refused_with (drop at tokens.now)) }
{
    match tokens.get(at) {
        Some(token) => ReadFault::Diag(token.span, unexpected(token.kind)),
        None => {
            let end = text.len() as u32;
            ReadFault::Diag(Span { from: end, to: end }, MKind::Unexpected)
        }
    }
}
