// The terminal of the grammar that each kind of token is.
ghost use Rattle.std.specs.Prelude.{◌≡◌, ◌<◌};
ghost use Rattle.sp_parser.specs.Grammar.{SECOND};
ghost use Rattle.sp_phrases.specs.Kinds.{absent_terminal, terminal_of, token_number};

use sp_grammar::Terminal;
use sp_lex::{Absent, Token, TokenKind};

/// The number of a word that no production has.
const NO_TERMINAL: u8 = 100;

fn absent_terminal(absent: Absent) -> Option<Terminal>
    ensures { result ≡ absent_terminal absent }
{
    match absent {
        Absent::Skip => Some(Terminal::Skip),
        _ => None,
    }
}

/// The terminal of a kind of token. A word out of profile has none, unless it is `skip`, which names a member.
pub fn terminal_of(kind: TokenKind) -> Option<Terminal>
    ensures { result ≡ terminal_of kind }
{
    match kind {
        TokenKind::Id => Some(Terminal::Id),
        TokenKind::Number => Some(Terminal::Number),
        TokenKind::String => Some(Terminal::String),
        TokenKind::Bytes => Some(Terminal::Bytes),
        TokenKind::Regex => Some(Terminal::Regex),
        TokenKind::Keyword(keyword) => Some(Terminal::Keyword(keyword)),
        TokenKind::Integer(_) => Some(Terminal::IntWord),
        TokenKind::Punctuation(action) => Some(Terminal::Punctuation(action)),
        TokenKind::Attribute(_) => Some(Terminal::Attribute),
        TokenKind::Priority => Some(Terminal::Priority),
        TokenKind::Property(property) => Some(Terminal::Property(property)),
        TokenKind::Hook(_) => Some(Terminal::Hook),
        TokenKind::Absent(absent) => absent_terminal(absent),
    }
}

/// The number of a token's kind in the table.
pub(crate) fn token_number(token: Token) -> u8
    ensures { result ≡ token_number token }
{
    match terminal_of(token.kind) {
        Some(terminal) => terminal.number(),
        None => NO_TERMINAL,
    }
}
