// Tokens, and why a text is refused.
ghost use Rattle.std.specs.Prelude.{◌≡◌, ◌∷◌, ◌++◌, [], length, OnOk, OnErr, IsTrue, ◌↔◌};
ghost use Rattle.sp_lex.specs.Lexed.{IsLexed};

use crate::TokenKind;
use sp_base::{ByteList, MKind, NoMemory, Span};
use std::alloc::Global;
use std::marker::Model;
use thiserror::Error;

/// A token: its kind, and the slice of the text that it is.
#[derive(Clone, Copy, PartialEq, Eq)]
pub struct Token {
    pub kind: TokenKind,
    pub span: Span,
}

/// Tokens in their order.
#[derive(Drop)]
pub(crate) struct TokenList {
    items: Vec<Token>,
}

impl Model for TokenList {
    ghost use Rattle.std.specs.Prelude.{List};
    ghost use Rattle.sp_lex.specs.declared.tokens.Token.{Token};

    ghost Value = { List Token };

    ghost view = { λ t. t.items.items };
}

impl TokenList {
    /// No token. Takes no memory.
    pub(crate) fn new(alloc: Global) -> TokenList
        ensures { result ≡ [] }
    {
        TokenList {
            items: Vec::new(alloc),
        }
    }

    fn as_slice(&self) -> &[Token]
        ensures { result.now ≡ self.now }
    {
        self.items.as_slice()
    }

    /// Appends the token, or changes nothing.
    pub(crate) fn push(&mut self, token: Token) -> Result<(), NoMemory>
        ensures ok { OnOk result (self.new ≡ self.old ++ token ∷ []) }
        ensures err { OnErr result (self.new ≡ self.old) }
    {
        self.items.push(token)?;
        Ok(())
    }
}

/// A text with its tokens, in the order of the text. Only [`lex`](crate::lex) makes it, so these are the tokens of
/// the text.
#[derive(Drop)]
pub struct Tokens {
    text: ByteList,
    list: TokenList,
}

impl Model for Tokens {
    ghost use Rattle.sp_lex.specs.Lexed.{Lexed, IsLexed};

    ghost Value = { Lexed };

    ghost view = { λ t. record { text = t.text; list = t.list } };

    ghost invariant = { λ t. IsLexed t.text t.list };
}

impl Tokens {
    /// A text with the tokens that it was found to have.
    pub(crate) fn new(text: ByteList, list: TokenList) -> Tokens
        requires { IsLexed text list }
        ensures { result ≡ record { text = text; list = list } }
    {
        Tokens { text, list }
    }

    /// The number of tokens.
    pub fn len(&self) -> usize
        ensures { result ≡ length self.now.list }
    {
        self.list.as_slice().len()
    }

    pub fn is_empty(&self) -> bool
        ensures { IsTrue result ↔ (self.now.list ≡ []) }
    {
        self.list.as_slice().is_empty()
    }

    pub fn as_slice(&self) -> &[Token]
        ensures { result.now ≡ self.now.list }
    {
        self.list.as_slice()
    }

    /// The bytes of the text.
    pub fn text(&self) -> &[u8]
        ensures { result.now ≡ self.now.text }
    {
        self.text.as_slice()
    }

    /// The tokens are those of the text. It does nothing; a caller's proof has the fact from it.
    pub fn are_of_their_text(&self)
        ensures { IsLexed self.now.text self.now.list }
    {
        let _ = &self.list;
    }
}

/// Why a text is refused, with the place, or that there was no memory.
#[derive(Clone, Copy, Debug, PartialEq, Eq, Error)]
pub enum ReadFault {
    #[error("{} at byte {}", .1.name(), .0.from)]
    Diag(Span, MKind),
    #[error("out of memory")]
    NoMemory,
}

impl From<NoMemory> for ReadFault {
    ghost use Rattle.std.specs.Prelude.{◌≡◌};
    ghost use Rattle.sp_lex.specs.declared.tokens.ReadFault.TheVariants as fault_is;

    ghost from_gives = { λ _ fault. fault ≡ fault_is.NoMemory };

    fn from(_: NoMemory) -> Self {
        ReadFault::NoMemory
    }
}
