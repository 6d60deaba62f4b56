// The pieces of layouts: what the tokens of a tree are besides those of its parts, and where the parts stand.
ghost use Rattle.std.specs.Prelude.{◌≡◌};
ghost use Rattle.sp_print.specs.Layouts.{opening, closing, between};

use sp_lex::TokenKind;
use sp_words::{Keyword, Punctuation};

/// Where an expression stands, which tells what must not stand there without parentheses.
#[derive(Clone, Copy)]
pub enum Place {
    /// Anything may.
    Anywhere,
    /// The condition of a choice.
    Condition,
    /// Between two bars.
    Sized,
    /// Behind an operator that has one operand.
    Operand,
    /// Before a dot or an index.
    Object,
    /// Before the arguments of a call.
    Callee,
    /// Before the operator.
    Left,
    /// Behind the operator.
    Right,
}

/// What stands round a part that can be left out.
#[derive(Clone, Copy)]
pub enum Frame {
    /// Nothing.
    Bare,
    /// `( .. )`
    Parentheses,
    /// `: ..`
    Colon,
    /// `:: ..`
    Scope,
    /// `= ..`
    Equal,
    /// `.. ..`
    UpTo,
    /// `-> ..`
    Arrow,
    /// `if ( .. )`
    If,
    /// `else ..`
    Else,
    /// `default : ..`
    Default,
    /// `&priority = ..`
    Priority,
}

/// What stands between parts in a row.
#[derive(Clone, Copy)]
pub enum Separator {
    /// Nothing.
    Nothing,
    /// `,`
    Comma,
    /// `::`
    Scope,
    /// `else if`
    ElseIf,
}

/// How a part of a tree is written.
#[derive(Clone, Copy)]
pub enum PartLayout {
    /// At a place, in parentheses where it needs them.
    One(Place),
    /// With what stands round it, unless it is left out.
    Optional(Frame),
    /// As a row.
    Row(Separator),
    /// As a row in parentheses and with commas; nothing where it is empty.
    Arguments,
    /// As the row of a field's hooks; a `;` where it is empty.
    Hooks,
}

/// A step in writing a tree.
#[derive(Clone, Copy)]
pub enum Piece {
    /// This token.
    Word(TokenKind),
    /// The token that the alternative itself tells.
    Own,
    /// The next part.
    Part(PartLayout),
    /// All parts that are left.
    All(Separator),
}

impl Frame {
    /// What stands before the part.
    pub(crate) fn opening(self) -> &'static [TokenKind]
        ensures { result.now ≡ opening self }
    {
        match self {
            Frame::Bare => &[],
            Frame::Parentheses => &[TokenKind::Punctuation(Punctuation::LeftParen)],
            Frame::Colon => &[TokenKind::Punctuation(Punctuation::Colon)],
            Frame::Scope => &[TokenKind::Punctuation(Punctuation::ColonColon)],
            Frame::Equal => &[TokenKind::Punctuation(Punctuation::Equal)],
            Frame::UpTo => &[TokenKind::Punctuation(Punctuation::DotDot)],
            Frame::Arrow => &[TokenKind::Punctuation(Punctuation::Arrow)],
            Frame::If => &[
                TokenKind::Keyword(Keyword::If),
                TokenKind::Punctuation(Punctuation::LeftParen),
            ],
            Frame::Else => &[TokenKind::Keyword(Keyword::Else)],
            Frame::Default => &[
                TokenKind::Keyword(Keyword::Default),
                TokenKind::Punctuation(Punctuation::Colon),
            ],
            Frame::Priority => &[
                TokenKind::Priority,
                TokenKind::Punctuation(Punctuation::Equal),
            ],
        }
    }

    /// What stands behind the part.
    pub(crate) fn closing(self) -> &'static [TokenKind]
        ensures { result.now ≡ closing self }
    {
        match self {
            Frame::Parentheses | Frame::If => &[TokenKind::Punctuation(Punctuation::RightParen)],
            _ => &[],
        }
    }
}

impl Separator {
    /// Its tokens.
    pub(crate) fn kinds(self) -> &'static [TokenKind]
        ensures { result.now ≡ between self }
    {
        match self {
            Separator::Nothing => &[],
            Separator::Comma => &[TokenKind::Punctuation(Punctuation::Comma)],
            Separator::Scope => &[TokenKind::Punctuation(Punctuation::ColonColon)],
            Separator::ElseIf => &[
                TokenKind::Keyword(Keyword::Else),
                TokenKind::Keyword(Keyword::If),
            ],
        }
    }
}
