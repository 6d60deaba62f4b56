// What stands where a text begins: white space, a comment, or a token, each the longest there.
ghost use Rattle.std.specs.Prelude.{◌≡◌, ◌≤◌, ◌<◌, length, slice_index, true, ◌==◌};
ghost use Rattle.std.specs.Char.{is_ascii_digit};
ghost use Rattle.sp_lex.specs.Bytes.{is_letter};
ghost use Rattle.sp_lex.specs.Elements.{ends_operand, start_of, form_kind, token_of, literal_at, sign_of, sign_at, word_at, element_from, element_at, IsWithin};
ghost use Rattle.sp_lex.specs.Literals.{opening};

use crate::kinds::TokenKind;
use crate::literals::{Form, byte_at, literal_len};
use crate::numbers::number_len;
use crate::runs::{line_len, word_len};
use crate::signs::{is_letter, is_white, longest_sign, word_kind};
use sp_words::Punctuation;

/// What stands at a place, with its number of bytes.
#[derive(Clone, Copy, PartialEq, Eq)]
pub(crate) enum Element {
    /// White space or a comment.
    Blank(usize),
    Token(TokenKind, usize),
    /// No token begins here, or a literal has a bad escape or is not ended.
    Bad,
}

/// What a first byte can begin.
#[derive(Clone, Copy, PartialEq, Eq)]
pub(crate) enum Start {
    Space,
    Comment,
    Letter,
    Digit,
    Quote,
    Slash,
    Sign,
}

impl TokenKind {
    /// Whether a `/` behind a token of this kind divides. Behind all others it begins a regular expression.
    pub fn ends_operand(self) -> bool
        ensures { result ≡ ends_operand self }
    {
        match self {
            TokenKind::Id | TokenKind::Number | TokenKind::String | TokenKind::Bytes => true,
            TokenKind::Punctuation(punctuation) => matches!(
                punctuation,
                Punctuation::DollarDollar
                    | Punctuation::RightParen
                    | Punctuation::RightBracket
                    | Punctuation::Bar
            ),
            _ => false,
        }
    }
}

fn start_of(byte: u8) -> Start
    ensures { result ≡ start_of byte }
{
    if is_white(byte) {
        Start::Space
    } else if byte == b'#' {
        Start::Comment
    } else if is_letter(byte) {
        Start::Letter
    } else if byte.is_ascii_digit() {
        Start::Digit
    } else if byte == b'"' {
        Start::Quote
    } else if byte == b'/' {
        Start::Slash
    } else {
        Start::Sign
    }
}

fn form_kind(form: Form) -> TokenKind
    ensures { result ≡ form_kind form }
{
    match form {
        Form::String => TokenKind::String,
        Form::Bytes => TokenKind::Bytes,
        Form::Regex => TokenKind::Regex,
    }
}

/// The literal whose opening bytes begin the text.
#[tactic(auto, unfolding(crate::specs::Elements::literal_at))]
fn literal_at(form: Form, text: &[u8]) -> Element
    requires { opening form ≤ length text.now }
    ensures value { result ≡ literal_at form text.now }
    ensures within { IsWithin result (length text.now) }
{
    match literal_len(form, text) {
        Some(n) => Element::Token(form_kind(form), n),
        None => Element::Bad,
    }
}

/// The longest token of punctuation with which the text begins.
#[tactic(auto, unfolding(crate::specs::Elements::sign_at))]
fn sign_at(text: &[u8]) -> Element
    ensures value { result ≡ sign_at text.now }
    ensures within { IsWithin result (length text.now) }
{
    match longest_sign(text) {
        Some(kind) => Element::Token(kind, kind.text().len()),
        None => Element::Bad,
    }
}

/// The word whose first letter begins the text, or a literal of bytes.
#[tactic(auto, using(crate::proofs::Counts::first_passes), unfolding(crate::specs::Elements::word_at))]
fn word_at(text: &[u8]) -> Element
    requires some { 0 < length text.now }
    requires letter { is_letter (slice_index text.now 0) ≡ true }
    ensures value { result ≡ word_at text.now }
    ensures within { IsWithin result (length text.now) }
{
    if byte_at(text, 0) == b'b' && byte_at(text, 1) == b'"' {
        return literal_at(Form::Bytes, text);
    }
    let n = word_len(text);
    Element::Token(word_kind(&text[..n]), n)
}

/// What stands where the text begins, if a `/` there divides, or not.
#[tactic(auto, using(crate::proofs::Counts::first_passes), unfolding(crate::specs::Elements::element_at))]
pub(crate) fn element_at(divides: bool, text: &[u8]) -> Element
    requires { 0 < length text.now }
    ensures value { result ≡ element_at divides text.now }
    ensures within { IsWithin result (length text.now) }
{
    match start_of(text[0]) {
        Start::Space => Element::Blank(1),
        Start::Comment => Element::Blank(line_len(text)),
        Start::Letter => word_at(text),
        Start::Digit => Element::Token(TokenKind::Number, number_len(text)),
        Start::Quote => literal_at(Form::String, text),
        Start::Slash if !divides => literal_at(Form::Regex, text),
        Start::Slash | Start::Sign => sign_at(text),
    }
}
