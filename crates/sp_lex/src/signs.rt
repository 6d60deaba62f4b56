// Tokens with a fixed text: the longest one with which a text begins, and the kind of a word.
ghost use Rattle.std.specs.Prelude.{◌≡◌, ◌≤◌, ◌<◌, length, slice_index, IfSome, IsTrue};
ghost use Rattle.std.specs.List.{find};
ghost use Rattle.sp_lex.specs.Bytes.{is_white, is_letter, is_word};
ghost use Rattle.sp_lex.specs.Signs.{is_whole_name, stands, longer, longest_of, longest_sign, is_spelled, word_kind, first_bytes, all_spelled};
ghost use Rattle.sp_lex.specs.Spellings.{spelling};

use crate::kinds::{Absent, TokenKind};
use crate::tables::{RESERVED_WORDS, SIGN_FIRSTS, SIGNS, WORD_FIRSTS};

pub(crate) fn is_white(byte: u8) -> bool
    ensures { result ≡ is_white byte }
{
    byte == b' ' || byte == b'\t' || byte == b'\r' || byte == b'\n'
}

pub(crate) fn is_letter(byte: u8) -> bool
    ensures { result ≡ is_letter byte }
{
    byte.is_ascii_alphabetic() || byte == b'_'
}

pub(crate) fn is_word(byte: u8) -> bool
    ensures { result ≡ is_word byte }
{
    is_letter(byte) || byte.is_ascii_digit()
}

/// Whether no letter, digit or `_` may follow.
fn is_whole_name(kind: TokenKind) -> bool
    ensures { result ≡ is_whole_name kind }
{
    matches!(
        kind,
        TokenKind::Attribute(_) | TokenKind::Priority | TokenKind::Absent(Absent::ChunkedAttribute)
    )
}

fn word_follows(text: &[u8], at: usize) -> bool
    ensures { result ≡ is_word (slice_index text.now at) }
{
    match text.get(at) {
        Some(byte) => is_word(*byte),
        None => false,
    }
}

/// Whether a token of the kind stands where the text begins.
fn stands(kind: TokenKind, text: &[u8]) -> bool
    ensures value { result ≡ stands kind text.now }
    ensures within { IsTrue result → length (spelling kind) ≤ length text.now }
{
    let spelling = kind.text().as_bytes();
    text.starts_with(spelling) && !(is_whole_name(kind) && word_follows(text, spelling.len()))
}

/// The longer one of a token that was found and one that may stand where the text begins.
fn longer(text: &[u8], found: Option<TokenKind>, kind: TokenKind) -> Option<TokenKind>
    ensures value { result ≡ longer text.now found kind }
    ensures within { IfSome found (λ old. length (spelling old) ≤ length text.now)
        → IfSome result (λ new. length (spelling new) ≤ length text.now) }
{
    if !stands(kind, text) {
        return found;
    }
    match found {
        Some(old) if kind.text().len() <= old.text().len() => found,
        _ => Some(kind),
    }
}

/// The first byte of a text; 0 where there is none.
fn first_byte(text: &[u8]) -> u8
    ensures { result ≡ slice_index text.now 0 }
{
    match text.first() {
        Some(byte) => *byte,
        None => 0,
    }
}

/// The longest token of one of the kinds with which the text begins. `firsts` has the first byte of each kind's text, so that few
/// texts are looked at.
#[tactic(auto, using(crate::proofs::Firsts::as_many))]
fn longest_of(text: &[u8], kinds: &[TokenKind], firsts: &[u8]) -> Option<TokenKind>
    requires firsts { firsts.now ≡ first_bytes kinds.now }
    requires spelled { IsTrue (all_spelled kinds.now) }
    ensures value { result ≡ longest_of text.now None kinds.now }
    ensures within { IfSome result (λ kind. length (spelling kind) ≤ length text.now) }
{
    let first = first_byte(text);
    let mut found = None;
    for n in 0..kinds.len() {
        if firsts[n] == first {
            found = longer(text, found, kinds[n]);
        }
    }
    found
}

/// The longest token of punctuation with which the text begins.
#[tactic(auto, unfolding(crate::specs::Signs::longest_sign))]
pub(crate) fn longest_sign(text: &[u8]) -> Option<TokenKind>
    ensures value { result ≡ longest_sign text.now }
    ensures some { IfSome result (λ kind. 0 < length (spelling kind)) }
    ensures within { IfSome result (λ kind. length (spelling kind) ≤ length text.now) }
{
    longest_of(text, &SIGNS, &SIGN_FIRSTS)
}

/// Whether the kind's text is this word.
fn is_spelled(kind: TokenKind, word: &[u8]) -> bool
    ensures { result ≡ is_spelled word.now kind }
{
    word == kind.text().as_bytes()
}

/// The kind whose text is this word. `firsts` has the first byte of each kind's text, so that few texts are compared.
#[tactic(auto, using(crate::proofs::Firsts::as_many))]
fn word_among(word: &[u8], kinds: &[TokenKind], firsts: &[u8]) -> Option<TokenKind>
    requires { firsts.now ≡ first_bytes kinds.now }
    ensures { result ≡ find (is_spelled word.now) kinds.now }
{
    let first = first_byte(word);
    for n in 0..kinds.len() {
        if first == firsts[n] && is_spelled(kinds[n], word) {
            return Some(kinds[n]);
        }
    }
    None
}

/// The kind of a word: a reserved one, or a name.
#[tactic(auto, unfolding(crate::specs::Signs::word_kind))]
pub(crate) fn word_kind(word: &[u8]) -> TokenKind
    ensures { result ≡ word_kind word.now }
{
    word_among(word, &RESERVED_WORDS, &WORD_FIRSTS).unwrap_or(TokenKind::Id)
}
