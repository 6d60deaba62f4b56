// The values of a text's tokens, by their numbers.
ghost use Rattle.std.specs.Prelude.{◌≡◌, ◌<◌, length, IfOk};
ghost use Rattle.std.specs.Str.{IsUtf8};
ghost use Rattle.sp_lex.specs.Literals.{number_value};
ghost use Rattle.sp_lex.specs.declared.kinds.TokenKind.TheVariants as token;
ghost use Rattle.sp_literals.specs.Values.{kind_at, bytes_at, IsName, string_value, bytes_value, regex_text};

use crate::decoding::decoded;
use sp_base::{ByteList, NoMemory, Text};
use sp_lex::{Tokens, between, number_of};
use std::alloc::Global;

/// The bytes of the token with this number, counted from 0.
pub fn token_bytes(tokens: &Tokens, at: usize) -> &[u8]
    requires { at < length tokens.now.list }
    ensures value { result.now ≡ bytes_at tokens.now at }
    ensures some { 0 < length result.now }
{
    tokens.are_of_their_text();
    let span = tokens.as_slice()[at].span;
    &tokens.text()[span.from as usize..span.to as usize]
}

/// A copy of bytes that are text.
fn text_of(alloc: Global, bytes: &[u8]) -> Result<Text, NoMemory>
    requires { IsUtf8 bytes.now }
    ensures { IfOk result (λ text. text ≡ bytes.now) }
{
    Text::new(alloc, std::str::from_utf8(bytes).unwrap())
}

/// The text of a name, or of the word `skip`.
pub fn name_text(alloc: Global, tokens: &Tokens, at: usize) -> Result<Text, NoMemory>
    requires inside { at < length tokens.now.list }
    requires kind { IsName (kind_at tokens.now at) }
    ensures { IfOk result (λ text. text ≡ bytes_at tokens.now at) }
{
    tokens.are_of_their_text();
    text_of(alloc, token_bytes(tokens, at))
}

/// The text between the quotes of a STRING, with each escape as the byte that it stands for.
pub fn string_value(alloc: Global, tokens: &Tokens, at: usize) -> Result<Text, NoMemory>
    requires inside { at < length tokens.now.list }
    requires kind { kind_at tokens.now at ≡ token.String }
    ensures { IfOk result (λ text. text ≡ string_value (bytes_at tokens.now at)) }
{
    tokens.are_of_their_text();
    let value = decoded(alloc, between(token_bytes(tokens, at)))?;
    text_of(alloc, value.as_slice())
}

/// The bytes between the quotes of a BYTES, with each escape as the byte that it stands for.
pub fn bytes_value(alloc: Global, tokens: &Tokens, at: usize) -> Result<ByteList, NoMemory>
    requires { at < length tokens.now.list }
    ensures { IfOk result (λ bytes. bytes ≡ bytes_value (bytes_at tokens.now at)) }
{
    decoded(alloc, between(&token_bytes(tokens, at)[1..]))
}

/// The text of a regular expression between its slashes, as it is written.
pub fn regex_text(alloc: Global, tokens: &Tokens, at: usize) -> Result<Text, NoMemory>
    requires inside { at < length tokens.now.list }
    requires kind { kind_at tokens.now at ≡ token.Regex }
    ensures { IfOk result (λ text. text ≡ regex_text (bytes_at tokens.now at)) }
{
    tokens.are_of_their_text();
    text_of(alloc, between(token_bytes(tokens, at)))
}

/// The number that a token of digits is, decimal or `0x` and hexadecimal.
pub fn number_value(tokens: &Tokens, at: usize) -> u64
    requires inside { at < length tokens.now.list }
    requires kind { kind_at tokens.now at ≡ token.Number }
    ensures { result ≡ number_value (bytes_at tokens.now at) }
{
    tokens.are_of_their_text();
    number_of(token_bytes(tokens, at)).unwrap()
}
