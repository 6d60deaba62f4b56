// Texts from bytes of a charset, and bytes from texts.
ghost use Rattle.std.specs.Prelude.{◌≡◌, ◌<◌, ◌≤◌, ◌++◌, ◌==◌, List, ℕ, length, take, drop, IfOk, OnOk, IsTrue, IsUtf8, nat_lt, string_bytes};
ghost use Rattle.std.specs.List.{prefix_len};
ghost use Rattle.sp_methods.specs.Answers.{Tells};
ghost use Rattle.sp_methods.specs.Decoding.{character_in, characters, are_whole, fill_of, is_charset, is_strategy, decode};
ghost use Rattle.sp_lib.specs.inside.Fronts.{IsFront};

use crate::fault::made;
use sp_base::{ByteList, NoMemory, PKind, Text};
use sp_operators::ValueFault;
use std::alloc::Global;

/// The bytes before the first with which no character of UTF-8 begins.
fn utf8_front(x: &[u8]) -> &str
    ensures { IsFront 0 x.now result.now }
{
    match std::str::from_utf8(x) {
        Ok(text) => text,
        Err(error) => match std::str::from_utf8(&x[..error.valid_up_to()]) {
            Ok(text) => text,
            Err(_) => unreachable!(),
        },
    }
}

/// How many bytes stand before the first that isn't ASCII.
fn ascii_len(x: &[u8]) -> usize
    ensures value { result ≡ prefix_len (λ byte. nat_lt byte 128) x.now }
    ensures within { result ≤ length x.now }
{
    x.iter().take_while(|byte| **byte < 128).count()
}

/// The bytes before the first that isn't ASCII.
fn ascii_front(x: &[u8]) -> &str
    ensures { IsFront 1 x.now result.now }
{
    match std::str::from_utf8(&x[..ascii_len(x)]) {
        Ok(text) => text,
        Err(_) => unreachable!(),
    }
}

/// The bytes before the first with which no character of the charset begins.
fn front(charset: u64, x: &[u8]) -> &str
    requires { IsTrue (is_charset charset) }
    ensures { IsFront charset x.now result.now }
{
    if charset == 0 {
        utf8_front(x)
    } else {
        ascii_front(x)
    }
}

/// Appends to a text, and does not touch it where there is nothing to append: with stray bytes in a row that is most calls.
fn append(text: &mut String, more: &str) -> Result<(), NoMemory>
    ensures { OnOk result (string_bytes text.new ≡ string_bytes text.old ++ more.now) }
{
    if !more.is_empty() {
        text.push_str(more)?;
    }
    Ok(())
}

/// Appends the whole characters at the front, and the fill where a byte stands behind them. What is left stands behind that byte.
fn append_front<'a>(
    text: &mut String,
    charset: u64,
    fill: &str,
    x: &'a [u8],
) -> Result<&'a [u8], NoMemory>
    requires charset { IsTrue (is_charset charset) }
    requires some { 0 < length x.now }
    ensures read { IfOk result (λ rest.
        string_bytes text.new ++ characters (character_in charset) fill.now 0 rest.now
        ≡ string_bytes text.old ++ characters (character_in charset) fill.now 0 x.now) }
    ensures less { IfOk result (λ rest. length rest.now < length x.now) }
{
    let whole = front(charset, x);
    append(text, whole)?;
    let rest = &x[whole.len()..];
    if rest.is_empty() {
        return Ok(rest);
    }
    append(text, fill)?;
    Ok(&rest[1..])
}

/// The whole characters from the left, and the fill in place of each byte with which none begins.
fn filled(alloc: Global, charset: u64, fill: &str, x: &[u8]) -> Result<String, NoMemory>
    requires { IsTrue (is_charset charset) }
    ensures { IfOk result (λ text.
        string_bytes text ≡ characters (character_in charset) fill.now 0 x.now) }
{
    let mut text = String::new(alloc);
    let mut rest = x;
    while !rest.is_empty() {
        rest = append_front(&mut text, charset, fill, rest)?;
    }
    Ok(text)
}

/// What stands in place of a byte with which no character begins.
fn fill_of(strategy: u64) -> &'static str
    ensures { result.now ≡ fill_of strategy }
{
    if strategy == 1 { "\u{FFFD}" } else { "" }
}

/// The text with a fill.
fn filled_text(alloc: Global, charset: u64, fill: &str, x: &[u8]) -> Result<Text, NoMemory>
    requires { IsTrue (is_charset charset) }
    ensures { IfOk result (λ text. text ≡ characters (character_in charset) fill.now 0 x.now) }
{
    Text::from_string(filled(alloc, charset, fill, x)?)
}

/// The text that bytes are in UTF-8 (charset 0) or ASCII (1). From the left whole characters are taken, and a byte with which none
/// begins is dropped (strategy 0), is U+FFFD (1) or is an error (2). Errors: `BadConversion` for such a byte, another charset or
/// another strategy.
pub fn decode(alloc: Global, x: &[u8], charset: u64, strategy: u64) -> Result<Text, ValueFault>
    ensures { Tells (λ text. text) (decode x.now charset strategy) result }
{
    if 2 <= charset || 3 <= strategy {
        return Err(ValueFault::Run(PKind::BadConversion));
    }
    let whole = front(charset, x);
    if whole.len() == x.len() {
        made(Text::new(alloc, whole))
    } else if strategy == 2 {
        Err(ValueFault::Run(PKind::BadConversion))
    } else {
        made(filled_text(alloc, charset, fill_of(strategy), x))
    }
}

/// The UTF-8 bytes of a text.
pub fn encode(alloc: Global, s: &str) -> Result<ByteList, NoMemory>
    ensures { IfOk result (λ list. list ≡ s.now) }
{
    ByteList::from_slice(alloc, s.as_bytes())
}
