// The bytes that the characters of a literal stand for.
ghost use Rattle.std.specs.Prelude.{◌≡◌, ◌≤◌, ◌<◌, length, IfOk};
ghost use Rattle.sp_literals.specs.Values.{hex_digit, escaped, char_value, char_size, decoded};

use sp_base::{ByteList, NoMemory};
use sp_lex::byte_at;
use std::alloc::Global;

fn hex_digit(byte: u8) -> u8
    ensures value { result ≡ hex_digit byte }
    ensures small { result < 16 }
{
    match byte {
        b'0'..=b'9' => byte - b'0',
        b'A'..=b'F' => byte - b'A' + 10,
        b'a'..=b'f' => byte - b'a' + 10,
        _ => 0,
    }
}

/// The byte that an escape stands for, by what is behind its `\`.
fn escaped(text: &[u8]) -> u8
    ensures { result ≡ escaped text.now }
{
    match byte_at(text, 0) {
        b'n' => b'\n',
        b'r' => b'\r',
        b't' => b'\t',
        b'x' => 16 * hex_digit(byte_at(text, 1)) + hex_digit(byte_at(text, 2)),
        other => other,
    }
}

/// The byte that the first character stands for.
#[tactic(auto, unfolding(crate::specs::Values::char_value))]
fn char_value(text: &[u8]) -> u8
    requires { 0 < length text.now }
    ensures { result ≡ char_value text.now }
{
    if text[0] == b'\\' {
        escaped(&text[1..])
    } else {
        text[0]
    }
}

/// The number of bytes that the first character takes.
#[tactic(auto, unfolding(crate::specs::Values::char_size))]
fn char_size(text: &[u8]) -> usize
    requires { 0 < length text.now }
    ensures value { result ≡ char_size text.now }
    ensures positive { 0 < result }
    ensures small { result ≤ 4 }
{
    if text[0] != b'\\' {
        1
    } else if byte_at(text, 1) == b'x' {
        4
    } else {
        2
    }
}

/// The bytes that the characters of the text stand for.
pub(crate) fn decoded(alloc: Global, text: &[u8]) -> Result<ByteList, NoMemory>
    ensures { IfOk result (λ bytes. bytes ≡ decoded text.now) }
{
    let mut bytes = ByteList::new(alloc);
    let mut at = 0;
    while at < text.len() {
        let rest = &text[at..];
        bytes.push(char_value(rest))?;
        at += char_size(rest);
    }
    Ok(bytes)
}
