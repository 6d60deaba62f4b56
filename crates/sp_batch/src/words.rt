// The words of a line, from the left.
ghost use Rattle.std.specs.Prelude.{◌≡◌, ◌&&◌, nat_le, None, Some, MatchOption, decimal};
ghost use Rattle.std.specs.List.{list_all};
ghost use Rattle.std.specs.Str.{bytes_eq};
ghost use Rattle.sp_batch.specs.Grammar.{is_visible, is_name, front, Most};
ghost use Rattle.sp_batch.specs.Reading.{past, behind, line_end, name, first_name, first_kind, number};

use itoa::Buffer;
use memchr::memchr;
use std::str::from_utf8;

/// The bytes before the first `c`, or all, and those behind it where there is one.
pub(crate) fn cut(c: u8, s: &[u8]) -> (&[u8], Option<&[u8]>)
    ensures front { result.0.now ≡ front c s.now }
    ensures past { MatchOption result.1 (past c s.now ≡ None)
        (λ rest. past c s.now ≡ Some rest.now) }
{
    match memchr(c, s) {
        Some(at) => (&s[..at], Some(&s[at + 1..])),
        None => (s, None),
    }
}

/// The bytes behind a front.
pub(crate) fn behind<'a>(front: &[u8], s: &'a [u8]) -> Option<&'a [u8]>
    ensures { MatchOption result (behind front.now s.now ≡ None)
        (λ rest. behind front.now s.now ≡ Some rest.now) }
{
    s.strip_prefix(front)
}

/// What follows an LF, or nothing at the end of the text.
pub(crate) fn line_end(tail: &[u8]) -> Option<&[u8]>
    ensures { MatchOption result (line_end tail.now ≡ None)
        (λ rest. line_end tail.now ≡ Some rest.now) }
{
    match tail {
        [] => Some(tail),
        [b'\n', rest @ ..] => Some(rest),
        _ => None,
    }
}

/// Whether all bytes are printable ASCII characters and none a space.
fn are_visible(word: &[u8]) -> bool
    ensures { result ≡ list_all is_visible word.now }
{
    word.iter().all(|c| 32 < *c && *c < 127)
}

/// Whether the bytes are 1 to 255 printable ASCII characters without space.
fn is_name(word: &[u8]) -> bool
    ensures { result ≡ is_name word.now }
{
    !word.is_empty() && word.len() <= 255 && are_visible(word)
}

/// The bytes as one name.
pub(crate) fn name(word: &[u8]) -> Option<&str>
    ensures { MatchOption result (name word.now ≡ None)
        (λ text. name word.now ≡ Some text.now) }
{
    if is_name(word) {
        match from_utf8(word) {
            Ok(text) => Some(text),
            Err(_) => None,
        }
    } else {
        None
    }
}

/// A name, and what stands behind its space.
pub(crate) fn first_name(s: &[u8]) -> Option<(&str, &[u8])>
    ensures { MatchOption result (first_name s.now ≡ None)
        (λ two. first_name s.now ≡ Some (two.0.now, two.1.now)) }
{
    let (word, rest) = cut(b' ', s);
    Some((name(word)?, rest?))
}

/// Whether a flow is one of blocks, and what stands behind the space.
pub(crate) fn first_kind(s: &[u8]) -> Option<(bool, &[u8])>
    ensures { MatchOption result (first_kind s.now ≡ None)
        (λ two. first_kind s.now ≡ Some (two.0, two.1.now)) }
{
    if let Some(rest) = behind(b"block ", s) {
        Some((true, rest))
    } else if let Some(rest) = behind(b"stream ", s) {
        Some((false, rest))
    } else {
        None
    }
}

/// Whether the text is how the number is written, and the number at most 2^62.
fn is_written(number: u64, text: &str) -> bool
    ensures { result ≡ (bytes_eq text.now (decimal number) && nat_le number Most) }
{
    let mut buffer = Buffer::new();
    buffer.format(number) == text && number <= 1 << 62
}

/// A number up to 2^62 in decimal digits, without a sign or a leading zero.
pub(crate) fn number(word: &[u8]) -> Option<u64>
    ensures { result ≡ number word.now }
{
    let Ok(text) = from_utf8(word) else {
        return None;
    };
    let Ok(number) = text.parse::<u64>() else {
        return None;
    };
    if is_written(number, text) {
        Some(number)
    } else {
        None
    }
}
