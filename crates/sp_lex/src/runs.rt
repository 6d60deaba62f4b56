// How many bytes of a class stand where a text begins.
ghost use Rattle.std.specs.Prelude.{◌≡◌, ◌≤◌, length};
ghost use Rattle.std.specs.List.{prefix_len};
ghost use Rattle.std.specs.Char.{is_ascii_digit, is_ascii_hexdigit};
ghost use Rattle.sp_lex.specs.Bytes.{is_in_line, is_word};

use crate::signs::is_word;

/// The letters, digits and `_` of a word.
pub(crate) fn word_len(text: &[u8]) -> usize
    ensures value { result ≡ prefix_len is_word text.now }
    ensures within { result ≤ length text.now }
{
    text.iter().take_while(|byte| is_word(**byte)).count()
}

/// The decimal digits.
pub(crate) fn digits_len(text: &[u8]) -> usize
    ensures value { result ≡ prefix_len is_ascii_digit text.now }
    ensures within { result ≤ length text.now }
{
    text.iter().take_while(|byte| byte.is_ascii_digit()).count()
}

/// The hexadecimal digits.
pub(crate) fn hex_digits_len(text: &[u8]) -> usize
    ensures value { result ≡ prefix_len is_ascii_hexdigit text.now }
    ensures within { result ≤ length text.now }
{
    text.iter()
        .take_while(|byte| byte.is_ascii_hexdigit())
        .count()
}

/// The bytes before the line's end.
pub(crate) fn line_len(text: &[u8]) -> usize
    ensures value { result ≡ prefix_len is_in_line text.now }
    ensures within { result ≤ length text.now }
{
    text.iter().take_while(|byte| **byte != b'\n').count()
}
