// How far texts, bytes, regular expressions and numbers reach, and what a number is worth.
ghost use Rattle.std.specs.Prelude.{◌≡◌, ◌≤◌, ◌<◌, ◌≢◌, ◌^◌, length, slice_index, IfSome, min};
ghost use Rattle.std.specs.List.{prefix_len};
ghost use Rattle.std.specs.Char.{is_ascii_digit, is_ascii_hexdigit};
ghost use Rattle.sp_lex.specs.Bytes.{is_in_line};
ghost use Rattle.sp_lex.specs.Literals.{closing, opening, is_short_escape, is_hex_escape, is_plain, escape_len, char_len, literal_end, literal_len, is_hex, number_len, digits_value, number_value};

/// The literals between delimiters.
#[derive(Clone, Copy, PartialEq, Eq)]
pub(crate) enum Form {
    String,
    Bytes,
    Regex,
}

impl Form {
    /// The byte that ends the literal.
    fn closing(self) -> u8
        ensures { result ≡ closing self }
    {
        match self {
            Form::String | Form::Bytes => b'"',
            Form::Regex => b'/',
        }
    }

    /// The number of bytes before the first character.
    fn opening(self) -> usize
        ensures { result ≡ opening self }
    {
        match self {
            Form::String | Form::Regex => 1,
            Form::Bytes => 2,
        }
    }
}

/// The byte at a place; behind the end 0, which no opening, escape or number has.
pub fn byte_at(text: &[u8], at: usize) -> u8
    ensures value { result ≡ slice_index text.now at }
    ensures there { result ≢ 0 → at < length text.now }
{
    match text.get(at) {
        Some(byte) => *byte,
        None => 0,
    }
}

fn is_in_line(byte: u8) -> bool
    ensures { result ≡ is_in_line byte }
{
    byte != b'\n'
}

fn is_short_escape(byte: u8) -> bool
    ensures { result ≡ is_short_escape byte }
{
    byte == b'n' || byte == b'r' || byte == b't' || byte == b'\\' || byte == b'"'
}

fn is_hex_escape(form: Form, high: u8, low: u8) -> bool
    ensures { result ≡ is_hex_escape form high low }
{
    match form {
        Form::String => high < b'8' && high.is_ascii_digit() && low.is_ascii_hexdigit(),
        Form::Bytes | Form::Regex => high.is_ascii_hexdigit() && low.is_ascii_hexdigit(),
    }
}

fn is_plain(form: Form, byte: u8) -> bool
    ensures { result ≡ is_plain form byte }
{
    match form {
        Form::Bytes => byte < 128 && is_in_line(byte),
        Form::String | Form::Regex => is_in_line(byte),
    }
}

/// The length of the escape behind a `\`.
fn escape_len(form: Form, text: &[u8]) -> Option<usize>
    ensures value { result ≡ escape_len form text.now }
    ensures within { IfSome result (λ n. n ≤ length text.now) }
{
    let first = byte_at(text, 0);
    if let Form::Regex = form {
        return if !text.is_empty() && is_in_line(first) {
            Some(1)
        } else {
            None
        };
    }
    if is_short_escape(first) {
        Some(1)
    } else if first == b'x' && is_hex_escape(form, byte_at(text, 1), byte_at(text, 2)) {
        Some(3)
    } else {
        None
    }
}

/// The length of one character of the literal.
#[tactic(auto, unfolding(crate::specs::Literals::char_len))]
fn char_len(form: Form, text: &[u8]) -> Option<usize>
    requires { 0 < length text.now }
    ensures value { result ≡ char_len form text.now }
    ensures within { IfSome result (λ n. (0 < n) × (n ≤ length text.now)) }
{
    if text[0] == b'\\' {
        let n = escape_len(form, &text[1..])?;
        Some(n + 1)
    } else if is_plain(form, text[0]) {
        Some(1)
    } else {
        None
    }
}

/// The length of the literal at whose opening bytes the text begins, or None where it has a bad escape or is
/// not ended in its line.
#[tactic(auto, unfolding(crate::specs::Literals::literal_len))]
pub(crate) fn literal_len(form: Form, text: &[u8]) -> Option<usize>
    requires { opening form ≤ length text.now }
    ensures value { result ≡ literal_len form text.now }
    ensures within { IfSome result (λ n. (opening form < n) × (n ≤ length text.now)) }
{
    let mut at = form.opening();
    while at < text.len() {
        if text[at] == form.closing() {
            return Some(at + 1);
        }
        at += char_len(form, &text[at..])?;
    }
    None
}
