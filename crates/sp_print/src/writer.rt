// The text that is written so far.
ghost use Rattle.std.specs.Prelude.{◌≡◌, ◌<◌, ◌++◌, [], ◌∷◌, None, OnOk, map, flat_map, chars, string_bytes};
ghost use Rattle.sp_print.specs.Words.{fixed, name, text, bytes, regex, number, shown_byte, shown_char, escape, hex_digit};
ghost use Rattle.sp_print.specs.Page.{page, put, puts, gap, is_scope};

use itoa::Buffer;
use sp_base::NoMemory;
use sp_lex::TokenKind;
use sp_words::Punctuation;
use std::alloc::Global;
use std::marker::Model;

/// A text of words, seen as the page that it is.
#[derive(Drop)]
pub(crate) struct Writer {
    text: String,
    last: Option<TokenKind>,
}

impl Model for Writer {
    ghost use Rattle.std.specs.Prelude.{string_bytes};
    ghost use Rattle.sp_print.specs.Page.{Page, page};

    ghost Value = { Page };

    ghost view = { λ w. page (string_bytes w.text) w.last };
}

impl Writer {
    /// An empty text. Takes no memory.
    pub(crate) fn new(alloc: Global) -> Writer
        ensures { result ≡ page [] None }
    {
        Writer {
            text: String::new(alloc),
            last: None,
        }
    }

    /// The kind of the last word on the line.
    pub(crate) fn last(&self) -> Option<TokenKind>
        ensures { result ≡ self.now.last }
    {
        self.last
    }

    /// Makes a space before a word of this kind where there has to be one.
    fn begin(&mut self, kind: TokenKind) -> Result<(), NoMemory>
        ensures { OnOk result (self.new ≡ page (self.old.text ++ gap self.old.last kind)
            (Some kind)) }
    {
        if let Some(before) = self.last
            && !is_scope(before)
            && !is_scope(kind)
        {
            self.text.push_str(" ")?;
        }
        self.last = Some(kind);
        Ok(())
    }

    /// A token with one text.
    pub(crate) fn put_kind(&mut self, kind: TokenKind) -> Result<(), NoMemory>
        ensures { OnOk result (self.new ≡ put (fixed kind) self.old) }
    {
        self.begin(kind)?;
        self.text.push_str(kind.text())?;
        Ok(())
    }

    /// Tokens with one text each.
    pub(crate) fn put_kinds(&mut self, kinds: &[TokenKind]) -> Result<(), NoMemory>
        ensures { OnOk result (self.new ≡ puts (map fixed kinds.now) self.old) }
    {
        for kind in kinds {
            self.put_kind(*kind)?;
        }
        Ok(())
    }

    pub(crate) fn put_name(&mut self, x: &str) -> Result<(), NoMemory>
        ensures { OnOk result (self.new ≡ put (name x.now) self.old) }
    {
        self.begin(TokenKind::Id)?;
        self.text.push_str(x)?;
        Ok(())
    }

    pub(crate) fn put_number(&mut self, n: u64) -> Result<(), NoMemory>
        ensures { OnOk result (self.new ≡ put (number n) self.old) }
    {
        self.begin(TokenKind::Number)?;
        let mut buffer = Buffer::new();
        self.text.push_str(buffer.format(n))?;
        Ok(())
    }

    /// A text in quotes.
    pub(crate) fn put_text(&mut self, x: &str) -> Result<(), NoMemory>
        ensures { OnOk result (self.new ≡ put (text x.now) self.old) }
    {
        self.begin(TokenKind::String)?;
        self.text.push_str("\"")?;
        show_text(&mut self.text, x)?;
        self.text.push_str("\"")?;
        Ok(())
    }

    /// Bytes in quotes.
    pub(crate) fn put_bytes(&mut self, x: &[u8]) -> Result<(), NoMemory>
        ensures { OnOk result (self.new ≡ put (bytes x.now) self.old) }
    {
        self.begin(TokenKind::Bytes)?;
        self.text.push_str("b\"")?;
        show_bytes(&mut self.text, x)?;
        self.text.push_str("\"")?;
        Ok(())
    }

    /// A regular expression.
    pub(crate) fn put_regex(&mut self, x: &str) -> Result<(), NoMemory>
        ensures { OnOk result (self.new ≡ put (regex x.now) self.old) }
    {
        self.begin(TokenKind::Regex)?;
        self.text.push_str("/")?;
        self.text.push_str(x)?;
        self.text.push_str("/")?;
        Ok(())
    }

    /// Ends the line.
    pub(crate) fn end_line(&mut self) -> Result<(), NoMemory>
        ensures { OnOk result (self.new ≡ page (self.old.text ++ 10 ∷ []) None) }
    {
        self.text.push_str("\n")?;
        self.last = None;
        Ok(())
    }

    /// The text.
    pub(crate) fn text(&self) -> &str
        ensures { result.now ≡ self.now.text }
    {
        self.text.as_str()
    }
}

/// Whether the token is a `::`.
fn is_scope(kind: TokenKind) -> bool
    ensures { result ≡ is_scope kind }
{
    matches!(kind, TokenKind::Punctuation(Punctuation::ColonColon))
}

/// Puts a byte as it stands in a literal.
fn show_byte(text: &mut String, byte: u8) -> Result<(), NoMemory>
    ensures { OnOk result (string_bytes text.new ≡ string_bytes text.old ++ shown_byte byte) }
{
    match byte {
        b'"' | b'\\' | 0..=31 | 127..=255 => escape(text, byte),
        _ => Ok(text.push(char::from(byte))?),
    }
}

/// A hexadecimal digit, in lower case.
fn hex_digit(n: u8) -> u8
    requires { n < 16 }
    ensures digit { result ≡ hex_digit n }
    ensures ascii { result < 128 }
{
    if n < 10 { b'0' + n } else { b'a' + (n - 10) }
}

/// Puts a byte as an escape.
fn escape(text: &mut String, byte: u8) -> Result<(), NoMemory>
    ensures { OnOk result (string_bytes text.new ≡ string_bytes text.old ++ escape byte) }
{
    match byte {
        b'"' => text.push_str("\\\"")?,
        b'\\' => text.push_str("\\\\")?,
        b'\n' => text.push_str("\\n")?,
        b'\r' => text.push_str("\\r")?,
        b'\t' => text.push_str("\\t")?,
        _ => {
            text.push_str("\\x")?;
            text.push(char::from(hex_digit(byte / 16)))?;
            text.push(char::from(hex_digit(byte % 16)))?;
        }
    }
    Ok(())
}

/// Puts a character as it stands in a literal of text.
fn show_char(text: &mut String, c: char) -> Result<(), NoMemory>
    ensures { OnOk result (string_bytes text.new ≡ string_bytes text.old ++ shown_char c) }
{
    match u8::try_from(c) {
        Ok(byte) if byte < 128 => show_byte(text, byte),
        _ => Ok(text.push(c)?),
    }
}

/// Puts bytes as they stand in a literal.
fn show_bytes(text: &mut String, x: &[u8]) -> Result<(), NoMemory>
    ensures { OnOk result (string_bytes text.new ≡ string_bytes text.old
        ++ flat_map shown_byte x.now) }
{
    for byte in x {
        show_byte(text, *byte)?;
    }
    Ok(())
}

/// Puts characters as they stand in a literal of text.
fn show_text(text: &mut String, x: &str) -> Result<(), NoMemory>
    ensures { OnOk result (string_bytes text.new ≡ string_bytes text.old ++ flat_map shown_char
        (chars x.now)) }
{
    for c in x.chars() {
        show_char(text, c)?;
    }
    Ok(())
}
