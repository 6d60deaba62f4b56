// Literals with what they are worth.
use sp_base::ByteList;
use sp_lex::{Absent, ReadFault, TokenKind, Tokens, lex};
use sp_literals::{bytes_value, name_text, number_value, regex_text, string_value};
use std::alloc::Global;
use std::test::Fail;

// The bytes that the first token of the text stands for.
const CASES: [(&[u8], &[u8]); 14] = [
    (b"\"\"", b""),
    (b"\"ab c\"", b"ab c"),
    (b"\"\\n\\r\\t\\\\\\\"\"", b"\n\r\t\\\""),
    (b"\"\\x00\\x7f\\x4aa\"", b"\x00\x7fJa"),
    (b"\"\\x7Fx\\\\x41\"", b"\x7fx\\x41"),
    (
        b"\"\xc3\xa9\\n\xf0\x9f\x8e\x89\"",
        b"\xc3\xa9\n\xf0\x9f\x8e\x89",
    ),
    (b"b\"\"", b""),
    (b"b\"\\xFf\\x80n\\n\\\"\"", b"\xff\x80n\n\""),
    (b"/a\\/b[\\x41]\\n/", b"a\\/b[\\x41]\\n"),
    (b"/\xc3\xa9*/", b"\xc3\xa9*"),
    (b" # a comment\n x_9 y", b"x_9"),
    (b"b", b"b"),
    (b"skip: x", b"skip"),
    (b"unit", b""),
];

// The number that the first token of the text is.
const NUMBERS: [(&[u8], u64); 8] = [
    (b"0", 0),
    (b"007", 7),
    (b"255", 255),
    (b"18446744073709551615", 18_446_744_073_709_551_615),
    (b"0xffffffffffffffff", 18_446_744_073_709_551_615),
    (b"0x0000000000000000000fF", 255),
    (b"0xAbC", 2748),
    (b"0x", 0),
];

/// What the first of these tokens stands for.
fn first_worth(alloc: Global, tokens: &Tokens) -> Result<ByteList, ReadFault> {
    if tokens.is_empty() {
        return Ok(ByteList::new(alloc));
    }
    let text = match tokens.as_slice()[0].kind {
        TokenKind::Id | TokenKind::Absent(Absent::Skip) => name_text(alloc, tokens, 0)?,
        TokenKind::String => string_value(alloc, tokens, 0)?,
        TokenKind::Regex => regex_text(alloc, tokens, 0)?,
        TokenKind::Bytes => return Ok(bytes_value(alloc, tokens, 0)?),
        _ => return Ok(ByteList::new(alloc)),
    };
    let bytes = ByteList::from_slice(alloc, text.as_str().as_bytes());
    drop(text);
    Ok(bytes?)
}

fn worth(alloc: Global, source: &[u8]) -> Result<ByteList, ReadFault> {
    let tokens = lex(alloc, source)?;
    let bytes = first_worth(alloc, &tokens);
    drop(tokens);
    bytes
}

/// The number that the first of these tokens is.
fn first_number(tokens: &Tokens) -> Option<u64> {
    if tokens.is_empty() {
        return None;
    }
    match tokens.as_slice()[0].kind {
        TokenKind::Number => Some(number_value(tokens, 0)),
        _ => None,
    }
}

fn number(alloc: Global, source: &[u8]) -> Result<Option<u64>, ReadFault> {
    let tokens = lex(alloc, source)?;
    let number = first_number(&tokens);
    drop(tokens);
    Ok(number)
}

/// Whether the first token of the text stands for these bytes.
fn is_worth(alloc: Global, source: &[u8], want: &[u8]) -> Result<bool, ReadFault> {
    let got = worth(alloc, source)?;
    let is_right = got.as_slice() == want;
    drop(got);
    Ok(is_right)
}

#[test]
fn literals_have_their_values(rt: HostRuntime) -> Result<(), Fail> {
    for (text, want) in &CASES {
        let is_right = is_worth(rt.alloc(), text, want)?;
        assert!(rt; is_right, "{text:?}");
    }
    Ok(())
}

#[test]
fn numbers_have_their_values(rt: HostRuntime) -> Result<(), Fail> {
    for (text, want) in &NUMBERS {
        let got = number(rt.alloc(), text)?;
        assert_eq!(rt; got, Some(*want));
    }
    Ok(())
}
