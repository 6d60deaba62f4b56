// Texts as cases write them, and answers that grow.
//
// In a case `\n`, `\r`, `\t`, `\\` and `\xHH` stand for bytes, and `\*K,N;` says that the last K bytes stand N times.
use std::alloc::{AllocError, Global};

/// Puts a text behind what is there.
pub fn put(got: &mut String, text: Result<String, AllocError>) -> Result<(), AllocError> {
    let text = text?;
    let put = got.push_str(text.as_str());
    drop(text);
    put
}

/// The number at the front, as far as it goes, and what is behind it.
fn number(text: &[u8]) -> (u32, &[u8]) {
    let mut value: u32 = 0;
    for (i, byte) in text.iter().enumerate() {
        if !byte.is_ascii_digit() {
            return (value, &text[i..]);
        }
        value = value
            .saturating_mul(10)
            .saturating_add((*byte - b'0') as u32);
    }
    (value, &[])
}

fn digit(byte: u8) -> u8 {
    match byte {
        b'0'..=b'9' => byte - b'0',
        b'a'..=b'f' => byte - b'a' + 10,
        _ => 0,
    }
}

/// Lets the last bytes stand so many times.
fn repeat(alloc: Global, bytes: &mut Vec<u8>, last: u32, times: u32) -> Result<(), AllocError> {
    let from = bytes.len().saturating_sub(last as usize);
    let part = Vec::from_slice(alloc, &bytes[from..])?;
    for _ in 1..times {
        bytes.extend_from_slice(part.as_slice())?;
    }
    Ok(())
}

/// Takes what stands behind a `\`, and answers what is behind that.
fn escape<'a>(alloc: Global, bytes: &mut Vec<u8>, text: &'a [u8]) -> Result<&'a [u8], AllocError> {
    match text {
        [b'x', high, low, rest @ ..] => {
            bytes.push(digit(*high).wrapping_mul(16).wrapping_add(digit(*low)))?;
            Ok(rest)
        }
        [b'*', rest @ ..] => {
            let (last, rest) = number(rest);
            let (times, rest) = number(rest.get(1..).unwrap_or(&[]));
            repeat(alloc, bytes, last, times)?;
            Ok(rest.get(1..).unwrap_or(&[]))
        }
        [first, rest @ ..] => {
            bytes.push(match first {
                b'n' => b'\n',
                b'r' => b'\r',
                b't' => b'\t',
                other => *other,
            })?;
            Ok(rest)
        }
        [] => Ok(text),
    }
}

/// Puts the bytes that the text of a case stands for into a list.
fn put_bytes(alloc: Global, text: &[u8], bytes: &mut Vec<u8>) -> Result<(), AllocError> {
    let mut rest = text;
    for _ in 0..text.len() {
        match rest {
            [b'\\', behind @ ..] => rest = escape(alloc, bytes, behind)?,
            [first, behind @ ..] => {
                bytes.push(*first)?;
                rest = behind;
            }
            [] => break,
        }
    }
    Ok(())
}

/// The bytes that the text of a case stands for.
pub fn bytes_of(alloc: Global, text: &str) -> Result<Vec<u8>, AllocError> {
    let mut bytes = Vec::new(alloc);
    put_bytes(alloc, text.as_bytes(), &mut bytes)?;
    Ok(bytes)
}
