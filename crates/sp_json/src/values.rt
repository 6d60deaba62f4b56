// Bytes as text in JSON.
ghost use Rattle.std.specs.Prelude.{◌≡◌, IfOk, string_bytes, encode_utf8_all};

use std::alloc::{AllocError, Global};

/// The text with one character from U+0000 to U+00FF for each byte.
pub(crate) fn bytes_text(alloc: Global, bytes: &[u8]) -> Result<String, AllocError>
    ensures { IfOk result (λ text. string_bytes text ≡ encode_utf8_all bytes.now) }
{
    let mut text = String::new(alloc);
    for byte in bytes {
        text.push(char::from(*byte))?;
    }
    Ok(text)
}
