// Groups of Base64: four symbols in hexadecimal. The answer is the bytes that they stand for, in hexadecimal, with `=` behind
// them where the group is padded, or `BadBase64`.
use crate::texts::put;
use sp_lib::base64_group;
use std::alloc::{AllocError, Global};

fn told(alloc: Global, four: &[u8], got: &mut String) -> Result<(), AllocError> {
    if four.len() != 4 {
        return Ok(());
    }
    let mut last = false;
    match base64_group(four, &mut last) {
        Ok(decoded) => {
            let used = (decoded.used as usize).min(3);
            put(got, hex::encode(alloc, &decoded.bytes[..used]))?;
            if last { got.push_str("=") } else { Ok(()) }
        }
        Err(kind) => got.push_str(kind.name()),
    }
}

pub fn answer(alloc: Global, question: &str, got: &mut String) -> Result<(), AllocError> {
    let Ok(four) = hex::decode(alloc, question) else {
        return Ok(());
    };
    let said = told(alloc, four.as_slice(), got);
    drop(four);
    said
}
