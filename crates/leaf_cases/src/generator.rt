// The made input: `p`, the number of records, the place and the most bytes of a piece, or `l` and the two numbers of a last line,
// with spaces between them. The answer is the piece or the line in hexadecimal, or `-` for no byte.
use crate::texts::put;
use sp_base::ByteList;
use sp_generator::{gen_line, gen_piece};
use std::alloc::{AllocError, Global};

/// The numbers of a question, 0 where there is none.
fn numbers(words: &str) -> [u64; 3] {
    let mut numbers = [0; 3];
    let mut at = 0;
    for word in words.split(' ') {
        if at < 3 {
            numbers[at] = word.parse::<u64>().unwrap_or(0);
            at += 1;
        }
    }
    numbers
}

/// What is made, if there is such a call.
fn made(alloc: Global, name: &str, words: &str) -> Result<Option<ByteList>, AllocError> {
    let numbers = numbers(words);
    let made = match name {
        "p" if numbers[0] <= 1 << 32 => gen_piece(alloc, numbers[0], numbers[1], numbers[2]),
        "l" => gen_line(alloc, numbers[0], numbers[1]),
        _ => return Ok(None),
    };
    match made {
        Ok(bytes) => Ok(Some(bytes)),
        Err(_) => Err(AllocError),
    }
}

pub fn answer(alloc: Global, question: &str, got: &mut String) -> Result<(), AllocError> {
    let Some((name, words)) = question.split_once(" ") else {
        return Ok(());
    };
    let Some(bytes) = made(alloc, name, words)? else {
        return Ok(());
    };
    let said = if bytes.is_empty() {
        got.push_str("-")
    } else {
        put(got, hex::encode(alloc, bytes.as_slice()))
    };
    drop(bytes);
    said
}
