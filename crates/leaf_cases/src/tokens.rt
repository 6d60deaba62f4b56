// Texts of modules in the form of `texts`: `ok` and the number of tokens, or the refusal's number and place.
use crate::texts::{bytes_of, put};
use sp_base::place_of;
use sp_lex::{ReadFault, lex};
use std::alloc::{AllocError, Global};

fn told(alloc: Global, text: &[u8], got: &mut String) -> Result<(), AllocError> {
    match lex(alloc, text) {
        Ok(tokens) => {
            let count = tokens.len();
            drop(tokens);
            put(got, format!(in alloc; "ok {count}"))
        }
        Err(ReadFault::Diag(span, kind)) => {
            let place = place_of(text, span.from);
            let number = kind.number();
            let line = place.line;
            let col = place.col;
            put(got, format!(in alloc; "M{number} {line}:{col}"))
        }
        Err(ReadFault::NoMemory) => Err(AllocError),
    }
}

pub fn answer(alloc: Global, question: &str, got: &mut String) -> Result<(), AllocError> {
    let text = bytes_of(alloc, question)?;
    let said = told(alloc, text.as_slice(), got);
    drop(text);
    said
}
