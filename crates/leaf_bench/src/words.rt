//! The tokens of a module, which are counted.
use crate::token_sets::put;
use sp_base::place_of;
use sp_lex::{ReadFault, lex};
use std::alloc::{AllocError, Global};

pub fn work(alloc: Global, input: &[u8], said: &mut String) -> Result<(), AllocError> {
    match lex(alloc, input) {
        Ok(tokens) => {
            let count = tokens.len();
            drop(tokens);
            put(said, format!(in alloc; "{count} tokens\n"))
        }
        Err(ReadFault::Diag(span, kind)) => {
            let place = place_of(input, span.from);
            let line = place.line;
            let col = place.col;
            let number = kind.number();
            let name = kind.name();
            put(said, format!(in alloc; "{line}:{col}: M{number} {name}\n"))
        }
        Err(ReadFault::NoMemory) => said.push_str("out of memory\n"),
    }
}
