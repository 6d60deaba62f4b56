// What is read of the tokens of a text: `type`, `expr`, `stmt` or `module`, with the number of tokens before it behind an `@`,
// if there are any, a space, `|`, a space and the text in the form of `texts`. The answer is `text` or the refusal's number, and
// the place behind the text or of the refusal. Of `actions` and such a word it is `actions` and the actions of the derivation,
// those of names, paths and rows left out; operations between operands and before one are told by their operators.
use crate::texts::{bytes_of, put};
use sp_base::{Place, or_drop, place_of};
use sp_grammar::{Start, action_name};
use sp_lex::{ReadFault, Token, Tokens, lex};
use sp_parser::ActionAt;
use sp_phrases::read_from;
use std::alloc::{AllocError, Global};

/// What a text can be, by its word.
fn start_of(word: &str) -> Start {
    match word {
        "module" => Start::Module,
        "type" => Start::Type,
        "stmt" => Start::Stmt,
        _ => Start::Expr,
    }
}

/// Where the token stands, or the end.
fn byte_at(source: &[u8], tokens: &[Token], at: u32) -> u32 {
    match tokens.get(at as usize) {
        Some(token) => token.span.from,
        None => u32::try_from(source.len()).unwrap_or(0),
    }
}

/// What is read of the tokens of the text from one on: the place behind it.
fn read_tokens(
    alloc: Global,
    source: &[u8],
    tokens: &Tokens,
    start: Start,
    at: u32,
) -> Result<u32, ReadFault> {
    if at as usize > tokens.len() {
        return Ok(0);
    }
    let mut actions: Vec<ActionAt> = Vec::new(alloc);
    let to = read_from(alloc, tokens, start, at, &mut actions);
    drop(actions);
    Ok(byte_at(source, tokens.as_slice(), to?))
}

/// What is read of the text from a token on: the place behind it.
fn read(alloc: Global, source: &[u8], start: Start, at: u32) -> Result<u32, ReadFault> {
    let tokens = lex(alloc, source)?;
    let to = read_tokens(alloc, source, &tokens, start, at);
    drop(tokens);
    to
}

/// The actions of the text's derivation.
fn passed(alloc: Global, source: &[u8], start: Start) -> Result<Vec<ActionAt>, ReadFault> {
    let tokens = lex(alloc, source)?;
    let mut actions: Vec<ActionAt> = Vec::new(alloc);
    let read = read_from(alloc, &tokens, start, 0, &mut actions);
    drop(tokens);
    or_drop!(read; actions);
    Ok(actions)
}

/// Tells actions by their names.
fn put_names(actions: &[ActionAt], got: &mut String) -> Result<(), AllocError> {
    for passed in actions {
        match action_name(passed.action) {
            "Begin" | "Name" | "Path" | "Row" | "Absent" => {}
            name => {
                got.push_str(" ")?;
                got.push_str(name)?;
            }
        }
    }
    Ok(())
}

/// The actions of the text's derivation by their names.
fn actions(alloc: Global, source: &[u8], start: Start, got: &mut String) -> Result<(), AllocError> {
    got.push_str("actions")?;
    match passed(alloc, source, start) {
        Ok(actions) => {
            let said = put_names(actions.as_slice(), got);
            drop(actions);
            said
        }
        Err(ReadFault::Diag(..)) => Ok(()),
        Err(ReadFault::NoMemory) => Err(AllocError),
    }
}

/// The line and column of a byte, or 0:0 where there is none.
fn place(source: &[u8], at: u32) -> Place {
    if at as usize > source.len() || at == u32::MAX {
        return Place { line: 0, col: 0 };
    }
    place_of(source, at)
}

/// What is read, and the place.
fn text(
    alloc: Global,
    source: &[u8],
    start: Start,
    at: u32,
    got: &mut String,
) -> Result<(), AllocError> {
    match read(alloc, source, start, at) {
        Ok(to) => {
            let place = place(source, to);
            let line = place.line;
            let col = place.col;
            put(got, format!(in alloc; "text {line}:{col}"))
        }
        Err(ReadFault::Diag(span, kind)) => {
            let place = place(source, span.from);
            let number = kind.number();
            let line = place.line;
            let col = place.col;
            put(got, format!(in alloc; "M{number} {line}:{col}"))
        }
        Err(ReadFault::NoMemory) => Err(AllocError),
    }
}

/// The answer to a question about the text.
fn asked(alloc: Global, what: &str, source: &[u8], got: &mut String) -> Result<(), AllocError> {
    if let Some((_, word)) = what.split_once(" ") {
        return actions(alloc, source, start_of(word), got);
    }
    match what.split_once("@") {
        Some((word, at)) => {
            let at = at.parse::<u32>().unwrap_or(u32::MAX);
            text(alloc, source, start_of(word), at, got)
        }
        None => text(alloc, source, start_of(what), 0, got),
    }
}

pub fn answer(alloc: Global, question: &str, got: &mut String) -> Result<(), AllocError> {
    let Some((what, text)) = question.split_once(" | ") else {
        return Ok(());
    };
    let source = bytes_of(alloc, text)?;
    let said = asked(alloc, what, source.as_slice(), got);
    drop(source);
    said
}
