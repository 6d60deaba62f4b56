//! Does one kind of work, for measurements: the first word says which, and standard input is what it works on, as the word's
//! module says. Without a word, standard input has a part for each kind: a line `== ` with its word, and behind it the input.
#![tactic(auto)]

mod batches;
mod library;
mod reassembly;
mod searches;
mod statements;
mod token_sets;
mod tokens;
mod values;
mod words;

use std::alloc::{AllocError, Global};
use std::io::Read;
use std::{env, io};

/// More bytes than an input has.
const LONGEST: u64 = 268_435_456;

/// Says what the work on an input comes to.
fn work(alloc: Global, word: &str, input: &[u8], said: &mut String) -> Result<(), AllocError> {
    match word {
        "lex" => words::work(alloc, input, said),
        "read" => statements::work(alloc, input, false, said),
        "trees" => statements::work(alloc, input, true, said),
        "values" => values::work(alloc, input, said),
        "reassembly" => reassembly::work(alloc, input, said),
        "tokens" => tokens::work(alloc, input, said),
        "search" => searches::work(alloc, input, said),
        "library" => library::work(alloc, input, said),
        "batches" => batches::work(alloc, input, said),
        _ => said.push_str("no such work\n"),
    }
}

/// The same of each part of an input.
fn work_parts(alloc: Global, input: &[u8], said: &mut String) -> Result<(), AllocError> {
    let Ok(text) = std::str::from_utf8(input) else {
        return said.push_str("no parts\n");
    };
    for part in text.split("== ") {
        if let Some((word, input)) = part.split_once("\n") {
            work(alloc, word, input.as_bytes(), said)?;
        }
    }
    Ok(())
}

/// What is said of the work of this word, or of all parts where there is none.
fn told(alloc: Global, word: Option<&str>, input: &[u8]) -> Result<String, AllocError> {
    let mut said = String::new(alloc);
    match word {
        Some(word) => work(alloc, word, input, &mut said)?,
        None => work_parts(alloc, input, &mut said)?,
    }
    Ok(said)
}

fn main(rt: HostRuntime) -> io::Result<()> {
    let word = env::args(&rt)?.nth(1);
    let mut input = Vec::new(rt.alloc());
    rt.stdin().take(LONGEST).read_to_end(&mut input)?;
    let word = match &word {
        Some(word) => Some(word.as_str()),
        None => None,
    };
    let said = told(rt.alloc(), word, input.as_slice())?;
    let said = said.as_str();
    print!(rt; "{said}")
}
