// The longest runs of tokens that begin a text, by the written grammar.
ghost use Rattle.std.specs.Prelude.{map};
ghost use Rattle.sp_grammar.specs.Terminals.{terminal_number};
ghost use Rattle.sp_grammar.specs.TerminalKinds.{terminals_are_kinds};

use sp_base::NoMemory;
use sp_grammar::Terminal::{Id, Number};
use sp_grammar::{Start, Terminal, parse_kinds};
use sp_parser::{ActionAt, Kinds, Outcome};
use sp_words::{Keyword, Punctuation};
use std::alloc::Global;

/// Tokens of which no more is known than their terminals.
#[derive(Clone, Copy)]
struct Terminals<'a> {
    list: &'a [Terminal],
}

impl<'a> Kinds for Terminals<'a> {
    ghost kinds = { λ tokens. map terminal_number tokens.list.now };

    fn count(&self) -> usize {
        self.list.len()
    }

    fn kind(&self, at: usize) -> u8 {
        self.list[at].number()
    }

    fn part(&self, from: usize, to: usize) -> Self {
        Terminals {
            list: &self.list[from..to],
        }
    }

    ghost are_kinds = { λ tokens. terminals_are_kinds tokens.list.now };
}

/// The place after the longest run, and whether the run is a text.
fn found(alloc: Global, start: Start, tokens: &[Terminal]) -> Result<(usize, bool), NoMemory> {
    let mut actions: Vec<ActionAt> = Vec::new(alloc);
    match parse_kinds(alloc, start, &Terminals { list: tokens }, 0, &mut actions)? {
        Outcome::Phrase(at) => Ok((at, true)),
        Outcome::Refused(at) => Ok((at, false)),
    }
}

const SUM: [Terminal; 5] = [
    Id,
    Terminal::Punctuation(Punctuation::Plus),
    Number,
    Terminal::Punctuation(Punctuation::Star),
    Id,
];

const SUM_OF_NOTHING: [Terminal; 3] = [
    Id,
    Terminal::Punctuation(Punctuation::Plus),
    Terminal::Punctuation(Punctuation::Star),
];

const NESTED: [Terminal; 6] = [
    Terminal::Keyword(Keyword::Vector),
    Terminal::Punctuation(Punctuation::Less),
    Terminal::Keyword(Keyword::Vector),
    Terminal::Punctuation(Punctuation::Less),
    Id,
    Terminal::Punctuation(Punctuation::ShiftRight),
];

const BREAK: [Terminal; 3] = [
    Terminal::Keyword(Keyword::Break),
    Terminal::Punctuation(Punctuation::Semicolon),
    Id,
];

// What begins with the tokens, and the place after the longest run, and whether the run is a text.
const CASES: [(Start, &[Terminal], (usize, bool)); 4] = [
    (Start::Expr, &SUM, (5, true)),
    (Start::Expr, &SUM_OF_NOTHING, (2, false)),
    (Start::Type, &NESTED, (6, true)),
    (Start::Stmt, &BREAK, (2, true)),
];

#[test]
fn takes_the_longest_run(rt: HostRuntime) -> Result<(), NoMemory> {
    for (start, tokens, want) in &CASES {
        let found = found(rt.alloc(), *start, tokens)?;
        assert!(rt; found == *want);
    }
    Ok(())
}
