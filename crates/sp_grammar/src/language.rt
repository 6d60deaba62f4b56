// The grammar, and parsing by it.
ghost use Rattle.std.specs.Prelude.{◌≡◌, ℕ, ◌≤◌, List, length, drop, IfOk};
ghost use Rattle.sp_parser.specs.Sinks.{Took};
ghost use Rattle.sp_grammar.specs.Language.{language, language_sets, language_tested};
ghost use Rattle.sp_grammar.specs.Sentences.{IsParsed};
ghost use Rattle.sp_grammar.specs.Starts.{start_number};

use crate::tables::{ROWS, SPANS, SYMBOLS};
use sp_base::NoMemory;
use sp_parser::{Grammar, Kinds, Outcome, Sink, Symbol, choose_in, parse_from};
use std::alloc::Global;

/// The grammar of modules.
pub struct Language;

impl Grammar for Language {
    ghost table = { language };

    ghost certificate = { language_sets };

    fn predict(&self, nonterminal: u8, kind: u8) -> Option<&[Symbol]> {
        choose_in(&SPANS, &ROWS, &SYMBOLS, nonterminal, kind)
    }

    ghost tested = { language_tested };
}

/// What a text can be.
#[derive(Clone, Copy, PartialEq, Eq)]
pub enum Start {
    Module,
    Type,
    Expr,
    Stmt,
}

impl Start {
    /// Its nonterminal.
    pub fn number(self) -> u8
        ensures { result ≡ start_number self }
    {
        match self {
            Start::Module => 0,
            Start::Type => 16,
            Start::Stmt => 54,
            Start::Expr => 64,
        }
    }
}

/// Parses the longest run of tokens from `at` on that begins some text of this kind. Where the run is a text, the sink, to
/// which nothing had been passed, took the actions of its one derivation; where it is none, what was passed is of no use.
pub fn parse_kinds<K: Kinds, S: Sink>(
    alloc: Global,
    start: Start,
    tokens: &K,
    at: usize,
    sink: &mut S,
) -> Result<Outcome, NoMemory>
    requires at { at ≤ length (K.kinds tokens.now) }
    ensures { IfOk result (λ o. IsParsed start (drop at (K.kinds tokens.now)) at
        (Took S.became sink.old sink.new) o) }
{
    parse_from(alloc, &Language, start.number(), tokens, at, sink)
}
