// The parser: a stack of symbols that holds what is left of the derivation.
ghost use Rattle.std.specs.Prelude.{◌≡◌, ℕ, ◌+◌, ◌<◌, ◌≤◌, List, [], ◌∷◌, ◌++◌, length, reverse, IfOk, OnOk, IfSome, IfNone, MatchOption, true};
ghost use Rattle.sp_parser.specs.Grammar.{Table, productions_of, right, predict, takes, taken_of, Tells, Advances, Derivation, SECOND, END};
ghost use Rattle.sp_parser.specs.Outcome.{IsParsedWhole};
ghost use Rattle.sp_parser.specs.Certificate.{Certificate, Ready, IsStart, Takes};
ghost use Rattle.sp_parser.specs.Sinks.{Passes};
ghost use Rattle.sp_parser.specs.Test.{table_test};
ghost use Rattle.sp_parser.specs.declared.symbol.ActionAt.{ActionAt};

use crate::outcome::Outcome;
use crate::sink::Sink;
use crate::symbol::{CLOSE, END, GREATER, SECOND, SHIFT, Step, Symbol};
use crate::tokens::Kinds;
use sp_base::NoMemory;
use std::alloc::Global;

/// How many tokens the places of actions count, at most.
const MOST_TOKENS: usize = 4294967295;

/// A grammar as a table of productions, with a certificate that shows how it is parsed.
///
/// The certificate tells the first and follow sets of the nonterminals and the like. That the table passes the test
/// against it makes the parser exact: nothing else of a grammar is asked for.
pub trait Grammar {
    ghost table: { Table };

    ghost certificate: { Certificate };

    /// The right side of the production that is taken for a nonterminal before a token of a kind.
    fn predict(&self, nonterminal: u8, kind: u8) -> Option<&[Symbol]>
        requires nonterminal { nonterminal < length certificate.height }
        requires kind { kind ≤ END }
        ensures none { IfNone result (length (productions_of table nonterminal)
            ≤ predict table nonterminal kind) }
        ensures some { IfSome result (λ s.
            (predict table nonterminal kind < length (productions_of table nonterminal))
            × (s.now ≡ right table nonterminal (predict table nonterminal kind))) };

    ghost tested: { table_test table certificate ≡ true };
}

/// What an expected token takes of a token of a kind.
fn taken(expected: u8, kind: u8) -> Step
    ensures { taken_of result (takes expected kind) }
{
    if expected == CLOSE {
        if kind == GREATER || kind == SECOND {
            Step::Whole
        } else if kind == SHIFT {
            Step::Half
        } else {
            Step::Refused
        }
    } else if expected == kind {
        Step::Whole
    } else {
        Step::Refused
    }
}

/// Puts the symbols on the stack, the first of them on top.
fn push_all(stack: &mut Vec<Symbol>, symbols: &[Symbol]) -> Result<(), NoMemory>
    ensures { OnOk result (reverse stack.new.items ≡ symbols.now ++ reverse stack.old.items) }
{
    let mut i = symbols.len();
    while i > 0 {
        i -= 1;
        stack.push(symbols[i])?;
    }
    Ok(())
}

/// Goes through symbols until one takes the next token or refuses it.
fn step<G: Grammar, S: Sink>(
    grammar: &G,
    stack: &mut Vec<Symbol>,
    sink: &mut S,
    at: u32,
    kind: u8,
) -> Result<Step, NoMemory>
    requires ready { Ready G.certificate (reverse stack.old.items) }
    requires kind { kind ≤ END }
    ensures ready { OnOk result (Ready G.certificate (reverse stack.new.items)) }
    ensures told { IfOk result (λ s. (ε : List ActionAt) × Passes S.became sink.old sink.new ε
        × Tells G.table s at (reverse stack.old.items) kind (reverse stack.new.items) ε) }
{
    while let Some(top) = stack.pop() {
        match top {
            Symbol::Terminal(expected) => return Ok(taken(expected, kind)),
            Symbol::Action(action) => sink.pass(action, at)?,
            Symbol::Nonterminal(nonterminal) => {
                let Some(symbols) = grammar.predict(nonterminal, kind) else {
                    return Ok(Step::Refused);
                };
                push_all(stack, symbols)?;
            }
        }
    }
    Ok(Step::Emptied)
}

/// Takes a token of a kind, unless no text goes on with it.
fn take_token<G: Grammar, S: Sink>(
    grammar: &G,
    stack: &mut Vec<Symbol>,
    sink: &mut S,
    at: u32,
    kind: u8,
) -> Result<bool, NoMemory>
    requires ready { Ready G.certificate (reverse stack.old.items) }
    requires kind { kind < SECOND }
    ensures taken { IfOk result (λ yes. Takes G.table G.certificate yes at (reverse stack.old.items)
        kind (reverse stack.new.items) S.became sink.old sink.new) }
{
    match step(grammar, stack, sink, at, kind)? {
        Step::Whole => Ok(true),
        Step::Half => Ok(matches!(step(grammar, stack, sink, at, SECOND)?, Step::Whole)),
        Step::Refused => Ok(false),
        Step::Emptied => Ok(false),
    }
}

/// Parses all of the tokens, each of which is looked at once. Where they are a text, the actions of its one derivation were
/// passed to the sink, in order. Where they are none, the answer is the length of their longest viable prefix: how many of
/// them begin some text of the nonterminal, at most; what was passed until then is of no use. Want of memory where the sink
/// answers it, and also where the tokens are more than the places of actions count.
pub fn parse<G: Grammar, K: Kinds, S: Sink>(
    alloc: Global,
    grammar: &G,
    nonterminal: u8,
    tokens: &K,
    sink: &mut S,
) -> Result<Outcome, NoMemory>
    requires nonterminal { nonterminal < length G.certificate.height }
    requires end { IsStart G.certificate nonterminal }
    ensures { IfOk result (λ o. IsParsedWhole G.table nonterminal (K.kinds tokens.now)
        (Passes S.became sink.old sink.new) o) }
{
    let count = tokens.count();
    if count > MOST_TOKENS {
        return Err(NoMemory);
    }
    let mut stack = Vec::new(alloc);
    stack.push(Symbol::Nonterminal(nonterminal))?;
    for i in 0..count {
        if !take_token(grammar, &mut stack, sink, i as u32, tokens.kind(i))? {
            return Ok(Outcome::Refused(i));
        }
    }
    match step(grammar, &mut stack, sink, count as u32, END)? {
        Step::Emptied => Ok(Outcome::Phrase(count)),
        _ => Ok(Outcome::Refused(count)),
    }
}
