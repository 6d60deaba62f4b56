// Parsing from a place on.
ghost use Rattle.std.specs.Prelude.{◌≡◌, ℕ, ◌+◌, ◌-◌, ◌<◌, ◌≤◌, List, length, take, drop, IfOk};
ghost use Rattle.sp_parser.specs.Grammar.{IsLongestViable, Derives};
ghost use Rattle.sp_parser.specs.Certificate.{IsStart};
ghost use Rattle.sp_parser.specs.Outcome.{IsParsed};
ghost use Rattle.sp_parser.specs.Sinks.{Took};

use crate::engine::{Grammar, parse};
use crate::outcome::Outcome;
use crate::sink::Sink;
use crate::tokens::Kinds;
use sp_base::NoMemory;
use std::alloc::Global;

/// Parses the longest run of tokens from `at` on that begins some text of the nonterminal. Where the run is a text, the sink,
/// to which nothing had been passed, took the actions of its one derivation; where it is none, what was passed is of no use.
/// Where all tokens from there on are a text, each is looked at once, and else each of the run at most twice. The tokens are
/// not copied.
pub fn parse_from<G: Grammar, K: Kinds, S: Sink>(
    alloc: Global,
    grammar: &G,
    nonterminal: u8,
    tokens: &K,
    at: usize,
    sink: &mut S,
) -> Result<Outcome, NoMemory>
    requires nonterminal { nonterminal < length G.certificate.height }
    requires end { IsStart G.certificate nonterminal }
    requires at { at ≤ length (K.kinds tokens.now) }
    ensures { IfOk result (λ o. IsParsed G.table nonterminal (drop at (K.kinds tokens.now)) at
        (Took S.became sink.old sink.new) o) }
{
    let rest = tokens.part(at, tokens.count());
    match parse(alloc, grammar, nonterminal, &rest, sink)? {
        Outcome::Phrase(n) => Ok(Outcome::Phrase(at + n)),
        Outcome::Refused(n) => {
            if n == rest.count() {
                return Ok(Outcome::Refused(at + n));
            }
            sink.clear();
            match parse(alloc, grammar, nonterminal, &rest.part(0, n), sink)? {
                Outcome::Phrase(_) => Ok(Outcome::Phrase(at + n)),
                Outcome::Refused(_) => Ok(Outcome::Refused(at + n)),
            }
        }
    }
}
