// Reading from a place on.
ghost use Rattle.std.specs.Prelude.{◌≡◌, ◌≤◌, List, length, IfOk, IfErr};
ghost use Rattle.sp_lex.specs.Faults.{OnDiag};
ghost use Rattle.sp_parser.specs.declared.symbol.ActionAt.{ActionAt};
ghost use Rattle.sp_parser.specs.Sinks.{Took};
ghost use Rattle.sp_phrases.specs.Runs.{IsRead, IsRefused};

use crate::numbered::Numbered;
use crate::refusals::refusal;
use sp_grammar::{Start, parse_kinds};
use sp_lex::{ReadFault, Tokens};
use sp_parser::{Outcome, Sink};
use std::alloc::Global;

/// Reads the longest run of tokens from `at` on that begins some text of this kind. Where the run is such a text, the
/// answer is the place behind it, in tokens, and the sink, to which nothing had been passed, took the actions of its
/// derivation, whose places are counted from the text's first token. Where it is none, the refusal is at the next token, or
/// at the end of the text: M30 where that token is a word out of profile, and else M3; what was passed is then of no use.
/// Each token of the run is looked at once where it ends the text, else at most twice, and none behind the run but the next.
pub fn read_from<S: Sink>(
    alloc: Global,
    tokens: &Tokens,
    start: Start,
    at: u32,
    sink: &mut S,
) -> Result<u32, ReadFault>
    requires at { at ≤ length tokens.now.list }
    ensures read { IfOk result (λ to. (actions : List ActionAt)
        × Took S.became sink.old sink.new actions × IsRead start tokens.now.list at actions to) }
    ensures inside { IfErr result (OnDiag (λ span _. span.from ≤ length tokens.now.text)) }
    ensures refused { IfErr result (OnDiag (λ span kind. IsRefused start tokens.now.list at
        (length tokens.now.text) span kind)) }
{
    tokens.are_of_their_text();
    let numbered = Numbered {
        tokens: tokens.as_slice(),
    };
    match parse_kinds(alloc, start, &numbered, at as usize, sink)? {
        Outcome::Phrase(to) => Ok(to as u32),
        Outcome::Refused(to) => Err(refusal(tokens.text(), tokens.as_slice(), to)),
    }
}
