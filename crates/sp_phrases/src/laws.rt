// The words out of profile stand nowhere in the grammar; what is read is determined by the tokens.
ghost use Rattle.std.specs.Prelude.{◌≡◌, ℕ, List, None, true};
ghost use Rattle.sp_lex.specs.declared.tokens.Token.{Token};
ghost use Rattle.sp_parser.specs.declared.symbol.ActionAt.{ActionAt};
ghost use Rattle.sp_grammar.specs.declared.language.Start.{Start};
ghost use Rattle.sp_grammar.specs.Own.{own};
ghost use Rattle.sp_phrases.specs.Kinds.{number_of};
ghost use Rattle.sp_phrases.specs.Runs.{IsLongestRun, IsPhrase, stands_nowhere};

/// No alternative of the grammar has a word without a terminal.
pub fn no_production_has_other_words()
    ensures { stands_nowhere (number_of None) own ≡ true }
{}

/// Of all runs that begin some text only one is the longest: what is read, or where it is refused, is determined.
pub fn longest_run_is_one()
    ensures { (start : Start) (tokens : List Token) (m n : ℕ) → IsLongestRun start tokens m
        → IsLongestRun start tokens n → m ≡ n }
{}

/// A run of tokens is read in one way at most.
pub fn derivation_is_one()
    ensures { (start : Start) (tokens : List Token) (m : ℕ) (first second : List ActionAt)
        → IsPhrase start tokens m first → IsPhrase start tokens m second → first ≡ second }
{}
