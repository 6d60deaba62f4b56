// What the table has to do with the grammar.
ghost use Rattle.std.specs.Prelude.{◌≡◌, ℕ, List, false};
ghost use Rattle.sp_parser.specs.declared.symbol.ActionAt.{ActionAt};
ghost use Rattle.sp_parser.specs.Grammar.{Derives, productions_of};
ghost use Rattle.sp_grammar.specs.declared.language.Start.{Start};
ghost use Rattle.sp_grammar.specs.declared.actions.Action.{Action};
ghost use Rattle.sp_grammar.specs.declared.terminals.Terminal.{Terminal};
ghost use Rattle.sp_grammar.specs.Language.{language};
ghost use Rattle.sp_grammar.specs.Actions.{action_number};
ghost use Rattle.sp_grammar.specs.Own.{own, alternatives, is_piece};
ghost use Rattle.sp_grammar.specs.Reads.{IsRead};
ghost use Rattle.sp_grammar.specs.Starts.{start_number};
ghost use Rattle.sp_grammar.specs.Terminals.{terminal_number};
ghost use Rattle.sp_grammar.specs.Written.{Part, part_number};

/// The table derives from each part (modules, types, expressions, statements and all that they consist of) exactly what
/// the grammar in its own words reads, passing the same actions. There each binary level is left-recursive, and so groups
/// to the left, and each alternative is whole; an `else` belongs to the nearest `if`, and a `(` after `new` and a path
/// begins the arguments. Pieces that only the table has are left out.
pub fn table_reads_the_grammar()
    ensures derived { (p : Part) → is_piece p ≡ false → (kinds : List ℕ) (actions : List ActionAt)
        → Derives language (part_number p) kinds actions
        → IsRead own (part_number p) kinds actions }
    ensures read { (p : Part) → is_piece p ≡ false → (kinds : List ℕ) (actions : List ActionAt)
        → IsRead own (part_number p) kinds actions
        → Derives language (part_number p) kinds actions }
{}

/// The grammar in its own words is unambiguous: kinds of tokens are read as a module, a type, an expression or a statement
/// with at most one list of actions.
pub fn grammar_is_unambiguous()
    ensures { (s : Start) (kinds : List ℕ) (actions others : List ActionAt)
        → IsRead own (start_number s) kinds actions → IsRead own (start_number s) kinds others
        → actions ≡ others }
{}

/// Each kind of token, each action and each part has a number of its own, and the grammar has the alternatives of a part at
/// its number. So none is taken for another, whatever numbers a script gives them.
pub fn numbers_are_apart()
    ensures tokens { (a b : Terminal) → terminal_number a ≡ terminal_number b → a ≡ b }
    ensures actions { (a b : Action) → action_number a ≡ action_number b → a ≡ b }
    ensures parts { (a b : Part) → part_number a ≡ part_number b → a ≡ b }
    ensures at_their_numbers { (p : Part) → productions_of own (part_number p) ≡ alternatives p }
{}
