// Every text has one tree.
ghost use Rattle.std.specs.Prelude.{◌≡◌, ℕ, List, true};
ghost use Rattle.sp_lex.specs.declared.tokens.Token.{Token};
ghost use Rattle.sp_parser.specs.declared.symbol.ActionAt.{ActionAt};
ghost use Rattle.sp_grammar.specs.declared.language.Start.{Start};
ghost use Rattle.sp_phrases.specs.Runs.{IsPhrase};
ghost use Rattle.sp_ast.specs.Trees.{Tree};
ghost use Rattle.sp_ast.specs.Groups.{is_of};
ghost use Rattle.sp_ast.specs.Slots.{is_formed};
ghost use Rattle.sp_build.specs.Building.{IsBuilt};
ghost use Rattle.sp_build.specs.Starting.{group_of};

use sp_phrases::derivation_is_one;

/// The actions that the derivation of a text passes build one tree, and leave nothing else on the stack: a module builds a
/// module, a type a type, a statement a statement and an expression an expression. So the rules of the actions find what
/// they want at each place, whatever the text is; and each tree has the parts that its alternative asks for.
pub fn every_phrase_is_built()
    ensures { (start : Start) (text : List ℕ) (tokens : List Token) (m : ℕ)
        (actions : List ActionAt)
        → IsPhrase start tokens m actions → (t : Tree) × (is_of (group_of start) t ≡ true)
        × IsBuilt text tokens actions t × (is_formed t ≡ true) }
{}

/// A run of tokens has one tree at most.
pub fn tree_is_one()
    ensures { (start : Start) (text : List ℕ) (tokens : List Token) (m : ℕ)
        (first second : List ActionAt) (t u : Tree) → IsPhrase start tokens m first
        → IsPhrase start tokens m second → IsBuilt text tokens first t
        → IsBuilt text tokens second u → t ≡ u }
{
    derivation_is_one();
}
