// There is one typed list.
ghost use Rattle.std.specs.Prelude.{◌≡◌, List};
ghost use Rattle.sp_ast.specs.Trees.{Tree};
ghost use Rattle.sp_type_answers.specs.Settled.{Answers};

use sp_type_members::tries_are_fair;

/// The answers of a list of modules are one: so there is one typed list.
pub fn answers_are_one()
    ensures types { (list : List Tree) (a b : Answers list) → a.types ≡ b.types }
    ensures values { (list : List Tree) (a b : Answers list) → a.values ≡ b.values }
    ensures stored { (list : List Tree) (a b : Answers list) → a.stored ≡ b.stored }
{
    tries_are_fair();
}
