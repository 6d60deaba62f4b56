// What holds of the types of declarations.
ghost use Rattle.std.specs.Prelude.{◌≡◌, ◌<◌, ℕ, List, Option, None, length};
ghost use Rattle.sp_ast.specs.Trees.{Tree};
ghost use Rattle.sp_types.specs.Types.{Ty};
ghost use Rattle.sp_solver.specs.Told.{told};
ghost use Rattle.sp_names.specs.Declarations.{rows};
ghost use Rattle.sp_names.specs.Aliases.{IsResolved, IsEndless};

/// A declaration has no type exactly where names lead from it to one that is made of itself.
pub fn none_is_endless()
    ensures none { (list : List Tree) (answers : List (Option Ty)) → IsResolved list answers
        → (i : ℕ) → i < length (rows list) → told answers i ≡ None → IsEndless list i }
    ensures endless { (list : List Tree) (answers : List (Option Ty)) → IsResolved list answers
        → (i : ℕ) → IsEndless list i → told answers i ≡ None }
{}
