// What holds of the tries.
ghost use Rattle.std.specs.Prelude.{◌≡◌, ◌<◌, ℕ, List, Option, Some, None, length, slice_get};
ghost use Rattle.sp_base.specs.declared.places.Span.{Span};
ghost use Rattle.sp_ast.specs.Trees.{Tree};
ghost use Rattle.sp_types.specs.Types.{Ty};
ghost use Rattle.sp_type_context.specs.Contexts.{Around};
ghost use Rattle.sp_type_fields.specs.Values.{Values};
ghost use Rattle.sp_solver.specs.declared.attempt.Attempt.TheVariants.{Waits};
ghost use Rattle.sp_solver.specs.Rounds.{IsFair};
ghost use Rattle.sp_type_modules.specs.Sources.{questions};
ghost use Rattle.sp_solver.specs.Told.{told};
ghost use Rattle.sp_type_modules.specs.declared.sources.Source.TheVariants.{Field};
ghost use Rattle.sp_type_modules.specs.declared.sources.Question.{Question};
ghost use Rattle.sp_type_members.specs.Tries.{tries, AreStored};
ghost use Rattle.sp_type_members.specs.Endless.{place_of};
ghost use Rattle.sp_type_members.specs.inside.Laws.{is_fair};

/// A try hangs on nothing that it does not name, and waits for a question that there is: so there is one settled list of types.
pub fn tries_are_fair()
    ensures fair { (list : List Tree) (contexts : List Around) (v : Values)
        → IsFair (tries list contexts v) }
    ensures inside { (list : List Tree) (contexts : List Around) (v : Values) (f : ℕ → Option Ty)
        (i j : ℕ) → i < length (questions list) → tries list contexts v f i ≡ Waits j
        → j < length (questions list) }
{}

/// Where these are the types of the members of all units, each member without one is a field with a conversion that hangs on a
/// member without a type: so none is passed over.
pub fn none_is_passed_over()
    ensures { (list : List Tree) (contexts : List Around) (v : Values) (types : List (Option Ty))
        (i : ℕ) (q : Question) → AreStored list contexts v types
        → slice_get (questions list) i ≡ Some q → told types i ≡ None
        → (t : Tree) × (q.source ≡ Field t) × (at : Span)
        × (place_of list contexts v types q.unit t ≡ Some at) }
{}
