// What the first construct that isn't built is.
ghost use Rattle.std.specs.Prelude.{List};
ghost use Rattle.sp_ast.specs.Trees.{Tree};
ghost use Rattle.sp_typed_units.specs.declared.declarations.Typed.{Typed};
ghost use Rattle.sp_unbuilt.specs.First.{IsFirst};
ghost use Rattle.sp_unbuilt.specs.Unbuilt.{Texts, first_unbuilt};
ghost use Rattle.sp_unbuilt.specs.Places.{IsUnbuilt};

/// What is noted of a list of modules is the first, by module and place, of the constructs in it that aren't built, and nothing
/// where all are.
pub fn first_of_unbuilt()
    ensures { (texts : Texts) (list : List Tree) (t : Typed) → IsFirst (IsUnbuilt texts list t)
        (first_unbuilt texts list t) }
{}
