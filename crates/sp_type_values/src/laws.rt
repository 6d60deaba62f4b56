// What holds of the rows.
ghost use Rattle.std.specs.Prelude.{◌≡◌, ℕ, List, Option, Some, slice_get};
ghost use Rattle.sp_ast.specs.Trees.{Tree};
ghost use Rattle.sp_types.specs.Types.{Ty};
ghost use Rattle.sp_names.specs.declared.rows.Declaration.{Declaration};
ghost use Rattle.sp_names.specs.declared.sort.DeclSort.TheVariants as sort_is;
ghost use Rattle.sp_names.specs.Declarations.{sort_of, declaration_at, number_at};
ghost use Rattle.sp_type_values.specs.declared.answer.Answer.{Answer};
ghost use Rattle.sp_type_values.specs.Valued.{constant_of, valued};
ghost use Rattle.sp_type_values.specs.TypedRows.{declared_constant, typed_constants, declared_enum, typed_enums};

/// What is declared stands in its row at the number that paths to it have.
pub fn numbers_are_places()
    ensures valued { (list : List Tree) (types : ℕ → Option Ty) (g : ℕ) (d : Declaration)
        → declaration_at list g ≡ Some d → sort_of d.tree ≡ sort_is.Constant
        → slice_get (valued list types) (number_at list g) ≡ Some (constant_of list types d) }
    ensures constants { (list : List Tree) (types : ℕ → Option Ty) (known : ℕ → Option Answer)
        (g : ℕ) (d : Declaration)
        → declaration_at list g ≡ Some d → sort_of d.tree ≡ sort_is.Constant
        → slice_get (typed_constants list types known) (number_at list g)
        ≡ Some (declared_constant list types known (number_at list g) d) }
    ensures enums { (list : List Tree) (types : ℕ → Option Ty) (known : ℕ → Option Answer)
        (g : ℕ) (d : Declaration)
        → declaration_at list g ≡ Some d → sort_of d.tree ≡ sort_is.Enum
        → slice_get (typed_enums list types known) (number_at list g)
        ≡ Some (declared_enum list types known (number_at list g) (Some d)) }
{}
