// What the least fault of a typed list is, and by which kind attributes are asked.
ghost use Rattle.std.specs.Prelude.{◌≡◌, None};
ghost use Rattle.sp_ast.specs.Trees.{Tree, Trees};
ghost use Rattle.sp_rules.specs.Least.{IsLeast, checked};
ghost use Rattle.sp_typed_units.specs.declared.declarations.Typed.{Typed};
ghost use Rattle.sp_type_context.specs.Contexts.{Around};
ghost use Rattle.sp_type_fields.specs.Values.{Values};
ghost use Rattle.sp_type_fields.specs.Readings.{counted_read};
ghost use Rattle.sp_type_fields.specs.Kinds.{kind_of};
ghost use Rattle.sp_rule_units.specs.Units.{all_tests, Breaks};

/// What is noted of a typed list is the least of the rules of units that are broken in it, and nothing where none is.
pub fn least_of_broken()
    ensures { (t : Typed) → IsLeast (Breaks t) (checked None (all_tests t)) }
{}

/// The attributes behind what is read are asked by the same kind by which their values were typed, whatever stands round it.
pub fn law_of_kinds()
    ensures { (g : Around) (v : Values) (base : Tree) (counts : Trees)
        → kind_of (counted_read g v base counts).spec ≡ (counted_read g v base counts).kind }
{}
