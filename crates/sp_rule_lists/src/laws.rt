// What the least fault of a typed list is.
ghost use Rattle.std.specs.Prelude.{None};
ghost use Rattle.sp_rules.specs.Least.{IsLeast, checked};
ghost use Rattle.sp_typed_units.specs.declared.declarations.Typed.{Typed};
ghost use Rattle.sp_type_constants.specs.Known.{Known};
ghost use Rattle.sp_rule_lists.specs.Names.{list_names};
ghost use Rattle.sp_rule_lists.specs.Wholes.{list_tests};
ghost use Rattle.sp_rule_lists.specs.Broken.{BreaksName, BreaksIn};

/// What is noted of the names of a typed list is the least of the rules on names that are broken in it, and nothing where none
/// is; and what is noted of its bodies is the least of those that are broken in its bodies.
pub fn least_of_broken()
    ensures names { (t : Typed) → IsLeast (BreaksName t) (checked None (list_names t)) }
    ensures bodies { (t : Typed) (values : Known)
        → IsLeast (BreaksIn t values) (checked None (list_tests t values)) }
{}
