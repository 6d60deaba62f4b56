// What passes the test of what fits.
ghost use Rattle.sp_law_lists.specs.passing_list.Laws.{ListsAreBuilt, BodiesPassFunctions, BodiesPassHooks, BodiesAreBuiltBuilt, BodiesAreBuiltLiterals, UnitsAreBuiltBuilt, UnitsAreBuiltValues, EachConstantFits, ListsPass};

use sp_type_members::none_is_passed_over;

/// In a list in which no rule is broken and all is built, its bodies and the values of its variables are built of nodes that are built.
pub fn lists_are_built()
    ensures { ListsAreBuilt }
{
    none_is_passed_over();
}

/// In such a list each function passes the test of what fits, and so does each hook, where `$$` is of the type that the hook sees.
pub fn bodies_pass()
    ensures functions { BodiesPassFunctions }
    ensures hooks { BodiesPassHooks }
{
    none_is_passed_over();
}

/// So all bodies of functions and hooks are built of what has a meaning, and the literals in them are of their types.
pub fn bodies_are_built()
    ensures built { BodiesAreBuiltBuilt }
    ensures literals { BodiesAreBuiltLiterals }
{
    none_is_passed_over();
}

/// So are its units: they have no sinks and are no filters, each of their fields reads an integer, and the values of their variables pass
/// and have literals of their types.
pub fn units_are_built()
    ensures built { UnitsAreBuiltBuilt }
    ensures values { UnitsAreBuiltValues }
{
    none_is_passed_over();
}

/// The constants of a list in which no rule is broken that have a value have one of the kind of their type.
pub fn constants_fit()
    ensures { EachConstantFits }
{}

/// Such a list passes, where the fields of each unit stand at places of their own, so that each body of a hook hangs on one field alone or
/// on fields of one name.
pub fn lists_pass()
    ensures { ListsPass }
{
    none_is_passed_over();
}
