// The fields of each unit of a module that is read stand at places of their own.
ghost use Rattle.sp_law_lists.specs.field_places.Laws.{ModulesAreApart};

/// In a module that is read from a text no two fields of a unit stand at one place.
pub fn modules_are_apart()
    ensures { ModulesAreApart }
{}
