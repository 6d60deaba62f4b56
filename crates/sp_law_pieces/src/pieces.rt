// Readings, fields and their pieces. These functions do nothing.
ghost use Rattle.sp_law_pieces.specs.Laws.{FieldsAreOne, ReadingsAreOne};

/// A reading with its attributes means the same by name and by its pieces, where its expressions see `$$` only where there is one and the hooks
/// of its elements are handed two values: it ends alike and tells the same, and unless it waits, in states that differ by the locals of the
/// pieces alone.
pub fn readings_are_one()
    ensures { ReadingsAreOne }
{}

/// And so does a field, with its condition, its place, its value and its hooks.
pub fn fields_are_one()
    ensures { FieldsAreOne }
{}
