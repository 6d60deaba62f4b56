// Conversions that are made of themselves. These functions do nothing.
ghost use Rattle.sp_law_rules.specs.Conversions.{ConversionsAreEndless, EndlessAreFound};
ghost use Rattle.sp_law_rules.specs.ToldConversions.{ToldAreEndless, EndlessAreTold};

/// The checker finds a conversion in a field that is made of itself exactly where conversions lead from the field to one that is made
/// of itself; and the conversion that it finds is one that names such a field.
pub fn conversions_are_endless()
    ensures found { ConversionsAreEndless }
    ensures endless { EndlessAreFound }
{}

/// The conversions that a typed list tells as made of themselves are those of the fields from which conversions lead to one that is made
/// of itself, wherever these stand: one of each.
pub fn told_is_endless()
    ensures told { ToldAreEndless }
    ensures all { EndlessAreTold }
{}
