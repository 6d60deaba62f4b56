// What is known of an expression in which no rule is broken.
ghost use Rattle.sp_law_lists.specs.known_types.Inside.{PartsMayStand};
ghost use Rattle.sp_law_lists.specs.known_types.Laws.{TypesAreKnownInside, TypesAreKnownValues, FormedIsExpr, UnbrokenIsClear, ValuesInBodies};

/// Each type that stands inside a full one is known and has values, and each element of a set and each key of a map is of a type of
/// keys.
pub fn parts_may_stand()
    ensures { PartsMayStand }
{}

/// Where all that an expression can name is known, no rule is broken at its nodes, and each of them may stand there, each node inside it has a value of a
/// full type; and so has the expression itself, unless it is a name that is no value or the key of a set. An expression that
/// stands as a value is whole.
pub fn types_are_known()
    ensures inside { TypesAreKnownInside }
    ensures values { TypesAreKnownValues }
{}

/// A tree of the group of expressions in which each alternative has its parts is one of an expression, where tests hold of each
/// type and of each path that is written in it.
pub fn formed_is_expr()
    ensures { FormedIsExpr }
{}

/// Where each name in an expression names something, each node may stand there, and no rule of bodies is broken in it, each node
/// is clear.
pub fn unbroken_is_clear()
    ensures { UnbrokenIsClear }
{}

/// Where each node inside the expressions of a statement is right, and each of these is right or bare, and no rule is broken at
/// the statement and at those in it, each node of each expression is right, but that `add` and `delete` may take the key of a
/// set.
pub fn values_in_bodies()
    ensures { ValuesInBodies }
{}
