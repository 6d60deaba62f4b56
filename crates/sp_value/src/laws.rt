// What is true of the order of values, and of sets and maps that were changed. These functions do nothing.
ghost use Rattle.std.specs.Cmp.{IsTotalOrder};
ghost use Rattle.sp_value.specs.Order.{val_cmp};
ghost use Rattle.sp_value.specs.Alike.{EqualIsAlike};
ghost use Rattle.sp_value.specs.OneKey.{PutsAtOneKey, AddsOneKey, DeletesOneKey, DeletesOneEntry};

/// Values are in one order: `Less` leads on, back it is `Greater`, and values that are `Equal` stand alike to all.
#[tactic(auto, using(crate::proofs::Total::val_cmp_total))]
pub fn law_of_order()
    ensures { IsTotalOrder val_cmp }
{}

/// Values that are `Equal` differ in the widths of integers and in the numbers of types alone, if at all.
pub fn law_of_equality()
    ensures { EqualIsAlike }
{}

/// A change of a set or a map changes it at one key.
pub fn law_of_keys()
    ensures put { PutsAtOneKey }
    ensures add { AddsOneKey }
    ensures delete { DeletesOneKey }
    ensures entry { DeletesOneEntry }
{}
