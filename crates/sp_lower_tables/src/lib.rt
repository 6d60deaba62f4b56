//! What a program has beside its code: how events tell hooks, members, labels and ranges, the numbers of kinds of what bodies and
//! units keep, and the kind of `$$` in the bodies of hooks.
#![tactic(auto)]

mod currents;
mod fields;
mod kinds;
mod labels;
mod names;

pub use currents::current;
pub use fields::HookedFields;
pub use kinds::{add_members, add_parameters, add_types, row_number, type_number};
pub use labels::{labels_of, ranges_of};
pub use names::{hook_name, member_names};
