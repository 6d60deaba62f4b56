//! Laws on typed lists. Of a list in which no rule is broken and of which all is built: all is known of its types, its constants have
//! values, and it passes the test before lowering; and a list that passes fits in its program. A module of laws for each layer, the
//! lowest first.
#![tactic(auto)]

mod field_places;
mod fit_body;
mod fit_expr;
mod fit_list;
mod known_bodies;
mod known_constants;
mod known_hooks;
mod known_kinds;
mod known_literals;
mod known_members;
mod known_statements;
mod known_types;
mod known_units;
mod known_values;
mod made_nodes;
mod passing_list;
mod unbroken_list;
mod unbroken_modules;
mod whole_list;

pub use field_places::modules_are_apart;
pub use fit_body::passing_statements_fit;
pub use fit_expr::{passing_constants_fit, passing_expressions_fit, passing_places_fit};
pub use fit_list::passing_lists_fit;
pub use known_bodies::{bodies_are_known, formed_is_body, kept_is_plain};
pub use known_constants::{
    constants_are_answered, constants_take_no_member, names_are_told, written_types_are_types,
};
pub use known_hooks::{hooks_are_known, lists_are_known};
pub use known_kinds::{
    expressions_pass, names_are_made, owners_are_kept, places_pass, typing_makes_kinds,
};
pub use known_literals::{literals_are_in_range, typing_widens_values};
pub use known_members::{
    functions_are_known, members_are_known, modules_are_known, readings_are_known,
};
pub use known_statements::{locals_are_full, statements_pass, typing_makes_statements};
pub use known_types::{
    formed_is_expr, parts_may_stand, types_are_known, unbroken_is_clear, values_in_bodies,
};
pub use known_units::units_are_known;
pub use known_values::operators_are_told;
pub use made_nodes::nodes_hold;
pub use passing_list::{
    bodies_are_built, bodies_pass, constants_fit, lists_are_built, lists_pass, units_are_built,
};
pub use unbroken_list::{constants_are_known, constants_are_told};
pub use unbroken_modules::modules_are_formed;
pub use whole_list::{indexes_are_decided, types_are_full, written_types_are_full};
