//! The rules of units: what is wrong with attributes, bounds of bytes, ranges of bits, filters and bodies of sink hooks in the
//! typed units, hooks and functions of a list of modules, and limits on numbers of things.
#![tactic(auto)]

mod attributes;
mod bits;
mod bodies;
mod declarations;
mod here;
mod laws;
mod limits;
mod nodes;
mod parts;
mod readings;
mod sweep;
mod whole;

pub use bits::note_bitfield;
pub use declarations::{note_function, note_hook, note_unit};
pub use laws::{law_of_kinds, least_of_broken};
pub use limits::{MOST_DECLARATIONS, MOST_ITEMS, MOST_PARAMETERS, note_limits};
pub use whole::note_unit_rules;
