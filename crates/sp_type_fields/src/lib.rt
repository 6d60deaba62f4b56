//! How fields, elements and groups are read, what attributes on them are for and mean, and the
//! parts of units, over what stands round them.
#![tactic(auto)]

mod attributes;
mod constants;
mod kinds;
mod optional;
mod orders;
mod parts;
mod readings;
mod roles;

pub use attributes::{Site, attributes_of, conversion, converted, element_of};
pub use constants::Constants;
pub use kinds::{kind_of, list_kind, read_kind};
pub use orders::order_of;
pub use parts::{FieldTable, part_of, parts_of};
pub use readings::{Read, counted_read, read_type};
pub use roles::{Holder, Kind, Role, grouped, may_stand, role_of};
