//! All hooks of a list of modules in one row, what each is of, and the rule on hooks of nothing.
#![tactic(auto)]

mod containers;
mod named;
mod places;
mod rows;
mod sites;
mod units;

pub use containers::note_hooks;
pub use places::{FieldKeys, site_key};
pub use rows::{HookRow, hook_rows, key_of, keys_of};
pub use sites::{Holder, Site, all_sites};
