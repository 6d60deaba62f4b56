//! The list of modules: the named files, and what they import.
#![tactic(auto)]

mod entries;
mod follow;
mod imports;
mod laws;
mod list;
mod named;
mod paths;
mod places;
mod seen;

pub use entries::ModuleFile;
pub use laws::{list_is_one, listed_modules_are_read, named_files_come_first};
pub use list::read_list;
pub use places::place_in;
