//! What names mean over a list of modules: tables of declarations, paths and written types.
#![tactic(auto)]

mod bitfields;
mod inner;
mod names;
mod passes;
mod paths;
mod rows;
mod sort;
mod table;
mod tell;
mod types;

pub use names::Names;
pub use passes::LIBRARY_ENUMS;
pub use rows::{Bitfield, Declaration, RowTree, RowView};
pub use sort::{DeclSort, Meaning, Scope};
pub use table::note_name;
pub use tell::{declarations_of, is_reserved, labels_of, name_of, sort_of, type_of};
