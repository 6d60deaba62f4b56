//! What stands round the expressions of a module: paths, types, members, methods and calls, by the names of a list of modules.
#![tactic(auto)]

mod here;
mod members;
mod sources;
mod tables;
mod taken;
mod written;

pub use here::{Constants, Here};
pub use sources::{Question, Source};
pub use tables::{Tables, declaration_at, unit_in};
pub use taken::differ;
pub use written::{name_span, type_at, unnamed_in, written_in};
