//! The rules over bodies: what is wrong with members, operands, targets, literals, indexes, words and calls in the typed
//! expressions and statements of a list of modules.
#![tactic(auto)]

mod bodies;
mod calls;
mod ends;
mod facts;
mod laws;
mod nodes;
mod printable;
mod rows;
mod stmts;
mod sweep;
mod values;

pub use bodies::{note_body, note_end};
pub use calls::note_call;
pub use ends::ends_well;
pub use facts::{Constancy, Facts};
pub use laws::least_of_broken;
pub use nodes::is_not_constant;
pub use rows::unlike;
pub use stmts::note_case;
pub use sweep::note_expr;
pub use values::{
    is_regex, note_arrow, note_condition, note_right, note_target, note_value, note_written,
    value_goes, value_span,
};
