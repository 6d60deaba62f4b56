//! Laws on the code of expressions, of statements, functions and hooks, and of units: it does what these mean, keeps to its shapes, and counts a
//! turn in each cycle. A module of laws for each, the lowest first.
//! There is no code here, and so no edit that must fail.
#![tactic(auto)]

mod bodies;
mod exprs;
mod turns;
mod units;

pub use bodies::{bodies_keep, functions_run, hooks_run, statements_keep, statements_run};
pub use exprs::{expressions_keep, expressions_run};
pub use turns::{
    bodies_turn, fitting_keeps_to_loops, joined_turn, pieces_turn, programs_turn, statements_fall,
    units_turn,
};
pub use units::{units_enter, units_keep, units_run};
