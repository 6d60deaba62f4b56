//! Laws on the rules of the checker, in words of their own: each list of modules has answers, a body that ends well never runs past its end, a
//! name of a unit comes twice by where both stand, a conversion is found where conversions lead to a field that is made of itself, each node
//! of a tree that is read begins at a token, and so does what the rules tell of expressions.
//! There is no code here.
#![tactic(auto)]

mod answers;
mod conversions;
mod ends;
mod names;
mod places;

pub use answers::answers_are_there;
pub use conversions::{conversions_are_endless, told_is_endless};
pub use ends::bodies_give_results;
pub use names::names_come_twice;
pub use places::{expressions_begin_at_tokens, tests_begin_at_tokens, trees_begin_at_tokens};
