//! The typed list: expressions and statements in which each part has its type, and nothing is left of names, aliases and
//! untyped numbers.
#![tactic(auto)]

mod exprs;
mod heads;
mod laws;
mod parts;
mod stmt_words;
mod stmts;
mod words;

pub use exprs::{Expr, ExprLevel, ExprParts, MOST_LEVELS};
pub use heads::{Leaf, Many, One, Three, Two};
pub use laws::law_of_nodes;
pub use parts::{one_of, three_of, two_of};
pub use stmt_words::{Assign, Bare, BareOp, For, Local, Valued, ValuedOp};
pub use stmts::{Stmt, StmtNode};
pub use words::{LeafOp, ManyOp, NewOf, OneOp, SinkMethod, Standing, TwoOp, UnitMethod, Written};
