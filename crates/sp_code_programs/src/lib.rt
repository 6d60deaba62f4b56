//! The code of expressions and places, of statements, functions, hooks and units, and of whole programs: each instruction with the shape
//! before it, and the tables of a program. Definitions alone.
#![tactic(auto)]
