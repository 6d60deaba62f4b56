//! Compiled code: instructions and programs, what each instruction does to plain data, and the
//! shapes by which no instruction lacks its operands.
#![tactic(auto)]

mod instr;
mod program;

pub use instr::{Instr, IntForm};
pub use program::{
    BodyCode, BodyOf, KindRow, Labels, OpenRow, Opened, Program, Ranges, RoundRow, ShapeRow,
    Shapes, StackRow, UnitCode, UnitKinds,
};
