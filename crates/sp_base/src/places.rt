// Places in texts and inputs, what is wrong at them, and the limits of a run.
use crate::{MKind, PKind, Text};

/// A slice of a module's text: the bytes from `from` up to `to`, counted from 0.
#[derive(Clone, Copy, Debug, PartialEq, Eq)]
pub struct Span {
    pub from: u32,
    pub to: u32,
}

/// A place in a text: line and column, both from 1, columns in bytes. 0:0 stands for no place in a text.
#[derive(Clone, Copy, PartialEq, Eq)]
pub struct Place {
    pub line: u32,
    pub col: u32,
}

/// A refusal of a module, by its number in the module list and a place in its text.
#[derive(Clone, Copy, Debug, PartialEq, Eq)]
pub struct Diag {
    pub module: u32,
    pub span: Span,
    pub kind: MKind,
}

/// An error of a run: its kind, the place in the flow's input (bytes from 0), and the text that an
/// assertion or a `throw` carries.
#[derive(Drop)]
pub struct ParseError {
    pub kind: PKind,
    pub offset: u64,
    pub text: Option<Text>,
}

/// The limits of a run: turns without progress, units and functions open in a fiber, and fibers within
/// one another. Each is at least 1.
#[derive(Clone, Copy, PartialEq, Eq)]
pub struct Limits {
    pub turns: u64,
    pub depth: u32,
    pub fibers: u32,
}
