// A node of an expression, apart from its parts: where it stands, its type, and what it is.
use crate::words::{LeafOp, ManyOp, OneOp, TwoOp};
use sp_base::Span;
use sp_types::Type;

/// A node without parts.
#[derive(Drop)]
pub struct Leaf {
    pub span: Span,
    pub ty: Type,
    pub op: LeafOp,
}

/// A node with one part.
#[derive(Drop)]
pub struct One {
    pub span: Span,
    pub ty: Type,
    pub op: OneOp,
}

/// A node with two parts.
#[derive(Drop)]
pub struct Two {
    pub span: Span,
    pub ty: Type,
    pub op: TwoOp,
}

/// `c ? a : b`
#[derive(Drop)]
pub struct Three {
    pub span: Span,
    pub ty: Type,
}

/// A node with any number of parts.
#[derive(Drop)]
pub struct Many {
    pub span: Span,
    pub ty: Type,
    pub op: ManyOp,
}
