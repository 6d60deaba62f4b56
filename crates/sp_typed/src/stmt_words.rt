// What a statement is, apart from its parts.
use crate::words::Written;
use sp_base::{Span, Text};
use sp_types::Type;
use sp_words::AssignOp;

/// The declaration of a local.
#[derive(Drop)]
pub struct Local {
    /// Its slot in its body.
    pub slot: u32,
    pub name: Span,
    /// What is written, or else the type of the value.
    pub ty: Type,
    /// The type as it is written, if it is.
    pub written: Option<Written>,
    /// Whether an open block has the name already.
    pub taken: bool,
}

/// What a statement without parts is.
#[derive(Drop)]
pub enum BareOp {
    /// A local that begins as its type does.
    Local(Local),
    /// `return;`
    Return,
    /// `break;`, and whether it is in a loop.
    Break(bool),
    /// `continue;`, and whether it is in a loop.
    Continue(bool),
    /// `stop;`, and whether it is in the body of a foreach hook.
    Stop(bool),
    /// `confirm;`, and whether it is in a body of a unit that sees the unit.
    Confirm(bool),
    /// `reject;`, and whether it is in a body of a unit that sees the unit.
    Reject(bool),
}

/// A statement without parts.
#[derive(Drop)]
pub struct Bare {
    pub span: Span,
    pub op: BareOp,
}

/// What a statement with one expression is. A slot is that in which the owner of a changed member is kept, where that is
/// neither `self` nor a local.
#[derive(Drop)]
pub enum ValuedOp {
    /// A local and its value.
    Local(Local),
    /// `return e;`
    Return,
    /// `throw e;`
    Throw,
    /// `assert e : "text";`
    Assert(Option<Text>),
    /// `add s[k];`
    Add(Option<u32>),
    /// `delete s[k];`
    Delete(Option<u32>),
    /// `e;`
    Expr,
}

/// A statement with one expression.
#[derive(Drop)]
pub struct Valued {
    pub span: Span,
    pub op: ValuedOp,
}

/// `t = e;` and the like.
#[derive(Clone, Copy)]
pub struct Assign {
    pub op: AssignOp,
    /// The slot in which the owner of the target is kept, where that is neither `self` nor a local.
    pub owner: Option<u32>,
}

/// `for ( x in e )`
#[derive(Drop)]
pub struct For {
    /// The slot of its variable.
    pub slot: u32,
    pub name: Span,
    /// The type of its variable.
    pub ty: Type,
    /// Whether an open block has the name already.
    pub taken: bool,
}
