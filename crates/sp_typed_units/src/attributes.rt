// Attributes of fields, elements and groups.
use sp_base::{ByteList, Span};
use sp_typed::Expr;
use sp_words::AttributeName;

/// An attribute.
#[derive(Drop)]
pub struct Attribute {
    pub span: Span,
    pub name: AttributeName,
    /// Its value, if it has one.
    pub value: Option<Expr>,
    /// The number of the order that its value is, where it is constant and an order is wanted.
    pub number: Option<u64>,
    /// The bytes that its value is, where it is constant and a delimiter is wanted.
    pub bytes: Option<ByteList>,
}
