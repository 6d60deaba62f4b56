// One level of a regular expression, for a `match` on its kind.
ghost use Rattle.std.specs.Prelude.{◌≡◌};
ghost use Rattle.sp_regex.specs.Shapes.{syntax_of};

use crate::bytes::ByteRange;
use crate::tree::{Count, Node, Regex};

/// One level of a regular expression, with what is below it lent.
#[derive(Clone, Copy)]
pub enum Shape<'a> {
    Byte(u8),
    /// any byte
    Any,
    /// the bytes of the ranges or, if it is true that they are negated, all others
    Class(bool, &'a [ByteRange]),
    /// one behind the other
    Sequence(&'a [Regex]),
    /// one of them
    Alternatives(&'a [Regex]),
    /// so many times
    Repeat(&'a Regex, Count),
    Literal(&'a [u8]),
}

impl Regex {
    /// The first level. It copies nothing.
    pub fn shape(&self) -> Shape<'_>
        ensures { syntax_of result ≡ self.now }
    {
        match &self.node {
            Node::Byte(b) => Shape::Byte(*b),
            Node::Any => Shape::Any,
            Node::Class(class) => Shape::Class(class.negated, class.ranges.as_slice()),
            Node::Sequence(parts) => Shape::Sequence(parts.as_slice()),
            Node::Alternatives(parts) => Shape::Alternatives(parts.as_slice()),
            Node::Repeat(atom, count) => Shape::Repeat(atom, *count),
            Node::Literal(bytes) => Shape::Literal(bytes.as_slice()),
        }
    }
}
