// One level of a value, for a `match` on its kind.
ghost use Rattle.std.specs.Prelude.{◌≡◌};
ghost use Rattle.sp_value.specs.Levels.{value_of, HasNoEmptyPiece};
ghost use Rattle.sp_value.specs.Widths.{IsInWidth};
ghost use Rattle.sp_value.specs.Ascending.{IsInOrder};

use crate::value::{Node, Value};
use sp_numbers::Width;
use std::rc::Rc;

/// One level of a value, with what is below it lent.
#[derive(Clone, Copy)]
pub enum Level<'a> {
    /// what a field without a value holds
    Void,
    Bool(bool),
    Uint(Width, u64),
    Int(Width, i64),
    Bytes(&'a [u8]),
    Str(&'a str),
    /// the number of an enum's type, and the label's number
    Enum(u32, u64),
    /// the number of a bitfield's type, and the numbers of its named ranges
    Bits(u32, &'a [u64]),
    Tuple(&'a [Value]),
    Vector(&'a [Value]),
    /// the members, ascending, none twice, in pieces none of which is empty
    Set(&'a [Rc<Vec<Value>>]),
    /// keys and values, the keys ascending, none twice, in pieces none of which is empty
    Map(&'a [Rc<Vec<(Value, Value)>>]),
    /// the number of a unit's instance
    Unit(usize),
    /// a place of an input, from 0
    Place(u64),
}

impl Value {
    /// The value's first level. It copies nothing.
    #[tactic(auto, using(crate::proofs::Lists::list_of_vals_of, crate::proofs::Lists::pairs_of_entries_of))]
    pub fn level(&self) -> Level<'_>
        ensures value { value_of result ≡ self.now }
        ensures in_width { IsInWidth self.now }
        ensures ascending { IsInOrder self.now }
        ensures pieces { HasNoEmptyPiece result }
    {
        match &self.node {
            Node::Void => Level::Void,
            Node::Bool(b) => Level::Bool(*b),
            Node::Uint(width, n) => Level::Uint(*width, *n),
            Node::Int(width, n) => Level::Int(*width, *n),
            Node::Bytes(bytes) => Level::Bytes(bytes.as_slice()),
            Node::Str(text) => Level::Str(text.as_str()),
            Node::Enum(kind, n) => Level::Enum(*kind, *n),
            Node::Bits(kind, ranges) => Level::Bits(*kind, ranges.as_slice()),
            Node::Tuple(members) => Level::Tuple(members.as_slice()),
            Node::Vector(items) => Level::Vector(items.as_slice()),
            Node::Set(_, keys) => Level::Set(keys.as_slice()),
            Node::Map(_, entries) => Level::Map(entries.as_slice()),
            Node::Unit(instance) => Level::Unit(*instance),
            Node::Place(at) => Level::Place(*at),
        }
    }
}
