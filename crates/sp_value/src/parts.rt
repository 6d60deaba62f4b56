// A value taken apart, so that what it holds is moved.
ghost use Rattle.std.specs.Prelude.{◌≡◌, IfOk};
ghost use Rattle.sp_value.specs.Owned.{value_of_parts};
ghost use Rattle.sp_value.specs.Pieces.{all_in};

use crate::keyed::{Keyed, append_copies};
use crate::value::{Node, Value};
use sp_base::NoMemory;
use sp_numbers::Width;
use std::alloc::Global;
use std::rc::Rc;

/// One level of a value, with what is below it owned.
#[derive(Drop)]
pub enum Parts {
    /// what a field without a value holds
    Void,
    Bool(bool),
    Uint(Width, u64),
    Int(Width, i64),
    Bytes(Vec<u8>),
    Str(String),
    /// the number of an enum's type, and the label's number
    Enum(u32, u64),
    /// the number of a bitfield's type, and the numbers of its named ranges
    Bits(u32, Vec<u64>),
    Tuple(Vec<Value>),
    Vector(Vec<Value>),
    /// ascending, none twice
    Set(Vec<Value>),
    /// keys and values, the keys ascending, none twice
    Map(Vec<(Value, Value)>),
    /// the number of a unit's instance
    Unit(usize),
    /// a place of an input, from 0
    Place(u64),
}

/// The items of all pieces in one list.
fn all_items<T: Keyed>(alloc: Global, pieces: &[Rc<Vec<T>>]) -> Result<Vec<T>, NoMemory>
    ensures { IfOk result (λ items. items.items ≡ all_in pieces.now) }
{
    let mut items = Vec::new(alloc);
    for piece in pieces {
        append_copies(&mut items, piece.as_slice())?;
    }
    Ok(items)
}

impl Value {
    /// The value's first level, with what is below it. A list that no copy of the value shares is moved and takes no
    /// memory, and else it is copied; the members of a set and the entries of a map are copied into one list.
    pub fn into_parts(self) -> Result<Parts, NoMemory>
        ensures { IfOk result (λ parts. value_of_parts parts ≡ self) }
    {
        let parts = match self.node {
            Node::Void => Parts::Void,
            Node::Bool(b) => Parts::Bool(b),
            Node::Uint(width, n) => Parts::Uint(width, n),
            Node::Int(width, n) => Parts::Int(width, n),
            Node::Bytes(bytes) => Parts::Bytes(Rc::unwrap_or_clone(bytes)?),
            Node::Str(text) => Parts::Str(Rc::unwrap_or_clone(text)?),
            Node::Enum(kind, n) => Parts::Enum(kind, n),
            Node::Bits(kind, ranges) => Parts::Bits(kind, Rc::unwrap_or_clone(ranges)?),
            Node::Tuple(members) => Parts::Tuple(Rc::unwrap_or_clone(members)?),
            Node::Vector(items) => Parts::Vector(Rc::unwrap_or_clone(items)?),
            Node::Set(_, keys) => Parts::Set(all_items(*keys.allocator(), keys.as_slice())?),
            Node::Map(_, entries) => Parts::Map(all_items(
                *entries.allocator(),
                entries.as_slice(),
            )?),
            Node::Unit(instance) => Parts::Unit(instance),
            Node::Place(at) => Parts::Place(at),
        };
        Ok(parts)
    }
}
