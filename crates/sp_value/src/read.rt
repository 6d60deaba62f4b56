// The parts of a value: each answer is `None` for a value of another kind.
ghost use Rattle.std.specs.Prelude.{◌≡◌, IfSome, option_copied};
ghost use Rattle.std.specs.Option.{option_map};
ghost use Rattle.sp_value.specs.Ascending.{own_key, entry_key};
ghost use Rattle.sp_value.specs.Pieces.{all_in, ArePieces};
ghost use Rattle.sp_value.specs.Parts.{bool_in, number_in, signed_in, width_in, bytes_in, text_in, label_in, bits_in, items_in, members_in, entries_in, instance_in, place_in, size_in};

use crate::value::{Node, Value};
use sp_numbers::Width;
use std::rc::Rc;

impl Value {
    pub fn as_bool(&self) -> Option<bool>
        ensures { result ≡ bool_in self.now }
    {
        match &self.node {
            Node::Bool(b) => Some(*b),
            _ => None,
        }
    }

    /// The number of an unsigned integer.
    pub fn as_uint(&self) -> Option<u64>
        ensures { result ≡ number_in self.now }
    {
        match &self.node {
            Node::Uint(_, n) => Some(*n),
            _ => None,
        }
    }

    /// The number of a signed integer.
    pub fn as_int(&self) -> Option<i64>
        ensures { result ≡ signed_in self.now }
    {
        match &self.node {
            Node::Int(_, n) => Some(*n),
            _ => None,
        }
    }

    /// The width of an integer.
    pub fn width(&self) -> Option<Width>
        ensures { result ≡ width_in self.now }
    {
        match &self.node {
            Node::Uint(width, _) => Some(*width),
            Node::Int(width, _) => Some(*width),
            _ => None,
        }
    }

    pub fn as_bytes(&self) -> Option<&[u8]>
        ensures { option_copied result ≡ bytes_in self.now }
    {
        match &self.node {
            Node::Bytes(bytes) => Some(bytes.as_slice()),
            _ => None,
        }
    }

    pub fn as_str(&self) -> Option<&str>
        ensures { option_copied result ≡ text_in self.now }
    {
        match &self.node {
            Node::Str(text) => Some(text.as_str()),
            _ => None,
        }
    }

    /// The number of an enum's type, and the label's number.
    pub fn as_label(&self) -> Option<(u32, u64)>
        ensures { result ≡ label_in self.now }
    {
        match &self.node {
            Node::Enum(kind, n) => Some((*kind, *n)),
            _ => None,
        }
    }

    /// The number of a bitfield's type, and the numbers of its named ranges in the order in which the type declares them.
    pub fn as_bits(&self) -> Option<(u32, &[u64])>
        ensures { option_map (λ found. (found.0, found.1.now)) result ≡ bits_in self.now }
    {
        match &self.node {
            Node::Bits(kind, ranges) => Some((*kind, ranges.as_slice())),
            _ => None,
        }
    }

    /// The members of a tuple or the items of a vector, in order.
    #[tactic(auto, using(crate::proofs::Lists::list_of_vals_of))]
    pub fn as_items(&self) -> Option<&[Value]>
        ensures { option_copied result ≡ items_in self.now }
    {
        match &self.node {
            Node::Tuple(items) => Some(items.as_slice()),
            Node::Vector(items) => Some(items.as_slice()),
            _ => None,
        }
    }

    /// The members of a set, ascending, in pieces none of which is empty.
    #[tactic(auto, using(crate::proofs::Lists::list_of_vals_of))]
    pub fn as_members(&self) -> Option<&[Rc<Vec<Value>>]>
        ensures members { option_map (λ pieces. all_in pieces.now) result ≡ members_in self.now }
        ensures pieces { IfSome result (λ pieces. ArePieces own_key pieces.now) }
    {
        match &self.node {
            Node::Set(_, members) => Some(members.as_slice()),
            _ => None,
        }
    }

    /// The keys and values of a map, in the order of the keys, in pieces none of which is empty.
    #[tactic(auto, using(crate::proofs::Lists::pairs_of_entries_of))]
    pub fn as_entries(&self) -> Option<&[Rc<Vec<(Value, Value)>>]>
        ensures entries { option_map (λ pieces. all_in pieces.now) result ≡ entries_in self.now }
        ensures pieces { IfSome result (λ pieces. ArePieces entry_key pieces.now) }
    {
        match &self.node {
            Node::Map(_, entries) => Some(entries.as_slice()),
            _ => None,
        }
    }

    /// The number of a unit's instance.
    pub fn as_unit(&self) -> Option<usize>
        ensures { result ≡ instance_in self.now }
    {
        match &self.node {
            Node::Unit(instance) => Some(*instance),
            _ => None,
        }
    }

    /// The place at which an iterator stands, from 0.
    pub fn as_place(&self) -> Option<u64>
        ensures { result ≡ place_in self.now }
    {
        match &self.node {
            Node::Place(at) => Some(*at),
            _ => None,
        }
    }

    /// How many bytes, members or entries there are. No text has a size here: it is counted in characters.
    #[tactic(auto, using(crate::proofs::Lists::list_of_vals_of, crate::proofs::Lists::pairs_of_entries_of))]
    pub fn size(&self) -> Option<usize>
        ensures { result ≡ size_in self.now }
    {
        match &self.node {
            Node::Bytes(bytes) => Some(bytes.len()),
            Node::Tuple(items) => Some(items.len()),
            Node::Vector(items) => Some(items.len()),
            Node::Set(n, _) => Some(*n as usize),
            Node::Map(n, _) => Some(*n as usize),
            _ => None,
        }
    }
}
