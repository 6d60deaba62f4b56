// Values made from their parts.
ghost use Rattle.std.specs.Prelude.{◌≡◌, ◌^◌, ◌<◌, IfOk, IsTrue, string_bytes};
ghost use Rattle.sp_numbers.specs.Numbers.{width_bits, fits_signed};
ghost use Rattle.sp_value.specs.Val.{void, bool, uint, int, bytes, str, enum, bits, tuple, vector, set, map, unit, place, vals_of, entries_of};
ghost use Rattle.sp_value.specs.Ascending.{own_key, entry_key, IsAscending};

use crate::pieces::one_piece;
use crate::value::{Node, Value};
use sp_base::NoMemory;
use sp_numbers::Width;
use std::rc::Rc;

/// A count of the members of a set or a map. There is no memory for more than 2^32 - 1.
fn count(n: usize) -> Result<u32, NoMemory>
    ensures { IfOk result (λ count. count ≡ n) }
{
    if n > u32::MAX as usize {
        return Err(NoMemory);
    }
    Ok(n as u32)
}

impl Value {
    /// The value of a field that has none.
    pub fn void() -> Value
        ensures { result ≡ void }
    {
        Value { node: Node::Void }
    }

    pub fn bool(b: bool) -> Value
        ensures { result ≡ bool b }
    {
        Value {
            node: Node::Bool(b),
        }
    }

    /// An unsigned integer of a width.
    pub fn uint(width: Width, n: u64) -> Value
        requires { n < 2 ^ width_bits width }
        ensures { result ≡ uint width n }
    {
        Value {
            node: Node::Uint(width, n),
        }
    }

    /// A signed integer of a width.
    pub fn int(width: Width, n: i64) -> Value
        requires { IsTrue (fits_signed width n) }
        ensures { result ≡ int width n }
    {
        Value {
            node: Node::Int(width, n),
        }
    }

    pub fn bytes(list: Vec<u8>) -> Result<Value, NoMemory>
        ensures { IfOk result (λ value. value ≡ bytes list.items) }
    {
        let list = Rc::new(*list.allocator(), list)?;
        Ok(Value {
            node: Node::Bytes(list),
        })
    }

    pub fn str(text: String) -> Result<Value, NoMemory>
        ensures { IfOk result (λ value. value ≡ str (string_bytes text)) }
    {
        let text = Rc::new(*text.allocator(), text)?;
        Ok(Value {
            node: Node::Str(text),
        })
    }

    /// The label with a number, of the enum with the number `kind`.
    pub fn label(kind: u32, n: u64) -> Value
        ensures { result ≡ enum kind n }
    {
        Value {
            node: Node::Enum(kind, n),
        }
    }

    /// The bitfield with the number `kind` whose named ranges hold these numbers, in the order in which its type
    /// declares them.
    pub fn bits(kind: u32, ranges: Vec<u64>) -> Result<Value, NoMemory>
        ensures { IfOk result (λ value. value ≡ bits kind ranges.items) }
    {
        let ranges = Rc::new(*ranges.allocator(), ranges)?;
        Ok(Value {
            node: Node::Bits(kind, ranges),
        })
    }

    pub fn tuple(members: Vec<Value>) -> Result<Value, NoMemory>
        ensures { IfOk result (λ value. value ≡ tuple (vals_of members.items)) }
    {
        let members = Rc::new(*members.allocator(), members)?;
        Ok(Value {
            node: Node::Tuple(members),
        })
    }

    pub fn vector(items: Vec<Value>) -> Result<Value, NoMemory>
        ensures { IfOk result (λ value. value ≡ vector (vals_of items.items)) }
    {
        let items = Rc::new(*items.allocator(), items)?;
        Ok(Value {
            node: Node::Vector(items),
        })
    }

    /// The set of keys that ascend. A set of keys in another order is made from the empty one.
    pub fn set(keys: Vec<Value>) -> Result<Value, NoMemory>
        requires { IsAscending own_key keys.items }
        ensures { IfOk result (λ value. value ≡ set (vals_of keys.items)) }
    {
        let alloc = *keys.allocator();
        let n = count(keys.len())?;
        let pieces = Rc::new(alloc, one_piece(alloc, keys)?)?;
        Ok(Value {
            node: Node::Set(n, pieces),
        })
    }

    /// The map of entries whose keys ascend. A map of entries in another order is made from the empty one.
    pub fn map(entries: Vec<(Value, Value)>) -> Result<Value, NoMemory>
        requires { IsAscending entry_key entries.items }
        ensures { IfOk result (λ value. value ≡ map (entries_of entries.items)) }
    {
        let alloc = *entries.allocator();
        let n = count(entries.len())?;
        let pieces = Rc::new(alloc, one_piece(alloc, entries)?)?;
        Ok(Value {
            node: Node::Map(n, pieces),
        })
    }

    /// The unit whose instance has this number.
    pub fn unit(instance: usize) -> Value
        ensures { result ≡ unit instance }
    {
        Value {
            node: Node::Unit(instance),
        }
    }

    /// The iterator at a place of an input, from 0.
    pub fn place(at: u64) -> Value
        ensures { result ≡ place at }
    {
        Value {
            node: Node::Place(at),
        }
    }
}
