// A value whose members are shared with its copies, seen as what it stands for.
use sp_base::NoMemory;
use sp_numbers::Width;
use std::alloc::{AllocError, Global};
use std::marker::Model;
use std::rc::Rc;

/// A value of a run.
#[cycle(value)]
#[derive(Drop)]
pub struct Value {
    pub(crate) node: Node,
}

/// One level of a value. Copies share the lists behind `Rc`.
#[cycle(value)]
#[derive(Drop)]
pub(crate) enum Node {
    /// what a field without a value holds
    Void,
    Bool(bool),
    Uint(Width, u64),
    Int(Width, i64),
    Bytes(Rc<Vec<u8>>),
    /// UTF-8 text
    Str(Rc<String>),
    /// the number of an enum's type, and the label's number
    Enum(u32, u64),
    /// the number of a bitfield's type, and the numbers of its named ranges
    Bits(u32, Rc<Vec<u64>>),
    Tuple(Rc<Vec<Value>>),
    Vector(Rc<Vec<Value>>),
    /// how many members there are, and they, ascending, none twice, in pieces none of which is empty
    Set(u32, Rc<Vec<Rc<Vec<Value>>>>),
    /// how many entries there are, and they, the keys ascending, none twice, in pieces none of which is empty
    Map(u32, Rc<Vec<Rc<Vec<(Value, Value)>>>>),
    /// the number of a unit's instance
    Unit(usize),
    /// a place of an input, from 0
    Place(u64),
}

impl Model for Value {
    ghost use Rattle.sp_value.specs.Val.{Val};
    ghost use Rattle.sp_value.specs.inside.Codes.{coded_val};
    ghost use Rattle.sp_value.specs.inside.Sizes.{val_size};

    ghost Value = { Val };

    ghost coded = { coded_val };

    ghost use Rattle.sp_value.specs.View.{val_of};

    ghost view = { λ v. val_of v.node };

    ghost use Rattle.sp_value.specs.Valid.{IsValid};

    ghost invariant = { λ v. IsValid v.node };

    ghost size = { val_size };

    ghost use Rattle.std.proofs.Common.{arith};
    ghost use Rattle.sp_value.specs.inside.Falls.{deep-Node-le};

    ghost size_decreases = { λ v h. Prim.omega (arith, deep-Node-le v.node) };
}

impl Value {
    ghost use Rattle.std.specs.Prelude.{◌≡◌, IfOk};

    /// An equal value, which shares the members of this one.
    pub fn copy(&self) -> Result<Value, NoMemory>
        ensures { IfOk result (λ copy. copy ≡ self.now) }
    {
        let node = match &self.node {
            Node::Void => Node::Void,
            Node::Bool(b) => Node::Bool(*b),
            Node::Uint(width, n) => Node::Uint(*width, *n),
            Node::Int(width, n) => Node::Int(*width, *n),
            Node::Bytes(bytes) => Node::Bytes(bytes.clone()?),
            Node::Str(text) => Node::Str(text.clone()?),
            Node::Enum(kind, n) => Node::Enum(*kind, *n),
            Node::Bits(kind, ranges) => Node::Bits(*kind, ranges.clone()?),
            Node::Tuple(members) => Node::Tuple(members.clone()?),
            Node::Vector(items) => Node::Vector(items.clone()?),
            Node::Set(n, keys) => Node::Set(*n, keys.clone()?),
            Node::Map(n, entries) => Node::Map(*n, entries.clone()?),
            Node::Unit(instance) => Node::Unit(*instance),
            Node::Place(place) => Node::Place(*place),
        };
        Ok(Value { node })
    }
}

impl Clone for Value {
    ghost use Rattle.sp_value.specs.Val.{IsSame};

    ghost is_clone = { IsSame };

    fn clone(&self) -> Result<Value, AllocError> {
        match self.copy() {
            Ok(copy) => Ok(copy),
            Err(_) => Err(AllocError),
        }
    }
}
