// The order of values of one type.
ghost use Rattle.std.specs.Prelude.{◌≡◌};
ghost use Rattle.sp_value.specs.Val.{vals_of, entries_of};
ghost use Rattle.sp_value.specs.Order.{val_cmp, kind, vals_cmp, entries_cmp};
ghost use Rattle.sp_value.specs.Pieces.{all_in, NoneEmpty};

use crate::pieces::{Cursor, next_in};
use crate::value::{Node, Value};
use std::cmp::Ordering;
use std::rc::Rc;

/// The number of the kind of a value, from 0.
pub fn kind(value: &Value) -> u8
    ensures { result ≡ kind value.now }
{
    match &value.node {
        Node::Void => 0,
        Node::Bool(_) => 1,
        Node::Uint(_, _) => 2,
        Node::Int(_, _) => 3,
        Node::Bytes(_) => 4,
        Node::Str(_) => 5,
        Node::Enum(_, _) => 6,
        Node::Bits(_, _) => 7,
        Node::Tuple(_) => 8,
        Node::Vector(_) => 9,
        Node::Set(_, _) => 10,
        Node::Map(_, _) => 11,
        Node::Unit(_) => 12,
        Node::Place(_) => 13,
    }
}

/// How two values of one type stand in their order: `false` before `true`, numbers by size, bytes and texts by the
/// first byte that differs, labels of an enum by number, bitfields by their named ranges in turn, and tuples, vectors,
/// sets and maps by their members in turn. A part stands before the whole.
#[cycle(compare)]
#[tactic(auto, using(crate::proofs::Members::size_within, crate::proofs::Members::entry_size_within))]
pub fn compare(a: &Value, b: &Value) -> Ordering
    ensures { result ≡ val_cmp a.now b.now }
{
    match (&a.node, &b.node) {
        (Node::Bool(a), Node::Bool(b)) => a.cmp(b),
        (Node::Uint(_, m), Node::Uint(_, n)) => m.cmp(n),
        (Node::Int(_, m), Node::Int(_, n)) => m.cmp(n),
        (Node::Bytes(a), Node::Bytes(b)) => a.as_slice().cmp(b.as_slice()),
        (Node::Str(a), Node::Str(b)) => a.as_bytes().cmp(b.as_bytes()),
        (Node::Enum(_, m), Node::Enum(_, n)) => m.cmp(n),
        (Node::Bits(_, a), Node::Bits(_, b)) => a.as_slice().cmp(b.as_slice()),
        (Node::Tuple(a), Node::Tuple(b)) => compare_all(a, b),
        (Node::Vector(a), Node::Vector(b)) => compare_all(a, b),
        (Node::Set(_, a), Node::Set(_, b)) => compare_members(a.as_slice(), b.as_slice()),
        (Node::Map(_, a), Node::Map(_, b)) => compare_entries(a.as_slice(), b.as_slice()),
        (Node::Unit(m), Node::Unit(n)) => m.cmp(n),
        (Node::Place(m), Node::Place(n)) => m.cmp(n),
        _ => kind(a).cmp(&kind(b)),
    }
}

#[cycle(compare)]
#[tactic(auto, using(crate::proofs::Members::size_within, crate::proofs::Members::entry_size_within))]
fn compare_all(a: &Vec<Value>, b: &Vec<Value>) -> Ordering
    ensures { result ≡ vals_cmp (vals_of a.now.items) (vals_of b.now.items) }
{
    for i in 0..a.len().min(b.len()) {
        match compare(&a[i], &b[i]) {
            Ordering::Equal => {}
            other => return other,
        }
    }
    a.len().cmp(&b.len())
}

#[cycle(compare)]
fn compare_members(a: &[Rc<Vec<Value>>], b: &[Rc<Vec<Value>>]) -> Ordering
    requires a { NoneEmpty a.now }
    requires b { NoneEmpty b.now }
    ensures { result ≡ vals_cmp (vals_of (all_in a.now)) (vals_of (all_in b.now)) }
{
    let mut i = Cursor::new();
    let mut j = Cursor::new();
    while let Some(x) = next_in(a, &mut i) {
        let Some(y) = next_in(b, &mut j) else {
            return Ordering::Greater;
        };
        match compare(x, y) {
            Ordering::Equal => {}
            other => return other,
        }
    }
    match next_in(b, &mut j) {
        Some(_) => Ordering::Less,
        None => Ordering::Equal,
    }
}

#[cycle(compare)]
fn compare_entries(a: &[Rc<Vec<(Value, Value)>>], b: &[Rc<Vec<(Value, Value)>>]) -> Ordering
    requires a { NoneEmpty a.now }
    requires b { NoneEmpty b.now }
    ensures { result ≡ entries_cmp (entries_of (all_in a.now)) (entries_of (all_in b.now)) }
{
    let mut i = Cursor::new();
    let mut j = Cursor::new();
    while let Some(x) = next_in(a, &mut i) {
        let Some(y) = next_in(b, &mut j) else {
            return Ordering::Greater;
        };
        match compare(&x.0, &y.0).then(compare(&x.1, &y.1)) {
            Ordering::Equal => {}
            other => return other,
        }
    }
    match next_in(b, &mut j) {
        Some(_) => Ordering::Less,
        None => Ordering::Equal,
    }
}
