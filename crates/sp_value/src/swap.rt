// Values inside a value, taken out and put back in place: what is changed between copies nothing that is not shared.
ghost use Rattle.std.specs.Prelude.{◌≡◌, ◌<◌, true, length, slice_get, slice_set, is_some, unwrap_or, IfOk, OnOk, OnErr};
ghost use Rattle.std.specs.Option.{option_map};
ghost use Rattle.sp_value.specs.Val.{Val};
ghost use Rattle.sp_value.specs.Ascending.{entry_key, IsAscending, found};
ghost use Rattle.sp_value.specs.Pieces.{all_in, ArePieces};
ghost use Rattle.sp_value.specs.Changes.{IsSequence, IsMap, items_of, with_item, value_at, has_key, with_value_in, with_value};

use crate::keyed::place;
use crate::maps::map_swap;
use crate::pieces::copy_of;
use crate::value::{Node, Value};
use sp_base::NoMemory;
use std::mem;
use std::rc::Rc;

fn swap_in(items: &mut Rc<Vec<Value>>, i: usize, x: &mut Value) -> Result<(), NoMemory>
    requires { i < length items.old.value.items }
    ensures ok { OnOk result (items.new.value.items ≡ slice_set items.old.value.items i x.old) }
    ensures taken { OnOk result (slice_get items.old.value.items i ≡ Some x.new) }
    ensures err { OnErr result (items.new.value.items ≡ items.old.value.items) }
    ensures kept { OnErr result (x.new ≡ x.old) }
{
    let own = Rc::make_mut(items)?;
    mem::swap(&mut own[i], x);
    Ok(())
}

fn swap_at(entries: &mut Rc<Vec<(Value, Value)>>, i: usize, x: &mut Value) -> Result<bool, NoMemory>
    requires { i < length entries.old.value.items }
    ensures there { IfOk result (λ there. there ≡ true) }
    ensures ok { OnOk result ((e : Val × Val) → slice_get entries.old.value.items i ≡ Some e →
        entries.new.value.items ≡ slice_set entries.old.value.items i (e.0, x.old)) }
    ensures taken { OnOk result ((e : Val × Val) → slice_get entries.old.value.items i ≡ Some e
        → x.new ≡ e.1) }
    ensures err { OnErr result (entries.new.value.items ≡ entries.old.value.items) }
    ensures kept { OnErr result (x.new ≡ x.old) }
    ensures length { length entries.new.value.items ≡ length entries.old.value.items }
{
    let own = Rc::make_mut(entries)?;
    let entry = &mut own[i];
    mem::swap(&mut entry.1, x);
    Ok(true)
}

// The list is copied only if the key is there.
pub(crate) fn swap_entry(
    entries: &mut Rc<Vec<(Value, Value)>>,
    key: &Value,
    x: &mut Value,
) -> Result<bool, NoMemory>
    requires { IsAscending entry_key entries.old.value.items }
    ensures there { IfOk result (λ there. there ≡ is_some
        (found entry_key key.now entries.old.value.items)) }
    ensures ok { OnOk result (entries.new.value.items
        ≡ with_value_in entries.old.value.items key.now x.old) }
    ensures taken { OnOk result
        (x.new ≡ unwrap_or (option_map (λ (e : Val × Val). e.1)
        (found entry_key key.now entries.old.value.items)) x.old) }
    ensures err { OnErr result (entries.new.value.items ≡ entries.old.value.items) }
    ensures kept { OnErr result (x.new ≡ x.old) }
    ensures length { length entries.new.value.items ≡ length entries.old.value.items }
{
    match place(entries.as_slice(), key) {
        Ok(i) => swap_at(entries, i, x),
        Err(_) => Ok(false),
    }
}

fn swap_in_map(
    pieces: &mut Rc<Vec<Rc<Vec<(Value, Value)>>>>,
    key: &Value,
    x: &mut Value,
) -> Result<bool, NoMemory>
    requires { ArePieces entry_key pieces.old.value.items }
    ensures there { IfOk result (λ there. there ≡ is_some
        (found entry_key key.now (all_in pieces.old.value.items))) }
    ensures ok { OnOk result (all_in pieces.new.value.items ≡ with_value_in
        (all_in pieces.old.value.items) key.now x.old) }
    ensures taken { OnOk result
        (x.new ≡ unwrap_or (option_map (λ (e : Val × Val). e.1)
        (found entry_key key.now (all_in pieces.old.value.items))) x.old) }
    ensures err { OnErr result (all_in pieces.new.value.items ≡ all_in pieces.old.value.items) }
    ensures kept { OnErr result (x.new ≡ x.old) }
    ensures pieces { ArePieces entry_key pieces.new.value.items }
    ensures length { length (all_in pieces.new.value.items)
        ≡ length (all_in pieces.old.value.items) }
{
    match Rc::get_mut(pieces) {
        Some(own) => map_swap(own, key, x),
        None => {
            let alloc = *pieces.allocator();
            let mut copy = copy_of(pieces)?;
            let mut taken = x.copy()?;
            let there = map_swap(&mut copy, key, &mut taken)?;
            *pieces = Rc::new(alloc, copy)?;
            *x = taken;
            Ok(there)
        }
    }
}

impl Value {
    /// Swaps `x` with item `i` of a tuple or a vector, counted from 0, or changes nothing.
    #[tactic(auto, using(crate::proofs::Lists::list_of_vals_of))]
    pub fn swap_item(&mut self, i: usize, x: &mut Value) -> Result<(), NoMemory>
        requires sequence { IsSequence self.old }
        requires within { i < length (items_of self.old) }
        ensures ok { OnOk result (self.new ≡ with_item self.old i x.old) }
        ensures taken { OnOk result (slice_get (items_of self.old) i ≡ Some x.new) }
        ensures err { OnErr result (self.new ≡ self.old) }
        ensures kept { OnErr result (x.new ≡ x.old) }
    {
        match &mut self.node {
            Node::Tuple(items) => swap_in(items, i, x),
            Node::Vector(items) => swap_in(items, i, x),
            _ => unreachable!(),
        }
    }

    /// Swaps `x` with the value that a map has at a key, and answers whether the key is there. Where it isn't, and at an
    /// error, nothing is changed.
    #[tactic(auto, using(crate::proofs::Lists::pairs_of_entries_of))]
    pub fn swap_value(&mut self, key: &Value, x: &mut Value) -> Result<bool, NoMemory>
        requires { IsMap self.old }
        ensures there { IfOk result (λ there. there ≡ has_key self.old key.now) }
        ensures ok { OnOk result (self.new ≡ with_value self.old key.now x.old) }
        ensures taken { OnOk result (x.new ≡ unwrap_or (value_at self.old key.now) x.old) }
        ensures err { OnErr result (self.new ≡ self.old) }
        ensures kept { OnErr result (x.new ≡ x.old) }
    {
        match &mut self.node {
            Node::Map(_, entries) => swap_in_map(entries, key, x),
            _ => unreachable!(),
        }
    }
}
