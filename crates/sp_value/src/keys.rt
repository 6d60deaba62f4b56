// Sets and maps: keys are asked for, put and taken away.
ghost use Rattle.std.specs.Prelude.{◌≡◌, suc, length, if◌then◌else◌, IfOk, OnOk, OnErr, option_copied};
ghost use Rattle.sp_value.specs.Ascending.{with_key, without};
ghost use Rattle.sp_value.specs.Pieces.{all_in, ArePieces};
ghost use Rattle.sp_value.specs.Changes.{IsSet, IsMap, IsKeyed, value_at, has_key, with_entry, with_member, without_key};

use crate::keyed::Keyed;
use crate::keyed_pieces::{has_key, put_item, take_key};
use crate::maps::map_get;
use crate::pieces::copy_of;
use crate::value::{Node, Value};
use sp_base::NoMemory;
use std::rc::Rc;

fn put_own<T: Keyed>(pieces: &mut Rc<Vec<Rc<Vec<T>>>>, item: T) -> Result<bool, NoMemory>
    requires { ArePieces T.key pieces.old.value.items }
    ensures ok { OnOk result (all_in pieces.new.value.items ≡ with_key T.key item
        (all_in pieces.old.value.items)) }
    ensures grows { IfOk result (λ new. length (all_in pieces.new.value.items) ≡
        (if new then suc (length (all_in pieces.old.value.items)) else length
        (all_in pieces.old.value.items))) }
    ensures err { OnErr result (all_in pieces.new.value.items ≡ all_in pieces.old.value.items) }
    ensures pieces { ArePieces T.key pieces.new.value.items }
{
    match Rc::get_mut(pieces) {
        Some(own) => put_item(own, item),
        None => {
            let alloc = *pieces.allocator();
            let mut copy = copy_of(pieces)?;
            let new = put_item(&mut copy, item)?;
            *pieces = Rc::new(alloc, copy)?;
            Ok(new)
        }
    }
}

fn take_own<T: Keyed>(pieces: &mut Rc<Vec<Rc<Vec<T>>>>, key: &Value) -> Result<bool, NoMemory>
    requires { ArePieces T.key pieces.old.value.items }
    ensures ok { OnOk result (all_in pieces.new.value.items ≡ without T.key key.now
        (all_in pieces.old.value.items)) }
    ensures shrinks { IfOk result (λ took. length (all_in pieces.old.value.items) ≡
        (if took then suc (length (all_in pieces.new.value.items)) else length
        (all_in pieces.new.value.items))) }
    ensures err { OnErr result (all_in pieces.new.value.items ≡ all_in pieces.old.value.items) }
    ensures pieces { ArePieces T.key pieces.new.value.items }
{
    match Rc::get_mut(pieces) {
        Some(own) => take_key(own, key),
        None => {
            let alloc = *pieces.allocator();
            let mut copy = copy_of(pieces)?;
            let took = take_key(&mut copy, key)?;
            *pieces = Rc::new(alloc, copy)?;
            Ok(took)
        }
    }
}

fn put_counted<T: Keyed>(
    n: &mut u32,
    pieces: &mut Rc<Vec<Rc<Vec<T>>>>,
    item: T,
) -> Result<(), NoMemory>
    requires pieces { ArePieces T.key pieces.old.value.items }
    requires count { n.old ≡ length (all_in pieces.old.value.items) }
    ensures ok { OnOk result (all_in pieces.new.value.items ≡ with_key T.key item
        (all_in pieces.old.value.items)) }
    ensures err { OnErr result (all_in pieces.new.value.items ≡ all_in pieces.old.value.items) }
    ensures pieces { ArePieces T.key pieces.new.value.items }
    ensures count { n.new ≡ length (all_in pieces.new.value.items) }
{
    if *n == u32::MAX {
        return Err(NoMemory);
    }
    if put_own(pieces, item)? {
        *n += 1;
    }
    Ok(())
}

fn take_counted<T: Keyed>(
    n: &mut u32,
    pieces: &mut Rc<Vec<Rc<Vec<T>>>>,
    key: &Value,
) -> Result<(), NoMemory>
    requires pieces { ArePieces T.key pieces.old.value.items }
    requires count { n.old ≡ length (all_in pieces.old.value.items) }
    ensures ok { OnOk result (all_in pieces.new.value.items ≡ without T.key key.now
        (all_in pieces.old.value.items)) }
    ensures err { OnErr result (all_in pieces.new.value.items ≡ all_in pieces.old.value.items) }
    ensures pieces { ArePieces T.key pieces.new.value.items }
    ensures count { n.new ≡ length (all_in pieces.new.value.items) }
{
    if take_own(pieces, key)? {
        *n -= 1;
    }
    Ok(())
}

impl Value {
    /// Whether a key is in a set or a map.
    #[tactic(auto, using(crate::proofs::Lists::list_of_vals_of, crate::proofs::Lists::pairs_of_entries_of))]
    pub fn contains(&self, key: &Value) -> bool
        requires { IsKeyed self.now }
        ensures { result ≡ has_key self.now key.now }
    {
        match &self.node {
            Node::Set(_, keys) => has_key(keys.as_slice(), key),
            Node::Map(_, entries) => has_key(entries.as_slice(), key),
            _ => unreachable!(),
        }
    }

    /// The value that a map has at a key.
    #[tactic(auto, using(crate::proofs::Lists::pairs_of_entries_of))]
    pub fn get(&self, key: &Value) -> Option<&Value>
        requires { IsMap self.now }
        ensures { option_copied result ≡ value_at self.now key.now }
    {
        match &self.node {
            Node::Map(_, entries) => map_get(entries.as_slice(), key),
            _ => unreachable!(),
        }
    }

    /// Puts a value at a key of a map, in place of what it had there, or changes nothing.
    #[tactic(auto, using(crate::proofs::Lists::pairs_of_entries_of))]
    pub fn insert(&mut self, key: Value, value: Value) -> Result<(), NoMemory>
        requires { IsMap self.old }
        ensures ok { OnOk result (self.new ≡ with_entry self.old key value) }
        ensures err { OnErr result (self.new ≡ self.old) }
    {
        match &mut self.node {
            Node::Map(n, entries) => put_counted(n, entries, (key, value)),
            _ => unreachable!(),
        }
    }

    /// Adds a key to a set, or changes nothing.
    #[tactic(auto, using(crate::proofs::Lists::list_of_vals_of))]
    pub fn add(&mut self, key: Value) -> Result<(), NoMemory>
        requires { IsSet self.old }
        ensures ok { OnOk result (self.new ≡ with_member self.old key) }
        ensures err { OnErr result (self.new ≡ self.old) }
    {
        match &mut self.node {
            Node::Set(n, keys) => put_counted(n, keys, key),
            _ => unreachable!(),
        }
    }

    /// Takes a key away from a set, or a key with its value from a map. A key that isn't there changes nothing.
    #[tactic(auto, using(crate::proofs::Lists::list_of_vals_of, crate::proofs::Lists::pairs_of_entries_of))]
    pub fn delete(&mut self, key: &Value) -> Result<(), NoMemory>
        requires { IsKeyed self.old }
        ensures ok { OnOk result (self.new ≡ without_key self.old key.now) }
        ensures err { OnErr result (self.new ≡ self.old) }
    {
        match &mut self.node {
            Node::Set(n, keys) => take_counted(n, keys, key),
            Node::Map(n, entries) => take_counted(n, entries, key),
            _ => unreachable!(),
        }
    }
}
