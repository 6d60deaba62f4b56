// A piece of a set or of a map: a key is found by halves of the ascending list, and put or taken away in place.
ghost use Rattle.std.specs.Prelude.{◌≡◌, ◌<◌, ◌++◌, suc, length, if◌then◌else◌, IfOk, OnOk, OnErr, is_some, option_copied};
ghost use Rattle.std.specs.Option.{option_map};
ghost use Rattle.std.specs.List.{remove};
ghost use Rattle.sp_value.specs.Val.{Val};
ghost use Rattle.sp_value.specs.Ascending.{own_key, entry_key, IsAscending, found, with_key, without};
ghost use Rattle.sp_value.specs.inside.Places.{IsPlace};

use crate::order::compare;
use crate::value::Value;
use sp_base::NoMemory;
use std::alloc::Global;
use std::rc::Rc;

/// What stands under a key: a set's member is its own, and a map's entry has one.
pub(crate) trait Keyed: Drop {
    /// the key
    ghost key: { Self → Val };

    fn key(&self) -> &Value
        ensures { result.now ≡ key self.now };

    /// The same once more.
    fn duplicate(&self) -> Result<Self, NoMemory>
        ensures { IfOk result (λ copy. copy ≡ self.now) };
}

impl Keyed for Value {
    ghost key = { own_key };

    fn key(&self) -> &Value {
        self
    }

    fn duplicate(&self) -> Result<Value, NoMemory> {
        self.copy()
    }
}

impl Keyed for (Value, Value) {
    ghost key = { entry_key };

    fn key(&self) -> &Value {
        &self.0
    }

    fn duplicate(&self) -> Result<(Value, Value), NoMemory> {
        Ok((self.0.copy()?, self.1.copy()?))
    }
}

/// Appends the same once more, each sharing its members with the one that it is a copy of.
pub(crate) fn append_copies<T: Keyed>(items: &mut Vec<T>, more: &[T]) -> Result<(), NoMemory>
    ensures { OnOk result (items.new.items ≡ items.old.items ++ more.now) }
{
    for item in more {
        items.push(item.duplicate()?)?;
    }
    Ok(())
}

/// The same in a list of their own.
pub(crate) fn copy_items<T: Keyed>(alloc: Global, items: &[T]) -> Result<Vec<T>, NoMemory>
    ensures { IfOk result (λ copies. copies.items ≡ items.now) }
{
    let mut copies = Vec::with_capacity(alloc, items.len())?;
    append_copies(&mut copies, items)?;
    Ok(copies)
}

/// Where a key is in the list, or at `Err` where it belongs.
pub(crate) fn place<T: Keyed>(items: &[T], key: &Value) -> Result<usize, usize>
    requires { IsAscending T.key items.now }
    ensures { IsPlace T.key items.now key.now result }
{
    items.binary_search_by(|item| compare(item.key(), key))
}

pub(crate) fn has<T: Keyed>(items: &[T], key: &Value) -> bool
    requires { IsAscending T.key items.now }
    ensures { result ≡ is_some (found T.key key.now items.now) }
{
    place(items, key).is_ok()
}

pub(crate) fn value_in<'a>(entries: &'a [(Value, Value)], key: &Value) -> Option<&'a Value>
    requires { IsAscending entry_key entries.now }
    ensures { option_copied result ≡ option_map (λ (e : Val × Val). e.1)
        (found entry_key key.now entries.now) }
{
    match place(entries, key) {
        Ok(i) => Some(&entries[i].1),
        Err(_) => None,
    }
}

fn put<T: Keyed>(items: &mut Vec<T>, item: T) -> Result<bool, NoMemory>
    requires { IsAscending T.key items.old.items }
    ensures ok { OnOk result (items.new.items ≡ with_key T.key item items.old.items) }
    ensures grows { IfOk result (λ new. length items.new.items ≡
        (if new then suc (length items.old.items) else length items.old.items)) }
    ensures err { OnErr result (items.new.items ≡ items.old.items) }
{
    match place(items.as_slice(), item.key()) {
        Ok(i) => {
            items[i] = item;
            Ok(false)
        }
        Err(i) => {
            items.insert(i, item)?;
            Ok(true)
        }
    }
}

/// Puts an item into a piece, which is copied where a copy shares it, and answers whether its key is new.
pub(crate) fn put_shared<T: Keyed>(items: &mut Rc<Vec<T>>, item: T) -> Result<bool, NoMemory>
    requires { IsAscending T.key items.old.value.items }
    ensures ok { OnOk result (items.new.value.items ≡ with_key T.key item items.old.value.items) }
    ensures grows { IfOk result (λ new. length items.new.value.items ≡
        (if new then suc (length items.old.value.items) else length items.old.value.items)) }
    ensures err { OnErr result (items.new.value.items ≡ items.old.value.items) }
{
    match Rc::get_mut(items) {
        Some(own) => put(own, item),
        None => {
            let alloc = *items.allocator();
            let mut copies = copy_items(alloc, items.as_slice())?;
            let new = put(&mut copies, item)?;
            *items = Rc::new(alloc, copies)?;
            Ok(new)
        }
    }
}

fn remove_item<T: Keyed>(items: &mut Rc<Vec<T>>, i: usize) -> Result<bool, NoMemory>
    requires { i < length items.old.value.items }
    ensures ok { OnOk result (items.new.value.items ≡ remove items.old.value.items i) }
    ensures shrinks { IfOk result (λ took. length items.old.value.items ≡
        (if took then suc (length items.new.value.items) else length items.new.value.items)) }
    ensures err { OnErr result (items.new.value.items ≡ items.old.value.items) }
{
    match Rc::get_mut(items) {
        Some(own) => {
            own.remove(i);
            Ok(true)
        }
        None => {
            let alloc = *items.allocator();
            let mut copies = copy_items(alloc, items.as_slice())?;
            copies.remove(i);
            *items = Rc::new(alloc, copies)?;
            Ok(true)
        }
    }
}

/// Takes a key away from a piece, and answers whether it was there. The piece is copied only then, and only where a copy
/// shares it.
pub(crate) fn take<T: Keyed>(items: &mut Rc<Vec<T>>, key: &Value) -> Result<bool, NoMemory>
    requires { IsAscending T.key items.old.value.items }
    ensures ok { OnOk result (items.new.value.items ≡ without T.key key.now items.old.value.items) }
    ensures shrinks { IfOk result (λ took. length items.old.value.items ≡
        (if took then suc (length items.new.value.items) else length items.new.value.items)) }
    ensures err { OnErr result (items.new.value.items ≡ items.old.value.items) }
{
    match place(items.as_slice(), key) {
        Ok(i) => remove_item(items, i),
        Err(_) => Ok(false),
    }
}
