//! Values that are changed in place, and questions for sizes: each line says which.
ghost use Rattle.std.specs.Prelude.{IfOk, IsTrue};
ghost use Rattle.sp_value.specs.Changes.{IsVector, IsMap};

use crate::token_sets::{put, text_of};
use sp_base::{NoMemory, or_drop};
use sp_numbers::Width;
use sp_value::{Level, Value, copy_all};
use std::alloc::{AllocError, Global};

const COUNT: u64 = 100_000;

const KEYS: u64 = 200_000;

/// In which order `KEYS` keys come.
#[derive(Clone, Copy)]
enum Order {
    Rising,
    Falling,
    /// far from the key before
    Mixed,
}

impl Order {
    /// The key that comes at a place below `KEYS`.
    fn key(self, n: u64) -> u64 {
        match self {
            Order::Rising => n,
            Order::Falling => KEYS.saturating_sub(n),
            Order::Mixed => n.wrapping_mul(123_457) % KEYS,
        }
    }
}

/// The size of a value, or 0.
fn size_of(value: Value) -> usize {
    let size = value.size().unwrap_or(0);
    drop(value);
    size
}

/// A vector to which so many items were appended, one by one.
fn filled(alloc: Global, count: u64) -> Result<Value, NoMemory>
    ensures { IfOk result IsVector }
{
    let mut vector = Value::vector(Vec::new(alloc))?;
    for n in 0..count {
        or_drop!(vector.push_back(Value::uint(Width::W64, n)); vector);
    }
    Ok(vector)
}

/// The size of a vector, asked `COUNT` times.
fn asked(alloc: Global) -> Result<usize, NoMemory> {
    let vector = filled(alloc, COUNT)?;
    let mut all = 0_usize;
    for _ in 0..COUNT {
        all = all.wrapping_add(vector.size().unwrap_or(0));
    }
    drop(vector);
    Ok(all)
}

/// The size of a vector that grew to `COUNT` items, and of the copy that was held from half of them on.
fn beside_a_copy(alloc: Global) -> Result<usize, NoMemory> {
    let mut vector = filled(alloc, COUNT / 2)?;
    let held = or_drop!(vector.copy(); vector);
    for n in 0..COUNT / 2 {
        or_drop!(vector.push_back(Value::uint(Width::W64, n)); vector, held);
    }
    let all = vector.size().unwrap_or(0);
    let all = all.wrapping_add(held.size().unwrap_or(0));
    drop(vector);
    drop(held);
    Ok(all)
}

/// The number of keys of a map that took `COUNT` of them in ascending order.
fn keys(alloc: Global) -> Result<usize, NoMemory> {
    let mut map = Value::map(Vec::new(alloc))?;
    for n in 0..COUNT {
        or_drop!(map.insert(Value::uint(Width::W64, n), Value::void()); map);
    }
    Ok(size_of(map))
}

/// A map that took `KEYS` keys in an order.
fn ordered(alloc: Global, order: Order) -> Result<Value, NoMemory>
    ensures { IfOk result IsMap }
{
    let mut map = Value::map(Vec::new(alloc))?;
    for n in 0..KEYS {
        or_drop!(map.insert(Value::uint(Width::W64, order.key(n)), Value::void()); map);
    }
    Ok(map)
}

/// The number of keys of a map from which all but the greatest `COUNT` were deleted, the lesser before the greater.
fn deleted(alloc: Global) -> Result<usize, NoMemory> {
    let mut map = ordered(alloc, Order::Mixed)?;
    for n in 0..KEYS - COUNT {
        let key = Value::uint(Width::W64, n);
        let deleted = map.delete(&key);
        drop(key);
        or_drop!(deleted; map);
    }
    Ok(size_of(map))
}

/// Whether a value is a vector.
pub fn is_vector(v: &Value) -> bool
    ensures { IsTrue result → IsVector v.now }
{
    match v.level() {
        Level::Vector(_) => true,
        _ => false,
    }
}

/// Whether a value is a map.
fn is_map(v: &Value) -> bool
    ensures { IsTrue result → IsMap v.now }
{
    match v.level() {
        Level::Map(_) => true,
        _ => false,
    }
}

/// Swaps a value with the one that a map has at a key.
fn swap_at(map: &mut Value, key: &Value, inner: &mut Value) -> Result<(), NoMemory> {
    if is_map(map) {
        map.swap_value(key, inner)?;
    }
    Ok(())
}

/// Appends an item to a vector.
fn append_to(vector: &mut Value, item: Value) -> Result<(), NoMemory> {
    if !is_vector(vector) {
        drop(item);
        return Ok(());
    }
    vector.push_back(item)
}

/// Appends an item to the vector that a map has at a key, in place.
fn append_at(map: &mut Value, key: &Value, item: Value) -> Result<(), NoMemory> {
    let mut inner = Value::void();
    or_drop!(swap_at(map, key, &mut inner); inner, item);
    let appended = append_to(&mut inner, item);
    let swapped = swap_at(map, key, &mut inner);
    drop(inner);
    appended?;
    swapped
}

/// A map that has an empty vector at a key.
fn with_vector(alloc: Global, key: &Value) -> Result<Value, NoMemory> {
    let mut map = Value::map(Vec::new(alloc))?;
    let key = or_drop!(key.copy(); map);
    let vector = or_drop!(Value::vector(Vec::new(alloc)); map, key);
    or_drop!(map.insert(key, vector); map);
    Ok(map)
}

/// The size of the vector that a map has at a key.
fn size_at(map: &Value, key: &Value) -> usize {
    if is_map(map) {
        map.get(key).and_then(|inner| inner.size()).unwrap_or(0)
    } else {
        0
    }
}

/// Appends `COUNT` items to the vector that a map has at a key.
fn append_all(map: &mut Value, key: &Value) -> Result<(), NoMemory> {
    for n in 0..COUNT {
        append_at(map, key, Value::uint(Width::W64, n))?;
    }
    Ok(())
}

/// The size of a vector to which `COUNT` items were appended where a map has it.
fn deep(alloc: Global) -> Result<usize, NoMemory> {
    let key = Value::uint(Width::W64, 7);
    let mut map = or_drop!(with_vector(alloc, &key); key);
    let appended = append_all(&mut map, &key);
    let size = size_at(&map, &key);
    drop(map);
    drop(key);
    appended?;
    Ok(size)
}

/// The size of a vector that has the items of another, the first of which was swapped out.
fn copied_from(alloc: Global, vector: &Value) -> Result<usize, NoMemory> {
    let items = match vector.level() {
        Level::Vector(items) => copy_all(alloc, items)?,
        _ => Vec::new(alloc),
    };
    let mut copy = Value::vector(items)?;
    let mut first = Value::void();
    let swapped = if copy.size() != Some(0) {
        copy.swap_item(0, &mut first)
    } else {
        Ok(())
    };
    let size = copy.size().unwrap_or(0);
    drop(copy);
    drop(first);
    swapped?;
    Ok(size)
}

/// The number of items of a copy of `COUNT` items, the first of which was swapped out.
fn copied(alloc: Global) -> Result<usize, NoMemory> {
    let vector = filled(alloc, COUNT)?;
    let size = copied_from(alloc, &vector);
    drop(vector);
    size
}

fn run(alloc: Global, word: &str) -> Result<usize, NoMemory> {
    match word {
        "push" => Ok(size_of(filled(alloc, COUNT)?)),
        "size" => asked(alloc),
        "held" => beside_a_copy(alloc),
        "keys" => keys(alloc),
        "rising" => Ok(size_of(ordered(alloc, Order::Rising)?)),
        "falling" => Ok(size_of(ordered(alloc, Order::Falling)?)),
        "mixed" => Ok(size_of(ordered(alloc, Order::Mixed)?)),
        "deleted" => deleted(alloc),
        "deep" => deep(alloc),
        "copy" => copied(alloc),
        _ => Ok(0),
    }
}

/// Says what a line comes to.
fn work_line(alloc: Global, line: &str, said: &mut String) -> Result<(), AllocError> {
    match run(alloc, line) {
        Ok(count) => put(said, format!(in alloc; "{count}\n")),
        Err(NoMemory) => said.push_str("out of memory\n"),
    }
}

pub fn work(alloc: Global, input: &[u8], said: &mut String) -> Result<(), AllocError> {
    for line in text_of(input).split('\n') {
        if !line.is_empty() {
            work_line(alloc, line, said)?;
        }
    }
    Ok(())
}
