// Items of containers, and containers with other items.
ghost use Rattle.std.specs.Prelude.{◌≡◌, ◌<◌, ◌^◌, ◌+◌, Ok, Some, length, slice_get, ok_or, true, IfOk, IfSome, option_copied};
ghost use Rattle.std.specs.declared.rc.Rc.{Rc as Counted};
ghost use Rattle.sp_base.specs.declared.kinds.PKind.TheVariants.{Index, MissingKey};
ghost use Rattle.sp_numbers.specs.declared.width.Width.TheVariants.{W64};
ghost use Rattle.sp_value.specs.Val.{Val, uint, tuple, vals_of};
ghost use Rattle.sp_value.specs.Changes.{IsMap, value_at};
ghost use Rattle.sp_value.specs.Pieces.{all_in};
ghost use Rattle.sp_operators.specs.Operators.{value_or_error};
ghost use Rattle.sp_operators.specs.Outcomes.{Answers};
ghost use Rattle.sp_meaning_states.specs.Values as values;
ghost use Rattle.sp_code.specs.Can.{IsItem, IsPlace, IsRow};
ghost use Rattle.sp_machine.specs.Rows.{IsSpot, Changes};

use sp_base::{NoMemory, PKind, or_drop};
use sp_numbers::Width;
use sp_operators::ValueFault;
use sp_value::{Level, Value};
use std::alloc::Global;
use std::rc::Rc;

fn copied(value: &Value) -> Result<Value, ValueFault>
    ensures { Answers true (Ok value.now) result }
{
    match value.copy() {
        Ok(copy) => Ok(copy),
        Err(NoMemory) => Err(ValueFault::NoMemory),
    }
}

fn item_in(items: &[Value], n: u64) -> Result<Value, ValueFault>
    ensures { Answers true (ok_or (slice_get items.now n) Index) result }
{
    match items.get(n as usize) {
        Some(value) => copied(value),
        None => Err(ValueFault::Run(PKind::Index)),
    }
}

fn range_in(ranges: &[u64], n: u64) -> Result<Value, ValueFault>
    ensures { Answers true (value_or_error (uint W64) (ok_or (slice_get ranges.now n) Index)) result }
{
    match ranges.get(n as usize) {
        Some(number) => Ok(Value::uint(Width::W64, *number)),
        None => Err(ValueFault::Run(PKind::Index)),
    }
}

fn value_in(map: &Value, key: &Value) -> Result<Value, ValueFault>
    requires { IsMap map.now }
    ensures { Answers true (ok_or (value_at map.now key.now) MissingKey) result }
{
    match map.get(key) {
        Some(value) => copied(value),
        None => Err(ValueFault::Run(PKind::MissingKey)),
    }
}

/// The item of a container at a key.
#[tactic(auto, using(sp_value::proofs::Lists::list_of_vals_of))]
pub(crate) fn item_at(container: &Value, key: &Value) -> Result<Value, ValueFault>
    requires { IsItem container.now key.now }
    ensures { Answers true (values.item_at container.now key.now) result }
{
    match (container.level(), key.level()) {
        (Level::Vector(items), Level::Uint(_, n)) => item_in(items, n),
        (Level::Tuple(items), Level::Uint(_, n)) => item_in(items, n),
        (Level::Bits(_, ranges), Level::Uint(_, n)) => range_in(ranges, n),
        (Level::Map(_), _) => value_in(container, key),
        _ => unreachable!(),
    }
}

/// Where a key is in a container that may change there.
#[derive(Clone, Copy)]
pub(crate) enum Spot {
    /// at an item of a vector
    Within(usize),
    /// behind the last item
    Past,
    /// a key of a map
    Keyed,
}

#[tactic(auto, using(sp_value::proofs::Lists::list_of_vals_of))]
pub(crate) fn spot_of(container: &Value, key: &Value) -> Spot
    requires { IsPlace container.now key.now }
    ensures { IsSpot container.now key.now result }
{
    match (container.level(), key.level()) {
        (Level::Vector(items), Level::Uint(_, n)) => {
            if n < items.len() as u64 {
                Spot::Within(n as usize)
            } else {
                Spot::Past
            }
        }
        (Level::Map(_), _) => Spot::Keyed,
        _ => unreachable!(),
    }
}

/// Puts a value at a key of a container, in place where nothing shares it.
pub(crate) fn put_at(
    container: &mut Value,
    key: Value,
    x: Value,
) -> Result<Result<(), PKind>, NoMemory>
    requires { IsPlace container.old key }
    ensures { IfOk result (Changes container.old key x container.new) }
{
    match spot_of(container, &key) {
        Spot::Within(i) => {
            or_drop!(container.set_item(i, x); key);
            drop(key);
            Ok(Ok(()))
        }
        Spot::Past => {
            drop(key);
            drop(x);
            Ok(Err(PKind::Index))
        }
        Spot::Keyed => {
            container.insert(key, x)?;
            Ok(Ok(()))
        }
    }
}

/// The item with this number in a list that is kept in pieces.
fn nth_in<T>(pieces: &[Rc<Vec<T>>], n: u64) -> Option<&T>
    ensures { option_copied result ≡ slice_get (all_in pieces.now) n }
{
    let mut left = n;
    for piece in pieces {
        let len = piece.len() as u64;
        if left < len {
            return Some(&piece[left as usize]);
        }
        left -= len;
    }
    None
}

fn nth(items: &[Value], n: u64) -> Result<Option<Value>, NoMemory>
    ensures item { IfOk result (λ item. item ≡ slice_get items.now n) }
{
    if n < items.len() as u64 {
        Ok(Some(items[n as usize].copy()?))
    } else {
        Ok(None)
    }
}

fn nth_member(pieces: &[Rc<Vec<Value>>], n: u64) -> Result<Option<Value>, NoMemory>
    ensures item { IfOk result (λ item. item ≡ slice_get (all_in pieces.now) n) }
{
    match nth_in(pieces, n) {
        Some(key) => Ok(Some(key.copy()?)),
        None => Ok(None),
    }
}

/// An entry as the tuple of its key and its value.
#[tactic(auto, using(crate::proofs::Members::entry_at, crate::proofs::Members::no_entry))]
fn nth_entry(
    alloc: Global,
    pieces: &[Rc<Vec<(Value, Value)>>],
    n: u64,
) -> Result<Option<Value>, NoMemory>
    ensures item { IfOk result (λ item. item ≡ slice_get (values.entry_values (all_in pieces.now)) n) }
{
    match nth_in(pieces, n) {
        Some(entry) => {
            let mut both = Vec::new(alloc);
            both.push(entry.0.copy()?)?;
            both.push(entry.1.copy()?)?;
            Ok(Some(Value::tuple(both)?))
        }
        None => Ok(None),
    }
}

#[tactic(auto, using(crate::proofs::Members::byte_at, crate::proofs::Members::no_byte))]
fn nth_byte(bytes: &[u8], n: u64) -> Option<Value>
    ensures item { result ≡ slice_get (values.byte_values bytes.now) n }
{
    if n < bytes.len() as u64 {
        Some(Value::uint(Width::W8, bytes[n as usize] as u64))
    } else {
        None
    }
}

/// The item with this number of what a loop goes over.
#[tactic(auto, using(sp_value::proofs::Lists::list_of_vals_of, sp_value::proofs::Lists::pairs_of_entries_of))]
pub(crate) fn row_item(alloc: Global, row: &Value, n: u64) -> Result<Option<Value>, NoMemory>
    requires { IsRow row.now }
    ensures item { IfOk result (λ item. item ≡ slice_get (values.members_of row.now) n) }
{
    match row.level() {
        Level::Vector(items) => nth(items, n),
        Level::Set(pieces) => nth_member(pieces, n),
        Level::Map(pieces) => nth_entry(alloc, pieces, n),
        Level::Bytes(bytes) => Ok(nth_byte(bytes, n)),
        _ => unreachable!(),
    }
}
