// What makes a row and a tuple whole, and of what type they are then.
ghost use Rattle.std.specs.Prelude.{◌≡◌, ◌∷◌, [], IfOk, true};
ghost use Rattle.sp_types.specs.Types.{made, tys};
ghost use Rattle.sp_type_operands.specs.Wholes.{may_hold, are_parts, tuple_type, is_of, all_of, first_seen, has_keys_alone, row_type, all_in_turn, second_seen, are_entries, map_type};

use crate::literals::{is_past, seen};
use crate::operators::is_valueless;
use sp_base::{NoMemory, or_drop};
use sp_typed::Expr;
use sp_types::{Maker, Type, Word};
use std::alloc::Global;

/// Whether parts may have a type; keys have one of keys.
fn may_hold(keyed: bool, t: &Type) -> bool
    ensures { result ≡ may_hold keyed t.now }
{
    t.is_known() && !is_valueless(t) && (!keyed || t.is_key())
}

fn are_parts(list: &[Type]) -> bool
    ensures { result ≡ are_parts list.now }
{
    for t in list {
        if !may_hold(false, t) {
            return false;
        }
    }
    true
}

/// The type of a tuple whose parts have these types.
pub fn tuple_type(alloc: Global, list: Vec<Type>) -> Result<Type, NoMemory>
    ensures { IfOk result (λ t. t ≡ tuple_type list.items) }
{
    if are_parts(&list) {
        Ok(Type::made(alloc, Maker::Tuple, list)?)
    } else {
        drop(list);
        Ok(Type::word(Word::Unknown))
    }
}

/// Whether an element has a type, and is no literal past it.
fn is_of(t: &Type, e: &Expr) -> bool
    ensures { result ≡ is_of t.now e.now }
{
    t.same(e.ty()) && !is_past(e)
}

fn all_of(t: &Type, list: &[Expr]) -> bool
    ensures { result ≡ all_of t.now list.now }
{
    for e in list {
        if !is_of(t, e) {
            return false;
        }
    }
    true
}

fn first_seen(list: &[Expr]) -> Result<Type, NoMemory>
    ensures { IfOk result (λ t. t ≡ first_seen list.now) }
{
    match list.first() {
        Some(e) => seen(e),
        None => Ok(Type::word(Word::Unknown)),
    }
}

/// A type made of one part, or of two.
pub fn made_of_one(alloc: Global, maker: Maker, t: Type) -> Result<Type, NoMemory>
    ensures { IfOk result (λ r. r ≡ made maker (tys (t ∷ []))) }
{
    let mut parts = or_drop!(Vec::with_capacity(alloc, 1); t);
    or_drop!(parts.push(t); parts);
    Ok(Type::made(alloc, maker, parts)?)
}

pub fn made_of_two(alloc: Global, maker: Maker, t: Type, u: Type) -> Result<Type, NoMemory>
    ensures { IfOk result (λ r. r ≡ made maker (tys (t ∷ u ∷ []))) }
{
    let mut parts = or_drop!(Vec::with_capacity(alloc, 2); t, u);
    or_drop!(parts.push(t); parts, u);
    or_drop!(parts.push(u); parts);
    Ok(Type::made(alloc, maker, parts)?)
}

fn has_keys_alone(maker: Maker) -> bool
    ensures { result ≡ has_keys_alone maker }
{
    matches!(maker, Maker::Set)
}

/// The type of a vector or a set of elements.
pub fn row_type(alloc: Global, maker: Maker, list: &[Expr]) -> Result<Type, NoMemory>
    ensures { IfOk result (λ t. t ≡ row_type maker list.now) }
{
    let first = first_seen(list)?;
    if may_hold(has_keys_alone(maker), &first) && all_of(&first, list) {
        made_of_one(alloc, maker, first)
    } else {
        drop(first);
        Ok(Type::word(Word::Unknown))
    }
}

/// Whether keys have one type and values another, where they stand in turn.
fn all_in_turn(key: &Type, value: &Type, parts: &[Expr]) -> bool
    ensures { result ≡ all_in_turn true key.now value.now parts.now }
{
    let mut keyed = true;
    for e in parts {
        let of = if keyed { key } else { value };
        if !is_of(of, e) {
            return false;
        }
        keyed = !keyed;
    }
    true
}

fn second_seen(parts: &[Expr]) -> Result<Type, NoMemory>
    ensures { IfOk result (λ t. t ≡ second_seen parts.now) }
{
    match parts.split_first() {
        Some((_, others)) => first_seen(others),
        None => Ok(Type::word(Word::Unknown)),
    }
}

fn are_entries(key: &Type, value: &Type, parts: &[Expr]) -> bool
    ensures { result ≡ are_entries key.now value.now parts.now }
{
    may_hold(true, key) && may_hold(false, value) && all_in_turn(key, value, parts)
}

/// The type of a map of keys and values in turn.
pub fn map_type(alloc: Global, parts: &[Expr]) -> Result<Type, NoMemory>
    ensures { IfOk result (λ t. t ≡ map_type parts.now) }
{
    let key = first_seen(parts)?;
    let value = or_drop!(second_seen(parts); key);
    if are_entries(&key, &value, parts) {
        made_of_two(alloc, Maker::Map, key, value)
    } else {
        drop(key);
        drop(value);
        Ok(Type::word(Word::Unknown))
    }
}
