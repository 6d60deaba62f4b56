// Several expressions: those that have to agree, and those that go to targets.
ghost use Rattle.std.specs.Prelude.{◌≡◌, ◌∷◌, [], ◌++◌, map, length, IfOk, OnOk};
ghost use Rattle.sp_types.specs.Types.{tys};
ghost use Rattle.sp_type_context.specs.Contexts.{Around};
ghost use Rattle.sp_type_operands.specs.Literals.{seen, taken};
ghost use Rattle.sp_type_context.specs.Typing.{leading, led, row_at, leading_half, in_turn, map_of, map_at, tuple_at, to_maybe, each_to};
ghost use Rattle.sp_type_operands.specs.Wholes.{row_type, map_type, tuple_type};

use crate::nodes::{many_at, to_target};
use sp_base::{NoMemory, Span, or_drop};
use sp_type_context::Context;
use sp_type_operands::{is_negative, literal_word, map_type, row_type, seen, taken, tuple_type};
use sp_typed::{Expr, ManyOp};
use sp_types::{Maker, Type};
use std::alloc::Global;

/// The type that several take which have to agree: that of the first that is no literal. Where all are literals, it is a signed
/// one where one of them has a minus sign.
fn leading(list: &[Expr]) -> Result<Type, NoMemory>
    ensures { IfOk result (λ t. t ≡ leading list.now) }
{
    let mut signed = false;
    for e in list {
        if !e.is_literal() {
            return seen(e);
        }
        signed = signed || is_negative(e);
    }
    Ok(Type::word(literal_word(signed)))
}

fn all_taken(alloc: Global, to: &Type, list: Vec<Expr>) -> Result<Vec<Expr>, NoMemory>
    ensures { IfOk result (λ r. r.items ≡ map (taken to.now) list.items) }
{
    let mut all = or_drop!(Vec::with_capacity(alloc, list.len()); list);
    for e in list {
        all.push(taken(to, e))?;
    }
    Ok(all)
}

/// Several that have to agree, each literal of the type that all take.
pub(crate) fn led(alloc: Global, list: Vec<Expr>) -> Result<Vec<Expr>, NoMemory>
    ensures { IfOk result (λ r. r.items ≡ led list.items) }
{
    let to = or_drop!(leading(&list); list);
    let all = all_taken(alloc, &to, list);
    drop(to);
    all
}

/// A vector or a set of elements.
pub(crate) fn row_at(
    alloc: Global,
    span: Span,
    maker: Maker,
    op: ManyOp,
    list: Vec<Expr>,
) -> Result<Expr, NoMemory>
    ensures { IfOk result (λ e. e ≡ row_at span maker op list.items) }
{
    let ty = or_drop!(row_type(alloc, maker, &list); op, list);
    many_at(span, ty, op, list)
}

/// The type that keys take, or values.
fn leading_half(values: bool, pairs: &[(Expr, Expr)]) -> Result<Type, NoMemory>
    ensures { IfOk result (λ t. t ≡ leading_half values pairs.now) }
{
    let mut signed = false;
    for pair in pairs {
        let e = if values { &pair.1 } else { &pair.0 };
        if !e.is_literal() {
            return seen(e);
        }
        signed = signed || is_negative(e);
    }
    Ok(Type::word(literal_word(signed)))
}

/// Puts a key and its value behind others, where literals take these types.
fn put_both(
    all: &mut Vec<Expr>,
    key: &Type,
    value: &Type,
    pair: (Expr, Expr),
) -> Result<(), NoMemory>
    ensures { OnOk result (all.new.items ≡ all.old.items
        ++ taken key.now pair.0 ∷ (taken value.now pair.1 ∷ [])) }
{
    let (k, v) = pair;
    or_drop!(all.push(taken(key, k)); v);
    all.push(taken(value, v))?;
    Ok(())
}

/// Keys and values in turn, where literals take these types.
fn in_turn(
    alloc: Global,
    key: &Type,
    value: &Type,
    pairs: Vec<(Expr, Expr)>,
) -> Result<Vec<Expr>, NoMemory>
    ensures { IfOk result (λ r. r.items ≡ in_turn key.now value.now pairs.items) }
{
    let mut all = Vec::new(alloc);
    for pair in pairs {
        put_both(&mut all, key, value, pair)?;
    }
    Ok(all)
}

fn map_of(alloc: Global, span: Span, parts: Vec<Expr>) -> Result<Expr, NoMemory>
    ensures { IfOk result (λ e. e ≡ map_of span parts.items) }
{
    let ty = or_drop!(map_type(alloc, &parts); parts);
    many_at(span, ty, ManyOp::Map, parts)
}

/// A map of keys and their values.
pub(crate) fn map_at(alloc: Global, span: Span, pairs: Vec<(Expr, Expr)>) -> Result<Expr, NoMemory>
    ensures { IfOk result (λ e. e ≡ map_at span pairs.items) }
{
    let key = or_drop!(leading_half(false, &pairs); pairs);
    let value = or_drop!(leading_half(true, &pairs); key, pairs);
    let parts = in_turn(alloc, &key, &value, pairs);
    drop(key);
    drop(value);
    map_of(alloc, span, parts?)
}

/// The types that a node round expressions sees.
pub(crate) fn all_seen(alloc: Global, list: &[Expr]) -> Result<Vec<Type>, NoMemory>
    ensures { IfOk result (λ r. r.items ≡ map seen list.now) }
{
    let mut all = Vec::with_capacity(alloc, list.len())?;
    for e in list {
        all.push(seen(e)?)?;
    }
    Ok(all)
}

pub(crate) fn tuple_at(alloc: Global, span: Span, list: Vec<Expr>) -> Result<Expr, NoMemory>
    ensures { IfOk result (λ e. e ≡ tuple_at span list.items) }
{
    let parts = or_drop!(all_seen(alloc, &list); list);
    let ty = or_drop!(tuple_type(alloc, parts); list);
    many_at(span, ty, ManyOp::Tuple, list)
}

/// What goes to a target, if there is one.
pub fn to_maybe(alloc: Global, to: &Option<Type>, e: Expr) -> Result<Expr, NoMemory>
    ensures { IfOk result (λ r. r ≡ to_maybe to.now e) }
{
    match to {
        Some(to) => to_target(alloc, to, e),
        None => Ok(e),
    }
}

/// An argument of this number as it goes to its target.
fn sent<C: Context>(
    alloc: Global,
    context: &C,
    op: &ManyOp,
    receiver: &Type,
    number: usize,
    e: Expr,
) -> Result<Expr, NoMemory>
    ensures { IfOk result (λ r. r ≡ to_maybe ((C.around context.now).target op.now receiver.now
        number) e) }
{
    let to = or_drop!(context.target(op, receiver, number); e);
    let sent = to_maybe(alloc, &to, e);
    drop(to);
    sent
}

/// Appends arguments, each as it goes to its own target, where the first of them has the number 0.
pub(crate) fn add_each<C: Context>(
    alloc: Global,
    context: &C,
    op: &ManyOp,
    receiver: &Type,
    list: Vec<Expr>,
    parts: &mut Vec<Expr>,
) -> Result<(), NoMemory>
    ensures { OnOk result (parts.new.items ≡ parts.old.items
        ++ each_to ((C.around context.now).target op.now receiver.now) 0 list.items) }
{
    let start = parts.len();
    for e in list {
        let number = parts.len() - start;
        parts.push(sent(alloc, context, op, receiver, number, e)?)?;
    }
    Ok(())
}
