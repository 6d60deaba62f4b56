// Elements, calls, methods and what a `connect` starts.
ghost use Rattle.std.specs.Prelude.{◌≡◌, map, IfOk};
ghost use Rattle.sp_types.specs.Types.{tys};
ghost use Rattle.sp_ast.specs.Trees.{span_of};
ghost use Rattle.sp_typed.specs.declared.words.OneOp.TheVariants.{NoMember};
ghost use Rattle.sp_typed.specs.declared.words.TwoOp.TheVariants.{Index};
ghost use Rattle.sp_typed.specs.declared.words.ManyOp.TheVariants.{Call};
ghost use Rattle.sp_type_operands.specs.Literals.{seen};
ghost use Rattle.sp_type_operands.specs.Operands.{first_type, unknown, second_type};
ghost use Rattle.sp_type_context.specs.Typing.{one_at, two_at, to_target, part_at, item_at, index_at, indexed, no_call, call_of, callee_of, call_at, method_found, method_at, started, new_at, name_of};

use crate::nodes::{many_at, one_at, to_target, two_at};
use crate::rows::{add_each, all_seen};
use sp_ast::{NameKind, Ref};
use sp_base::{NoMemory, Span, or_drop};
use sp_type_context::{Callable, Callee, Context};
use sp_type_operands::{first_type, second_type, seen};
use sp_typed::{Expr, ExprLevel, LeafOp, ManyOp, NewOf, OneOp, TwoOp};
use sp_types::{Level, Maker, Type, Word};
use std::alloc::Global;

fn part_at(parts: &[Type], n: u32) -> Result<Option<Type>, NoMemory>
    ensures { IfOk result (λ t. t ≡ part_at (tys parts.now) n) }
{
    match parts.get(n as usize) {
        Some(part) => Ok(Some(part.copy()?)),
        None => Ok(None),
    }
}

/// A member of a tuple.
fn item_at(
    alloc: Global,
    span: Span,
    parts: &[Type],
    number: Option<u32>,
    a: Expr,
    i: Expr,
) -> Result<Expr, NoMemory>
    ensures { IfOk result (λ e. e ≡ item_at span (tys parts.now) number a i) }
{
    if let Some(n) = number {
        let part = or_drop!(part_at(parts, n); a, i);
        if let Some(ty) = part {
            return two_at(alloc, span, ty, TwoOp::Item(n), a, i);
        }
    }
    two_at(alloc, span, Type::word(Word::Unknown), TwoOp::Index, a, i)
}

/// An element of a vector.
fn element_at(alloc: Global, span: Span, parts: &[Type], a: Expr, i: Expr) -> Result<Expr, NoMemory>
    ensures { IfOk result (λ e. e ≡ two_at span (first_type (tys parts.now)) Index a i) }
{
    let ty = or_drop!(first_type(parts); a, i);
    two_at(alloc, span, ty, TwoOp::Index, a, i)
}

/// What stands for a key, which goes to the type of the first part.
fn keyed_at(
    alloc: Global,
    span: Span,
    parts: &[Type],
    ty: Type,
    a: Expr,
    i: Expr,
) -> Result<Expr, NoMemory>
    ensures { IfOk result (λ e. e ≡ two_at span ty Index a
        (to_target (first_type (tys parts.now)) i)) }
{
    let key = or_drop!(first_type(parts); ty, a, i);
    let i = to_target(alloc, &key, i);
    drop(key);
    let i = or_drop!(i; ty, a);
    two_at(alloc, span, ty, TwoOp::Index, a, i)
}

/// The value of a key of a map.
fn mapped_at(alloc: Global, span: Span, parts: &[Type], a: Expr, i: Expr) -> Result<Expr, NoMemory>
    ensures { IfOk result (λ e. e ≡ two_at span (second_type (tys parts.now)) Index a
        (to_target (first_type (tys parts.now)) i)) }
{
    let ty = or_drop!(second_type(parts); a, i);
    keyed_at(alloc, span, parts, ty, a, i)
}

/// A member of a tuple, by what is known of its number.
fn member_at<C: Context>(
    alloc: Global,
    context: &C,
    span: Span,
    parts: &[Type],
    a: Expr,
    i: Expr,
) -> Result<Expr, NoMemory>
    ensures { IfOk result (λ e. e ≡ item_at span (tys parts.now)
        ((C.around context.now).item i) a i) }
{
    let number = or_drop!(context.item(alloc, &i); a, i);
    item_at(alloc, span, parts, number, a, i)
}

fn index_at<C: Context>(
    alloc: Global,
    context: &C,
    span: Span,
    of: &Type,
    a: Expr,
    i: Expr,
) -> Result<Expr, NoMemory>
    ensures { IfOk result (λ e. e ≡ index_at (C.around context.now) span of.now a i) }
{
    match of.level() {
        Level::Made(Maker::Vector, parts) => element_at(alloc, span, parts, a, i),
        Level::Made(Maker::Map, parts) => mapped_at(alloc, span, parts, a, i),
        Level::Made(Maker::Set, parts) => {
            keyed_at(alloc, span, parts, Type::word(Word::Unknown), a, i)
        }
        Level::Made(Maker::Tuple, parts) => member_at(alloc, context, span, parts, a, i),
        Level::Word(_) => two_at(alloc, span, Type::word(Word::Unknown), TwoOp::Index, a, i),
    }
}

/// An element of a vector, the value of a key of a map, the key of a set, a member of a tuple.
pub(crate) fn indexed<C: Context>(
    alloc: Global,
    context: &C,
    span: Span,
    a: Expr,
    i: Expr,
) -> Result<Expr, NoMemory>
    ensures { IfOk result (λ e. e ≡ indexed (C.around context.now) span a i) }
{
    let of = or_drop!(seen(&a); a, i);
    let element = index_at(alloc, context, span, &of, a, i);
    drop(of);
    element
}

/// What can't be called, before its arguments.
fn no_call(alloc: Global, span: Span, callee: Expr, mut list: Vec<Expr>) -> Result<Expr, NoMemory>
    ensures { IfOk result (λ e. e ≡ no_call span callee list.items) }
{
    let mut parts = Vec::new(alloc);
    or_drop!(parts.push(callee); parts, list);
    or_drop!(parts.append(&mut list); parts, list);
    drop(list);
    many_at(span, Type::word(Word::Unknown), ManyOp::NoCall, parts)
}

fn call_of<C: Context>(
    alloc: Global,
    context: &C,
    span: Span,
    op: ManyOp,
    ty: Type,
    list: Vec<Expr>,
) -> Result<Expr, NoMemory>
    ensures { IfOk result (λ e. e ≡ call_of (C.around context.now) span op ty list.items) }
{
    let mut parts = Vec::new(alloc);
    let unknown = Type::word(Word::Unknown);
    let added = add_each(alloc, context, &op, &unknown, list, &mut parts);
    drop(unknown);
    or_drop!(added; op, ty, parts);
    many_at(span, ty, op, parts)
}

fn callee_of(e: &Expr) -> Callee
    ensures { result ≡ callee_of e.now }
{
    match e.level() {
        ExprLevel::Leaf(head) => match &head.op {
            LeafOp::Function(n) => Callee::Function(*n),
            LeafOp::TypeName(Word::Enum(n)) => Callee::Enum(*n),
            _ => Callee::Other,
        },
        _ => Callee::Other,
    }
}

/// A call of a function, by its number.
fn function_call<C: Context>(
    alloc: Global,
    context: &C,
    span: Span,
    n: u32,
    list: Vec<Expr>,
) -> Result<Expr, NoMemory>
    ensures { IfOk result (λ e. e ≡ call_of (C.around context.now) span (Call n)
        ((C.around context.now).result n) list.items) }
{
    let ty = or_drop!(context.result(n); list);
    call_of(alloc, context, span, ManyOp::Call(n), ty, list)
}

/// A call of a function, a conversion to an enum, or of what can't be called.
pub(crate) fn call_at<C: Context>(
    alloc: Global,
    context: &C,
    span: Span,
    callee: Expr,
    list: Vec<Expr>,
) -> Result<Expr, NoMemory>
    ensures { IfOk result (λ e. e ≡ call_at (C.around context.now) span callee list.items) }
{
    match callee_of(&callee) {
        Callee::Function(n) => {
            drop(callee);
            function_call(alloc, context, span, n, list)
        }
        Callee::Enum(n) => {
            drop(callee);
            let ty = Type::word(Word::Enum(n));
            call_of(alloc, context, span, ManyOp::Convert(n), ty, list)
        }
        Callee::Other => no_call(alloc, span, callee, list),
    }
}

fn started(e: &Expr) -> Option<NewOf>
    ensures { result ≡ started e.now }
{
    match e.level() {
        ExprLevel::Leaf(head) => match &head.op {
            LeafOp::TypeName(Word::Unit(n)) => Some(NewOf::Unit(*n)),
            LeafOp::Decoder => Some(NewOf::Decoder),
            _ => None,
        },
        _ => None,
    }
}

/// What a `connect` starts, where the path stands on this slice.
pub(crate) fn new_at<C: Context>(
    alloc: Global,
    context: &C,
    span: Span,
    path: Span,
    callee: Expr,
    list: Vec<Expr>,
) -> Result<Expr, NoMemory>
    ensures { IfOk result (λ e. e ≡ new_at (C.around context.now) span path callee list.items) }
{
    match started(&callee) {
        Some(unit) => {
            drop(callee);
            let op = ManyOp::New(unit, path);
            call_of(alloc, context, span, op, Type::word(Word::New), list)
        }
        None => no_call(alloc, span, callee, list),
    }
}

fn method_of<C: Context>(
    alloc: Global,
    context: &C,
    span: Span,
    method: Callable,
    object: Expr,
    list: Vec<Expr>,
) -> Result<Expr, NoMemory>
    ensures { IfOk result (λ e. e
        ≡ method_found (C.around context.now) span method object list.items) }
{
    let receiver = or_drop!(seen(&object); method, object, list);
    let given = list.len();
    let mut parts = Vec::new(alloc);
    or_drop!(parts.push(object); method, receiver, list, parts);
    let added = add_each(alloc, context, &method.op, &receiver, list, &mut parts);
    drop(receiver);
    or_drop!(added; method, parts);
    or_drop!(context.fill(&method.op, span, given, &mut parts); method, parts);
    many_at(span, method.ty, method.op, parts)
}

/// The method of a name that an object has for arguments.
fn method_for<C: Context>(
    alloc: Global,
    context: &C,
    name: &Ref<'_, NameKind>,
    object: &Expr,
    list: &[Expr],
) -> Result<Option<Callable>, NoMemory>
    ensures { IfOk result (λ o. o ≡ (C.around context.now).method (seen object.now)
        (name_of name.now) (span_of name.now) (map seen list.now)) }
{
    let types = all_seen(alloc, list)?;
    let receiver = or_drop!(seen(object); types);
    let found = context.method(alloc, &receiver, name.text(), name.span(), &types);
    drop(receiver);
    drop(types);
    found
}

/// A call of a method that there isn't.
fn no_method(
    alloc: Global,
    span: Span,
    member: Span,
    name: Span,
    object: Expr,
    list: Vec<Expr>,
) -> Result<Expr, NoMemory>
    ensures { IfOk result (λ e. e ≡ no_call span (one_at member unknown (NoMember name) object)
        list.items) }
{
    let unknown = Type::word(Word::Unknown);
    let callee = or_drop!(one_at(alloc, member, unknown, OneOp::NoMember(name), object); list);
    no_call(alloc, span, callee, list)
}

/// A call of a method, where the member before the arguments stands on this slice.
pub(crate) fn method_at<C: Context>(
    alloc: Global,
    context: &C,
    span: Span,
    member: Span,
    name: &Ref<'_, NameKind>,
    object: Expr,
    list: Vec<Expr>,
) -> Result<Expr, NoMemory>
    ensures { IfOk result (λ e. e ≡ method_at (C.around context.now) span member name.now object
        list.items) }
{
    let found = or_drop!(method_for(alloc, context, name, &object, &list); object, list);
    match found {
        Some(method) => method_of(alloc, context, span, method, object, list),
        None => no_method(alloc, span, member, name.span(), object, list),
    }
}
