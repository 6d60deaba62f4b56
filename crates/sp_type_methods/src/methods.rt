// The methods of values: which there are, what they take and give, and what stands for arguments that are left out.
ghost use Rattle.std.specs.Prelude.{◌≡◌, ◌∷◌, ◌++◌, [], slice_get, IfOk, OnOk};
ghost use Rattle.sp_words.specs.declared.methods.Method.TheVariants as method_is;
ghost use Rattle.sp_types.specs.Types.{made};
ghost use Rattle.sp_types.specs.Types as types;
ghost use Rattle.sp_type_operands.specs.Operands.{first_type, second_type};
ghost use Rattle.sp_type_context.specs.Typing.{leaf_at};
ghost use Rattle.sp_type_methods.specs.Methods.{told, is_order, begins_with_order, by_order, bytes_methods, text_methods, vector_methods, map_methods, are_two, get_method, write_method, library_method, element, mapped, method_gives, method_takes, unit_methods, unit_method_gives, unit_method_takes, sink_methods, sink_method_takes, library_call, unit_call, sink_call, method_of, left_out_of};

use sp_base::{NoMemory, Span, or_drop};
use sp_numbers::Width;
use sp_type_context::Callable;
use sp_type_operands::{first_type, second_type};
use sp_typed::{Expr, Leaf, LeafOp, ManyOp, SinkMethod, UnitMethod};
use sp_types::{Level, Maker, Type, Word};
use sp_words::Method;
use std::alloc::Global;

fn is_order(t: &Type) -> bool
    ensures { result ≡ is_order t.now }
{
    match t.level() {
        Level::Word(Word::Enum(number)) => number == 0,
        _ => false,
    }
}

fn begins_with_order(arguments: &[Type]) -> bool
    ensures { result ≡ begins_with_order arguments.now }
{
    match arguments.first() {
        Some(first) => is_order(first),
        None => false,
    }
}

fn by_order(digits: Method, bytes: Method, arguments: &[Type]) -> Method
    ensures { result ≡ by_order digits bytes arguments.now }
{
    if begins_with_order(arguments) {
        bytes
    } else {
        digits
    }
}

fn bytes_method(name: &str, arguments: &[Type]) -> Option<Method>
    ensures { result ≡ told name.now (bytes_methods arguments.now) }
{
    if name == "to_uint" {
        Some(by_order(Method::ToUint, Method::ToUintOrder, arguments))
    } else if name == "to_int" {
        Some(by_order(Method::ToInt, Method::ToIntOrder, arguments))
    } else if name == "sub" {
        Some(Method::Sub)
    } else if name == "starts_with" {
        Some(Method::StartsWith)
    } else if name == "split" {
        Some(Method::Split)
    } else if name == "split1" {
        Some(Method::Split1)
    } else if name == "lower" {
        Some(Method::Lower)
    } else if name == "upper" {
        Some(Method::Upper)
    } else if name == "decode" {
        Some(Method::Decode)
    } else {
        None
    }
}

fn text_method(name: &str) -> Option<Method>
    ensures { result ≡ told name.now text_methods }
{
    if name == "encode" {
        Some(Method::Encode)
    } else {
        None
    }
}

fn vector_method(name: &str) -> Option<Method>
    ensures { result ≡ told name.now vector_methods }
{
    if name == "push_back" {
        Some(Method::PushBack)
    } else if name == "pop_back" {
        Some(Method::PopBack)
    } else if name == "front" {
        Some(Method::Front)
    } else if name == "back" {
        Some(Method::Back)
    } else {
        None
    }
}

fn are_two(arguments: &[Type]) -> bool
    ensures { result ≡ are_two arguments.now }
{
    arguments.len() == 2
}

fn get_method(arguments: &[Type]) -> Method
    ensures { result ≡ get_method arguments.now }
{
    if are_two(arguments) {
        Method::GetOr
    } else {
        Method::Get
    }
}

fn map_method(name: &str, arguments: &[Type]) -> Option<Method>
    ensures { result ≡ told name.now (map_methods arguments.now) }
{
    if name == "get" {
        Some(get_method(arguments))
    } else {
        None
    }
}

/// The method of the library that values of a type have.
fn library_method(of: &Type, name: &str, arguments: &[Type]) -> Option<Method>
    ensures { result ≡ library_method of.now name.now arguments.now }
{
    match of.level() {
        Level::Word(Word::Bytes) => bytes_method(name, arguments),
        Level::Word(Word::String) => text_method(name),
        Level::Made(Maker::Vector, _) => vector_method(name),
        Level::Made(Maker::Map, _) => map_method(name, arguments),
        _ => None,
    }
}

/// The element of a vector, and the key of a map.
fn element(of: &Type) -> Result<Type, NoMemory>
    ensures { IfOk result (λ t. t ≡ element of.now) }
{
    match of.level() {
        Level::Made(_, parts) => first_type(parts),
        Level::Word(_) => Ok(Type::word(Word::Unknown)),
    }
}

/// The value of a map.
fn mapped(of: &Type) -> Result<Type, NoMemory>
    ensures { IfOk result (λ t. t ≡ mapped of.now) }
{
    match of.level() {
        Level::Made(_, parts) => second_type(parts),
        Level::Word(_) => Ok(Type::word(Word::Unknown)),
    }
}

fn one_part(alloc: Global, maker: Maker, part: Type) -> Result<Type, NoMemory>
    ensures { IfOk result (λ t. t ≡ made maker (types.more part types.none)) }
{
    let mut parts = or_drop!(Vec::with_capacity(alloc, 1); part);
    or_drop!(parts.push(part); parts);
    Ok(Type::made(alloc, maker, parts)?)
}

fn two_parts(alloc: Global, maker: Maker, first: Type, second: Type) -> Result<Type, NoMemory>
    ensures { IfOk result (λ t. t ≡ made maker (types.more first (types.more second types.none))) }
{
    let mut parts = or_drop!(Vec::with_capacity(alloc, 2); first, second);
    or_drop!(parts.push(first); second, parts);
    or_drop!(parts.push(second); parts);
    Ok(Type::made(alloc, maker, parts)?)
}

/// What a method of the library gives, by its receiver's type.
fn method_gives(alloc: Global, method: Method, of: &Type) -> Result<Type, NoMemory>
    ensures { IfOk result (λ t. t ≡ method_gives method of.now) }
{
    match method {
        Method::ToUint | Method::ToUintOrder => Ok(Type::word(Word::Uint(Width::W64))),
        Method::ToInt | Method::ToIntOrder => Ok(Type::word(Word::Int(Width::W64))),
        Method::Sub | Method::Lower | Method::Upper | Method::Encode => {
            Ok(Type::word(Word::Bytes))
        }
        Method::StartsWith => Ok(Type::word(Word::Bool)),
        Method::Split => one_part(alloc, Maker::Vector, Type::word(Word::Bytes)),
        Method::Split1 => two_parts(
            alloc,
            Maker::Tuple,
            Type::word(Word::Bytes),
            Type::word(Word::Bytes),
        ),
        Method::Decode => Ok(Type::word(Word::String)),
        Method::PushBack => Ok(Type::word(Word::Void)),
        Method::PopBack | Method::Front | Method::Back => element(of),
        Method::Get | Method::GetOr => mapped(of),
    }
}

/// Of one type, the one of a number.
fn of_one(t: Type, number: usize) -> Option<Type>
    ensures { result ≡ slice_get (t ∷ []) number }
{
    if number == 0 {
        Some(t)
    } else {
        drop(t);
        None
    }
}

/// Of two types, the one of a number.
fn of_two(first: Type, second: Type, number: usize) -> Option<Type>
    ensures { result ≡ slice_get (first ∷ (second ∷ [])) number }
{
    if number == 0 {
        drop(second);
        Some(first)
    } else if number == 1 {
        drop(first);
        Some(second)
    } else {
        drop(first);
        drop(second);
        None
    }
}

/// What a method of the library takes, by the number of the argument.
pub fn method_takes(method: Method, of: &Type, number: usize) -> Result<Option<Type>, NoMemory>
    ensures { IfOk result (λ t. t ≡ slice_get (method_takes method of.now) number) }
{
    match method {
        Method::ToUint | Method::ToInt => Ok(of_one(Type::word(Word::Uint(Width::W64)), number)),
        Method::ToUintOrder | Method::ToIntOrder => Ok(of_one(Type::word(Word::Enum(0)), number)),
        Method::Sub => Ok(of_two(
            Type::word(Word::Uint(Width::W64)),
            Type::word(Word::Uint(Width::W64)),
            number,
        )),
        Method::StartsWith | Method::Split | Method::Split1 => {
            Ok(of_one(Type::word(Word::Bytes), number))
        }
        Method::Decode => Ok(of_two(Type::word(Word::Enum(2)), Type::word(Word::Enum(3)), number)),
        Method::PushBack | Method::Get => Ok(of_one(element(of)?, number)),
        Method::GetOr => {
            let key = element(of)?;
            let value = or_drop!(mapped(of); key);
            Ok(of_two(key, value, number))
        }
        Method::Lower
        | Method::Upper
        | Method::Encode
        | Method::PopBack
        | Method::Front
        | Method::Back => Ok(None),
    }
}

fn unit_method(name: &str) -> Option<UnitMethod>
    ensures { result ≡ told name.now unit_methods }
{
    if name == "offset" {
        Some(UnitMethod::Offset)
    } else if name == "input" {
        Some(UnitMethod::Input)
    } else if name == "set_input" {
        Some(UnitMethod::SetInput)
    } else if name == "backtrack" {
        Some(UnitMethod::Backtrack)
    } else if name == "connect_filter" {
        Some(UnitMethod::ConnectFilter)
    } else if name == "forward" {
        Some(UnitMethod::Forward)
    } else if name == "forward_eod" {
        Some(UnitMethod::ForwardEod)
    } else {
        None
    }
}

fn unit_method_gives(method: UnitMethod) -> Word
    ensures { types.word result ≡ unit_method_gives method }
{
    match method {
        UnitMethod::Offset => Word::Uint(Width::W64),
        UnitMethod::Input => Word::Iterator,
        _ => Word::Void,
    }
}

/// What a method of a unit takes, by the number of the argument.
pub fn unit_method_takes(method: UnitMethod, number: usize) -> Option<Type>
    ensures { result ≡ slice_get (unit_method_takes method) number }
{
    match method {
        UnitMethod::SetInput => of_one(Type::word(Word::Iterator), number),
        UnitMethod::ConnectFilter => of_one(Type::word(Word::New), number),
        UnitMethod::Forward => of_one(Type::word(Word::Bytes), number),
        _ => None,
    }
}

fn write_method(arguments: &[Type]) -> SinkMethod
    ensures { result ≡ write_method arguments.now }
{
    if are_two(arguments) {
        SinkMethod::WriteAt
    } else {
        SinkMethod::Write
    }
}

fn sink_method(name: &str, arguments: &[Type]) -> Option<SinkMethod>
    ensures { result ≡ told name.now (sink_methods arguments.now) }
{
    if name == "connect" {
        Some(SinkMethod::Connect)
    } else if name == "write" {
        Some(write_method(arguments))
    } else if name == "gap" {
        Some(SinkMethod::Gap)
    } else if name == "skip" {
        Some(SinkMethod::Skip)
    } else if name == "close" {
        Some(SinkMethod::Close)
    } else if name == "set_initial_sequence_number" {
        Some(SinkMethod::SetInitial)
    } else {
        None
    }
}

/// What a method of a sink takes, by the number of the argument.
pub fn sink_method_takes(method: SinkMethod, number: usize) -> Option<Type>
    ensures { result ≡ slice_get (sink_method_takes method) number }
{
    match method {
        SinkMethod::Connect => of_one(Type::word(Word::New), number),
        SinkMethod::Write => of_one(Type::word(Word::Bytes), number),
        SinkMethod::WriteAt => of_two(
            Type::word(Word::Bytes),
            Type::word(Word::Uint(Width::W64)),
            number,
        ),
        SinkMethod::Gap => of_two(
            Type::word(Word::Uint(Width::W64)),
            Type::word(Word::Uint(Width::W64)),
            number,
        ),
        SinkMethod::Skip | SinkMethod::SetInitial => {
            of_one(Type::word(Word::Uint(Width::W64)), number)
        }
        SinkMethod::Close => None,
    }
}

fn library_call(
    alloc: Global,
    of: &Type,
    method: Option<Method>,
) -> Result<Option<Callable>, NoMemory>
    ensures { IfOk result (λ c. c ≡ library_call of.now method) }
{
    match method {
        Some(method) => Ok(Some(Callable {
            op: ManyOp::Method(method, None),
            ty: method_gives(alloc, method, of)?,
        })),
        None => Ok(None),
    }
}

fn unit_call(span: Span, method: Option<UnitMethod>) -> Option<Callable>
    ensures { result ≡ unit_call span method }
{
    match method {
        Some(method) => Some(Callable {
            op: ManyOp::OfUnit(method, span),
            ty: Type::word(unit_method_gives(method)),
        }),
        None => None,
    }
}

fn sink_call(method: Option<SinkMethod>) -> Option<Callable>
    ensures { result ≡ sink_call method }
{
    match method {
        Some(method) => Some(Callable {
            op: ManyOp::OfSink(method),
            ty: Type::word(Word::Void),
        }),
        None => None,
    }
}

/// The method of a name that values of a type have, for arguments of these types, where the name stands on this slice.
pub fn method_of(
    alloc: Global,
    of: &Type,
    name: &str,
    span: Span,
    arguments: &[Type],
) -> Result<Option<Callable>, NoMemory>
    ensures { IfOk result (λ c. c ≡ method_of of.now name.now span arguments.now) }
{
    match of.level() {
        Level::Word(Word::Unit(_)) => Ok(unit_call(span, unit_method(name))),
        Level::Word(Word::Sink) => Ok(sink_call(sink_method(name, arguments))),
        _ => library_call(alloc, of, library_method(of, name, arguments)),
    }
}

fn leaf_at(span: Span, word: Word, op: LeafOp) -> Expr
    ensures { result ≡ leaf_at span (types.word word) op }
{
    Expr::leaf(Leaf {
        span,
        ty: Type::word(word),
        op,
    })
}

/// Appends what stands for arguments of a method that were left out, where so many were given.
pub fn fill_method(
    method: Method,
    span: Span,
    given: usize,
    parts: &mut Vec<Expr>,
) -> Result<(), NoMemory>
    ensures { OnOk result (parts.new.items ≡ parts.old.items ++ left_out_of method span given) }
{
    match method {
        Method::ToUint | Method::ToInt => fill_base(span, given, parts),
        Method::Decode => fill_decode(span, given, parts),
        _ => Ok(()),
    }
}

fn fill_base(span: Span, given: usize, parts: &mut Vec<Expr>) -> Result<(), NoMemory>
    ensures { OnOk result (parts.new.items
        ≡ parts.old.items ++ left_out_of method_is.ToUint span given) }
{
    if given == 0 {
        parts.push(leaf_at(span, Word::Uint(Width::W64), LeafOp::Number(10)))?;
    }
    Ok(())
}

fn fill_decode(span: Span, given: usize, parts: &mut Vec<Expr>) -> Result<(), NoMemory>
    ensures { OnOk result (parts.new.items
        ≡ parts.old.items ++ left_out_of method_is.Decode span given) }
{
    if given == 0 {
        parts.push(leaf_at(span, Word::Enum(2), LeafOp::Label(2, 0)))?;
        parts.push(leaf_at(span, Word::Enum(3), LeafOp::Label(3, 1)))?;
    } else if given == 1 {
        parts.push(leaf_at(span, Word::Enum(3), LeafOp::Label(3, 1)))?;
    }
    Ok(())
}
