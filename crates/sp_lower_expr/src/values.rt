// Values that types and literals say.
ghost use Rattle.std.specs.Prelude.{◌≡◌, ◌<◌, ◌++◌, ◌∷◌, [], drop, take, replicate, IfOk, OnOk, true, pos, neg_ℤ, IsTrue, if◌then◌else◌};
ghost use Rattle.sp_numbers.specs.Numbers.{fits_signed};
ghost use Rattle.sp_value.specs.Val.{int, tuple, vals_of};
ghost use Rattle.sp_meaning_states.specs.Types.{number_value, plain_type, ranges_of, word_zero, zero_value};
ghost use Rattle.sp_meaning.specs.Globals.{range_counts};
ghost use Rattle.sp_emit.specs.Plans.{begin, plan, plans, work};
ghost use Rattle.sp_lower_expr.specs.Literals.{NumberFits};
ghost use Rattle.sp_lower_expr.specs.inside.ZeroPlans.{zeros_behind};

use sp_base::NoMemory;
use sp_emit::{Task, behind, push_parts, range_count};
use sp_numbers::Width;
use sp_operators::PlainType;
use sp_typed_units::Bitfield;
use sp_types::{Level, Maker, Type, Word};
use sp_value::Value;
use std::alloc::Global;

/// The plain type to which a cast or a wider target goes.
pub(crate) fn plain_type(ty: &Type) -> PlainType
    ensures { result ≡ plain_type ty.now }
{
    match ty.level() {
        Level::Word(Word::Bool) => PlainType::Bool,
        Level::Word(Word::Uint(width)) => PlainType::Uint(width),
        Level::Word(Word::Int(width)) => PlainType::Int(width),
        Level::Word(Word::Bytes) => PlainType::Bytes,
        Level::Word(Word::String) => PlainType::Str,
        Level::Word(Word::Enum(k)) => PlainType::Enum(k),
        Level::Word(Word::Bitfield(k)) => PlainType::Bits(k),
        Level::Word(_) => PlainType::Void,
        Level::Made(Maker::Tuple, _) => PlainType::Tuple,
        Level::Made(Maker::Vector, _) => PlainType::Vector,
        Level::Made(Maker::Set, _) => PlainType::Set,
        Level::Made(Maker::Map, _) => PlainType::Map,
    }
}

/// The number of a literal as a value of its type.
pub(crate) fn number_value(ty: &Type, minus: bool, n: u64) -> Value
    requires { NumberFits ty.now minus n }
    ensures { result ≡ number_value ty.now minus n }
{
    match ty.level() {
        Level::Word(Word::Uint(width)) => Value::uint(width, n),
        Level::Word(Word::Int(width)) => signed(width, minus, n),
        _ => Value::void(),
    }
}

/// A number, with a minus sign or without, as a signed integer of a width.
fn signed(width: Width, minus: bool, n: u64) -> Value
    requires { IsTrue (fits_signed width (if minus then neg_ℤ (pos n) else pos n)) }
    ensures { result ≡ int width (if minus then neg_ℤ (pos n) else pos n) }
{
    if !minus {
        return Value::int(width, n as i64);
    }
    if n == 0x8000_0000_0000_0000 {
        return Value::int(width, i64::MIN);
    }
    Value::int(width, -(n as i64))
}

/// As many zeros as a bitfield has named ranges.
fn zeros(alloc: Global, bitfields: &[Bitfield], k: u32) -> Result<Vec<u64>, NoMemory>
    ensures { IfOk result (λ ns. ns.items ≡ replicate (ranges_of (range_counts bitfields.now) k)
        0) }
{
    Ok(vec![in alloc; 0; range_count(bitfields, k)]?)
}

/// The value with which a variable of a type without parts begins.
fn word_zero(alloc: Global, bitfields: &[Bitfield], word: Word) -> Result<Value, NoMemory>
    ensures { IfOk result (λ v. v ≡ word_zero (range_counts bitfields.now) word) }
{
    match word {
        Word::Bool => Ok(Value::bool(false)),
        Word::Uint(width) => Ok(Value::uint(width, 0)),
        Word::Int(width) => Ok(Value::int(width, 0)),
        Word::Bytes => Value::bytes(Vec::new(alloc)),
        Word::String => Value::str(String::new(alloc)),
        Word::Iterator => Ok(Value::place(0)),
        Word::Enum(k) => Ok(Value::label(k, 0)),
        Word::Bitfield(k) => Value::bits(k, zeros(alloc, bitfields, k)?),
        _ => Ok(Value::void()),
    }
}

/// Puts a value behind those that are found.
fn put(done: &mut Vec<Value>, value: Value) -> Result<(), NoMemory>
    ensures { OnOk result (done.new.items ≡ done.old.items ++ value ∷ []) }
{
    done.push(value)?;
    Ok(())
}

/// Finds the value with which a variable of a type begins, or puts what is to be done for it on the list of what is left
/// to do.
fn begin<'a>(
    alloc: Global,
    bitfields: &[Bitfield],
    ty: &'a Type,
    tasks: &mut Vec<Task<'a>>,
    done: &mut Vec<Value>,
) -> Result<(), NoMemory>
    ensures found { OnOk result (zeros_behind (range_counts bitfields.now) (plans tasks.new.items)
        done.new.items
        ≡ zeros_behind (range_counts bitfields.now) (begin ty.now ∷ plans tasks.old.items)
        done.old.items) }
    ensures falls { OnOk result (work (plans tasks.new.items)
        < work (begin ty.now ∷ plans tasks.old.items)) }
{
    match ty.level() {
        Level::Word(word) => put(done, word_zero(alloc, bitfields, word)?),
        Level::Made(Maker::Tuple, parts) => {
            tasks.push(Task::End(Maker::Tuple, done.len()))?;
            push_parts(tasks, parts)
        }
        Level::Made(Maker::Vector, _) => put(done, Value::vector(Vec::new(alloc))?),
        Level::Made(Maker::Set, _) => put(done, Value::set(Vec::new(alloc))?),
        Level::Made(Maker::Map, _) => put(done, Value::map(Vec::new(alloc))?),
    }
}

/// Makes a tuple of the values from a place on, in their place.
fn end(n: usize, done: &mut Vec<Value>) -> Result<(), NoMemory>
    ensures { OnOk result (done.new.items ≡ take n done.old.items
        ++ tuple (vals_of (drop n done.old.items)) ∷ []) }
{
    let members = behind(done, n)?;
    put(done, Value::tuple(members)?)
}

/// Does what is next.
fn step<'a>(
    alloc: Global,
    bitfields: &[Bitfield],
    task: Task<'a>,
    tasks: &mut Vec<Task<'a>>,
    done: &mut Vec<Value>,
) -> Result<(), NoMemory>
    ensures found { OnOk result (zeros_behind (range_counts bitfields.now) (plans tasks.new.items)
        done.new.items
        ≡ zeros_behind (range_counts bitfields.now) (plan task.entry ∷ plans tasks.old.items)
        done.old.items) }
    ensures falls { OnOk result (work (plans tasks.new.items)
        < work (plan task.entry ∷ plans tasks.old.items)) }
{
    match task {
        Task::Begin(ty) => begin(alloc, bitfields, ty, tasks, done),
        Task::End(_, n) => end(n, done),
    }
}

/// The value with which a variable of a type begins.
pub fn zero_value(alloc: Global, bitfields: &[Bitfield], ty: &Type) -> Result<Value, NoMemory>
    ensures { IfOk result (λ v. v ≡ zero_value (range_counts bitfields.now) ty.now) }
{
    if let Level::Word(word) = ty.level() {
        return word_zero(alloc, bitfields, word);
    }
    let mut tasks = Vec::new(alloc);
    let mut done = Vec::new(alloc);
    tasks.push(Task::Begin(ty))?;
    while let Some(task) = tasks.pop() {
        step(alloc, bitfields, task, &mut tasks, &mut done)?;
    }
    Ok(done.swap_remove(0))
}
