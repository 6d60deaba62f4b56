// The parts of bytes between the occurrences of a separator.
ghost use Rattle.std.specs.Prelude.{◌≡◌, ◌<◌, length, map, IfOk};
ghost use Rattle.sp_value.specs.Val.{bytes};
ghost use Rattle.sp_methods.specs.Answers.{Tells};
ghost use Rattle.sp_methods.specs.Separated.{before, behind, parts, split, split1};

use crate::fault::made;
use memchr::memmem;
use sp_base::{ByteList, NoMemory, PKind};
use sp_operators::ValueFault;
use sp_value::{Value, Values};
use std::alloc::Global;

/// Bytes as a value of their own.
fn part(alloc: Global, x: &[u8]) -> Result<Value, NoMemory>
    ensures { IfOk result (λ value. value ≡ bytes x.now) }
{
    Value::bytes(Vec::from_slice(alloc, x)?)
}

/// The parts between the occurrences of a separator that isn't empty.
fn parts(alloc: Global, x: &[u8], d: &[u8]) -> Result<Vec<Value>, NoMemory>
    requires { 0 < length d.now }
    ensures { IfOk result (λ list. list.items ≡ map bytes (parts d.now 0 x.now)) }
{
    let finder = memmem::Finder::new(d);
    let mut list = Vec::new(alloc);
    let mut rest = x;
    while let Some(at) = finder.find(rest) {
        list.push(part(alloc, &rest[..at])?)?;
        rest = &rest[at + d.len()..];
    }
    list.push(part(alloc, rest)?)?;
    Ok(list)
}

/// The parts between the occurrences of `d`, which are taken from the left and don't overlap; all in one part where there is none.
/// The time grows with the sum of the lengths. Error: `BadConversion` where `d` is empty.
pub fn split(alloc: Global, x: &[u8], d: &[u8]) -> Result<Values, ValueFault>
    ensures { Tells (λ values. values) (split x.now d.now) result }
{
    if d.is_empty() {
        return Err(ValueFault::Run(PKind::BadConversion));
    }
    match parts(alloc, x, d) {
        Ok(list) => Ok(Values::new(list)),
        Err(NoMemory) => Err(ValueFault::NoMemory),
    }
}

/// The parts on both sides of the first occurrence of a separator that isn't empty.
fn two_parts<'a>(x: &'a [u8], d: &[u8]) -> (&'a [u8], &'a [u8])
    requires { 0 < length d.now }
    ensures before { result.0.now ≡ before d.now x.now }
    ensures behind { result.1.now ≡ behind d.now x.now }
{
    match memmem::find(x, d) {
        Some(at) => (&x[..at], &x[at + d.len()..]),
        None => (x, &x[x.len()..]),
    }
}

/// What stands before the first occurrence of `d` and behind it; all and nothing where there is none. Error: `BadConversion` where
/// `d` is empty.
pub fn split1(alloc: Global, x: &[u8], d: &[u8]) -> Result<(ByteList, ByteList), ValueFault>
    ensures { Tells (λ two. two) (split1 x.now d.now) result }
{
    if d.is_empty() {
        return Err(ValueFault::Run(PKind::BadConversion));
    }
    let (before, behind) = two_parts(x, d);
    let first = made(ByteList::from_slice(alloc, before))?;
    let second = made(ByteList::from_slice(alloc, behind))?;
    Ok((first, second))
}
