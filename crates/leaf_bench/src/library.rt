//! Methods of the library on long operands: each line names the method and the operand, and how many bytes or items it has. What
//! comes out is what the answers' sizes are together.
ghost use Rattle.std.specs.Prelude.{IfOk, IsTrue};
ghost use Rattle.sp_value.specs.Changes.{IsVector, IsMap};

use crate::token_sets::{put, text_of};
use crate::values::is_vector;
use sp_base::{NoMemory, or_drop};
use sp_lib::{
    back, decode, encode, front, get, lower, pop_back, push_back, split, split1, starts_with, sub,
    to_int, to_int_order, to_uint, to_uint_order, upper,
};
use sp_numbers::Width;
use sp_operators::ValueFault;
use sp_value::Value;
use std::alloc::{AllocError, Global};

/// How often a method is called on bytes.
const TIMES: u64 = 32;

/// So many bytes, which are a pattern over and over.
fn repeated(alloc: Global, pattern: &[u8], count: u64) -> Result<Vec<u8>, NoMemory> {
    let mut bytes = Vec::new(alloc);
    for _ in 0..count {
        if bytes.len() as u64 >= count {
            break;
        }
        bytes.extend_from_slice(pattern)?;
    }
    Ok(bytes)
}

/// The bytes on which a method is called.
fn operand(alloc: Global, name: &str, count: u64) -> Result<Vec<u8>, NoMemory> {
    match name {
        "to_uint" | "to_int" => repeated(alloc, b"0", count),
        "split" => repeated(alloc, b"seven77,", count),
        "split_each" => repeated(alloc, b",", count),
        "split_none" | "split1" => repeated(alloc, b"seven777", count),
        "decode_letters" | "strict_letters" => repeated(alloc, "\u{e9}\u{20ac}".as_bytes(), count),
        "decode_strays" | "drop_strays" => repeated(alloc, b"\xff", count),
        "decode_mixed" | "to_uint_order" | "to_int_order" => repeated(alloc, b"seven77\xff", count),
        _ => repeated(alloc, b"Words of ASCII. ", count),
    }
}

/// The sum of the integers of each 8 bytes in network order.
fn of_groups(x: &[u8]) -> u64 {
    let mut all = 0_u64;
    for group in x.chunks(8) {
        all = all.wrapping_add(to_uint_order(group, 2).unwrap_or(0));
    }
    all
}

/// How many of the signed integers of each 8 bytes in little-endian order are negative.
fn of_signed_groups(x: &[u8]) -> u64 {
    let mut all = 0_u64;
    for group in x.chunks(8) {
        if to_int_order(group, 0).unwrap_or(0) < 0 {
            all = all.wrapping_add(1);
        }
    }
    all
}

/// The size of what one call answers.
fn called(alloc: Global, name: &str, x: &[u8]) -> Result<usize, ValueFault> {
    match name {
        "to_uint" => Ok(usize::from(to_uint(x, 10).is_ok())),
        "to_int" => Ok(usize::from(to_int(x, 10).is_ok())),
        "to_uint_order" => Ok(of_groups(x) as usize),
        "to_int_order" => Ok(of_signed_groups(x) as usize),
        "starts_with" => Ok(usize::from(starts_with(x, x))),
        "sub" => Ok(sub(alloc, x, 0, x.len() as u64)?.len()),
        "split" | "split_each" | "split_none" => Ok(split(alloc, x, b",")?.as_slice().len()),
        "split1" => Ok(split1(alloc, x, b",")?.0.len()),
        "decode" | "decode_letters" | "decode_strays" | "decode_mixed" => Ok(
            decode(alloc, x, 0, 1)?.as_str().len(),
        ),
        "decode_ascii" => Ok(decode(alloc, x, 1, 1)?.as_str().len()),
        "drop_strays" => Ok(decode(alloc, x, 0, 0)?.as_str().len()),
        "strict_letters" => Ok(decode(alloc, x, 0, 2)?.as_str().len()),
        _ => Ok(0),
    }
}

/// The same of the methods that answer nothing but want of memory.
fn called_plainly(alloc: Global, name: &str, x: &[u8]) -> Result<Option<usize>, NoMemory> {
    match name {
        "lower" => Ok(Some(lower(alloc, x)?.len())),
        "upper" => Ok(Some(upper(alloc, x)?.len())),
        "encode" => match std::str::from_utf8(x) {
            Ok(text) => Ok(Some(encode(alloc, text)?.len())),
            Err(_) => Ok(Some(0)),
        },
        _ => Ok(None),
    }
}

/// The sum of the sizes of the answers of `TIMES` calls.
fn of_bytes(alloc: Global, name: &str, count: u64) -> Result<usize, NoMemory> {
    let x = operand(alloc, name, count)?;
    let mut all = 0_usize;
    for _ in 0..TIMES {
        let size = match called_plainly(alloc, name, x.as_slice())? {
            Some(size) => size,
            None => called(alloc, name, x.as_slice()).unwrap_or(0),
        };
        all = all.wrapping_add(size);
    }
    Ok(all)
}

/// A vector to which so many items were appended.
fn filled(alloc: Global, count: u64) -> Result<Value, NoMemory>
    ensures { IfOk result IsVector }
{
    let mut vector = Value::vector(Vec::new(alloc))?;
    for n in 0..count {
        or_drop!(push_back(&mut vector, Value::uint(Width::W64, n)); vector);
    }
    Ok(vector)
}

/// The number of the last item of a vector, which is taken away; 0 where there is none.
fn last_number(vector: &mut Value) -> u64 {
    if !is_vector(vector) {
        return 0;
    }
    match pop_back(vector) {
        Ok(item) => {
            let number = item.as_uint().unwrap_or(0);
            drop(item);
            number
        }
        Err(_) => 0,
    }
}

/// The sum of the numbers of so many values that are taken one by one from the end of a vector.
fn popped(alloc: Global, count: u64) -> Result<u64, NoMemory> {
    let mut vector = filled(alloc, count)?;
    let mut all = 0_u64;
    for _ in 0..count {
        all = all.wrapping_add(last_number(&mut vector));
    }
    drop(vector);
    Ok(all)
}

fn number_of(item: Result<Value, ValueFault>) -> u64 {
    match item {
        Ok(item) => {
            let number = item.as_uint().unwrap_or(0);
            drop(item);
            number
        }
        Err(_) => 0,
    }
}

/// The sum of the first and the last number of a vector.
fn two_numbers(vector: &Value) -> u64 {
    if is_vector(vector) {
        number_of(front(vector)).wrapping_add(number_of(back(vector)))
    } else {
        0
    }
}

/// The sum of the first and the last item of a vector, asked so many times.
fn ends(alloc: Global, count: u64) -> Result<u64, NoMemory> {
    let vector = filled(alloc, count)?;
    let mut all = 0_u64;
    for _ in 0..count {
        all = all.wrapping_add(two_numbers(&vector));
    }
    drop(vector);
    Ok(all)
}

/// The sum of the values of a map, each asked for by its key, or of as many defaults, each asked for by a key that isn't there.
fn got(alloc: Global, count: u64, first: u64) -> Result<u64, NoMemory> {
    let mut map = Value::map(Vec::new(alloc))?;
    for n in 0..count {
        or_drop!(map.insert(Value::uint(Width::W64, n), Value::uint(Width::W64, n)); map);
    }
    let mut all = 0_u64;
    for n in 0..count {
        let key = Value::uint(Width::W64, n.wrapping_add(first));
        all = all.wrapping_add(number_of(get(&map, &key, Some(&key))));
        drop(key);
    }
    drop(map);
    Ok(all)
}

/// The size of a vector to which so many items were appended.
fn pushed(alloc: Global, count: u64) -> Result<usize, NoMemory> {
    let vector = filled(alloc, count)?;
    let size = vector.size().unwrap_or(0);
    drop(vector);
    Ok(size)
}

fn run(alloc: Global, line: &str) -> Result<usize, NoMemory> {
    let Some((name, count)) = line.split_once(" ") else {
        return Ok(0);
    };
    let count = count.parse::<u64>().unwrap_or(0);
    match name {
        "push_back" => pushed(alloc, count),
        "pop_back" => Ok(popped(alloc, count)? as usize),
        "ends" => Ok(ends(alloc, count)? as usize),
        "get" => Ok(got(alloc, count, 0)? as usize),
        "get_default" => Ok(got(alloc, count, count)? as usize),
        _ => of_bytes(alloc, name, count),
    }
}

/// Says what a line comes to.
fn work_line(alloc: Global, line: &str, said: &mut String) -> Result<(), AllocError> {
    match run(alloc, line) {
        Ok(count) => put(said, format!(in alloc; "{count}\n")),
        Err(NoMemory) => said.push_str("out of memory\n"),
    }
}

pub fn work(alloc: Global, input: &[u8], said: &mut String) -> Result<(), AllocError> {
    for line in text_of(input).split('\n') {
        if !line.is_empty() {
            work_line(alloc, line, said)?;
        }
    }
    Ok(())
}
