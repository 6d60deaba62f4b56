// Texts of batches in hexadecimal. The answer is a part for each record and `ok`, or the refusal's word and place, with `,`
// between them: a record's part is its place, its letter and its fields, with `:` between them. The letters are `f` for a flow
// that begins, `d` for data, `g` for a gap, `e` for a flow that ends, `c` for a connection that begins and `x` for one that
// ends; names and data are in hexadecimal, and a flow of blocks is `1`.
ghost use Rattle.std.specs.Prelude.{◌≤◌, length};

use crate::texts::put;
use sp_base::{NoMemory, Text};
use sp_batch::{BatchFault, Record, read_header, read_record};
use std::alloc::{AllocError, Global};

/// Tells `:` and the bytes in hexadecimal.
fn put_field(alloc: Global, got: &mut String, bytes: &[u8]) -> Result<(), AllocError> {
    got.push_str(":")?;
    put(got, hex::encode(alloc, bytes))
}

/// Tells `:` and a name in hexadecimal.
fn put_name(alloc: Global, got: &mut String, name: &Text) -> Result<(), AllocError> {
    put_field(alloc, got, name.as_str().as_bytes())
}

/// Tells two names.
fn put_names(
    alloc: Global,
    got: &mut String,
    first: &Text,
    second: &Text,
) -> Result<(), AllocError> {
    put_name(alloc, got, first)?;
    put_name(alloc, got, second)
}

/// Tells a name, and whether what has it is of blocks.
fn put_begin(
    alloc: Global,
    got: &mut String,
    letter: &str,
    name: &Text,
    block: bool,
) -> Result<(), AllocError> {
    got.push_str(letter)?;
    put_name(alloc, got, name)?;
    got.push_str(if block { ":1" } else { ":0" })
}

/// Tells a letter and a name.
fn put_letter(
    alloc: Global,
    got: &mut String,
    letter: &str,
    name: &Text,
) -> Result<(), AllocError> {
    got.push_str(letter)?;
    put_name(alloc, got, name)
}

fn put_record(alloc: Global, got: &mut String, record: &Record) -> Result<(), AllocError> {
    match record {
        Record::BeginFlow { id, block, parser } => {
            put_begin(alloc, got, "f", id, *block)?;
            put_name(alloc, got, parser)
        }
        Record::Data { id, bytes } => {
            put_letter(alloc, got, "d", id)?;
            put_field(alloc, got, bytes.as_slice())
        }
        Record::Gap { id, size } => {
            put_letter(alloc, got, "g", id)?;
            put(got, format!(in alloc; ":{size}"))
        }
        Record::EndFlow { id } => put_letter(alloc, got, "e", id),
        Record::BeginConn {
            cid,
            block,
            oid,
            oparser,
            rid,
            rparser,
        } => {
            put_begin(alloc, got, "c", cid, *block)?;
            put_names(alloc, got, oid, oparser)?;
            put_names(alloc, got, rid, rparser)
        }
        Record::EndConn { cid } => put_letter(alloc, got, "x", cid),
    }
}

/// Tells a record and its place.
fn put_placed(alloc: Global, got: &mut String, at: u64, record: &Record) -> Result<(), AllocError> {
    put(got, format!(in alloc; "{at}:"))?;
    put_record(alloc, got, record)?;
    got.push_str(",")
}

/// Tells the records from a place on, up to the end or the first refusal.
fn put_records(alloc: Global, got: &mut String, bytes: &[u8], from: u64) -> Result<(), BatchFault>
    requires { from ≤ length bytes.now }
{
    let mut at = from;
    for _ in 0..=bytes.len() {
        let Some((record, next)) = read_record(alloc, bytes, at)? else {
            break;
        };
        let said = put_placed(alloc, got, at, &record);
        drop(record);
        said.map_err(NoMemory::from)?;
        at = next;
    }
    Ok(())
}

/// What the text gives.
fn told(alloc: Global, bytes: &[u8], got: &mut String) -> Result<(), AllocError> {
    let read = match read_header(bytes) {
        Ok(at) => put_records(alloc, got, bytes, at),
        Err(fault) => Err(fault),
    };
    match read {
        Ok(()) => got.push_str("ok"),
        Err(BatchFault::Bad(kind, at)) => {
            let name = kind.name();
            put(got, format!(in alloc; "{name}:{at}"))
        }
        Err(BatchFault::NoMemory) => Err(AllocError),
    }
}

pub fn answer(alloc: Global, question: &str, got: &mut String) -> Result<(), AllocError> {
    let Ok(bytes) = hex::decode(alloc, question) else {
        return Ok(());
    };
    let said = told(alloc, bytes.as_slice(), got);
    drop(bytes);
    said
}
