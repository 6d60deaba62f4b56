//! The text of a batch, read whole, or the generator's input, made in pieces: the input is the text, or a line `gen`, the number
//! of records and the size of a piece, with spaces between them. Says how many records, or pieces, there were, and how many bytes
//! they hold.
ghost use Rattle.std.specs.Prelude.{◌≤◌, length};

use crate::token_sets::put;
use sp_base::NoMemory;
use sp_batch::{BatchFault, Record, read_header, read_record};
use sp_generator::gen_piece;
use std::alloc::{AllocError, Global};

/// What the records of a batch, or the pieces of an input, come to.
#[derive(Clone, Copy)]
struct Sum {
    parts: u64,
    bytes: u64,
}

/// How many bytes of data a record has.
fn size_of(record: &Record) -> u64 {
    match record {
        Record::Data { bytes, .. } => bytes.len() as u64,
        _ => 0,
    }
}

/// The records from a place on.
fn records(alloc: Global, text: &[u8], from: u64) -> Result<Sum, BatchFault>
    requires { from ≤ length text.now }
{
    let mut at = from;
    let mut sum = Sum { parts: 0, bytes: 0 };
    for _ in 0..=text.len() {
        let Some((record, next)) = read_record(alloc, text, at)? else {
            break;
        };
        sum.bytes = sum.bytes.saturating_add(size_of(&record));
        drop(record);
        sum.parts = sum.parts.saturating_add(1);
        at = next;
    }
    Ok(sum)
}

/// The pieces of the generator's input.
fn pieces(alloc: Global, n: u64, size: u64) -> Result<Sum, NoMemory>
    requires { n ≤ 4294967296 }
{
    let mut sum = Sum { parts: 0, bytes: 0 };
    for _ in 0..u64::MAX {
        let piece = gen_piece(alloc, n, sum.bytes, size)?;
        if piece.is_empty() {
            break;
        }
        sum.bytes = sum.bytes.saturating_add(piece.len() as u64);
        sum.parts = sum.parts.saturating_add(1);
    }
    Ok(sum)
}

/// The numbers of the line `gen`.
fn sizes(line: &str) -> Option<(u64, u64)> {
    let (n, size) = line.strip_prefix("gen ")?.split_once(" ")?;
    Some((n.parse::<u64>().ok()?, size.trim().parse::<u64>().ok()?))
}

/// What the text comes to.
fn answer(alloc: Global, text: &[u8]) -> Result<Sum, BatchFault> {
    if text.len() < 64 {
        if let Ok(line) = std::str::from_utf8(text) {
            if let Some((n, size)) = sizes(line) {
                if n <= 1 << 32 {
                    return Ok(pieces(alloc, n, size)?);
                }
            }
        }
    }
    let from = read_header(text)?;
    records(alloc, text, from)
}

pub fn work(alloc: Global, input: &[u8], said: &mut String) -> Result<(), AllocError> {
    match answer(alloc, input) {
        Ok(sum) => {
            let parts = sum.parts;
            let bytes = sum.bytes;
            put(said, format!(in alloc; "{parts} parts, {bytes} bytes\n"))
        }
        Err(BatchFault::Bad(kind, at)) => {
            let name = kind.name();
            put(said, format!(in alloc; "{name} at {at}\n"))
        }
        Err(BatchFault::NoMemory) => said.push_str("out of memory\n"),
    }
}
