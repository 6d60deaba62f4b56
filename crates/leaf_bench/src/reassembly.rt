//! Pieces that come out of order, put together: each line says in which order they come, and how many.
use crate::token_sets::{put, text_of};
use sp_base::{ByteList, NoMemory};
use sp_reasm::{Note, Notes, Reasm, ReasmFault};
use std::alloc::{AllocError, Global};

/// The length of a piece that comes in order.
const LONG: usize = 1460;

/// The length of a piece that comes out of order.
const SHORT: u64 = 100;

/// In which order pieces come.
#[derive(Clone, Copy)]
enum Order {
    Falling,
    /// far from the piece before
    Mixed,
}

impl Order {
    /// The place of the piece that comes n-th of so many.
    fn place(self, n: u64, count: u64) -> u64 {
        match self {
            Order::Falling => count.saturating_sub(n).saturating_sub(1),
            Order::Mixed => {
                if count == 0 {
                    0
                } else {
                    n.wrapping_mul(123_457) % count
                }
            }
        }
    }
}

/// How many bytes notes deliver.
fn delivered(notes: &Notes) -> u64 {
    let mut all: u64 = 0;
    for note in notes.as_slice() {
        if let Note::Deliver { seq: _, bytes } = note {
            all = all.wrapping_add(bytes.len() as u64);
        }
    }
    all
}

/// So many pieces, one behind the other.
fn made(alloc: Global, count: u64) -> Result<Vec<u8>, NoMemory> {
    Ok(vec![in alloc; 7_u8; (count as usize).saturating_mul(LONG)]?)
}

/// Copies these pieces, one after another.
fn copied(alloc: Global, data: &[u8]) -> Result<u64, NoMemory> {
    let mut all: u64 = 0;
    for piece in data.chunks(LONG) {
        let copy = ByteList::from_slice(alloc, piece)?;
        all = all.wrapping_add(copy.len() as u64);
    }
    Ok(all)
}

/// Writes these pieces in order.
fn straight(alloc: Global, data: &[u8]) -> Result<u64, ReasmFault> {
    let mut sink = Reasm::new(alloc);
    let mut notes = Notes::new(alloc);
    let mut all: u64 = 0;
    for piece in data.chunks(LONG) {
        sink.write(None, piece, &mut notes)?;
        all = all.wrapping_add(delivered(&notes));
        notes.clear();
    }
    Ok(all)
}

/// Writes so many pieces in an order, each so far behind the one before by its place.
fn ordered(alloc: Global, order: Order, count: u64, stride: u64) -> Result<u64, ReasmFault> {
    let piece = Vec::from_array(alloc, [7_u8; 100]).map_err(NoMemory::from)?;
    let mut sink = Reasm::new(alloc);
    let mut notes = Notes::new(alloc);
    let mut all: u64 = 0;
    for n in 0..count {
        let at = order.place(n, count).wrapping_mul(stride);
        sink.write(Some(at), piece.as_slice(), &mut notes)?;
        all = all.wrapping_add(delivered(&notes));
        notes.clear();
    }
    Ok(all)
}

/// What a line asks for.
fn measured(alloc: Global, line: &str) -> Result<u64, ReasmFault> {
    let Some((word, count)) = line.split_once(" ") else {
        return Ok(0);
    };
    let count = count.parse::<u64>().unwrap_or(0);
    match word {
        "made" => Ok(made(alloc, count)?.len() as u64),
        "copied" => Ok(copied(alloc, made(alloc, count)?.as_slice())?),
        "straight" => straight(alloc, made(alloc, count)?.as_slice()),
        "falling" => ordered(alloc, Order::Falling, count, SHORT),
        "mixed" => ordered(alloc, Order::Mixed, count, SHORT),
        "falling-overlapping" => ordered(alloc, Order::Falling, count, SHORT - 1),
        "mixed-overlapping" => ordered(alloc, Order::Mixed, count, SHORT - 1),
        _ => Ok(0),
    }
}

/// Says what a line comes to.
fn work_line(alloc: Global, line: &str, said: &mut String) -> Result<(), AllocError> {
    match measured(alloc, line) {
        Ok(bytes) => put(said, format!(in alloc; "{bytes}\n")),
        Err(_) => said.push_str("refused\n"),
    }
}

pub fn work(alloc: Global, input: &[u8], said: &mut String) -> Result<(), AllocError> {
    for line in text_of(input).split('\n') {
        if !line.is_empty() {
            work_line(alloc, line, said)?;
        }
    }
    Ok(())
}
