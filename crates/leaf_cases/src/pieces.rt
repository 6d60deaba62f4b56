// Calls on a new sink, with spaces between them. A call is a letter, a number, `:` and what else it takes: `w` and the sequence
// number, or none, and the data in hexadecimal; `g`, the number and the length; `s` and the number; `c` and 1 where the sink
// closes for good; `i` and the first number. An answer is `!` and the name of the run error, `-` for no notes, or the notes
// between commas, each its first letter and what it says, between colons; and behind an `@` where a write without a number
// would begin then. A space stands behind each answer but the last.
use crate::texts::put;
use sp_base::ByteList;
use sp_reasm::{Note, Notes, Reasm, ReasmFault};
use std::alloc::{AllocError, Global};

/// Tells a letter and a number.
fn show_number(
    alloc: Global,
    got: &mut String,
    letter: &str,
    number: u64,
) -> Result<(), AllocError> {
    put(got, format!(in alloc; "{letter}{number}"))
}

/// Tells a colon and bytes.
fn show_bytes(alloc: Global, got: &mut String, bytes: &ByteList) -> Result<(), AllocError> {
    got.push_str(":")?;
    put(got, hex::encode(alloc, bytes.as_slice()))
}

/// Tells a note.
fn show(alloc: Global, got: &mut String, note: &Note) -> Result<(), AllocError> {
    match note {
        Note::Overlap { seq, old, new } => {
            show_number(alloc, got, "O", *seq)?;
            show_bytes(alloc, got, old)?;
            show_bytes(alloc, got, new)
        }
        Note::Undelivered { seq, bytes } => {
            show_number(alloc, got, "U", *seq)?;
            show_bytes(alloc, got, bytes)
        }
        Note::Skipped { seq } => show_number(alloc, got, "S", *seq),
        Note::Deliver { seq, bytes } => {
            show_number(alloc, got, "D", *seq)?;
            show_bytes(alloc, got, bytes)
        }
        Note::Gap { seq, len } => {
            show_number(alloc, got, "G", *seq)?;
            show_number(alloc, got, ":", *len)
        }
        Note::Closed => got.push_str("C"),
    }
}

/// Tells the notes, or `-` where there are none.
fn show_all(alloc: Global, got: &mut String, notes: &[Note]) -> Result<(), AllocError> {
    if notes.is_empty() {
        return got.push_str("-");
    }
    let mut first = true;
    for note in notes {
        if !first {
            got.push_str(",")?;
        }
        first = false;
        show(alloc, got, note)?;
    }
    Ok(())
}

/// Writes the data of this text.
fn write(
    alloc: Global,
    sink: &mut Reasm,
    seq: Option<u64>,
    text: &str,
    notes: &mut Notes,
) -> Result<(), ReasmFault> {
    let Ok(bytes) = hex::decode(alloc, text) else {
        return Ok(());
    };
    let written = sink.write(seq, bytes.as_slice(), notes);
    drop(bytes);
    written
}

/// Makes a call.
fn call(alloc: Global, sink: &mut Reasm, text: &str, notes: &mut Notes) -> Result<(), ReasmFault> {
    let Some((name, rest)) = text.split_once(":") else {
        return Ok(());
    };
    let letter = name.get(..1).unwrap_or("");
    let number = name.get(1..).unwrap_or("").parse::<u64>().ok();
    let first = number.unwrap_or(0);
    match letter {
        "w" => write(alloc, sink, number, rest, notes),
        "g" => sink.gap(first, rest.parse::<u64>().unwrap_or(0), notes),
        "s" => sink.skip(first, notes),
        "c" => sink.close(rest == "1", notes),
        "i" => sink.set_initial(first),
        _ => Ok(()),
    }
}

/// Tells what a call answers, and where a write would begin.
fn show_answer(
    alloc: Global,
    answered: Result<(), ReasmFault>,
    notes: &Notes,
    next: u64,
    got: &mut String,
) -> Result<(), AllocError> {
    match answered {
        Ok(()) => show_all(alloc, got, notes.as_slice())?,
        Err(ReasmFault::Run(kind)) => {
            got.push_str("!")?;
            got.push_str(kind.name())?;
        }
        Err(ReasmFault::NoMemory) => return Err(AllocError),
    }
    show_number(alloc, got, "@", next)
}

/// Makes the calls one after another.
fn call_all(
    alloc: Global,
    sink: &mut Reasm,
    calls: &str,
    notes: &mut Notes,
    got: &mut String,
) -> Result<(), AllocError> {
    let mut first = true;
    for text in calls.split(' ') {
        if !first {
            got.push_str(" ")?;
        }
        first = false;
        let answered = call(alloc, sink, text, notes);
        let next = sink.next();
        show_answer(alloc, answered, notes, next, got)?;
        notes.clear();
    }
    Ok(())
}

pub fn answer(alloc: Global, question: &str, got: &mut String) -> Result<(), AllocError> {
    let mut sink = Reasm::new(alloc);
    let mut notes = Notes::new(alloc);
    let said = call_all(alloc, &mut sink, question, &mut notes, got);
    drop(sink);
    drop(notes);
    said
}
