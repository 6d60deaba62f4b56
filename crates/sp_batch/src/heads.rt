// What the line of a record says.
ghost use Rattle.std.specs.Prelude.{◌≡◌, IfOk, None, Some, MatchOption};
ghost use Rattle.sp_batch.specs.Reading.{sized, begin_flow, begin_conn, data_line, gap, end_flow, end_conn, head};

use crate::Record;
use crate::words::{behind, first_kind, first_name, name, number};
use sp_base::{NoMemory, Text};
use std::alloc::Global;

/// What a line says.
#[derive(Drop)]
pub(crate) enum Head {
    /// A record that stands whole in its line.
    Whole(Record),
    /// For which flow data follow, and how many bytes.
    DataLine(Text, u64),
}

/// A name and a number.
fn sized(words: &[u8]) -> Option<(&str, u64)>
    ensures { MatchOption result (sized words.now ≡ None)
        (λ two. sized words.now ≡ Some (two.0.now, two.1)) }
{
    let (id, rest) = first_name(words)?;
    Some((id, number(rest)?))
}

fn data_line(alloc: Global, words: &[u8]) -> Result<Option<Head>, NoMemory>
    ensures { IfOk result (λ head. head ≡ data_line words.now) }
{
    match sized(words) {
        Some((id, size)) => Ok(Some(Head::DataLine(Text::new(alloc, id)?, size))),
        None => Ok(None),
    }
}

fn gap(alloc: Global, words: &[u8]) -> Result<Option<Head>, NoMemory>
    ensures { IfOk result (λ head. head ≡ gap words.now) }
{
    match sized(words) {
        Some((id, size)) => {
            let id = Text::new(alloc, id)?;
            Ok(Some(Head::Whole(Record::Gap { id, size })))
        }
        None => Ok(None),
    }
}

fn begin_flow(alloc: Global, words: &[u8]) -> Result<Option<Head>, NoMemory>
    ensures { IfOk result (λ head. head ≡ begin_flow words.now) }
{
    let Some((id, rest)) = first_name(words) else {
        return Ok(None);
    };
    let Some((block, rest)) = first_kind(rest) else {
        return Ok(None);
    };
    let Some(parser) = name(rest) else {
        return Ok(None);
    };
    let id = Text::new(alloc, id)?;
    let parser = Text::new(alloc, parser)?;
    Ok(Some(Head::Whole(Record::BeginFlow { id, block, parser })))
}

fn end_flow(alloc: Global, words: &[u8]) -> Result<Option<Head>, NoMemory>
    ensures { IfOk result (λ head. head ≡ end_flow words.now) }
{
    match name(words) {
        Some(id) => {
            let id = Text::new(alloc, id)?;
            Ok(Some(Head::Whole(Record::EndFlow { id })))
        }
        None => Ok(None),
    }
}

fn begin_conn(alloc: Global, words: &[u8]) -> Result<Option<Head>, NoMemory>
    ensures { IfOk result (λ head. head ≡ begin_conn words.now) }
{
    let Some((cid, rest)) = first_name(words) else {
        return Ok(None);
    };
    let Some((block, rest)) = first_kind(rest) else {
        return Ok(None);
    };
    let Some((oid, rest)) = first_name(rest) else {
        return Ok(None);
    };
    let Some((oparser, rest)) = first_name(rest) else {
        return Ok(None);
    };
    let Some((rid, rest)) = first_name(rest) else {
        return Ok(None);
    };
    let Some(rparser) = name(rest) else {
        return Ok(None);
    };
    Ok(Some(Head::Whole(Record::BeginConn {
        cid: Text::new(alloc, cid)?,
        block,
        oid: Text::new(alloc, oid)?,
        oparser: Text::new(alloc, oparser)?,
        rid: Text::new(alloc, rid)?,
        rparser: Text::new(alloc, rparser)?,
    })))
}

fn end_conn(alloc: Global, words: &[u8]) -> Result<Option<Head>, NoMemory>
    ensures { IfOk result (λ head. head ≡ end_conn words.now) }
{
    match name(words) {
        Some(cid) => {
            let cid = Text::new(alloc, cid)?;
            Ok(Some(Head::Whole(Record::EndConn { cid })))
        }
        None => Ok(None),
    }
}

/// What the line of a record says, or `None` where it is the line of no record.
pub(crate) fn read_line(alloc: Global, line: &[u8]) -> Result<Option<Head>, NoMemory>
    ensures { IfOk result (λ found. found ≡ head line.now) }
{
    if let Some(words) = behind(b"@data ", line) {
        data_line(alloc, words)
    } else if let Some(words) = behind(b"@gap ", line) {
        gap(alloc, words)
    } else if let Some(words) = behind(b"@begin-flow ", line) {
        begin_flow(alloc, words)
    } else if let Some(words) = behind(b"@end-flow ", line) {
        end_flow(alloc, words)
    } else if let Some(words) = behind(b"@begin-conn ", line) {
        begin_conn(alloc, words)
    } else if let Some(words) = behind(b"@end-conn ", line) {
        end_conn(alloc, words)
    } else {
        Ok(None)
    }
}
