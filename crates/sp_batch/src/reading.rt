// A batch from its text: the header, and a record from its place.
ghost use Rattle.std.specs.Prelude.{◌≡◌, ◌≤◌, ◌<◌, length, drop, IfOk, IfErr, IfSome, IfNone, MatchOption, option_map, ℕ, List};
ghost use Rattle.sp_base.specs.declared.kinds.BKind.TheVariants.{BadHeader};
ghost use Rattle.sp_batch.specs.Grammar.{IsHeader, IsRecord};
ghost use Rattle.sp_batch.specs.Answers.{reading_of, IsFault};
ghost use Rattle.sp_batch.specs.Reading.{header, ended, with_data, read};

use crate::heads::{Head, read_line};
use crate::words::{behind, cut, line_end};
use crate::{BatchFault, Record};
use sp_base::{BKind, ByteList, NoMemory, Text};
use std::alloc::Global;

/// A record with what follows it, or what is wrong.
#[derive(Drop)]
enum Reading<'a> {
    Found(Record, &'a [u8]),
    Bad(BKind),
}

/// What follows the header.
fn header(text: &[u8]) -> Option<&[u8]>
    ensures { MatchOption result (header text.now ≡ None)
        (λ rest. header text.now ≡ Some rest.now) }
{
    line_end(behind(b"!spicy-batch v2", text)?)
}

/// The place behind the header of a batch. It takes no memory. Refusal: `BadHeader` at 0 where the text doesn't begin with the
/// header's line.
pub fn read_header(bytes: &[u8]) -> Result<u64, BatchFault>
    ensures within { IfOk result (λ next. next ≤ length bytes.now) }
    ensures header { IfOk result (λ next. IsHeader bytes.now (drop next bytes.now)) }
    ensures bad { IfErr result (λ fault. fault ≡ BatchFault.Bad BadHeader 0) }
    ensures none { IfErr result (λ _. (rest : List ℕ) → ¬ IsHeader bytes.now rest) }
{
    match header(bytes) {
        Some(rest) => Ok((bytes.len() - rest.len()) as u64),
        None => Err(BatchFault::Bad(BKind::BadHeader, 0)),
    }
}

/// Data, before what stands behind them.
fn ended<'a>(alloc: Global, id: Text, bytes: &[u8], tail: &'a [u8]) -> Result<Reading<'a>, NoMemory>
    ensures { IfOk result (λ reading. reading_of reading ≡ ended id bytes.now tail.now) }
{
    match line_end(tail) {
        Some(rest) => {
            let bytes = ByteList::from_slice(alloc, bytes)?;
            Ok(Reading::Found(Record::Data { id, bytes }, rest))
        }
        None => Ok(Reading::Bad(BKind::BadRecord)),
    }
}

/// Data from behind their line on.
fn with_data<'a>(
    alloc: Global,
    id: Text,
    size: u64,
    rest: Option<&'a [u8]>,
) -> Result<Reading<'a>, NoMemory>
    ensures { IfOk result (λ reading. reading_of reading
        ≡ with_data id size (option_map (λ r. r.now) rest.entry)) }
{
    match rest {
        None => Ok(Reading::Bad(BKind::CutShort)),
        Some(rest) => {
            if (rest.len() as u64) < size {
                return Ok(Reading::Bad(BKind::CutShort));
            }
            let (bytes, tail) = rest.split_at(size as usize);
            ended(alloc, id, bytes, tail)
        }
    }
}

/// What a text begins with.
fn read(alloc: Global, text: &[u8]) -> Result<Reading<'_>, NoMemory>
    ensures { IfOk result (λ reading. reading_of reading ≡ read text.now) }
{
    let (line, rest) = cut(b'\n', text);
    match read_line(alloc, line)? {
        None => Ok(Reading::Bad(BKind::BadRecord)),
        Some(Head::Whole(record)) => Ok(Reading::Found(record, rest.unwrap_or(&[]))),
        Some(Head::DataLine(id, size)) => with_data(alloc, id, size, rest),
    }
}

/// The record at a place of a batch's text and the place behind it, or `None` at the end of the text. No copy is made but of the
/// names and the data that the record holds, and the time grows with the bytes between the two places, or with those of the line
/// that is refused. Refusals, each with the record's place: `BadRecord` where the line is that of no record or another byte than
/// LF stands behind data, and else `CutShort` where the text ends inside the record.
pub fn read_record(
    alloc: Global,
    bytes: &[u8],
    at: u64,
) -> Result<Option<(Record, u64)>, BatchFault>
    requires { at ≤ length bytes.now }
    ensures end { IfOk result (λ found. IfNone found (at ≡ length bytes.now)) }
    ensures next { IfOk result (λ found. IfSome found
        (λ two. (at < two.1) × (two.1 ≤ length bytes.now))) }
    ensures record { IfOk result (λ found. IfSome found
        (λ two. IsRecord (drop at bytes.now) two.0 (drop two.1 bytes.now))) }
    ensures fault { IfErr result (λ fault. IsFault (drop at bytes.now) at fault) }
{
    let text = &bytes[at as usize..];
    if text.is_empty() {
        return Ok(None);
    }
    match read(alloc, text)? {
        Reading::Found(record, rest) => Ok(Some((record, (bytes.len() - rest.len()) as u64))),
        Reading::Bad(kind) => Err(BatchFault::Bad(kind, at)),
    }
}
