// Told values without members as JSON (RFC 8259), written token by token, with no JSON value between.
ghost use Rattle.std.specs.Prelude.{◌≡◌, ◌++◌, IfSome, OnOk, encode_utf8_all};
ghost use Rattle.serde_json.specs.Data.{number, unsigned, object, no_members};
ghost use Rattle.serde_json.specs.Find.{of_integer};
ghost use Rattle.sp_json.specs.Values.{bytes_json, with_ranges};
ghost use Rattle.sp_json.specs.inside.Tokens.{value_tokens, lent, in_order};

use crate::order::{are_rising, sorted};
use crate::values::bytes_text;
use json::Writer;
use sp_base::Text;
use std::alloc::{AllocError, Global};
use std::collections::BTreeMap;
use std::str::from_utf8;

/// Writes an integer.
pub(crate) fn write_integer(n: i64, out: &mut Writer) -> Result<(), AllocError>
    ensures tokens { OnOk result (out.new.tokens
        ≡ out.old.tokens ++ value_tokens (number (of_integer n))) }
    ensures before { out.new.before ≡ out.old.before }
{
    out.i64(n)
}

/// Bytes of ASCII as the text that they are.
fn ascii_text(bytes: &[u8]) -> Option<&str>
    ensures { IfSome result (λ text. text.now ≡ encode_utf8_all bytes.now) }
{
    if !bytes.is_ascii() {
        return None;
    }
    match from_utf8(bytes) {
        Ok(text) => Some(text),
        Err(_) => None,
    }
}

/// Writes bytes as a string. Only bytes past ASCII are copied first.
pub(crate) fn write_bytes(alloc: Global, bytes: &[u8], out: &mut Writer) -> Result<(), AllocError>
    ensures tokens { OnOk result (out.new.tokens
        ≡ out.old.tokens ++ value_tokens (bytes_json bytes.now)) }
    ensures before { out.new.before ≡ out.old.before }
{
    if let Some(text) = ascii_text(bytes) {
        return out.string(text);
    }
    let text = bytes_text(alloc, bytes)?;
    out.string(text.as_str())
}

/// Writes the ranges of a bitfield, which stand in the order of their names.
fn write_ranges(ranges: &[(Text, u64)], out: &mut Writer) -> Result<(), AllocError>
    ensures tokens { OnOk result (out.new.tokens ≡ out.old.tokens
        ++ value_tokens (object (in_order (λ n. number (unsigned n)) ranges.now))) }
    ensures before { out.new.before ≡ out.old.before }
{
    out.begin_object()?;
    for (name, n) in ranges {
        out.key(name.as_str())?;
        out.u64(*n)?;
    }
    out.end_object()
}

/// Writes the ranges of a bitfield that stand in a table.
fn write_range_table(table: &BTreeMap<&str, &u64>, out: &mut Writer) -> Result<(), AllocError>
    ensures tokens { OnOk result (out.new.tokens ≡ out.old.tokens
        ++ value_tokens (object (in_order (λ n. number (unsigned n)) (lent table.now.entries)))) }
    ensures before { out.new.before ≡ out.old.before }
{
    out.begin_object()?;
    for (name, n) in table.iter() {
        out.key(*name)?;
        out.u64(**n)?;
    }
    out.end_object()
}

/// Writes a bitfield.
pub(crate) fn write_bits(
    alloc: Global,
    ranges: &[(Text, u64)],
    out: &mut Writer,
) -> Result<(), AllocError>
    ensures tokens { OnOk result (out.new.tokens ≡ out.old.tokens
        ++ value_tokens (object (with_ranges ranges.now no_members))) }
    ensures before { out.new.before ≡ out.old.before }
{
    if are_rising(ranges) {
        return write_ranges(ranges, out);
    }
    let table = sorted(alloc, ranges)?;
    write_range_table(&table, out)
}
