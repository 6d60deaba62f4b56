// Events as JSON (RFC 8259), written token by token.
ghost use Rattle.std.specs.Prelude.{◌≡◌, ◌++◌, ◌∷◌, [], OnOk, codes, decimal};
ghost use Rattle.json.specs.Token.{key, string, number};
ghost use Rattle.sp_events.specs.declared.event.What.TheVariants.{Hook as HookEvent, Print as PrintEvent, Write as WriteEvent, Forward as ForwardEvent, ForwardEod as ForwardEodEvent, Done as DoneEvent, Failed as FailedEvent};
ghost use Rattle.sp_json.specs.Lines.{path_text, text_member, members_of, event_json};
ghost use Rattle.sp_json.specs.inside.Tokens.{value_tokens, object_rest};

use crate::lines::path_name;
use crate::trees::write_bytes;
use crate::walk::{write_tree, write_trees};
use json::Writer;
use sp_base::{ByteList, ParseError, Text};
use sp_events::{Event, Tree, Trees, What};
use std::alloc::{AllocError, Global};

/// A fiber: the flow's name, and the numbers of the connects on the way to it.
#[derive(Clone, Copy)]
struct Fiber<'a> {
    flow: &'a str,
    numbers: &'a [u64],
}

/// Writes a member that is a text.
fn write_text(name: &str, text: &str, out: &mut Writer) -> Result<(), AllocError>
    ensures tokens { OnOk result (out.new.tokens
        ≡ out.old.tokens ++ key name.now ∷ string text.now ∷ []) }
    ensures before { out.new.before ≡ out.old.before }
{
    out.key(name)?;
    out.string(text)
}

/// Writes a member that is a number.
fn write_number(name: &str, n: u64, out: &mut Writer) -> Result<(), AllocError>
    ensures tokens { OnOk result (out.new.tokens
        ≡ out.old.tokens ++ key name.now ∷ number (decimal n) ∷ []) }
    ensures before { out.new.before ≡ out.old.before }
{
    out.key(name)?;
    out.u64(n)
}

/// Writes where something happened.
fn write_at(alloc: Global, at: Fiber<'_>, out: &mut Writer) -> Result<(), AllocError>
    ensures tokens { OnOk result (out.new.tokens ≡ out.old.tokens
        ++ key (codes "at") ∷ string (path_text at.entry.flow.now at.entry.numbers.now) ∷ []) }
    ensures before { out.new.before ≡ out.old.before }
{
    if at.numbers.is_empty() {
        return write_text("at", at.flow, out);
    }
    let name = path_name(alloc, at.flow, at.numbers)?;
    write_text("at", name.as_str(), out)
}

/// Writes the members of a hook's event.
fn write_hook(
    alloc: Global,
    at: Fiber<'_>,
    name: &Text,
    args: &Trees,
    out: &mut Writer,
) -> Result<(), AllocError>
    ensures tokens { OnOk result (out.new.tokens ≡ out.old.tokens ++ object_rest (members_of
        (path_text at.entry.flow.now at.entry.numbers.now) (HookEvent name.now args.now))) }
    ensures before { out.new.before ≡ out.old.before }
{
    out.key("args")?;
    write_trees(alloc, args.as_slice(), out)?;
    write_at(alloc, at, out)?;
    write_text("hook", name.as_str(), out)?;
    out.end_object()
}

/// Writes those of what is printed.
fn write_print(
    alloc: Global,
    at: Fiber<'_>,
    values: &Trees,
    out: &mut Writer,
) -> Result<(), AllocError>
    ensures tokens { OnOk result (out.new.tokens ≡ out.old.tokens ++ object_rest (members_of
        (path_text at.entry.flow.now at.entry.numbers.now) (PrintEvent values.now))) }
    ensures before { out.new.before ≡ out.old.before }
{
    write_at(alloc, at, out)?;
    out.key("print")?;
    write_trees(alloc, values.as_slice(), out)?;
    out.end_object()
}

/// Writes those of what is written to a sink.
fn write_written(
    alloc: Global,
    at: Fiber<'_>,
    sink: &Text,
    seq: u64,
    bytes: &ByteList,
    out: &mut Writer,
) -> Result<(), AllocError>
    ensures tokens { OnOk result (out.new.tokens ≡ out.old.tokens ++ object_rest (members_of
        (path_text at.entry.flow.now at.entry.numbers.now) (WriteEvent sink.now seq bytes.now))) }
    ensures before { out.new.before ≡ out.old.before }
{
    write_at(alloc, at, out)?;
    write_number("seq", seq, out)?;
    write_text("sink", sink.as_str(), out)?;
    out.key("write")?;
    write_bytes(alloc, bytes.as_slice(), out)?;
    out.end_object()
}

/// Writes those of what a filter forwards.
fn write_forwarded(
    alloc: Global,
    at: Fiber<'_>,
    bytes: &ByteList,
    out: &mut Writer,
) -> Result<(), AllocError>
    ensures tokens { OnOk result (out.new.tokens ≡ out.old.tokens ++ object_rest (members_of
        (path_text at.entry.flow.now at.entry.numbers.now) (ForwardEvent bytes.now))) }
    ensures before { out.new.before ≡ out.old.before }
{
    write_at(alloc, at, out)?;
    out.key("forward")?;
    write_bytes(alloc, bytes.as_slice(), out)?;
    out.end_object()
}

/// Writes those of the end of a filter's data.
fn write_forward_end(alloc: Global, at: Fiber<'_>, out: &mut Writer) -> Result<(), AllocError>
    ensures tokens { OnOk result (out.new.tokens ≡ out.old.tokens ++ object_rest (members_of
        (path_text at.entry.flow.now at.entry.numbers.now) ForwardEodEvent)) }
    ensures before { out.new.before ≡ out.old.before }
{
    write_at(alloc, at, out)?;
    out.key("forward_eod")?;
    out.boolean(true)?;
    out.end_object()
}

/// Writes those of a unit's value.
fn write_done(alloc: Global, at: Fiber<'_>, tree: &Tree, out: &mut Writer) -> Result<(), AllocError>
    ensures tokens { OnOk result (out.new.tokens ≡ out.old.tokens ++ object_rest (members_of
        (path_text at.entry.flow.now at.entry.numbers.now) (DoneEvent tree.now))) }
    ensures before { out.new.before ≡ out.old.before }
{
    write_at(alloc, at, out)?;
    out.key("done")?;
    write_tree(alloc, tree, out)?;
    out.end_object()
}

/// Writes the text that an error carries, if any, behind its other members.
fn write_error_text(text: &Option<Text>, out: &mut Writer) -> Result<(), AllocError>
    ensures tokens { OnOk result (out.new.tokens
        ≡ out.old.tokens ++ object_rest (text_member text.now)) }
    ensures before { out.new.before ≡ out.old.before }
{
    match text {
        None => out.end_object(),
        Some(text) => {
            write_text("text", text.as_str(), out)?;
            out.end_object()
        }
    }
}

/// Writes those of a unit that failed.
fn write_failed(
    alloc: Global,
    at: Fiber<'_>,
    error: &ParseError,
    out: &mut Writer,
) -> Result<(), AllocError>
    ensures tokens { OnOk result (out.new.tokens ≡ out.old.tokens ++ object_rest (members_of
        (path_text at.entry.flow.now at.entry.numbers.now) (FailedEvent error.now))) }
    ensures before { out.new.before ≡ out.old.before }
{
    write_at(alloc, at, out)?;
    write_text("error", error.kind.name(), out)?;
    write_number("offset", error.offset, out)?;
    write_error_text(&error.text, out)
}

/// Writes the members of an event, and the closing bracket.
fn write_members(
    alloc: Global,
    at: Fiber<'_>,
    what: &What,
    out: &mut Writer,
) -> Result<(), AllocError>
    ensures tokens { OnOk result (out.new.tokens ≡ out.old.tokens ++ object_rest (members_of
        (path_text at.entry.flow.now at.entry.numbers.now) what.now)) }
    ensures before { out.new.before ≡ out.old.before }
{
    match what {
        What::Hook { name, args } => write_hook(alloc, at, name, args, out),
        What::Print(values) => write_print(alloc, at, values, out),
        What::Write { sink, seq, bytes } => write_written(alloc, at, sink, *seq, bytes, out),
        What::Forward(bytes) => write_forwarded(alloc, at, bytes, out),
        What::ForwardEod => write_forward_end(alloc, at, out),
        What::Done(tree) => write_done(alloc, at, tree, out),
        What::Failed(error) => write_failed(alloc, at, error, out),
    }
}

/// Writes an event of a flow.
pub(crate) fn write_event(
    alloc: Global,
    flow: &str,
    event: &Event,
    out: &mut Writer,
) -> Result<(), AllocError>
    ensures tokens { OnOk result (out.new.tokens ≡ out.old.tokens
        ++ value_tokens (event_json (path_text flow.now event.now.at) event.now.what)) }
    ensures before { out.new.before ≡ out.old.before }
{
    out.begin_object()?;
    let numbers = event.at.numbers();
    write_members(alloc, Fiber { flow, numbers }, &event.what, out)
}
