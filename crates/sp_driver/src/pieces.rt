// Pieces come in, and lines go out.
ghost use Rattle.std.specs.Prelude.{◌≡◌, ◌≤◌, ◌<◌, ◌-◌, ◌^◌, ℕ, List, [], ◌∷◌, ◌++◌, Ok, Err, length, take, drop, true, false, IfOk, OnOk, OnErr, MatchResult, MatchOption};
ghost use Rattle.sp_io.specs.Causes.{SourceCause};
ghost use Rattle.sp_io.specs.Moved.{appended, prepended};
ghost use Rattle.sp_command.specs.Puts.{IsPartPut};
ghost use Rattle.sp_driver.specs.Lines.{is_told, event_line, event_lines};
ghost use Rattle.sp_driver.specs.Parts.{StopCause};

use crate::exits::Stop;
use sp_base::{ByteList, NoMemory};
use sp_events::{Event, What};
use sp_io::{Out, OutFault, Source, SourceFault, Took, put_all};
use sp_json::Lines;
use std::alloc::Global;

/// The name of the one flow of a run.
const FLOW: &str = "0";

/// Whether something that happened always has a line.
fn is_told(what: &What) -> bool
    ensures { result ≡ is_told what.now }
{
    match what {
        What::Print(_) | What::Done(_) | What::Failed(_) => true,
        What::Hook { .. } | What::Write { .. } | What::Forward(_) | What::ForwardEod => false,
    }
}

/// Appends the line of an event, where it has one.
#[tactic(auto, using(crate::proofs::Puts::nothing_more))]
fn push_event(trace: bool, event: &Event, lines: &mut Lines) -> Result<(), NoMemory>
    ensures { OnOk result (lines.new ≡ lines.old ++ event_line trace event.now) }
{
    if trace || is_told(&event.what) {
        lines.push(FLOW, event)
    } else {
        Ok(())
    }
}

/// The lines of events, one behind another.
fn lines_of(alloc: Global, trace: bool, events: &[Event]) -> Result<Lines, NoMemory>
    ensures { IfOk result (λ lines. lines ≡ event_lines trace events.now) }
{
    let mut lines = Lines::new(alloc);
    for event in events {
        push_event(trace, event, &mut lines)?;
    }
    Ok(lines)
}

/// Puts a text. Where that stops, a front of it was put.
fn put_text<O: Out>(text: &[u8], out: &mut O) -> Result<(), Stop>
    requires { O.faults out.old < 2 ^ 64 - 1 }
    ensures held { OnOk result (O.held out.new ≡ appended (O.held out.old) text.now) }
    ensures part { OnErr result (IsPartPut (O.held out.old) (O.held out.new) text.now) }
    ensures cause { MatchResult result (λ _. O.faults out.new ≡ O.faults out.old)
        (StopCause (O.faults out.old) (O.faults out.new)) }
{
    match put_all(out, text) {
        Ok(()) => Ok(()),
        Err(OutFault::Failed) => Err(Stop::Failed),
        Err(OutFault::NoMemory) => Err(Stop::NoMemory),
    }
}

/// Puts the lines of events of the flow, all at once. Where that stops, a front of them was put.
#[tactic(auto, using(crate::proofs::Puts::part_nothing))]
pub fn put_lines<O: Out>(
    alloc: Global,
    trace: bool,
    events: &[Event],
    out: &mut O,
) -> Result<(), Stop>
    requires { O.faults out.old < 2 ^ 64 - 1 }
    ensures held { OnOk result (O.held out.new ≡ appended (O.held out.old)
        (event_lines trace events.now)) }
    ensures part { OnErr result (IsPartPut (O.held out.old) (O.held out.new)
        (event_lines trace events.now)) }
    ensures cause { MatchResult result (λ _. O.faults out.new ≡ O.faults out.old)
        (StopCause (O.faults out.old) (O.faults out.new)) }
{
    match lines_of(alloc, trace, events) {
        Ok(lines) => put_text(lines.as_slice(), out),
        Err(_) => Err(Stop::NoMemory),
    }
}

/// Takes a piece of `n` bytes, or all that is left where that is less: then it answers false.
pub fn fill<S: Source>(n: u64, input: &mut S, piece: &mut ByteList) -> Result<bool, SourceFault>
    requires some { 1 ≤ n }
    requires small { n ≤ 65536 }
    requires empty { piece.old ≡ [] }
    ensures took { S.left input.old ≡ prepended piece.new (S.left input.new) }
    ensures bound { length piece.new ≤ n }
    ensures full { result ≡ Ok true → length piece.new ≡ n }
    ensures short { OnErr result (length piece.new < n) }
    ensures end { result ≡ Ok false → (length piece.new < n)
        × MatchOption (S.left input.new) (Unit {0}) (λ left. left ≡ []) }
    ensures cause { MatchResult result (λ _. S.faults input.new ≡ S.faults input.old)
        (SourceCause (S.faults input.old) (S.faults input.new)) }
{
    while (piece.len() as u64) < n {
        let most = n - piece.len() as u64;
        match input.take(most, piece)? {
            Took::Some => {}
            Took::End => return Ok(false),
        }
    }
    Ok(true)
}
