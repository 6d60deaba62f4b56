// A run: the unit over an input in pieces, its lines put out behind each of them.
ghost use Rattle.std.specs.Prelude.{◌≡◌, ◌≢◌, ◌≤◌, ◌<◌, ◌+◌, ◌-◌, ◌^◌, ℕ, List, Option, [], ◌++◌, length, drop, IfOk, OnOk, OnErr, MatchResult};
ghost use Rattle.sp_base.specs.Input.{held_open, ended};
ghost use Rattle.sp_io.specs.Moved.{appended};
ghost use Rattle.sp_meaning.specs.declared.stand.Stand.TheVariants.{Waiting};
ghost use Rattle.sp_session.specs.Session.{StandsFor, IsFresh, IsFed, means, received, told_by};
ghost use Rattle.sp_session.specs.Units.{unit_meaning};
ghost use Rattle.sp_command.specs.Puts.{IsPartPut};
ghost use Rattle.sp_driver.specs.Lines.{event_lines};
ghost use Rattle.sp_driver.specs.Options.{AreOptions, limits_of};
ghost use Rattle.sp_driver.specs.Parts.{StopCause};
ghost use Rattle.sp_driver.specs.Run.{Runs, RunCause};
ghost use Rattle.sp_driver.specs.inside.Fed.{added, IsFedBy, Turned, TurnCause, IsOver, exit_of_stop, exit_of_stand};
ghost use Rattle.sp_driver.specs.inside.Ready.{AlwaysRuns};

use crate::compile::Compiled;
use crate::exits::{RunExit, Stop, Turn};
use crate::options::RunOptions;
use crate::pieces::{fill, put_lines};
use sp_base::{ByteList, Limits};
use sp_events::Events;
use sp_io::{Out, Source, SourceFault};
use sp_meaning::Stand;
use sp_session::Session;
use sp_typed_units::Typed;
use std::alloc::Global;

/// Feeds a piece, and puts the lines that it adds.
fn step<O: Out>(
    alloc: Global,
    options: RunOptions,
    session: &mut Session<'_>,
    piece: &[u8],
    out: &mut O,
) -> Result<(), Stop>
    requires room { received session.old + length piece.now ≤ 2 ^ 62 }
    requires faults { O.faults out.old < 2 ^ 64 - 1 }
    ensures stands { (s : List ℕ) → StandsFor session.old s
        → OnOk result (StandsFor session.new (s ++ piece.now)) }
    ensures fed { (s : List ℕ) → StandsFor session.old s → OnOk result (IsFed session.new) }
    ensures received { OnOk result (received session.new
        ≡ received session.old + length piece.now) }
    ensures held { (s : List ℕ) → StandsFor session.old s
        → OnOk result (O.held out.new ≡ appended (O.held out.old)
        (event_lines options.trace (drop (length (told_by session.old s))
        (means session.old (s ++ piece.now) held_open).events))) }
    ensures part { (s : List ℕ) → StandsFor session.old s
        → OnErr result (IsPartPut (O.held out.old) (O.held out.new)
        (event_lines options.trace (drop (length (told_by session.old s))
        (means session.old (s ++ piece.now) held_open).events))) }
    ensures means { means session.new ≡ means session.old }
    ensures cause { MatchResult result (λ _. O.faults out.new ≡ O.faults out.old)
        (StopCause (O.faults out.old) (O.faults out.new)) }
{
    let mut events = Events::new(alloc);
    session.feed(piece, &mut events)?;
    put_lines(alloc, options.trace, events.as_slice(), out)
}

/// Ends the input, puts the last lines, and answers the exit of the run.
fn finish<O: Out>(
    alloc: Global,
    options: RunOptions,
    session: &mut Session<'_>,
    out: &mut O,
) -> Result<RunExit, Stop>
    requires { O.faults out.old < 2 ^ 64 - 1 }
    ensures held { (s : List ℕ) → StandsFor session.old s → IsFed session.old
        → OnOk result (O.held out.new ≡ appended (O.held out.old)
        (added (means session.old) options s s ended)) }
    ensures part { (s : List ℕ) → StandsFor session.old s → IsFed session.old
        → OnErr result (IsPartPut (O.held out.old) (O.held out.new)
        (added (means session.old) options s s ended)) }
    ensures exit { (s : List ℕ) → StandsFor session.old s
        → IfOk result (λ exit. exit ≡ exit_of_stand (means session.old s ended).stand) }
    ensures decided { (s : List ℕ) → StandsFor session.old s
        → IfOk result (λ _. (means session.old s ended).stand ≢ Waiting) }
    ensures over { IfOk result IsOver }
    ensures cause { MatchResult result (λ _. O.faults out.new ≡ O.faults out.old)
        (StopCause (O.faults out.old) (O.faults out.new)) }
{
    let mut events = Events::new(alloc);
    let exit = exit_by(&session.end(&mut events)?);
    put_lines(alloc, options.trace, events.as_slice(), out)?;
    Ok(exit)
}

fn exit_by(stand: &Stand) -> RunExit
    ensures exit { result ≡ exit_of_stand stand.now }
    ensures over { IsOver result }
{
    match stand {
        Stand::Done => RunExit::Done,
        Stand::Waiting | Stand::Failed(_) => RunExit::Failed,
    }
}

fn stopped(stop: Stop) -> RunExit
    ensures { result ≡ exit_of_stop stop }
{
    match stop {
        Stop::Failed => RunExit::OutFault,
        Stop::NoMemory => RunExit::NoMemory,
    }
}

/// Takes the next piece, feeds it and puts its lines; behind the last piece it ends the input.
fn turn<S: Source, O: Out>(
    alloc: Global,
    options: RunOptions,
    session: &mut Session<'_>,
    piece: &mut ByteList,
    input: &mut S,
    out: &mut O,
) -> Turn
    requires options { AreOptions options }
    requires room { received session.old ≤ options.most }
    requires input_faults { S.faults input.old < 2 ^ 64 - 1 }
    requires out_faults { O.faults out.old < 2 ^ 64 - 1 }
    ensures turned { (left held : Option (List ℕ)) (s : List ℕ) (j : ℕ)
        → IsFedBy (means session.old) options session.old left (S.left input.old) held
        (O.held out.old) s j
        → Turned (means session.old) options session.new left (S.left input.new) held
        (O.held out.new) result }
    ensures room { result ≡ Turn.More → received session.new ≤ options.most }
    ensures more { result ≡ Turn.More → received session.old < received session.new }
    ensures means { result ≡ Turn.More → means session.new ≡ means session.old }
    ensures cause { TurnCause (S.faults input.old) (S.faults input.new) (O.faults out.old)
        (O.faults out.new) result }
{
    let room = options.most - session.received();
    piece.clear();
    let full = match fill(options.increment, input, piece) {
        Ok(full) => full,
        Err(SourceFault::Failed) => return Turn::Ends(RunExit::InputFault),
        Err(SourceFault::NoMemory) => return Turn::Ends(RunExit::NoMemory),
    };
    if room < piece.len() as u64 {
        return Turn::Ends(RunExit::TooLong);
    }
    if let Err(stop) = step(alloc, options, session, piece.as_slice(), out) {
        return Turn::Ends(stopped(stop));
    }
    if full {
        return Turn::More;
    }
    match finish(alloc, options, session, out) {
        Ok(exit) => Turn::Ends(exit),
        Err(stop) => Turn::Ends(stopped(stop)),
    }
}

/// Runs a session that was only started over the input in pieces, the last one shorter, and puts out the lines that each piece adds before
/// it takes the next one. It reads to the end of the input, also behind the unit.
fn run_session<S: Source, O: Out>(
    alloc: Global,
    options: RunOptions,
    session: &mut Session<'_>,
    input: &mut S,
    out: &mut O,
) -> RunExit
    requires stands { StandsFor session.old [] }
    requires fresh { IsFresh session.old }
    requires options { AreOptions options }
    requires input_faults { S.faults input.old < 2 ^ 64 - 1 }
    requires out_faults { O.faults out.old < 2 ^ 64 - 1 }
    ensures runs { Runs (means session.old) options (S.left input.old) (S.left input.new)
        (O.held out.old) (O.held out.new) result }
    ensures cause { RunCause (S.faults input.old) (S.faults input.new) (O.faults out.old)
        (O.faults out.new) result }
{
    if let Err(stop) = step(alloc, options, session, &[], out) {
        return stopped(stop);
    }
    let mut piece = ByteList::new(alloc);
    'pieces: loop {
        match turn(alloc, options, session, &mut piece, input, out) {
            Turn::More => {}
            Turn::Ends(exit) => return exit,
        }
    }
}

/// Runs a unit of a list over the input in pieces.
pub fn run_unit<S: Source, O: Out>(
    alloc: Global,
    list: &Typed,
    compiled: &Compiled,
    turns: u64,
    options: RunOptions,
    input: &mut S,
    out: &mut O,
) -> RunExit
    requires runs { AlwaysRuns list.now compiled.now.program compiled.now.unit }
    requires turns { 1 ≤ turns }
    requires options { AreOptions options }
    requires input_faults { S.faults input.old < 2 ^ 64 - 1 }
    requires out_faults { O.faults out.old < 2 ^ 64 - 1 }
    ensures runs { Runs (unit_meaning list.now (limits_of turns) compiled.now.unit) options
        (S.left input.old) (S.left input.new) (O.held out.old) (O.held out.new) result }
    ensures cause { RunCause (S.faults input.old) (S.faults input.new) (O.faults out.old)
        (O.faults out.new) result }
{
    let limits = Limits {
        turns,
        depth: 100,
        fibers: 8,
    };
    match Session::start(alloc, list, &compiled.program, compiled.unit, limits) {
        Ok(mut session) => run_session(alloc, options, &mut session, input, out),
        Err(_) => RunExit::NoMemory,
    }
}
