// The program: it reads its words, the list of modules and the input, and answers a status.
ghost use Rattle.std.specs.Prelude.{◌≡◌, ◌≢◌, ◌≤◌, ◌<◌, ◌-◌, ◌^◌, Some, option_map, IfOk, IfSome};
ghost use Rattle.sp_driver_args.specs.Wants.{wanted_words, AreInRange};
ghost use Rattle.sp_driver_args.specs.Words.{Words, words_of};
ghost use Rattle.sp_front.specs.Asked.{Asks};
ghost use Rattle.sp_driver.specs.Asked.{AsksByWords, AsksAllByWords};
ghost use Rattle.sp_driver.specs.Causes.{IsCausedBy};
ghost use Rattle.sp_driver.specs.Whole.{IsAnswered};
ghost use Rattle.sp_driver.specs.Options.{options_of};
ghost use Rattle.sp_driver.specs.inside.Listed.{IsRunOf, IsRunCause};
ghost use Rattle.sp_driver.specs.inside.Ready.{PassesWhereBuilt};
ghost use Rattle.sp_driver.specs.Driver.{Says, ExitCause, Reported, Ended, status_of, unread_status, unready_status, run_status, message_of, unread_message, unready_message, run_message};

use crate::compile::compile;
use crate::exits::{Exit, RunExit, Unready};
use crate::loading::load_list;
use crate::options::RunOptions;
use crate::run::run_unit;
use sp_base::{ByteList, NoMemory, Text};
use sp_driver_args::{Wanted, words_wanted};
use sp_io::{Modules, Out, OutFault, Source, put_all};
use sp_load::Loaded;
use sp_read_file::Unread;
use std::alloc::Global;

fn options_of(wanted: &Wanted<'_>) -> RunOptions
    ensures { result ≡ options_of (wanted_words wanted.now) }
{
    RunOptions {
        increment: wanted.increment,
        most: wanted.most,
        trace: wanted.trace,
    }
}

/// What the words want. Their pieces have at least one byte.
fn wanted_of(words: &[Text]) -> Option<Wanted<'_>>
    ensures value { option_map wanted_words result ≡ words_of words.now }
    ensures range { IfSome result AreInRange }
    ensures some { (w : Words) → words_of words.now ≡ Some w → 1 ≤ w.increment }
{
    words_wanted(words)
}

/// Compiles a list, and runs the unit of it that the words want.
fn run_list<S: Source, O: Out>(
    alloc: Global,
    wanted: &Wanted<'_>,
    list: &Loaded,
    input: &mut S,
    out: &mut O,
) -> Exit
    requires range { AreInRange wanted.now }
    requires passing { PassesWhereBuilt list.now.modules.items list.now.typed }
    requires input_faults { S.faults input.old < 2 ^ 64 - 1 }
    requires out_faults { O.faults out.old < 2 ^ 64 - 1 }
    ensures says { IsRunOf (wanted_words wanted.now) list.now.sources.items list.now.modules.items
        list.now.typed (S.left input.old) (S.left input.new) (O.held out.old) (O.held out.new)
        result }
    ensures cause { IsRunCause (S.faults input.old) (S.faults input.new) (O.faults out.old)
        (O.faults out.new) result }
{
    match compile(alloc, wanted.unit, list) {
        Ok(compiled) => {
            let options = options_of(wanted);
            let turns = wanted.turns;
            let exit = run_unit(alloc, &list.typed, &compiled, turns, options, input, out);
            drop(compiled);
            Exit::Ran(exit)
        }
        Err(unready) => Exit::Unready(unready),
    }
}

/// What the program does but for its message.
#[tactic(auto, using(crate::proofs::Says::says_run_of, crate::proofs::Says::cause_run_of))]
fn drive<M: Modules, S: Source, O: Out>(
    alloc: Global,
    words: &[Text],
    modules: &mut M,
    input: &mut S,
    out: &mut O,
) -> Exit
    requires modules_faults { M.faults modules.old < 2 ^ 64 - 1 }
    requires input_faults { S.faults input.old < 2 ^ 64 - 1 }
    requires out_faults { O.faults out.old < 2 ^ 64 - 1 }
    ensures says { Says words.now (M.files modules.old)
        (record {
          left = S.left input.old;
          held = O.held out.old;
          faults = record {
            modules = M.faults modules.old;
            input = S.faults input.old;
            out = O.faults out.old;
          };
        })
        (record {
          left = S.left input.new;
          held = O.held out.new;
          faults = record {
            modules = M.faults modules.new;
            input = S.faults input.new;
            out = O.faults out.new;
          };
        }) result }
    ensures some { (w : Words) → words_of words.now ≡ Some w → 1 ≤ w.increment }
    ensures asks { Asks (M.files modules.old) (M.asked modules.old) (M.asked modules.new)
        (AsksByWords words.now) }
    ensures asks_all { status_of result ≢ 4 → status_of result ≢ 7 → Asks (M.files modules.old)
        (M.asked modules.old) (M.asked modules.new) (AsksAllByWords words.now) }
    ensures cause { ExitCause
        (record {
          modules = M.faults modules.old;
          input = S.faults input.old;
          out = O.faults out.old;
        })
        (record {
          modules = M.faults modules.new;
          input = S.faults input.new;
          out = O.faults out.new;
        }) result }
{
    let Some(wanted) = wanted_of(words) else {
        return Exit::Usage;
    };
    let list = match load_list(alloc, wanted.files, wanted.directories, modules) {
        Ok(list) => list,
        Err(unread) => return Exit::Unread(unread),
    };
    run_list(alloc, &wanted, &list, input, out)
}

/// The message of an exit.
fn message(alloc: Global, exit: &Exit) -> Result<ByteList, NoMemory>
    ensures { IfOk result (λ message. message ≡ message_of exit.now) }
{
    match exit {
        Exit::Usage => ByteList::from_slice(alloc, b"spicy-driver: usage\n"),
        Exit::Unread(Unread::Refused(refusal)) | Exit::Unready(Unready::Unbuilt(refusal)) => {
            refusal.message(alloc)
        }
        Exit::Unready(Unready::NoParser) => ByteList::from_slice(
            alloc,
            b"spicy-driver: M32 NoParser\n",
        ),
        Exit::Unread(Unread::ModulesFault) | Exit::Ran(RunExit::InputFault) => ByteList::from_slice(
            alloc,
            b"spicy-driver: read fault\n",
        ),
        Exit::Ran(RunExit::TooLong) => ByteList::from_slice(
            alloc,
            b"spicy-driver: input too long\n",
        ),
        _ => Ok(ByteList::new(alloc)),
    }
}

fn status(exit: &Exit) -> u8
    ensures { result ≡ status_of exit.now }
{
    match exit {
        Exit::Usage => 2,
        Exit::Unread(unread) => match unread {
            Unread::Refused(_) => 3,
            Unread::ModulesFault => 4,
            Unread::NoMemory => 7,
        },
        Exit::Unready(unready) => match unready {
            Unready::NoParser | Unready::Unbuilt(_) => 3,
            Unready::NoMemory => 7,
        },
        Exit::Ran(exit) => match exit {
            RunExit::Done => 0,
            RunExit::Failed => 1,
            RunExit::InputFault => 4,
            RunExit::OutFault => 5,
            RunExit::TooLong => 6,
            RunExit::NoMemory => 7,
        },
    }
}

/// Puts the message of an exit, and answers the status.
fn report<E: Out>(alloc: Global, exit: &Exit, err: &mut E) -> u8
    requires { E.faults err.old < 2 ^ 64 - 1 }
    ensures { Reported exit.now
        (record { held = E.held err.old; faults = E.faults err.old })
        (record { held = E.held err.new; faults = E.faults err.new }) result }
{
    let Ok(message) = message(alloc, exit) else {
        return 7;
    };
    match put_all(err, message.as_slice()) {
        Ok(()) => status(exit),
        Err(OutFault::Failed) => 5,
        Err(OutFault::NoMemory) => 7,
    }
}

/// Loads the list of modules that the words name, compiles it, and runs a unit of it over the input. Writes the lines that it tells to
/// `out` and a message where something is wrong to `err`, and answers the status of the program. Only the files of the list are read,
/// and where an import's module is looked for.
pub fn spicy_driver<M: Modules, S: Source, O: Out, E: Out>(
    alloc: Global,
    words: &[Text],
    modules: &mut M,
    input: &mut S,
    out: &mut O,
    err: &mut E,
) -> u8
    requires modules_faults { M.faults modules.old < 2 ^ 64 - 1 }
    requires input_faults { S.faults input.old < 2 ^ 64 - 1 }
    requires out_faults { O.faults out.old < 2 ^ 64 - 1 }
    requires err_faults { E.faults err.old < 2 ^ 64 - 1 }
    ensures exits { Ended words.now (M.files modules.old)
        (record {
          left = S.left input.old;
          held = O.held out.old;
          faults = record {
            modules = M.faults modules.old;
            input = S.faults input.old;
            out = O.faults out.old;
          };
        })
        (record {
          left = S.left input.new;
          held = O.held out.new;
          faults = record {
            modules = M.faults modules.new;
            input = S.faults input.new;
            out = O.faults out.new;
          };
        })
        (record { held = E.held err.old; faults = E.faults err.old })
        (record { held = E.held err.new; faults = E.faults err.new }) result }
    ensures causes { IsCausedBy (record {
      modules = M.faults modules.old;
      input = S.faults input.old;
      out = O.faults out.old;
      err = E.faults err.old;
    })
        (record {
          modules = M.faults modules.new;
          input = S.faults input.new;
          out = O.faults out.new;
          err = E.faults err.new;
        }) result }
    ensures answer { IsAnswered words.now (M.files modules.old) (S.left input.old) (O.held out.old)
        (O.held out.new) (E.held err.old) (E.held err.new) result }
    ensures asks { Asks (M.files modules.old) (M.asked modules.old) (M.asked modules.new)
        (AsksByWords words.now) }
    ensures asks_all { result ≢ 4 → result ≢ 5 → result ≢ 7 → Asks (M.files modules.old)
        (M.asked modules.old) (M.asked modules.new) (AsksAllByWords words.now) }
{
    let exit = drive(alloc, words, modules, input, out);
    report(alloc, &exit, err)
}
