// The program: it reads its words and the files, and answers a status.
ghost use Rattle.std.specs.Prelude.{◌≡◌, ◌≢◌, ◌<◌, ◌-◌, ◌^◌, IfOk};
ghost use Rattle.sp_spicyc.specs.declared.exits.Exit.{Exit};
ghost use Rattle.sp_front.specs.Asked.{Asks};
ghost use Rattle.sp_spicyc.specs.Asked.{AsksByWords, AsksAllByWords};
ghost use Rattle.sp_spicyc.specs.Causes.{IsCausedBy};
ghost use Rattle.sp_spicyc.specs.Whole.{IsAnswered};
ghost use Rattle.sp_spicyc.specs.Command.{Says, ExitCause, Reported, status_of, output_of, message_of};

use crate::exits::Exit;
use crate::files::load_and_print;
use crate::words::words_wanted;
use sp_base::{ByteList, NoMemory, Text};
use sp_command::{failure_status, put_text};
use sp_io::{Modules, Out};
use sp_read_file::Unread;
use std::alloc::Global;

/// What the program does but for its message.
fn drive<M: Modules>(alloc: Global, words: &[Text], modules: &mut M) -> Exit
    requires { M.faults modules.old < 2 ^ 64 - 1 }
    ensures says { Says words.now (M.files modules.old) result }
    ensures cause { ExitCause (M.faults modules.old) (M.faults modules.new) result }
    ensures asks { Asks (M.files modules.old) (M.asked modules.old) (M.asked modules.new)
        (AsksByWords words.now) }
    ensures asks_all { status_of result ≢ 4 → status_of result ≢ 7 → Asks (M.files modules.old)
        (M.asked modules.old) (M.asked modules.new) (AsksAllByWords words.now) }
{
    let Some(wanted) = words_wanted(words) else {
        return Exit::Usage;
    };
    match load_and_print(alloc, &wanted, modules) {
        Ok(text) => Exit::Done(text),
        Err(unread) => Exit::Unread(unread),
    }
}

/// The message of an exit.
fn message(alloc: Global, exit: &Exit) -> Result<ByteList, NoMemory>
    ensures { IfOk result (λ message. message ≡ message_of exit.now) }
{
    match exit {
        Exit::Usage => ByteList::from_slice(alloc, b"spicyc: usage\n"),
        Exit::Unread(Unread::Refused(refusal)) => refusal.message(alloc),
        Exit::Unread(Unread::ModulesFault) => ByteList::from_slice(alloc, b"spicyc: read fault\n"),
        Exit::Unread(Unread::NoMemory) | Exit::Done(_) => Ok(ByteList::new(alloc)),
    }
}

fn status(exit: &Exit) -> u8
    ensures { result ≡ status_of exit.now }
{
    match exit {
        Exit::Done(_) => 0,
        Exit::Usage => 2,
        Exit::Unread(Unread::Refused(_)) => 3,
        Exit::Unread(Unread::ModulesFault) => 4,
        Exit::Unread(Unread::NoMemory) => 7,
    }
}

/// What an exit writes to the output.
fn output(exit: &Exit) -> &[u8]
    ensures { result.now ≡ output_of exit.now }
{
    match exit {
        Exit::Done(text) => text.as_slice(),
        Exit::Usage | Exit::Unread(_) => &[],
    }
}

/// Puts the texts of an exit, and answers the status.
fn report<O: Out, E: Out>(alloc: Global, exit: &Exit, out: &mut O, err: &mut E) -> u8
    requires out_faults { O.faults out.old < 2 ^ 64 - 1 }
    requires err_faults { E.faults err.old < 2 ^ 64 - 1 }
    ensures { Reported exit.now
        (record {
          out = O.held out.old;
          err = E.held err.old;
          out_faults = O.faults out.old;
          err_faults = E.faults err.old;
        })
        (record {
          out = O.held out.new;
          err = E.held err.new;
          out_faults = O.faults out.new;
          err_faults = E.faults err.new;
        }) result }
{
    let Ok(message) = message(alloc, exit) else {
        return 7;
    };
    if let Err(fault) = put_text(out, output(exit)) {
        return failure_status(&fault);
    }
    if let Err(fault) = put_text(err, message.as_slice()) {
        return failure_status(&fault);
    }
    status(exit)
}

/// Loads the list of modules that the words want: the named files in their order, and what they import, from the directories of
/// `-L`. Writes the canonical texts of the named files to `out` where the words want it, and a message to `err` where something
/// is wrong, and answers the status of the program. Nothing is written to `out` unless all files are modules and no rule is
/// broken in the list. Only the files of the list are read, and where an import's module is looked for.
pub fn spicyc<M: Modules, O: Out, E: Out>(
    alloc: Global,
    words: &[Text],
    modules: &mut M,
    out: &mut O,
    err: &mut E,
) -> u8
    requires modules_faults { M.faults modules.old < 2 ^ 64 - 1 }
    requires out_faults { O.faults out.old < 2 ^ 64 - 1 }
    requires err_faults { E.faults err.old < 2 ^ 64 - 1 }
    ensures exits { (exit : Exit)
        × Says words.now (M.files modules.old) exit
        × ExitCause (M.faults modules.old) (M.faults modules.new) exit
        × Reported exit
        (record {
          out = O.held out.old;
          err = E.held err.old;
          out_faults = O.faults out.old;
          err_faults = E.faults err.old;
        })
        (record {
          out = O.held out.new;
          err = E.held err.new;
          out_faults = O.faults out.new;
          err_faults = E.faults err.new;
        }) result }
    ensures causes { IsCausedBy (record
        { modules = M.faults modules.old; out = O.faults out.old; err = E.faults err.old })
        (record { modules = M.faults modules.new; out = O.faults out.new; err = E.faults err.new })
        result }
    ensures answer { IsAnswered words.now (M.files modules.old) (O.held out.old) (O.held out.new)
        (E.held err.old) (E.held err.new) result }
    ensures asks { Asks (M.files modules.old) (M.asked modules.old) (M.asked modules.new)
        (AsksByWords words.now) }
    ensures asks_all { result ≢ 4 → result ≢ 5 → result ≢ 7 → Asks (M.files modules.old)
        (M.asked modules.old) (M.asked modules.new) (AsksAllByWords words.now) }
{
    let exit = drive(alloc, words, modules);
    report(alloc, &exit, out, err)
}
