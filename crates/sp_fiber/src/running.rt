// A machine runs over its window, which then loses what the machine can't look at any more.
ghost use Rattle.std.specs.Prelude.{◌≡◌, [], ◌≤◌, ◌+◌, ◌++◌, List, ℕ, true, length, min, IfOk, OnOk, OnErr};
ghost use Rattle.sp_base.specs.Input.{held_open, ended};
ghost use Rattle.sp_window.specs.Windows.{end_of, most, trimmed};
ghost use Rattle.sp_code.specs.Machine.{low_of};
ghost use Rattle.sp_code.specs.Programs.{plain_of};
ghost use Rattle.sp_code.specs.Turns.{Turns};
ghost use Rattle.sp_law_machine.specs.continues.Windows.{From};
ghost use Rattle.sp_machine.specs.Plain.{plain, close_of};
ghost use Rattle.sp_machine.specs.Safe.{IsSafe};
ghost use Rattle.sp_fiber.specs.Moves.{Holds, Moved, IsSafeUnless};

use crate::low::low;
use sp_base::{Limits, NoMemory};
use sp_code::Program;
use sp_events::What;
use sp_machine::{Machine, Stop};
use sp_window::Window;
use std::mem;

/// Cuts off of a window what a machine that waits doesn't need any more.
#[tactic(auto, using(crate::proofs::Machines::low_is_within, crate::proofs::Whole::end_stays))]
fn trim_to_low(machine: &Machine, window: &mut Window)
    requires from { From window.old.base (plain machine.now) }
    ensures end { end_of window.new ≡ end_of window.old }
    ensures cut { window.new ≡ trimmed (min (low_of machine.now.stack machine.now.place) (end_of window.old)) window.old }
{
    let least = low(machine.stack.frames(), machine.place);
    window.trim(least.min(window.end()));
}

/// An empty list, with the room of one that is empty too.
fn room_of(told: &mut Vec<What>) -> Vec<What>
    ensures empty { result.items ≡ [] }
    ensures told { told.new.items ≡ told.old.items }
{
    let none = Vec::new(*told.allocator());
    if told.is_empty() {
        mem::replace(told, none)
    } else {
        none
    }
}

/// Moves what was told behind what was told before, or nothing.
fn append_all(told: &mut Vec<What>, more: Vec<What>) -> Result<(), NoMemory>
    ensures ok { OnOk result (told.new.items ≡ told.old.items ++ more.items) }
    ensures err { OnErr result (told.new.items ≡ told.old.items) }
{
    if told.is_empty() {
        *told = more;
        return Ok(());
    }
    let mut more = more;
    told.append(&mut more)?;
    Ok(())
}

/// Runs a machine until it waits for more of its input or all is over, and answers whether all is over. Of
/// the window only what the machine may still look at is left, and nothing where all is over. What is told
/// is moved behind what was told before, or not at all.
#[tactic(auto, using(crate::proofs::Whole::end_stays))]
fn run_on(
    p: &Program,
    limits: &Limits,
    machine: &mut Machine,
    window: &mut Window,
    is_ended: bool,
    told: &mut Vec<What>,
) -> Result<bool, NoMemory>
    requires safe { IsSafe (plain_of limits.now p.now) window.old (plain machine.old) }
    requires turns { Turns (plain_of limits.now p.now) }
    ensures moved { (s : List ℕ) → Holds window.old (plain machine.old) s
        → IfOk result (Moved (plain_of limits.now p.now) (close_of is_ended) s told.old.items
        told.new.items (plain machine.old) (plain machine.new) window.new) }
    ensures safe { IfOk result (λ over. IsSafeUnless over (plain_of limits.now p.now) window.new
        (plain machine.new)) }
    ensures decides { IfOk result (λ over. is_ended ≡ true → over ≡ true) }
    ensures end { end_of window.new ≡ end_of window.old }
    ensures err { OnErr result (told.new.items ≡ told.old.items) }
{
    let mut events = room_of(told);
    let stop = machine.run(p, limits, window, is_ended, &mut events)?;
    append_all(told, events)?;
    match stop {
        Stop::Over => {
            let end = window.end();
            window.trim(end);
            Ok(true)
        }
        Stop::Need => {
            trim_to_low(machine, window);
            Ok(false)
        }
        Stop::GoesOn => unreachable!(),
    }
}

/// Appends a further piece to the window of a machine whose input is held open, and runs it on.
pub(crate) fn advance(
    p: &Program,
    limits: &Limits,
    machine: &mut Machine,
    window: &mut Window,
    piece: &[u8],
    told: &mut Vec<What>,
) -> Result<bool, NoMemory>
    requires safe { IsSafe (plain_of limits.now p.now) window.old (plain machine.old) }
    requires turns { Turns (plain_of limits.now p.now) }
    requires bound { end_of window.old + length piece.now ≤ most }
    ensures moved { (s : List ℕ) → Holds window.old (plain machine.old) s
        → IfOk result (Moved (plain_of limits.now p.now) held_open (s ++ piece.now) told.old.items
        told.new.items (plain machine.old) (plain machine.new) window.new) }
    ensures safe { IfOk result (λ over. IsSafeUnless over (plain_of limits.now p.now) window.new
        (plain machine.new)) }
    ensures end { end_of window.new ≤ end_of window.old + length piece.now }
    ensures err { OnErr result (told.new.items ≡ told.old.items) }
{
    window.push(piece)?;
    run_on(p, limits, machine, window, false, told)
}

/// Runs a machine on whose input has ended, until all is over.
pub(crate) fn finish(
    p: &Program,
    limits: &Limits,
    machine: &mut Machine,
    window: &mut Window,
    told: &mut Vec<What>,
) -> Result<(), NoMemory>
    requires safe { IsSafe (plain_of limits.now p.now) window.old (plain machine.old) }
    requires turns { Turns (plain_of limits.now p.now) }
    ensures moved { (s : List ℕ) → Holds window.old (plain machine.old) s
        → OnOk result (Moved (plain_of limits.now p.now) ended s told.old.items told.new.items
        (plain machine.old) (plain machine.new) window.new true) }
    ensures end { end_of window.new ≡ end_of window.old }
    ensures err { OnErr result (told.new.items ≡ told.old.items) }
{
    run_on(p, limits, machine, window, true, told)?;
    Ok(())
}
