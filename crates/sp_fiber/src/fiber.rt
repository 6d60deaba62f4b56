// A fiber: one run of compiled code over an input that comes in pieces.
ghost use Rattle.std.specs.Prelude.{◌≡◌, ◌≤◌, ◌+◌, ◌++◌, List, ℕ, [], length, reverse, IfOk, OnOk, OnErr, IsErr};
ghost use Rattle.sp_base.specs.Input.{held_open, ended};
ghost use Rattle.sp_events.specs.declared.event.What.{What};
ghost use Rattle.sp_window.specs.Windows.{most};
ghost use Rattle.sp_code.specs.Machine.{Config, step};
ghost use Rattle.sp_code.specs.Programs.{plain_of, shapes_of, IsSoundProgram};
ghost use Rattle.sp_code.specs.Shapes.{Shaped};
ghost use Rattle.sp_machine.specs.Plain.{plain};
ghost use Rattle.sp_fiber.specs.declared.phase.Phase.TheVariants.{Fresh, Broken};
ghost use Rattle.sp_fiber.specs.declared.stand.Stand.TheVariants.{Waiting};
ghost use Rattle.sp_fiber.specs.Moves.{whole_reads};
ghost use Rattle.sp_fiber.specs.Fibers.{started, WillRun, StandsFor, EndedFor, HasRun, Fed, Closed};
ghost use Rattle.sp_fiber.specs.Standing.{IsStand};

use crate::phase::Phase;
use crate::running::{advance, finish};
use crate::stand::{Stand, stand_of};
use sp_base::{Limits, NoMemory};
use sp_code::Program;
use sp_events::What;
use sp_machine::Machine;
use sp_value::Values;
use sp_window::Window;
use std::alloc::Global;
use std::marker::Model;

/// One run of a program's code. It keeps the bytes of its input from the least place on at which it may still look,
/// and no others. Clauses see what it is between two calls.
#[derive(Drop)]
pub struct Fiber<'p> {
    program: &'p Program,
    limits: Limits,
    phase: Phase,
    machine: Machine,
    window: Window,
    received: u64,
}

impl<'p> Model for Fiber<'p> {
    ghost use Rattle.std.specs.Coded.{codes};
    ghost use Rattle.sp_value.specs.contracts.value.Value as value_row;
    ghost use Rattle.sp_code.specs.Programs.{plain_of};
    ghost use Rattle.sp_machine.specs.Plain.{plain};
    ghost use Rattle.sp_fiber.specs.Fibers.{Suspended, IsFiber};

    ghost Value = { Suspended };

    ghost coded = { Prim.hlevel (codes, value_row.the_row.coded) };

    ghost view = { λ f. record {
      code = plain_of f.limits f.program.now;
      phase = f.phase;
      window = f.window;
      at = plain f.machine;
      received = f.received;
    } };

    ghost invariant = { λ f. IsFiber f.program.now f.limits f.phase f.window (plain f.machine) f.received };
}

impl<'p> Fiber<'p> {
    /// A fiber before a starter's address, with the starter's arguments, that has run nothing. The program is sound,
    /// and the arguments are of the kinds that the starter takes. Takes no memory.
    pub fn start(
        alloc: Global,
        program: &'p Program,
        at: u32,
        arguments: Values,
        limits: Limits,
    ) -> Fiber<'p>
        requires sound { IsSoundProgram program.now }
        requires shaped { Shaped (plain_of limits program.now) (shapes_of program.now)
            (started at (reverse arguments)) }
        ensures stands { StandsFor result (started at (reverse arguments)) [] [] }
        ensures fresh { result.phase ≡ Fresh }
        ensures code { result.code ≡ plain_of limits program.now }
    {
        let operands = arguments.into_vec();
        let machine = Machine::start(alloc, at as usize, operands);
        let window = Window::new(alloc);
        Fiber {
            program,
            limits,
            phase: Phase::Fresh,
            machine,
            window,
            received: 0,
        }
    }

    /// Takes a further piece of the input, and runs until the fiber waits or all is over. What it tells is appended:
    /// that which it tells over all bytes so far, held open, and has not told before. The first call, also with an
    /// empty piece, runs what needs no input.
    ///
    /// Where all is over, and after the end of the input, nothing changes. After want of memory it answers that for
    /// good.
    pub fn feed(&mut self, piece: &[u8], told: &mut Vec<What>) -> Result<(), NoMemory>
        requires { self.old.received + length piece.now ≤ most }
        ensures fed { (from : Config) (s : List ℕ) (es : List What) → StandsFor self.old from s es
            → OnOk result (Fed self.new from (s ++ piece.now) es told.old.items told.new.items) }
        ensures again { (from : Config) (s : List ℕ) (es : List What) → EndedFor self.old from s es
            → OnOk result (EndedFor self.new from s es × (told.new.items ≡ told.old.items)) }
        ensures received { OnOk result (self.new.received ≡ self.old.received + length piece.now) }
        ensures memory { OnErr result ((self.new.phase ≡ Broken) × (told.new.items ≡ told.old.items)) }
        ensures broken { self.old.phase ≡ Broken → IsErr result }
        ensures code { self.new.code ≡ self.old.code }
    {
        match self.phase {
            Phase::Broken => Err(NoMemory),
            Phase::Over => {
                self.received += piece.len() as u64;
                Ok(())
            }
            Phase::Ended => {
                self.received += piece.len() as u64;
                Ok(())
            }
            Phase::Fresh => self.go_on(piece, told),
            Phase::Waiting => self.go_on(piece, told),
        }
    }

    /// Takes a further piece where the machine will run again.
    fn go_on(&mut self, piece: &[u8], told: &mut Vec<What>) -> Result<(), NoMemory>
        requires runs { WillRun self.old.phase }
        requires bound { self.old.received + length piece.now ≤ most }
        ensures fed { (from : Config) (s : List ℕ) (es : List What) → StandsFor self.old from s es
            → OnOk result (Fed self.new from (s ++ piece.now) es told.old.items told.new.items) }
        ensures received { OnOk result (self.new.received ≡ self.old.received + length piece.now) }
        ensures memory { OnErr result ((self.new.phase ≡ Broken) × (told.new.items ≡ told.old.items)) }
        ensures code { self.new.code ≡ self.old.code }
    {
        self.received += piece.len() as u64;
        match advance(
            self.program,
            &self.limits,
            &mut self.machine,
            &mut self.window,
            piece,
            told,
        ) {
            Ok(true) => {
                self.phase = Phase::Over;
                Ok(())
            }
            Ok(false) => {
                self.phase = Phase::Waiting;
                Ok(())
            }
            Err(NoMemory) => {
                self.phase = Phase::Broken;
                Err(NoMemory)
            }
        }
    }

    /// Ends the input, and runs until all is over. What it tells is appended: that which it tells over the whole input
    /// and has not told before.
    ///
    /// Called again it changes nothing. After want of memory it answers that for good.
    pub fn end(&mut self, told: &mut Vec<What>) -> Result<(), NoMemory>
        ensures closed { (from : Config) (s : List ℕ) (es : List What) → StandsFor self.old from s es
            → OnOk result (Closed self.new from s es told.old.items told.new.items) }
        ensures again { (from : Config) (s : List ℕ) (es : List What) → EndedFor self.old from s es
            → OnOk result (EndedFor self.new from s es × (told.new.items ≡ told.old.items)) }
        ensures received { self.new.received ≡ self.old.received }
        ensures memory { OnErr result ((self.new.phase ≡ Broken) × (told.new.items ≡ told.old.items)) }
        ensures broken { self.old.phase ≡ Broken → IsErr result }
        ensures code { self.new.code ≡ self.old.code }
    {
        match self.phase {
            Phase::Broken => Err(NoMemory),
            Phase::Ended => Ok(()),
            Phase::Over => {
                self.phase = Phase::Ended;
                Ok(())
            }
            Phase::Fresh => self.close(told),
            Phase::Waiting => self.close(told),
        }
    }

    /// Ends the input where the machine will run again.
    fn close(&mut self, told: &mut Vec<What>) -> Result<(), NoMemory>
        requires runs { WillRun self.old.phase }
        ensures closed { (from : Config) (s : List ℕ) (es : List What) → StandsFor self.old from s es
            → OnOk result (Closed self.new from s es told.old.items told.new.items) }
        ensures received { self.new.received ≡ self.old.received }
        ensures memory { OnErr result ((self.new.phase ≡ Broken) × (told.new.items ≡ told.old.items)) }
        ensures code { self.new.code ≡ self.old.code }
    {
        match finish(
            self.program,
            &self.limits,
            &mut self.machine,
            &mut self.window,
            told,
        ) {
            Ok(()) => {
                self.phase = Phase::Ended;
                Ok(())
            }
            Err(NoMemory) => {
                self.phase = Phase::Broken;
                Err(NoMemory)
            }
        }
    }

    /// How the fiber stands; `Waiting` before the first call, and unstated after want of memory.
    pub fn stand(&self) -> Stand<'_>
        ensures live { (from : Config) (s : List ℕ) (es : List What) → StandsFor self.now from s es
            → HasRun self.now.phase
            → IsStand result (step self.now.code (whole_reads s held_open) self.now.at) }
        ensures ended { (from : Config) (s : List ℕ) (es : List What) → EndedFor self.now from s es
            → IsStand result (step self.now.code (whole_reads s ended) self.now.at) }
        ensures fresh { self.now.phase ≡ Fresh → result ≡ Waiting }
    {
        match self.phase {
            Phase::Over => stand_of(&self.machine.mode),
            Phase::Ended => stand_of(&self.machine.mode),
            Phase::Fresh => Stand::Waiting,
            Phase::Waiting => Stand::Waiting,
            Phase::Broken => Stand::Waiting,
        }
    }

    /// The machine, with the instances of units that it has entered.
    pub fn machine(&self) -> &Machine
        ensures { plain result.now ≡ self.now.at }
    {
        &self.machine
    }

    /// How many bytes it was given, also those behind where all was over.
    pub fn received(&self) -> u64
        ensures { result ≡ self.now.received }
    {
        self.received
    }

    /// How many bytes of its input it keeps.
    pub fn kept(&self) -> u64
        ensures { result ≡ length self.now.window.bytes }
    {
        self.window.end() - self.window.base()
    }
}
