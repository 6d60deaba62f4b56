// A session: one unit, read from pieces of its input.
ghost use Rattle.std.specs.Prelude.{◌≡◌, ◌≤◌, ◌+◌, ◌^◌, length};

use crate::starter::starter_address;
use crate::telling::tell_on;
use sp_base::{Limits, NoMemory};
use sp_code::Program;
use sp_events::Events;
use sp_fiber::Fiber;
use sp_meaning::Stand;
use sp_typed_units::Typed;
use sp_value::Values;
use std::alloc::Global;

#[derive(Clone, Copy, Debug, PartialEq, Eq)]
enum Phase {
    Fresh,
    Fed,
    Ended,
    Broken,
}

/// A unit of a list of modules that is read from pieces. It keeps the bytes from the least place on that the unit still needs, and no
/// others. The list is lent for what clauses say of it.
#[derive(Drop)]
pub struct Session<'p> {
    alloc: Global,
    list: &'p Typed,
    program: &'p Program,
    unit: u32,
    limits: Limits,
    fiber: Fiber<'p>,
    phase: Phase,
    stand: Stand,
}

impl<'p> Session<'p> {
    ghost use Rattle.std.specs.Prelude.{◌≢◌, ◌++◌, ◌-◌, List, ℕ, [], drop, IfOk, OnOk, OnErr, IsErr};
    ghost use Rattle.sp_base.specs.Input.{held_open, ended};
    ghost use Rattle.sp_meaning.specs.Meaning.{low};
    ghost use Rattle.sp_meaning.specs.declared.stand.Stand.TheVariants.{Waiting};
    ghost use Rattle.sp_session.specs.Units.{unit_meaning};
    ghost use Rattle.sp_session.specs.Telling.{IsFront};
    ghost use Rattle.sp_session.specs.Session.{Runs, means, received, StandsFor, EndedFor, IsBroken, IsFresh, IsFed, told_by};

    /// A session that has run nothing: it stands for no bytes, and has told nothing.
    ///
    /// The program is that of the list, and runs the unit of this number within the limits and without arguments.
    pub fn start(
        alloc: Global,
        list: &'p Typed,
        program: &'p Program,
        unit: u32,
        limits: Limits,
    ) -> Result<Session<'p>, NoMemory>
        requires { Runs list.now program.now limits unit }
        ensures stands { IfOk result (λ session. StandsFor session []) }
        ensures fresh { IfOk result (λ session. IsFresh session) }
        ensures received { IfOk result (λ session. received session ≡ 0) }
        ensures means { IfOk result (λ session. means session ≡ unit_meaning list.now limits unit) }
    {
        let at = starter_address(program, unit)?;
        let fiber = Fiber::start(alloc, program, at, Values::new(Vec::new(alloc)), limits);
        Ok(Session {
            alloc,
            list,
            program,
            unit,
            limits,
            fiber,
            phase: Phase::Fresh,
            stand: Stand::Waiting,
        })
    }

    /// Takes a further piece of the input, and answers how the unit stands. The events that it appends are
    /// those of the meaning of the bytes so far, held open, that the session has not told before; the first
    /// call, also with an empty piece, tells what needs no input.
    ///
    /// After the end of the input it answers the same again and appends nothing. After want of memory, where a front
    /// of these events may have been appended, it answers that for good.
    pub fn feed(&mut self, piece: &[u8], out: &mut Events) -> Result<Stand, NoMemory>
        requires { received self.old + length piece.now ≤ 2 ^ 62 }
        ensures stands { (s : List ℕ) → StandsFor self.old s
            → OnOk result (StandsFor self.new (s ++ piece.now)) }
        ensures fed { (s : List ℕ) → StandsFor self.old s → OnOk result (IsFed self.new) }
        ensures events { (s : List ℕ) → StandsFor self.old s → OnOk result (out.new
            ≡ out.old ++ drop (length (told_by self.old s))
            (means self.old (s ++ piece.now) held_open).events) }
        ensures stand { (s : List ℕ) → StandsFor self.old s
            → IfOk result (λ stand. stand ≡ (means self.old (s ++ piece.now) held_open).stand) }
        ensures again { (s : List ℕ) → EndedFor self.old s
            → OnOk result (EndedFor self.new s × (out.new ≡ out.old)) }
        ensures same { (s : List ℕ) → EndedFor self.old s
            → IfOk result (λ stand. stand ≡ (means self.old s ended).stand) }
        ensures received { OnOk result (received self.new ≡ received self.old + length piece.now) }
        ensures memory { OnErr result (IsBroken self.new) }
        ensures front { (s : List ℕ) → StandsFor self.old s → OnErr result (IsFront out.old out.new
            (drop (length (told_by self.old s)) (means self.old (s ++ piece.now) held_open).events)) }
        ensures broken { IsBroken self.old → IsErr result × (out.new ≡ out.old) }
        ensures means { means self.new ≡ means self.old }
    {
        match self.phase {
            Phase::Broken => Err(NoMemory),
            Phase::Ended => {
                self.phase = Phase::Broken;
                let mut nothing = Vec::new(self.alloc);
                self.fiber.feed(piece, &mut nothing)?;
                let stand = self.stand.copy()?;
                self.phase = Phase::Ended;
                Ok(stand)
            }
            Phase::Fresh | Phase::Fed => {
                self.phase = Phase::Broken;
                let mut told = Vec::new(self.alloc);
                self.fiber.feed(piece, &mut told)?;
                let stand = tell_on(
                    self.alloc,
                    self.program,
                    &self.fiber,
                    told,
                    &mut self.stand,
                    out,
                )?;
                self.phase = Phase::Fed;
                Ok(stand)
            }
        }
    }

    /// Ends the input, and answers how the unit stands, which is never `Waiting`. The events that it appends
    /// are those of the meaning of the whole input that the session has not told before.
    ///
    /// Called again it answers the same again and appends nothing. After want of memory, where a front of these events
    /// may have been appended, it answers that for good.
    pub fn end(&mut self, out: &mut Events) -> Result<Stand, NoMemory>
        ensures stands { (s : List ℕ) → StandsFor self.old s → OnOk result (EndedFor self.new s) }
        ensures events { (s : List ℕ) → StandsFor self.old s → OnOk result (out.new
            ≡ out.old ++ drop (length (told_by self.old s)) (means self.old s ended).events) }
        ensures stand { (s : List ℕ) → StandsFor self.old s
            → IfOk result (λ stand. stand ≡ (means self.old s ended).stand) }
        ensures decided { (s : List ℕ) → StandsFor self.old s
            → IfOk result (λ stand. stand ≢ Waiting) }
        ensures again { (s : List ℕ) → EndedFor self.old s
            → OnOk result (EndedFor self.new s × (out.new ≡ out.old)) }
        ensures same { (s : List ℕ) → EndedFor self.old s
            → IfOk result (λ stand. stand ≡ (means self.old s ended).stand) }
        ensures received { received self.new ≡ received self.old }
        ensures memory { OnErr result (IsBroken self.new) }
        ensures front { (s : List ℕ) → StandsFor self.old s → OnErr result (IsFront out.old out.new
            (drop (length (told_by self.old s)) (means self.old s ended).events)) }
        ensures broken { IsBroken self.old → IsErr result × (out.new ≡ out.old) }
        ensures means { means self.new ≡ means self.old }
    {
        match self.phase {
            Phase::Broken => Err(NoMemory),
            Phase::Ended => {
                self.phase = Phase::Broken;
                let stand = self.stand.copy()?;
                self.phase = Phase::Ended;
                Ok(stand)
            }
            Phase::Fresh | Phase::Fed => {
                self.phase = Phase::Broken;
                let mut rest = Vec::new(self.alloc);
                self.fiber.end(&mut rest)?;
                let stand = tell_on(
                    self.alloc,
                    self.program,
                    &self.fiber,
                    rest,
                    &mut self.stand,
                    out,
                )?;
                self.phase = Phase::Ended;
                Ok(stand)
            }
        }
    }

    /// How the unit stands; `Waiting` before the first call.
    pub fn stand(&self) -> &Stand
        ensures live { (s : List ℕ) → StandsFor self.now s → IsFed self.now
            → result.now ≡ (means self.now s held_open).stand }
        ensures fresh { (s : List ℕ) → StandsFor self.now s → IsFresh self.now
            → result.now ≡ Waiting }
        ensures over { (s : List ℕ) → EndedFor self.now s
            → result.now ≡ (means self.now s ended).stand }
    {
        &self.stand
    }

    /// How many bytes of the input it was fed, also those behind the unit's end.
    pub fn received(&self) -> u64
        ensures fed { (s : List ℕ) → StandsFor self.now s → result ≡ length s }
        ensures count { result ≡ received self.now }
    {
        self.fiber.received()
    }

    /// How many bytes of the input it keeps: those from the meaning's oldest retention point on, and none where the unit
    /// does not wait.
    pub fn kept(&self) -> u64
        ensures live { (s : List ℕ) → StandsFor self.now s
            → result ≡ length s - low (means self.now) s held_open }
        ensures over { (s : List ℕ) → EndedFor self.now s → result ≡ 0 }
    {
        self.fiber.kept()
    }
}
