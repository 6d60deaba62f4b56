// Instructions that open frames, and the ends that take them off.
ghost use Rattle.std.specs.Prelude.{◌≡◌, ◌+◌, ◌<◌, ◌≤◌, ◌^◌, ◌∷◌, ◌++◌, [], length, drop, take, reverse, OnOk, IfOk, Some, IsTrue, IsFalse, nat_lt};
ghost use Rattle.sp_base.specs.declared.kinds.PKind.TheVariants as error_is;
ghost use Rattle.sp_meaning_states.specs.States.{Fine, Failed, Returned, error_at};
ghost use Rattle.sp_code.specs.Machine.{At, Ending, Goes, called_frame, begun, parts_frame, unit_frame, entered, call_next, unit_next, landed, caught, unless_caught, take_off};
ghost use Rattle.sp_meaning_states.specs.Scopes.{InParts, InCall, called_where, ends_fiber, leave};
ghost use Rattle.sp_code.specs.Programs.{called_as};
ghost use Rattle.sp_frames.specs.Frames.{called, error_of, frame_of};
ghost use Rattle.sp_frames.specs.declared.frame.Frame.TheVariants.{Parts};
ghost use Rattle.sp_machine.specs.declared.machine.Mode.TheVariants.{Running};
ghost use Rattle.sp_machine.specs.Plain.{state_of, plain, Leads, Does};
ghost use Rattle.sp_machine.specs.Bodies.{body_of, unit_of, InnermostIsNoCall, InnermostIsNoUnit};

use crate::machine::{Machine, Mode, Stop};
use crate::values::copy_of;
use sp_base::{Limits, NoMemory, PKind, ParseError, or_drop};
use sp_code::{BodyCode, BodyOf, UnitCode};
use sp_frames::{Callee, Frame, Instance, Operands};
use sp_value::{Value, Values};
use std::mem;

/// What a frame says of a body that is called.
pub(crate) fn callee(of: &BodyOf) -> Callee
    ensures { called result ≡ called_as of.now }
{
    match of {
        BodyOf::Function => Callee::Function,
        BodyOf::Hook { each, .. } => Callee::Hook { each: *each },
    }
}

/// What it says where the body is called from a unit that fails or doesn't.
pub(crate) fn callee_where(failing: bool, of: &BodyOf) -> Callee
    ensures { called result ≡ called_where failing (called_as of.now) }
{
    match of {
        BodyOf::Hook { each, .. } if failing && !*each => Callee::FailingHook,
        _ => callee(of),
    }
}

/// Whether an error ends the fiber, so that no hook runs.
fn ends_fiber(kind: PKind) -> bool
    ensures { result ≡ ends_fiber kind }
{
    match kind {
        PKind::Turns | PKind::Depth | PKind::FiberDepth => true,
        _ => false,
    }
}

/// Appends copies of other values.
fn append_copies(values: &mut Vec<Value>, others: &[Value]) -> Result<(), NoMemory>
    ensures { OnOk result (values.new.items ≡ values.old.items ++ others.now) }
{
    for value in others {
        values.push(copy_of(value)?)?;
    }
    Ok(())
}

/// These values, and behind them copies of others.
#[inline(always)]
fn with_copies(values: Vec<Value>, others: &[Value]) -> Result<Vec<Value>, NoMemory>
    ensures { IfOk result (λ all. all.items ≡ values.items ++ others.now) }
{
    if others.is_empty() {
        return Ok(values);
    }
    let mut all = values;
    or_drop!(append_copies(&mut all, others); all);
    Ok(all)
}

impl Machine {
    /// Opens the frame of a body, which begins with what it takes.
    pub(crate) fn open_body(&mut self, body: &BodyCode, callee: Callee) -> Result<(), NoMemory>
        requires running { self.old.mode ≡ Running }
        requires within { self.old.pc + 1 < 2 ^ 64 }
        requires there { body.now.takes ≤ length self.old.operands }
        ensures { OnOk result (plain self.new ≡ At body.now.start []
            (called_frame (record (body_of body.now) { called = called callee }) (self.old.pc + 1)
            (drop body.now.takes self.old.operands) (state_of self.old) ∷ self.old.stack)
            (begun (body_of body.now) (take body.now.takes self.old.operands) (state_of self.old))) }
    {
        let room = self.spare.take();
        let taken = self.operands.take_top_in(body.takes as usize, room)?;
        let inner = with_copies(taken, body.fresh.as_slice())?;
        let locals = Values::new(mem::replace(&mut self.locals, inner));
        let stack = self.spare.take_stack();
        let operands = mem::replace(&mut self.operands, stack);
        self.stack.push(Frame::Call {
            callee,
            own: self.own as u64,
            locals,
            to: self.pc as u64 + 1,
            operands,
        })?;
        self.pc = body.start as usize;
        Ok(())
    }

    /// Counts a unit or a function that is opened, unless that passes the limit.
    fn count_depth(&mut self, limits: &Limits) -> bool
        requires running { self.old.mode ≡ Running }
        ensures counted { result ≡ nat_lt self.old.depth limits.now.depth }
        ensures yes { IsTrue result → (self.new ≡ record self.old { depth = self.old.depth + 1 }) }
        ensures no { IsFalse result → (plain self.new ≡ Ending
            (Failed (error_at error_is.Depth (state_of self.old))) self.old.stack (state_of self.old)) }
    {
        if self.depth < limits.depth {
            self.depth += 1;
            true
        } else {
            self.fails(PKind::Depth);
            false
        }
    }

    /// Calls a function.
    pub(crate) fn enter_body(&mut self, limits: &Limits, body: &BodyCode) -> Result<(), NoMemory>
        requires running { self.old.mode ≡ Running }
        requires within { self.old.pc + 1 < 2 ^ 64 }
        requires there { body.now.takes ≤ length self.old.operands }
        ensures { OnOk result (Leads (plain self.new) (call_next limits.now (Some (body_of body.now)) (self.old.pc + 1)
            self.old.operands self.old.stack (state_of self.old))) }
    {
        if self.count_turn(limits) && self.count_depth(limits) {
            self.open_body(body, callee(&body.of))?;
        }
        Ok(())
    }

    /// Opens the frames of a unit and of its parts, with a new instance.
    fn open_unit(&mut self, u: u32, unit: &UnitCode) -> Result<(), NoMemory>
        requires running { self.old.mode ≡ Running }
        requires within { self.old.pc + 1 < 2 ^ 64 }
        requires there { unit.now.takes ≤ length self.old.operands }
        ensures { OnOk result (plain self.new ≡ At unit.now.start [] (parts_frame (unit_of unit.now)
            ∷ unit_frame (unit_of unit.now) (self.old.pc + 1) (drop unit.now.takes self.old.operands)
            (state_of self.old) ∷ self.old.stack)
            (entered (unit_of unit.now) u (take unit.now.takes self.old.operands) (state_of self.old))) }
    {
        let alloc = self.alloc();
        let parameters = Values::new(self.operands.take_top(unit.takes as usize)?);
        let instance = Instance::new(alloc, u, self.place, parameters, unit.members.len())?;
        let inner = or_drop!(with_copies(self.spare.take(), unit.fresh.as_slice()); instance);
        let locals = Values::new(mem::replace(&mut self.locals, inner));
        let stack = self.spare.take_stack();
        let operands = mem::replace(&mut self.operands, stack);
        let number = self.instances.len();
        or_drop!(self.instances.push(instance); locals, operands);
        self.stack.push(Frame::Unit {
            keeps: unit.keeps,
            instance: number as u64,
            start: self.place,
            own: self.own as u64,
            locals,
            to: self.pc as u64 + 1,
            operands,
        })?;
        self.stack.push(Frame::Parts {
            failing: unit.failing as u64,
            ending: unit.ending as u64,
        })?;
        self.own = number;
        self.pc = unit.start as usize;
        Ok(())
    }

    /// Enters a unit.
    pub(crate) fn enter_unit(
        &mut self,
        limits: &Limits,
        u: u32,
        unit: &UnitCode,
    ) -> Result<(), NoMemory>
        requires running { self.old.mode ≡ Running }
        requires within { self.old.pc + 1 < 2 ^ 64 }
        requires there { unit.now.takes ≤ length self.old.operands }
        ensures { OnOk result (Leads (plain self.new) (unit_next limits.now (Some (unit_of unit.now)) u (self.old.pc + 1)
            self.old.operands self.old.stack (state_of self.old))) }
    {
        if self.count_turn(limits) && self.count_depth(limits) {
            self.open_unit(u, unit)?;
        }
        Ok(())
    }

    /// Goes on outside a frame: the instance at hand, the locals, the address, and the operands there.
    fn leave_to(&mut self, own: u64, locals: Values, to: u64, operands: Operands)
        ensures outside { self.new ≡ record self.old {
          own = own;
          locals = self.new.locals;
          pc = to;
          operands = operands;
          spare = self.new.spare;
        } }
        ensures locals { self.new.locals.items ≡ locals }
    {
        let freed = mem::replace(&mut self.locals, locals.into_vec());
        self.spare.give(freed);
        let used = mem::replace(&mut self.operands, operands);
        self.spare.give_stack(used);
        self.own = own as usize;
        self.pc = to as usize;
    }

    /// Goes on at an address with no operands.
    fn go_on_at(&mut self, to: u64)
        ensures { self.new ≡ record self.old { mode = Running; pc = to; operands = []; spare = self.new.spare } }
    {
        let stack = self.spare.take_stack();
        let used = mem::replace(&mut self.operands, stack);
        self.spare.give_stack(used);
        self.set_mode(Mode::Running);
        self.pc = to as usize;
    }

    /// Takes the innermost frame off by a good end: that of the parts of a unit leads behind them, that of a
    /// unit gives its instance, and that of its failing leads on to its error.
    pub(crate) fn leave(&mut self) -> Result<Stop, NoMemory>
        requires innermost { InnermostIsNoCall self.old.stack }
        ensures { IfOk result (λ r. Does r [] [] (Ending Fine self.old.stack (state_of self.old)) (plain self.new)
            (take_off Fine self.old.stack (state_of self.old))) }
    {
        match self.stack.pop() {
            None => {
                self.set_mode(Mode::Leaving);
                Ok(Stop::Over)
            }
            Some(
                Frame::Unit {
                    instance,
                    own,
                    locals,
                    to,
                    operands,
                    keeps: _keeps,
                    start: _start,
                },
            ) => {
                self.leave_to(own, locals, to, operands);
                self.depth = self.depth.saturating_sub(1);
                self.operands.push(Value::unit(instance as usize))?;
                self.set_mode(Mode::Running);
                Ok(Stop::GoesOn)
            }
            Some(
                Frame::Parts {
                    ending,
                    failing: _failing,
                },
            ) => {
                self.go_on_at(ending);
                Ok(Stop::GoesOn)
            }
            Some(
                Frame::Failing {
                    error,
                    ending: _ending,
                },
            ) => {
                self.set_mode(Mode::Failing(error));
                Ok(Stop::GoesOn)
            }
            Some(Frame::Call { .. }) => unreachable!(),
        }
    }

    /// Goes on behind a body that returned, whose value is dropped unless it is a function's.
    fn return_to(&mut self, callee: Callee, value: Value) -> Result<(), NoMemory>
        ensures { OnOk result (Leads (plain self.new) (landed self.old.pc self.old.operands self.old.stack
            (leave (InCall (called callee) self.old.own self.old.locals.items) (Returned value) (state_of self.old)))) }
    {
        match callee {
            Callee::Function => {
                self.depth = self.depth.saturating_sub(1);
                self.operands.push(value)?;
            }
            Callee::Hook { each } => {
                drop(value);
                if each {
                    self.operands.push(Value::bool(true))?;
                }
            }
            Callee::FailingHook => drop(value),
        }
        self.set_mode(Mode::Running);
        Ok(())
    }

    /// Takes the innermost frame off by the end of a body that returns a value.
    pub(crate) fn return_from(&mut self, value: Value) -> Result<Stop, NoMemory>
        requires innermost { InnermostIsNoUnit self.old.stack }
        ensures { IfOk result (λ r. Does r [] [] (Ending (Returned value) self.old.stack (state_of self.old))
            (plain self.new) (take_off (Returned value) self.old.stack (state_of self.old))) }
    {
        match self.stack.pop() {
            None => {
                self.set_mode(Mode::Returning(value));
                Ok(Stop::Over)
            }
            Some(
                Frame::Call {
                    callee,
                    own,
                    locals,
                    to,
                    operands,
                },
            ) => {
                self.leave_to(own, locals, to, operands);
                self.return_to(callee, value)?;
                Ok(Stop::GoesOn)
            }
            Some(Frame::Unit { .. }) => unreachable!(),
            Some(Frame::Parts { .. }) => unreachable!(),
            Some(Frame::Failing { .. }) => unreachable!(),
        }
    }

    /// Goes on outside a body that an error left.
    fn fail_to(&mut self, callee: Callee, error: ParseError)
        ensures { Leads (plain self.new) (landed self.old.pc self.old.operands self.old.stack
            (leave (InCall (called callee) self.old.own self.old.locals.items) (Failed (error_of error)) (state_of self.old))) }
    {
        if let Callee::Function = callee {
            self.depth = self.depth.saturating_sub(1);
        }
        match callee {
            Callee::FailingHook if !ends_fiber(error.kind) => self.set_mode(Mode::Running),
            _ => self.set_mode(Mode::Failing(error)),
        }
    }

    /// The parts of a unit fail: its frame stays, and keeps the error while its hooks for that run. An error
    /// that ends the fiber runs none.
    fn fail_parts(&mut self, error: ParseError, failing: u64, ending: u64) -> Result<(), NoMemory>
        ensures { OnOk result (Leads (plain self.new) (unless_caught
            (caught (InParts failing) (Failed (error_of error))) (frame_of (Parts failing ending)) self.old.stack
            (state_of self.old) (Goes [] (Ending (Failed (error_of error)) self.old.stack (state_of self.old))))) }
    {
        if ends_fiber(error.kind) {
            self.set_mode(Mode::Failing(error));
            return Ok(());
        }
        self.stack.push(Frame::Failing { error, ending })?;
        self.go_on_at(failing);
        Ok(())
    }

    /// Takes the innermost frame off by an error.
    pub(crate) fn fail_from(&mut self, error: ParseError) -> Result<Stop, NoMemory>
        ensures { IfOk result (λ r. Does r [] [] (Ending (Failed (error_of error)) self.old.stack (state_of self.old))
            (plain self.new) (take_off (Failed (error_of error)) self.old.stack (state_of self.old))) }
    {
        match self.stack.pop() {
            None => {
                self.set_mode(Mode::Failing(error));
                Ok(Stop::Over)
            }
            Some(
                Frame::Unit {
                    own,
                    locals,
                    to,
                    operands,
                    instance: _instance,
                    keeps: _keeps,
                    start: _start,
                },
            ) => {
                self.leave_to(own, locals, to, operands);
                self.depth = self.depth.saturating_sub(1);
                self.set_mode(Mode::Failing(error));
                Ok(Stop::GoesOn)
            }
            Some(Frame::Parts { failing, ending }) => {
                self.fail_parts(error, failing, ending)?;
                Ok(Stop::GoesOn)
            }
            Some(
                Frame::Failing {
                    error: _error,
                    ending: _ending,
                },
            ) => {
                self.set_mode(Mode::Failing(error));
                Ok(Stop::GoesOn)
            }
            Some(
                Frame::Call {
                    callee,
                    own,
                    locals,
                    to,
                    operands,
                },
            ) => {
                self.leave_to(own, locals, to, operands);
                self.fail_to(callee, error);
                Ok(Stop::GoesOn)
            }
        }
    }
}
