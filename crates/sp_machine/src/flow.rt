// Instructions on the way that the code takes.
ghost use Rattle.std.specs.Prelude.{◌≡◌, ◌+◌, ◌<◌, ◌^◌, ◌∷◌, [], length, IsTrue, IsFalse, Ok, OnOk, IfOk, nat_lt, if◌then◌else◌};
ghost use Rattle.sp_base.specs.declared.kinds.PKind.TheVariants as error_is;
ghost use Rattle.sp_value.specs.Parts.{text_in};
ghost use Rattle.sp_meaning_states.specs.States.{Failed, Returned, error_at, error_with, truth_of};
ghost use Rattle.sp_code.specs.Can.{top, second, below_top, IsBool, IsText, IsMessage};
ghost use Rattle.sp_code.specs.Machine.{At, Ending, Goes, counted, raise, raise_with};
ghost use Rattle.sp_machine.specs.declared.machine.Mode.TheVariants.{Running};
ghost use Rattle.sp_machine.specs.Plain.{state_of, plain, Leads};

use crate::machine::{Machine, Mode};
use sp_base::{Limits, NoMemory, PKind, ParseError, Text};
use sp_value::{Level, Value};

/// The truth that a value is.
#[inline(always)]
pub(crate) fn truth(value: &Value) -> bool
    requires { IsBool value.now }
    ensures { result ≡ truth_of value.now }
{
    match value.level() {
        Level::Bool(b) => b,
        _ => unreachable!(),
    }
}

/// A copy of the text that a value is, if it is one.
fn text_of(alloc: std::alloc::Global, value: &Value) -> Result<Option<Text>, NoMemory>
    ensures { IfOk result (λ text. text ≡ text_in value.now) }
{
    match value.as_str() {
        Some(text) => Ok(Some(Text::new(alloc, text)?)),
        None => Ok(None),
    }
}

impl Machine {
    /// Counts a turn, unless that passes the limit.
    #[inline(always)]
    pub(crate) fn count_turn(&mut self, limits: &Limits) -> bool
        requires running { self.old.mode ≡ Running }
        ensures counted { result ≡ nat_lt self.old.count limits.now.turns }
        ensures yes { IsTrue result → (self.new ≡ record self.old { count = self.old.count + 1 }) }
        ensures no { IsFalse result → (plain self.new ≡ Ending
            (Failed (error_at error_is.Turns (state_of self.old))) self.old.stack (state_of self.old)) }
    {
        if self.count < limits.turns {
            self.count += 1;
            true
        } else {
            self.fails(PKind::Turns);
            false
        }
    }

    #[inline(always)]
    pub(crate) fn turn(&mut self, limits: &Limits)
        requires running { self.old.mode ≡ Running }
        requires within { self.old.pc + 1 < 2 ^ 64 }
        ensures { Leads (plain self.new) (counted limits.now.turns
            (λ st. Goes [] (At (self.old.pc + 1) self.old.operands self.old.stack st)) self.old.stack
            (state_of self.old)) }
    {
        if self.count_turn(limits) {
            self.pc += 1;
        }
    }

    #[inline(always)]
    pub(crate) fn jump_not(&mut self, to: u32)
        requires running { self.old.mode ≡ Running }
        requires within { self.old.pc + 1 < 2 ^ 64 }
        requires operand { 0 < length self.old.operands }
        requires truth { IsBool (top self.old.operands) }
        ensures { plain self.new ≡ (if truth_of (top self.old.operands)
            then At (self.old.pc + 1) (below_top self.old.operands) self.old.stack (state_of self.old)
            else At to (below_top self.old.operands) self.old.stack (state_of self.old)) }
    {
        let value = self.operands.pop();
        let is_true = truth(&value);
        drop(value);
        if is_true {
            self.pc += 1;
        } else {
            self.pc = to as usize;
        }
    }

    #[inline(always)]
    pub(crate) fn returns(&mut self)
        requires operand { 0 < length self.old.operands }
        ensures { plain self.new ≡ Ending (Returned (top self.old.operands)) self.old.stack (state_of self.old) }
    {
        let value = self.operands.pop();
        self.set_mode(Mode::Returning(value));
    }

    /// Fails with a text.
    fn fails_with(&mut self, kind: PKind, text: Option<Text>)
        ensures { plain self.new ≡ Ending (Failed (error_with kind text (state_of self.old))) self.old.stack
            (state_of self.old) }
    {
        let offset = self.place;
        self.set_mode(Mode::Failing(ParseError { kind, offset, text }));
    }

    pub(crate) fn throw(&mut self) -> Result<(), NoMemory>
        requires operand { 0 < length self.old.operands }
        ensures { OnOk result (Leads (plain self.new) (raise_with error_is.Throw (text_in (top self.old.operands))
            self.old.stack (state_of self.old))) }
    {
        let value = self.operands.pop();
        let text = text_of(self.alloc(), &value);
        drop(value);
        self.fails_with(PKind::Throw, text?);
        Ok(())
    }

    pub(crate) fn assert(&mut self) -> Result<(), NoMemory>
        requires running { self.old.mode ≡ Running }
        requires within { self.old.pc + 1 < 2 ^ 64 }
        requires operands { 1 < length self.old.operands }
        requires truth { IsBool (second self.old.operands) }
        ensures { OnOk result (Leads (plain self.new) (if truth_of (second self.old.operands)
            then Goes [] (At (self.old.pc + 1) (below_top (below_top self.old.operands)) self.old.stack (state_of self.old))
            else raise_with error_is.Assert (text_in (top self.old.operands)) self.old.stack (state_of self.old))) }
    {
        let message = self.operands.pop();
        let value = self.operands.pop();
        let is_true = truth(&value);
        drop(value);
        if is_true {
            drop(message);
            self.pc += 1;
            return Ok(());
        }
        let text = text_of(self.alloc(), &message);
        drop(message);
        self.fails_with(PKind::Assert, text?);
        Ok(())
    }
}
