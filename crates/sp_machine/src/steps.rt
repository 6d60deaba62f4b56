// Steps of the machine.
ghost use Rattle.std.specs.Prelude.{◌≡◌, ◌≢◌, ◌+◌, ◌≤◌, ◌<◌, ◌^◌, [], List, IfOk, IfSome, OnOk, IsTrue, IsFalse, Some, slice_get};
ghost use Rattle.sp_events.specs.declared.event.What.{What as Told};
ghost use Rattle.sp_code.specs.declared.instr.Instr.TheVariants.{GetField, ReadInt, SelfUnit};
ghost use Rattle.sp_code.specs.Can.{Can};
ghost use Rattle.sp_code.specs.Machine.{act, step};
ghost use Rattle.sp_code.specs.Programs.{plain_of};
ghost use Rattle.sp_code.specs.Turns.{Turns};
ghost use Rattle.sp_machine.specs.declared.machine.Mode.TheVariants.{Running};
ghost use Rattle.sp_machine.specs.declared.machine.Stop.TheVariants.{GoesOn};
ghost use Rattle.sp_machine.specs.InPlace.{may_change, reads_input};
ghost use Rattle.sp_machine.specs.Plain.{state_of, plain, reads_of, Leads, Does, Tells};
ghost use Rattle.sp_machine.specs.Ran.{Ran, Advanced};
ghost use Rattle.sp_machine.specs.Safe.{IsSafe};

use crate::in_place::may_change;
use crate::machine::{Machine, Mode, Stop};
use crate::tables::{body_at, unit_at};
use sp_base::{Limits, NoMemory};
use sp_code::{Instr, IntForm, Program};
use sp_events::What;
use sp_window::Window;
use std::mem;

/// The member that the code at an address gives of a unit.
#[inline(always)]
fn field_at(p: &Program, at: usize) -> Option<u32>
    ensures { IfSome result (λ m. (slice_get p.now.code.items at ≡ Some (GetField m)) × (at + 1 < 2 ^ 64)) }
{
    match p.code.get(at) {
        Some(Instr::GetField(m)) => Some(*m),
        _ => None,
    }
}

impl Machine {
    /// One instruction, unless it can change a container or reads the input.
    #[inline(always)]
    #[tactic(auto, using(crate::proofs::Entries::body_there, crate::proofs::Entries::unit_there))]
    fn act_without_input(
        &mut self,
        p: &Program,
        limits: &Limits,
        instr: &Instr,
        window: &Window,
        is_ended: bool,
        told: &mut Vec<What>,
    ) -> Result<(), NoMemory>
        requires running { self.old.mode ≡ Running }
        requires within { self.old.pc + 1 < 2 ^ 64 }
        requires keeps { IsFalse (may_change instr.now) }
        requires reads { IsFalse (reads_input instr.now) }
        requires can { Can (plain_of limits.now p.now) (Some instr.now) self.old.operands (state_of self.old) }
        ensures { OnOk result (Tells told.old.items told.new.items (plain self.new)
            (act (plain_of limits.now p.now) (reads_of window.now is_ended) (Some instr.now) self.old.pc self.old.operands
            self.old.stack (state_of self.old))) }
    {
        match *instr {
            Instr::Const(c) => self.constant(p, c),
            Instr::Load(l) => self.load(l),
            Instr::Store(l) => {
                self.store(l);
                Ok(())
            }
            Instr::Param(n) => self.parameter(n),
            Instr::SelfUnit => self.self_unit(),
            Instr::GetField(m) => self.get_field(m),
            Instr::HasField(m) => self.has_field(m),
            Instr::SetField(m) => {
                self.set_field(m);
                Ok(())
            }
            Instr::Unary(op) => self.unary(op),
            Instr::Cast(to) => self.cast(to),
            Instr::MakeTuple(n) => self.make_tuple(n),
            Instr::MakeVector(n) => self.make_vector(n),
            Instr::MakeSet(n) => self.make_set(n),
            Instr::MakeMap(n) => self.make_map(n),
            Instr::Index => self.index(),
            Instr::Size => self.size(),
            Instr::Lib(called) => self.call_method(called),
            Instr::Pop => {
                self.drop_top();
                Ok(())
            }
            Instr::Dup => self.duplicate(),
            Instr::Under(n) => {
                self.turn_under(n);
                Ok(())
            }
            Instr::Jump(to) => {
                self.pc = to as usize;
                Ok(())
            }
            Instr::JumpNot(to) => {
                self.jump_not(to);
                Ok(())
            }
            Instr::Call(f) => self.enter_body(limits, body_at(p, f)),
            Instr::Return => {
                self.returns();
                Ok(())
            }
            Instr::Turn => {
                self.turn(limits);
                Ok(())
            }
            Instr::EachStart => self.each_start(),
            Instr::EachNext(to) => self.each_next(limits, to),
            Instr::Print(n) => self.print(p, n, told),
            Instr::Assert => self.assert(),
            Instr::Throw => self.throw(),
            Instr::Fail(kind) => {
                self.fails(kind);
                Ok(())
            }
            Instr::EnterUnit(u) => self.enter_unit(limits, u, unit_at(p, u)),
            Instr::LeaveUnit => {
                self.set_mode(Mode::Leaving);
                Ok(())
            }
            Instr::Hook(h) => self.run_hook(p, limits, body_at(p, h), told),
            Instr::Offset => self.offset(),
            Instr::ReadInt(_)
            | Instr::Binary(_)
            | Instr::SetIndex
            | Instr::AddKey
            | Instr::DeleteKey => unreachable!(),
        }
    }

    /// One instruction, unless it can change a container.
    #[inline(always)]
    fn act(
        &mut self,
        p: &Program,
        limits: &Limits,
        instr: &Instr,
        window: &Window,
        is_ended: bool,
        told: &mut Vec<What>,
    ) -> Result<Stop, NoMemory>
        requires running { self.old.mode ≡ Running }
        requires within { self.old.pc + 1 < 2 ^ 64 }
        requires base { window.now.base ≤ self.old.place }
        requires keeps { IsFalse (may_change instr.now) }
        requires can { Can (plain_of limits.now p.now) (Some instr.now) self.old.operands (state_of self.old) }
        ensures { IfOk result (λ r. Does r told.old.items told.new.items (plain self.old) (plain self.new)
            (act (plain_of limits.now p.now) (reads_of window.now is_ended) (Some instr.now) self.old.pc self.old.operands
            self.old.stack (state_of self.old))) }
    {
        match instr {
            Instr::ReadInt(form) => self.read_integer(*form, window, is_ended),
            _ => {
                self.act_without_input(p, limits, instr, window, is_ended, told)?;
                Ok(Stop::GoesOn)
            }
        }
    }

    /// One instruction that can change a container.
    fn act_on_container(
        &mut self,
        p: &Program,
        limits: &Limits,
        window: &Window,
        is_ended: bool,
        instr: &Instr,
    ) -> Result<(), NoMemory>
        requires running { self.old.mode ≡ Running }
        requires within { self.old.pc + 1 < 2 ^ 64 }
        requires changes { IsTrue (may_change instr.now) }
        requires can { Can (plain_of limits.now p.now) (Some instr.now) self.old.operands (state_of self.old) }
        ensures { OnOk result (Leads (plain self.new) (act (plain_of limits.now p.now) (reads_of window.now is_ended)
            (Some instr.now) self.old.pc self.old.operands self.old.stack (state_of self.old))) }
    {
        match *instr {
            Instr::Binary(op) => self.binary(op),
            Instr::Lib(called) => self.call_method(called),
            Instr::SetIndex => self.set_index(),
            Instr::AddKey => self.add_key(),
            Instr::DeleteKey => self.delete_key(),
            _ => unreachable!(),
        }
    }

    /// An instruction that can change a container; where the code behind it stores what it gives, that too, at once. Whatever was told
    /// before, nothing more is.
    fn change_and_store(
        &mut self,
        p: &Program,
        limits: &Limits,
        window: &Window,
        is_ended: bool,
        instr: &Instr,
    ) -> Result<(), NoMemory>
        requires running { self.old.mode ≡ Running }
        requires within { self.old.pc + 1 < 2 ^ 64 }
        requires safe { IsSafe (plain_of limits.now p.now) window.now (plain self.old) }
        requires turns { Turns (plain_of limits.now p.now) }
        requires instr { slice_get p.now.code.items self.old.pc ≡ Some instr.now }
        requires changes { IsTrue (may_change instr.now) }
        ensures { OnOk result ((told : List Told) → Advanced (plain_of limits.now p.now)
            (reads_of window.now is_ended) window.now told told (plain self.old) (plain self.new) GoesOn) }
    {
        if let Some(slot) = self.slot_from(p, self.pc + 1) {
            self.change(p, limits, window, is_ended, instr, slot)?;
            return Ok(());
        }
        if let Some(slot) = self.slot_inside(p, instr) {
            self.advance_inside(p, limits, window, is_ended, instr, slot)?;
            return Ok(());
        }
        self.act_on_container(p, limits, window, is_ended, instr)?;
        Ok(())
    }

    /// The unit at hand and a member of it at once, where that is what the code gives.
    #[inline(always)]
    fn member_at_once(
        &mut self,
        p: &Program,
        limits: &Limits,
        window: &Window,
        is_ended: bool,
    ) -> Result<bool, NoMemory>
        requires running { self.old.mode ≡ Running }
        requires within { self.old.pc + 1 < 2 ^ 64 }
        requires safe { IsSafe (plain_of limits.now p.now) window.now (plain self.old) }
        requires turns { Turns (plain_of limits.now p.now) }
        requires instr { slice_get p.now.code.items self.old.pc ≡ Some SelfUnit }
        ensures did { IfOk result (λ did. IsTrue did → (told : List Told) → Advanced (plain_of limits.now p.now)
            (reads_of window.now is_ended) window.now told told (plain self.old) (plain self.new) GoesOn) }
        ensures not { IfOk result (λ did. IsFalse did → self.new ≡ self.old) }
    {
        match field_at(p, self.pc + 1) {
            Some(m) => {
                self.get_own(m)?;
                Ok(true)
            }
            None => Ok(false),
        }
    }

    /// An integer that is stored at once, where its bytes are there and the code stores it.
    #[inline(always)]
    fn integer_at_once(
        &mut self,
        p: &Program,
        limits: &Limits,
        window: &Window,
        is_ended: bool,
        form: IntForm,
    ) -> bool
        requires running { self.old.mode ≡ Running }
        requires within { self.old.pc + 1 < 2 ^ 64 }
        requires safe { IsSafe (plain_of limits.now p.now) window.now (plain self.old) }
        requires turns { Turns (plain_of limits.now p.now) }
        requires instr { slice_get p.now.code.items self.old.pc ≡ Some (ReadInt form) }
        requires base { window.now.base ≤ self.old.place }
        ensures did { IsTrue result → (told : List Told) → Advanced (plain_of limits.now p.now)
            (reads_of window.now is_ended) window.now told told (plain self.old) (plain self.new) GoesOn }
        ensures not { IsFalse result → self.new ≡ self.old }
    {
        let Some(to) = self.integer_end(form, window) else {
            return false;
        };
        match self.slot_from(p, self.pc + 1) {
            Some(slot) => {
                self.read_in(slot, form, to, window, is_ended);
                true
            }
            None => false,
        }
    }

    /// The instruction with those behind it, where they cost less together; or nothing.
    #[inline(always)]
    fn at_once(
        &mut self,
        p: &Program,
        limits: &Limits,
        window: &Window,
        is_ended: bool,
        instr: &Instr,
    ) -> Result<bool, NoMemory>
        requires running { self.old.mode ≡ Running }
        requires within { self.old.pc + 1 < 2 ^ 64 }
        requires safe { IsSafe (plain_of limits.now p.now) window.now (plain self.old) }
        requires turns { Turns (plain_of limits.now p.now) }
        requires instr { slice_get p.now.code.items self.old.pc ≡ Some instr.now }
        requires base { window.now.base ≤ self.old.place }
        requires keeps { IsFalse (may_change instr.now) }
        ensures did { IfOk result (λ did. IsTrue did → (told : List Told) → Advanced (plain_of limits.now p.now)
            (reads_of window.now is_ended) window.now told told (plain self.old) (plain self.new) GoesOn) }
        ensures not { IfOk result (λ did. IsFalse did → self.new ≡ self.old) }
    {
        match *instr {
            Instr::SelfUnit => self.member_at_once(p, limits, window, is_ended),
            Instr::ReadInt(form) => Ok(self.integer_at_once(p, limits, window, is_ended, form)),
            _ => Ok(false),
        }
    }

    /// The instruction at which a machine stands, with what is done at once with it.
    #[inline(always)]
    #[tactic(auto, using(crate::proofs::Safety::safe_base))]
    fn go(
        &mut self,
        p: &Program,
        limits: &Limits,
        window: &Window,
        is_ended: bool,
        told: &mut Vec<What>,
    ) -> Result<Stop, NoMemory>
        requires running { self.old.mode ≡ Running }
        requires safe { IsSafe (plain_of limits.now p.now) window.now (plain self.old) }
        requires turns { Turns (plain_of limits.now p.now) }
        ensures { IfOk result (Advanced (plain_of limits.now p.now) (reads_of window.now is_ended) window.now
            told.old.items told.new.items (plain self.old) (plain self.new)) }
    {
        match p.code.get(self.pc) {
            Some(instr) => {
                if may_change(instr) {
                    self.change_and_store(p, limits, window, is_ended, instr)?;
                    return Ok(Stop::GoesOn);
                }
                if self.at_once(p, limits, window, is_ended, instr)? {
                    return Ok(Stop::GoesOn);
                }
                self.act(p, limits, instr, window, is_ended, told)
            }
            None => unreachable!(),
        }
    }

    /// Takes a frame off by the end that a machine has come to. A safe machine finds the frame that the end takes off.
    #[tactic(auto, using(crate::proofs::Safety::safe_leaving, crate::proofs::Safety::safe_returning))]
    fn take_off(
        &mut self,
        p: &Program,
        limits: &Limits,
        window: &Window,
        is_ended: bool,
    ) -> Result<Stop, NoMemory>
        requires ends { self.old.mode ≢ Running }
        requires safe { IsSafe (plain_of limits.now p.now) window.now (plain self.old) }
        ensures { IfOk result (λ r. Does r [] [] (plain self.old) (plain self.new)
            (step (plain_of limits.now p.now) (reads_of window.now is_ended) (plain self.old))) }
    {
        match mem::replace(&mut self.mode, Mode::Running) {
            Mode::Running => unreachable!(),
            Mode::Leaving => self.leave(),
            Mode::Returning(value) => self.return_from(value),
            Mode::Failing(error) => self.fail_from(error),
        }
    }

    /// A step, or several at once.
    #[inline(always)]
    fn advance(
        &mut self,
        p: &Program,
        limits: &Limits,
        window: &Window,
        is_ended: bool,
        told: &mut Vec<What>,
    ) -> Result<Stop, NoMemory>
        requires safe { IsSafe (plain_of limits.now p.now) window.now (plain self.old) }
        requires turns { Turns (plain_of limits.now p.now) }
        ensures { IfOk result (Advanced (plain_of limits.now p.now) (reads_of window.now is_ended) window.now
            told.old.items told.new.items (plain self.old) (plain self.new)) }
    {
        match self.mode {
            Mode::Running => self.go(p, limits, window, is_ended, told),
            _ => self.take_off(p, limits, window, is_ended),
        }
    }

    /// Steps until the machine waits for more of its input, or all is over. A safe machine whose code
    /// counts its turns comes to such a stop, and is safe there.
    #[tactic(auto, using(crate::proofs::Running::not_yet, crate::proofs::Running::came_both, crate::proofs::Running::ran))]
    pub fn run(
        &mut self,
        p: &Program,
        limits: &Limits,
        window: &Window,
        is_ended: bool,
        told: &mut Vec<What>,
    ) -> Result<Stop, NoMemory>
        requires safe { IsSafe (plain_of limits.now p.now) window.now (plain self.old) }
        requires turns { Turns (plain_of limits.now p.now) }
        ensures { IfOk result (λ stop. Ran (plain_of limits.now p.now) (reads_of window.now is_ended) window.now
            told.old.items told.new.items (plain self.old) (plain self.new) stop) }
    {
        loop {
            match self.advance(p, limits, window, is_ended, told)? {
                Stop::GoesOn => {}
                stop => return Ok(stop),
            }
        }
    }
}
