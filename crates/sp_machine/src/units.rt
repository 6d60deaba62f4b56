// Instructions on units, their members and their parameters.
ghost use Rattle.std.specs.Prelude.{◌≡◌, ◌+◌, ◌-◌, ◌<◌, ◌^◌, ◌∷◌, [], length, OnOk, IfOk, is_some};
ghost use Rattle.sp_numbers.specs.declared.width.Width.TheVariants.{W64};
ghost use Rattle.sp_value.specs.Val.{bool, uint, unit};
ghost use Rattle.sp_value.specs.Parts.{instance_in};
ghost use Rattle.sp_meaning_states.specs.States.{instance_of, parameter_of, member_of, put_member, start_of};
ghost use Rattle.sp_code.specs.Can.{top, second, below_top, HasMember, IsInstance};
ghost use Rattle.sp_code.specs.Machine.{At, push_set, landed};
ghost use Rattle.sp_machine.specs.declared.machine.Mode.TheVariants.{Running};
ghost use Rattle.sp_machine.specs.Plain.{state_of, plain, Leads};

use crate::machine::Machine;
use crate::values::copy_of;
use sp_base::{NoMemory, PKind};
use sp_numbers::Width;
use sp_value::Value;

impl Machine {
    pub(crate) fn parameter(&mut self, n: u32) -> Result<(), NoMemory>
        requires running { self.old.mode ≡ Running }
        requires within { self.old.pc + 1 < 2 ^ 64 }
        requires own { self.old.own < length self.old.instances.items }
        requires there { n < length (instance_of (state_of self.old) self.old.own).parameters }
        ensures { OnOk result (plain self.new ≡ At (self.old.pc + 1)
            (parameter_of (state_of self.old) n ∷ self.old.operands) self.old.stack (state_of self.old)) }
    {
        let value = copy_of(&self.instances[self.own].parameters()[n as usize])?;
        self.push_next(value)
    }

    /// The number of the unit that a parameter of the unit at hand names.
    pub(crate) fn parameter_unit(&self, n: u32) -> Option<usize>
        ensures { result ≡ instance_in (parameter_of (state_of self.now) n) }
    {
        let own = self.instances.get(self.own)?;
        own.parameters().get(n as usize)?.as_unit()
    }

    #[inline(always)]
    pub(crate) fn self_unit(&mut self) -> Result<(), NoMemory>
        requires running { self.old.mode ≡ Running }
        requires within { self.old.pc + 1 < 2 ^ 64 }
        ensures { OnOk result (plain self.new ≡ At (self.old.pc + 1) (unit self.old.own ∷ self.old.operands)
            self.old.stack (state_of self.old)) }
    {
        self.push_next(Value::unit(self.own))
    }

    /// Gives the unit at hand, and at once a member of it in its place, which is set.
    #[inline(always)]
    pub(crate) fn get_own(&mut self, m: u32) -> Result<(), NoMemory>
        requires running { self.old.mode ≡ Running }
        requires within { self.old.pc + 1 + 1 < 2 ^ 64 }
        requires there { HasMember (state_of self.old) (unit self.old.own) m }
        ensures { OnOk result (Leads (plain self.new) (push_set (member_of (state_of self.old) (unit self.old.own) m)
            (self.old.pc + 1 + 1) self.old.operands self.old.stack (state_of self.old))) }
    {
        match self.instances[self.own].member(m as usize) {
            Some(value) => {
                let found = copy_of(value)?;
                self.pc += 1;
                self.push_next(found)
            }
            None => {
                self.fails(PKind::Unset);
                Ok(())
            }
        }
    }

    /// A copy of what a member of a unit holds; that of void is unset.
    fn member(&self, unit: &Value, m: u32) -> Result<Option<Value>, NoMemory>
        requires { HasMember (state_of self.now) unit.now m }
        ensures { IfOk result (λ member. member ≡ member_of (state_of self.now) unit.now m) }
    {
        match unit.as_unit() {
            Some(n) => match self.instances[n].member(m as usize) {
                Some(value) => Ok(Some(copy_of(value)?)),
                None => Ok(None),
            },
            None => Ok(None),
        }
    }

    #[inline(always)]
    pub(crate) fn get_field(&mut self, m: u32) -> Result<(), NoMemory>
        requires running { self.old.mode ≡ Running }
        requires within { self.old.pc + 1 < 2 ^ 64 }
        requires operand { 0 < length self.old.operands }
        requires there { HasMember (state_of self.old) (top self.old.operands) m }
        ensures { OnOk result (Leads (plain self.new) (push_set (member_of (state_of self.old) (top self.old.operands) m)
            (self.old.pc + 1) (below_top self.old.operands) self.old.stack (state_of self.old))) }
    {
        let unit = self.operands.pop();
        let found = self.member(&unit, m);
        drop(unit);
        match found? {
            Some(value) => self.push_next(value),
            None => {
                self.fails(PKind::Unset);
                Ok(())
            }
        }
    }

    /// Whether a member of a unit is set.
    fn has_member(&self, unit: &Value, m: u32) -> bool
        requires { IsInstance (state_of self.now) unit.now }
        ensures { result ≡ is_some (member_of (state_of self.now) unit.now m) }
    {
        match unit.as_unit() {
            Some(n) => {
                let instance = &self.instances[n];
                (m as usize) < instance.member_count() && instance.member(m as usize).is_some()
            }
            None => false,
        }
    }

    pub(crate) fn has_field(&mut self, m: u32) -> Result<(), NoMemory>
        requires running { self.old.mode ≡ Running }
        requires within { self.old.pc + 1 < 2 ^ 64 }
        requires operand { 0 < length self.old.operands }
        requires there { IsInstance (state_of self.old) (top self.old.operands) }
        ensures { OnOk result (plain self.new ≡ At (self.old.pc + 1)
            (bool (is_some (member_of (state_of self.old) (top self.old.operands) m)) ∷ below_top self.old.operands)
            self.old.stack (state_of self.old)) }
    {
        let unit = self.operands.pop();
        let is_set = self.has_member(&unit, m);
        drop(unit);
        self.push_next(Value::bool(is_set))
    }

    #[inline(always)]
    pub(crate) fn set_field(&mut self, m: u32)
        requires running { self.old.mode ≡ Running }
        requires within { self.old.pc + 1 < 2 ^ 64 }
        requires operands { 1 < length self.old.operands }
        requires there { HasMember (state_of self.old) (top self.old.operands) m }
        ensures { Leads (plain self.new) (landed (self.old.pc + 1) (below_top (below_top self.old.operands))
            self.old.stack (put_member (top self.old.operands) m (second self.old.operands) (state_of self.old))) }
    {
        let unit = self.operands.pop();
        let number = unit.as_unit();
        drop(unit);
        let value = self.operands.pop();
        match number {
            Some(n) => {
                self.instances[n].set_member(m as usize, value);
                self.pc += 1;
            }
            None => {
                drop(value);
                self.fails(PKind::Unset);
            }
        }
    }

    /// How far the place is behind the start of a unit.
    fn distance(&self, unit: &Value) -> u64
        requires { IsInstance (state_of self.now) unit.now }
        ensures { result ≡ self.now.place - start_of (state_of self.now) unit.now }
    {
        match unit.as_unit() {
            Some(n) => self.place.saturating_sub(self.instances[n].start()),
            None => self.place,
        }
    }

    pub(crate) fn offset(&mut self) -> Result<(), NoMemory>
        requires running { self.old.mode ≡ Running }
        requires within { self.old.pc + 1 < 2 ^ 64 }
        requires operand { 0 < length self.old.operands }
        requires there { IsInstance (state_of self.old) (top self.old.operands) }
        ensures { OnOk result (plain self.new ≡ At (self.old.pc + 1)
            (uint W64 (self.old.place - start_of (state_of self.old) (top self.old.operands)) ∷ below_top self.old.operands)
            self.old.stack (state_of self.old)) }
    {
        let unit = self.operands.pop();
        let distance = self.distance(&unit);
        drop(unit);
        self.push_next(Value::uint(Width::W64, distance))
    }
}
