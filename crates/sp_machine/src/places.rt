// Instructions on places in containers, on keys, and loops over containers.
ghost use Rattle.std.specs.Prelude.{◌≡◌, ◌+◌, ◌<◌, ◌^◌, ◌∷◌, [], length, OnOk, Some, slice_get};
ghost use Rattle.sp_numbers.specs.declared.width.Width.TheVariants.{W64};
ghost use Rattle.sp_value.specs.Val.{uint};
ghost use Rattle.sp_value.specs.Changes.{IsSet, IsKeyed, with_member, without_key};
ghost use Rattle.sp_value.specs.Parts.{number_in};
ghost use Rattle.sp_meaning_states.specs.Values as values;
ghost use Rattle.sp_code.specs.Can.{top, second, third, below_top, IsItem, IsPlace, IsRow, IsNumber};
ghost use Rattle.sp_code.specs.Machine.{At, put, each_next};
ghost use Rattle.sp_machine.specs.declared.machine.Mode.TheVariants.{Running};
ghost use Rattle.sp_machine.specs.Plain.{state_of, plain, Leads};
ghost use Rattle.sp_machine.specs.Rows.{number_of};

use crate::machine::Machine;
use crate::rows::{item_at, put_at, row_item};
use sp_base::{Limits, NoMemory, or_drop};
use sp_numbers::Width;
use sp_value::{Level, Value};

/// The number that a value is.
fn number(value: &Value) -> u64
    requires { IsNumber value.now }
    ensures { result ≡ number_of value.now }
{
    match value.level() {
        Level::Uint(_, n) => n,
        _ => unreachable!(),
    }
}

impl Machine {
    pub(crate) fn index(&mut self) -> Result<(), NoMemory>
        requires running { self.old.mode ≡ Running }
        requires within { self.old.pc + 1 < 2 ^ 64 }
        requires operands { 1 < length self.old.operands }
        requires item { IsItem (second self.old.operands) (top self.old.operands) }
        ensures { OnOk result (Leads (plain self.new) (put
            (values.item_at (second self.old.operands) (top self.old.operands)) (self.old.pc + 1)
            (below_top (below_top self.old.operands)) self.old.stack (state_of self.old))) }
    {
        let key = self.operands.pop();
        let container = self.operands.pop();
        let found = item_at(&container, &key);
        drop(container);
        drop(key);
        self.put_found(found)
    }

    pub(crate) fn set_index(&mut self) -> Result<(), NoMemory>
        requires running { self.old.mode ≡ Running }
        requires within { self.old.pc + 1 < 2 ^ 64 }
        requires operands { 2 < length self.old.operands }
        requires place { IsPlace (third self.old.operands) (second self.old.operands) }
        ensures { OnOk result (Leads (plain self.new) (put
            (values.with_at (third self.old.operands) (second self.old.operands) (top self.old.operands)) (self.old.pc + 1)
            (below_top (below_top (below_top self.old.operands))) self.old.stack (state_of self.old))) }
    {
        let x = self.operands.pop();
        let key = self.operands.pop();
        let mut container = self.operands.pop();
        match or_drop!(put_at(&mut container, key, x); container) {
            Ok(()) => self.push_next(container),
            Err(kind) => {
                drop(container);
                self.fails(kind);
                Ok(())
            }
        }
    }

    pub(crate) fn add_key(&mut self) -> Result<(), NoMemory>
        requires running { self.old.mode ≡ Running }
        requires within { self.old.pc + 1 < 2 ^ 64 }
        requires operands { 1 < length self.old.operands }
        requires set { IsSet (second self.old.operands) }
        ensures { OnOk result (plain self.new ≡ At (self.old.pc + 1)
            (with_member (second self.old.operands) (top self.old.operands) ∷ below_top (below_top self.old.operands))
            self.old.stack (state_of self.old)) }
    {
        let key = self.operands.pop();
        let mut set = self.operands.pop();
        or_drop!(set.add(key); set);
        self.push_next(set)
    }

    pub(crate) fn delete_key(&mut self) -> Result<(), NoMemory>
        requires running { self.old.mode ≡ Running }
        requires within { self.old.pc + 1 < 2 ^ 64 }
        requires operands { 1 < length self.old.operands }
        requires keyed { IsKeyed (second self.old.operands) }
        ensures { OnOk result (plain self.new ≡ At (self.old.pc + 1)
            (without_key (second self.old.operands) (top self.old.operands) ∷ below_top (below_top self.old.operands))
            self.old.stack (state_of self.old)) }
    {
        let key = self.operands.pop();
        let mut keyed = self.operands.pop();
        let deleted = keyed.delete(&key);
        drop(key);
        or_drop!(deleted; keyed);
        self.push_next(keyed)
    }

    pub(crate) fn each_start(&mut self) -> Result<(), NoMemory>
        requires running { self.old.mode ≡ Running }
        requires within { self.old.pc + 1 < 2 ^ 64 }
        ensures { OnOk result (plain self.new ≡ At (self.old.pc + 1) (uint W64 0 ∷ self.old.operands) self.old.stack
            (state_of self.old)) }
    {
        self.push_next(Value::uint(Width::W64, 0))
    }

    /// A turn, and the next item on the stack.
    fn next_round(
        &mut self,
        limits: &Limits,
        item: Value,
        i: u64,
        row: Value,
    ) -> Result<(), NoMemory>
        requires running { self.old.mode ≡ Running }
        requires within { self.old.pc + 1 < 2 ^ 64 }
        ensures { OnOk result (Leads (plain self.new) (each_next limits.now.turns 0 (self.old.pc + 1) (Some item) i row
            self.old.operands self.old.stack (state_of self.old))) }
    {
        // no container has so many items that their number doesn't fit
        let Some(next) = i.checked_add(1) else {
            drop(item);
            drop(row);
            return Err(NoMemory);
        };
        if self.count_turn(limits) {
            or_drop!(self.operands.push(row); item);
            or_drop!(self.operands.push(Value::uint(Width::W64, next)); item);
            self.push_next(item)
        } else {
            drop(item);
            drop(row);
            Ok(())
        }
    }

    /// The next item of what a loop goes over, or the way out of the loop.
    pub(crate) fn each_next(&mut self, limits: &Limits, to: u32) -> Result<(), NoMemory>
        requires running { self.old.mode ≡ Running }
        requires within { self.old.pc + 1 < 2 ^ 64 }
        requires operands { 1 < length self.old.operands }
        requires number { IsNumber (top self.old.operands) }
        requires row { IsRow (second self.old.operands) }
        ensures { OnOk result (Leads (plain self.new) (each_next limits.now.turns to (self.old.pc + 1)
            (slice_get (values.members_of (second self.old.operands)) (number_of (top self.old.operands)))
            (number_of (top self.old.operands)) (second self.old.operands) (below_top (below_top self.old.operands))
            self.old.stack (state_of self.old))) }
    {
        let counter = self.operands.pop();
        let i = number(&counter);
        drop(counter);
        let row = self.operands.pop();
        match or_drop!(row_item(self.alloc(), &row, i); row) {
            Some(item) => self.next_round(limits, item, i, row),
            None => {
                drop(row);
                self.pc = to as usize;
                Ok(())
            }
        }
    }
}
