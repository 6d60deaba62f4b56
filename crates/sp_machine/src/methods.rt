// Calls of the library's methods.
ghost use Rattle.std.specs.Prelude.{◌≡◌, ◌+◌, ◌<◌, ◌≤◌, ◌^◌, ◌∷◌, [], false, true, length, take, drop, IsTrue, OnOk};
ghost use Rattle.sp_words.specs.Methods.{arity, changes};
ghost use Rattle.sp_words.specs.declared.methods.Method.TheVariants as of;
ghost use Rattle.sp_value.specs.Changes.{IsVector};
ghost use Rattle.sp_methods.specs.Methods.{method, suits};
ghost use Rattle.sp_code.specs.Can.{top, second, third, below_top};
ghost use Rattle.sp_code.specs.Machine.{At, put_all};
ghost use Rattle.sp_machine.specs.declared.machine.Mode.TheVariants.{Running};
ghost use Rattle.sp_machine.specs.Plain.{state_of, plain, Leads};

use crate::library::{of_one, of_three, of_two};
use crate::machine::Machine;
use sp_base::{NoMemory, or_drop};
use sp_lib::{pop_back, push_back};
use sp_operators::ValueFault;
use sp_words::Method;

impl Machine {
    fn push_back(&mut self) -> Result<(), NoMemory>
        requires running { self.old.mode ≡ Running }
        requires within { self.old.pc + 1 < 2 ^ 64 }
        requires operands { 1 < length self.old.operands }
        requires taken { IsTrue (suits of.PushBack (take 2 self.old.operands)) }
        ensures { OnOk result (Leads (plain self.new) (put_all (method of.PushBack (take 2 self.old.operands))
            (self.old.pc + 1) (drop 2 self.old.operands) self.old.stack (state_of self.old))) }
    {
        let item = self.operands.pop();
        let mut vector = self.operands.pop();
        or_drop!(push_back(&mut vector, item); vector);
        self.push_next(vector)
    }

    fn pop_back(&mut self) -> Result<(), NoMemory>
        requires running { self.old.mode ≡ Running }
        requires within { self.old.pc + 1 < 2 ^ 64 }
        requires operands { 0 < length self.old.operands }
        requires taken { IsTrue (suits of.PopBack (take 1 self.old.operands)) }
        ensures { OnOk result (Leads (plain self.new) (put_all (method of.PopBack (take 1 self.old.operands))
            (self.old.pc + 1) (drop 1 self.old.operands) self.old.stack (state_of self.old))) }
    {
        let mut vector = self.operands.pop();
        match pop_back(&mut vector) {
            Ok(item) => {
                or_drop!(self.operands.push(item); vector);
                self.push_next(vector)
            }
            Err(ValueFault::Run(kind)) => {
                drop(vector);
                self.fails(kind);
                Ok(())
            }
            Err(ValueFault::NoMemory) => {
                drop(vector);
                Err(NoMemory)
            }
        }
    }

    fn with_one(&mut self, called: Method) -> Result<(), NoMemory>
        requires running { self.old.mode ≡ Running }
        requires within { self.old.pc + 1 < 2 ^ 64 }
        requires changes { changes called ≡ false }
        requires arity { arity called ≡ 1 }
        requires operands { 0 < length self.old.operands }
        requires taken { IsTrue (suits called (take 1 self.old.operands)) }
        ensures { OnOk result (Leads (plain self.new) (put_all (method called (take 1 self.old.operands))
            (self.old.pc + 1) (drop 1 self.old.operands) self.old.stack (state_of self.old))) }
    {
        let x = self.operands.pop();
        let found = of_one(self.alloc(), called, &x);
        drop(x);
        self.put_found(found)
    }

    fn with_two(&mut self, called: Method) -> Result<(), NoMemory>
        requires running { self.old.mode ≡ Running }
        requires within { self.old.pc + 1 < 2 ^ 64 }
        requires changes { changes called ≡ false }
        requires arity { arity called ≡ 2 }
        requires operands { 1 < length self.old.operands }
        requires taken { IsTrue (suits called (take 2 self.old.operands)) }
        ensures { OnOk result (Leads (plain self.new) (put_all (method called (take 2 self.old.operands))
            (self.old.pc + 1) (drop 2 self.old.operands) self.old.stack (state_of self.old))) }
    {
        let y = self.operands.pop();
        let x = self.operands.pop();
        let found = of_two(self.alloc(), called, &y, &x);
        drop(x);
        drop(y);
        self.put_found(found)
    }

    fn with_three(&mut self, called: Method) -> Result<(), NoMemory>
        requires running { self.old.mode ≡ Running }
        requires within { self.old.pc + 1 < 2 ^ 64 }
        requires arity { arity called ≡ 3 }
        requires operands { 2 < length self.old.operands }
        requires taken { IsTrue (suits called (take 3 self.old.operands)) }
        ensures { OnOk result (Leads (plain self.new) (put_all (method called (take 3 self.old.operands))
            (self.old.pc + 1) (drop 3 self.old.operands) self.old.stack (state_of self.old))) }
    {
        let z = self.operands.pop();
        let y = self.operands.pop();
        let x = self.operands.pop();
        let found = of_three(self.alloc(), called, &z, &y, &x);
        drop(x);
        drop(y);
        drop(z);
        self.put_found(found)
    }

    /// Calls a method of the library with the operands on top.
    pub(crate) fn call_method(&mut self, called: Method) -> Result<(), NoMemory>
        requires running { self.old.mode ≡ Running }
        requires within { self.old.pc + 1 < 2 ^ 64 }
        requires operands { arity called ≤ length self.old.operands }
        requires taken { IsTrue (suits called (take (arity called) self.old.operands)) }
        ensures { OnOk result (Leads (plain self.new) (put_all (method called (take (arity called) self.old.operands))
            (self.old.pc + 1) (drop (arity called) self.old.operands) self.old.stack (state_of self.old))) }
    {
        match called {
            Method::PushBack => self.push_back(),
            Method::PopBack => self.pop_back(),
            Method::Lower | Method::Upper | Method::Encode | Method::Front | Method::Back => {
                self.with_one(called)
            }
            Method::Sub | Method::Decode | Method::GetOr => self.with_three(called),
            Method::ToUint
            | Method::ToInt
            | Method::ToUintOrder
            | Method::ToIntOrder
            | Method::StartsWith
            | Method::Split
            | Method::Split1
            | Method::Get => self.with_two(called),
        }
    }
}
