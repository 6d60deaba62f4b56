// Instructions on values.
ghost use Rattle.std.specs.Prelude.{◌≡◌, ◌+◌, ◌<◌, ◌^◌, ◌∷◌, [], length, Bool, List, Result, IsTrue, IfOk, IfSome, OnOk, Ok, Some, slice_get};
ghost use Rattle.sp_base.specs.declared.kinds.PKind.{PKind as ErrorKind};
ghost use Rattle.sp_words.specs.declared.methods.Method.{Method as Called};
ghost use Rattle.sp_words.specs.declared.operators.BinaryOp.TheVariants.{Add};
ghost use Rattle.sp_numbers.specs.Numbers.{width_bits};
ghost use Rattle.sp_numbers.specs.declared.width.Width.TheVariants.{W64};
ghost use Rattle.sp_value.specs.Parts.{number_in};
ghost use Rattle.sp_value.specs.Val.{Val, uint};
ghost use Rattle.sp_operators.specs.Operands.{takes, takes_memory, takes_one, has_size, is_cast};
ghost use Rattle.sp_operators.specs.Operators.{binary, unary, cast};
ghost use Rattle.sp_operators.specs.Outcomes.{Answers};
ghost use Rattle.sp_methods.specs.Methods.{method};
ghost use Rattle.sp_meaning_states.specs.States.{local_of, set_local};
ghost use Rattle.sp_meaning_states.specs.Values.{size_value};
ghost use Rattle.sp_code.specs.Can.{top, second, below_top};
ghost use Rattle.sp_code.specs.Machine.{At, put, put_all, under, const_of};
ghost use Rattle.sp_machine.specs.Methods.{TellsOne};
ghost use Rattle.sp_machine.specs.declared.machine.Mode.TheVariants.{Running};
ghost use Rattle.sp_machine.specs.Plain.{state_of, plain, Leads};

use crate::machine::Machine;
use sp_base::{NoMemory, or_drop};
use sp_code::Program;
use sp_numbers::Width;
use sp_operators::{PlainType, ValueFault, binary, cast, size, unary};
use sp_value::Value;
use sp_words::{BinaryOp, UnaryOp};

/// Whether a number has no more bits than a width, as all numbers of values have.
#[inline(always)]
fn fits(width: Width, n: u64) -> bool
    ensures { IsTrue result → (n < 2 ^ width_bits width) }
{
    match width {
        Width::W8 => n < 1 << 8,
        Width::W16 => n < 1 << 16,
        Width::W32 => n < 1 << 32,
        Width::W64 => true,
    }
}

/// A copy of a value. Unsigned numbers, which are copied most, are looked at first.
#[inline(always)]
#[tactic(auto, using(crate::proofs::Quick::number_is))]
pub(crate) fn copy_of(value: &Value) -> Result<Value, NoMemory>
    ensures { IfOk result (λ copy. copy ≡ value.now) }
{
    if let (Some(n), Some(width)) = (value.as_uint(), value.width()) {
        if fits(width, n) {
            return Ok(Value::uint(width, n));
        }
    }
    value.copy()
}

/// What an operator makes of two unsigned numbers, where that is soon seen.
#[inline(always)]
#[tactic(auto, using(crate::proofs::Quick::numbers_cmp))]
fn quick(op: BinaryOp, a: &Value, b: &Value) -> Option<Value>
    ensures { IfSome result (λ found. binary op a.now b.now ≡ Ok found) }
{
    let (Some(m), Some(n)) = (a.as_uint(), b.as_uint()) else {
        return None;
    };
    match op {
        BinaryOp::Equal => Some(Value::bool(m.cmp(&n).is_eq())),
        BinaryOp::NotEqual => Some(Value::bool(m.cmp(&n).is_ne())),
        BinaryOp::Less => Some(Value::bool(m.cmp(&n).is_lt())),
        BinaryOp::LessEqual => Some(Value::bool(m.cmp(&n).is_le())),
        BinaryOp::Greater => Some(Value::bool(m.cmp(&n).is_gt())),
        BinaryOp::GreaterEqual => Some(Value::bool(m.cmp(&n).is_ge())),
        BinaryOp::Add => quick_sum(a, m, b, n),
        _ => None,
    }
}

/// The sum of two numbers of 64 bits, if it has no more.
#[inline(always)]
fn sum_of(m: u64, n: u64) -> Option<Value>
    ensures { IfSome result (λ sum. binary Add (uint W64 m) (uint W64 n) ≡ Ok sum) }
{
    match m.checked_add(n) {
        Some(sum) => Some(Value::uint(Width::W64, sum)),
        None => None,
    }
}

/// The sum of two values that are these numbers, if both have 64 bits and it has no more.
#[inline(always)]
#[tactic(auto, using(crate::proofs::Quick::sum_is))]
fn quick_sum(a: &Value, m: u64, b: &Value, n: u64) -> Option<Value>
    requires left { number_in a.now ≡ Some m }
    requires right { number_in b.now ≡ Some n }
    ensures { IfSome result (λ sum. binary Add a.now b.now ≡ Ok sum) }
{
    match (a.width(), b.width()) {
        (Some(Width::W64), Some(Width::W64)) => sum_of(m, n),
        _ => None,
    }
}

/// What an operator makes of two values.
#[inline(always)]
fn of_two(op: BinaryOp, a: &Value, b: &Value) -> Result<Value, ValueFault>
    requires { IsTrue (takes op a.now b.now) }
    ensures { Answers (takes_memory op a.now b.now) (binary op a.now b.now) result }
{
    match quick(op, a, b) {
        Some(found) => Ok(found),
        None => binary(op, a, b),
    }
}

impl Machine {
    #[inline(always)]
    pub(crate) fn constant(&mut self, p: &Program, c: u32) -> Result<(), NoMemory>
        requires running { self.old.mode ≡ Running }
        requires within { self.old.pc + 1 < 2 ^ 64 }
        requires there { c < length p.now.consts }
        ensures { OnOk result (plain self.new ≡ At (self.old.pc + 1) (const_of p.now.consts c ∷ self.old.operands)
            self.old.stack (state_of self.old)) }
    {
        let value = copy_of(&p.consts.as_slice()[c as usize])?;
        self.push_next(value)
    }

    #[inline(always)]
    pub(crate) fn load(&mut self, l: u32) -> Result<(), NoMemory>
        requires running { self.old.mode ≡ Running }
        requires within { self.old.pc + 1 < 2 ^ 64 }
        requires there { l < length self.old.locals.items }
        ensures { OnOk result (plain self.new ≡ At (self.old.pc + 1)
            (local_of (state_of self.old) l ∷ self.old.operands) self.old.stack (state_of self.old)) }
    {
        let value = copy_of(&self.locals[l as usize])?;
        self.push_next(value)
    }

    #[inline(always)]
    pub(crate) fn store(&mut self, l: u32)
        requires running { self.old.mode ≡ Running }
        requires within { self.old.pc + 1 < 2 ^ 64 }
        requires operand { 0 < length self.old.operands }
        requires there { l < length self.old.locals.items }
        ensures { plain self.new ≡ At (self.old.pc + 1) (below_top self.old.operands) self.old.stack
            (set_local l (top self.old.operands) (state_of self.old)) }
    {
        let value = self.operands.pop();
        self.locals[l as usize] = value;
        self.pc += 1;
    }

    /// Ends an instruction that gives what was found, or fails with its error.
    #[inline(always)]
    pub(crate) fn put_found(&mut self, found: Result<Value, ValueFault>) -> Result<(), NoMemory>
        requires running { self.old.mode ≡ Running }
        requires within { self.old.pc + 1 < 2 ^ 64 }
        ensures answer { (takes : Bool) (has : Result Val ErrorKind) → Answers takes has found → OnOk result
            (Leads (plain self.new) (put has (self.old.pc + 1) self.old.operands self.old.stack (state_of self.old))) }
        ensures method { (called : Called) (vs : List Val) → TellsOne called vs found → OnOk result
            (Leads (plain self.new) (put_all (method called vs) (self.old.pc + 1) self.old.operands self.old.stack
            (state_of self.old))) }
    {
        match found {
            Ok(value) => self.push_next(value),
            Err(ValueFault::Run(kind)) => {
                self.fails(kind);
                Ok(())
            }
            Err(ValueFault::NoMemory) => Err(NoMemory),
        }
    }

    pub(crate) fn unary(&mut self, op: UnaryOp) -> Result<(), NoMemory>
        requires running { self.old.mode ≡ Running }
        requires within { self.old.pc + 1 < 2 ^ 64 }
        requires operand { 0 < length self.old.operands }
        requires taken { IsTrue (takes_one op (top self.old.operands)) }
        ensures { OnOk result (Leads (plain self.new) (put (unary op (top self.old.operands)) (self.old.pc + 1)
            (below_top self.old.operands) self.old.stack (state_of self.old))) }
    {
        let value = self.operands.pop();
        let found = unary(op, &value);
        drop(value);
        self.put_found(found)
    }

    /// What an operator makes of the two operands on top.
    #[inline(always)]
    pub(crate) fn operated(&self, op: BinaryOp) -> Result<Value, ValueFault>
        requires operands { 1 < length self.now.operands }
        requires taken { IsTrue (takes op (second self.now.operands) (top self.now.operands)) }
        ensures { Answers (takes_memory op (second self.now.operands) (top self.now.operands))
            (binary op (second self.now.operands) (top self.now.operands)) result }
    {
        let two = self.operands.on_top(2);
        of_two(op, &two[0], &two[1])
    }

    #[inline(always)]
    pub(crate) fn binary(&mut self, op: BinaryOp) -> Result<(), NoMemory>
        requires running { self.old.mode ≡ Running }
        requires within { self.old.pc + 1 < 2 ^ 64 }
        requires operands { 1 < length self.old.operands }
        requires taken { IsTrue (takes op (second self.old.operands) (top self.old.operands)) }
        ensures { OnOk result (Leads (plain self.new) (put
            (binary op (second self.old.operands) (top self.old.operands)) (self.old.pc + 1)
            (below_top (below_top self.old.operands)) self.old.stack (state_of self.old))) }
    {
        let found = self.operated(op);
        drop(self.operands.pop());
        drop(self.operands.pop());
        self.put_found(found)
    }

    pub(crate) fn cast(&mut self, to: PlainType) -> Result<(), NoMemory>
        requires running { self.old.mode ≡ Running }
        requires within { self.old.pc + 1 < 2 ^ 64 }
        requires operand { 0 < length self.old.operands }
        requires taken { IsTrue (is_cast (top self.old.operands) to) }
        ensures { OnOk result (Leads (plain self.new) (put (cast (top self.old.operands) to) (self.old.pc + 1)
            (below_top self.old.operands) self.old.stack (state_of self.old))) }
    {
        let value = self.operands.pop();
        let found = cast(&value, &to);
        drop(value);
        self.put_found(found)
    }

    pub(crate) fn size(&mut self) -> Result<(), NoMemory>
        requires running { self.old.mode ≡ Running }
        requires within { self.old.pc + 1 < 2 ^ 64 }
        requires operand { 0 < length self.old.operands }
        requires sized { IsTrue (has_size (top self.old.operands)) }
        ensures { OnOk result (plain self.new ≡ At (self.old.pc + 1)
            (size_value (top self.old.operands) ∷ below_top self.old.operands) self.old.stack (state_of self.old)) }
    {
        let value = self.operands.pop();
        let size = size(&value);
        drop(value);
        self.push_next(size)
    }

    pub(crate) fn drop_top(&mut self)
        requires running { self.old.mode ≡ Running }
        requires within { self.old.pc + 1 < 2 ^ 64 }
        requires operand { 0 < length self.old.operands }
        ensures { plain self.new ≡ At (self.old.pc + 1) (below_top self.old.operands) self.old.stack (state_of self.old) }
    {
        drop(self.operands.pop());
        self.pc += 1;
    }

    /// Puts the value below the top one under so many more.
    pub(crate) fn turn_under(&mut self, n: u32)
        requires running { self.old.mode ≡ Running }
        requires within { self.old.pc + 1 < 2 ^ 64 }
        requires operands { n + 1 < length self.old.operands }
        ensures { plain self.new ≡ At (self.old.pc + 1) (under n self.old.operands) self.old.stack (state_of self.old) }
    {
        self.operands.put_under(n as usize);
        self.pc += 1;
    }

    /// Copies the two values on top.
    pub(crate) fn duplicate(&mut self) -> Result<(), NoMemory>
        requires running { self.old.mode ≡ Running }
        requires within { self.old.pc + 1 < 2 ^ 64 }
        requires operands { 1 < length self.old.operands }
        ensures { OnOk result (plain self.new ≡ At (self.old.pc + 1)
            (top self.old.operands ∷ second self.old.operands ∷ self.old.operands) self.old.stack (state_of self.old)) }
    {
        let two = self.operands.on_top(2);
        let below = two[0].copy()?;
        let top = or_drop!(two[1].copy(); below);
        or_drop!(self.operands.push(below); top);
        self.push_next(top)
    }
}
