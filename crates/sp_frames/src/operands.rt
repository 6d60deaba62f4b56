// Stacks of values.
ghost use Rattle.std.specs.Prelude.{◌≡◌, ◌+◌, ◌<◌, ◌≤◌, ◌↔◌, ◌∷◌, [], length, take, drop, reverse, IsTrue, IfOk, OnOk};
ghost use Rattle.sp_code.specs.Can.{top, below_top};
ghost use Rattle.sp_code.specs.Machine.{under};

use sp_base::NoMemory;
use sp_value::{Value, Values};
use std::marker::Model;
use std::mem;

/// The operands of the body that runs, seen with their top first.
#[derive(Drop)]
pub struct Operands {
    /// The operands, the top last, and behind them what was taken off: void.
    slots: Vec<Value>,
    /// How many operands there are.
    height: usize,
}

impl Model for Operands {
    ghost use Rattle.std.specs.Prelude.{List, ◌≤◌, length, reverse, take};
    ghost use Rattle.std.specs.Coded.{codes};
    ghost use Rattle.sp_value.specs.Val.{Val};
    ghost use Rattle.sp_value.specs.contracts.value.Value as value_row;

    ghost Value = { List Val };

    ghost coded = { Prim.hlevel (codes, value_row.the_row.coded) };

    ghost view = { λ o. reverse (take o.height o.slots.items) };

    ghost invariant = { λ o. o.height ≤ length o.slots.items };
}

impl Operands {
    /// The stack with these values, the last of them on top. Takes no memory.
    pub fn new(items: Vec<Value>) -> Operands
        ensures { result ≡ reverse items.items }
    {
        let height = items.len();
        Operands {
            slots: items,
            height,
        }
    }

    /// The values, the top last. Takes no memory.
    pub fn into_vec(self) -> Vec<Value>
        ensures { reverse result.items ≡ self }
    {
        let mut items = self.slots;
        items.truncate(self.height);
        items
    }

    /// Takes all values off. Takes no memory.
    pub fn clear(&mut self)
        ensures { self.new ≡ [] }
    {
        if self.height > 0 {
            self.slots.clear();
            self.height = 0;
        }
    }

    /// How many values it has room for.
    pub(crate) fn room(&self) -> usize {
        self.slots.capacity()
    }

    pub fn is_empty(&self) -> bool
        ensures { IsTrue result ↔ (self.now ≡ []) }
    {
        self.height == 0
    }

    #[inline(always)]
    pub fn push(&mut self, x: Value) -> Result<(), NoMemory>
        ensures { OnOk result (self.new ≡ x ∷ self.old) }
    {
        if self.height < self.slots.len() {
            self.slots[self.height] = x;
            self.height += 1;
            return Ok(());
        }
        self.push_slot(x)
    }

    /// Puts a value on top where each slot holds an operand.
    fn push_slot(&mut self, x: Value) -> Result<(), NoMemory>
        ensures { OnOk result (self.new ≡ x ∷ self.old) }
    {
        self.slots.truncate(self.height);
        self.slots.push(x)?;
        self.height += 1;
        Ok(())
    }

    /// Takes the value on top. Takes no memory.
    #[inline(always)]
    pub fn pop(&mut self) -> Value
        requires { 0 < length self.old }
        ensures { self.old ≡ result ∷ self.new }
    {
        self.height -= 1;
        mem::replace(&mut self.slots[self.height], Value::void())
    }

    /// Puts the value below the top one under `n` more. Takes no memory.
    pub fn put_under(&mut self, n: usize)
        requires { n + 1 < length self.old }
        ensures { self.new ≡ under n self.old }
    {
        let top = self.height - 1;
        self.slots[top - n - 1..top].rotate_right(1);
    }

    /// The value on top.
    pub fn top(&self) -> &Value
        requires { 0 < length self.now }
        ensures { result.now ≡ top self.now }
    {
        &self.slots[self.height - 1]
    }

    /// The `n` values on top, the lowest first.
    #[inline(always)]
    pub fn on_top(&self, n: usize) -> &[Value]
        requires { n ≤ length self.now }
        ensures { result.now ≡ reverse (take n self.now) }
    {
        &self.slots[self.height - n..self.height]
    }

    /// Takes the `n` values on top into a list that is empty, the lowest first. It takes no memory where the list has room.
    #[tactic(auto, using(crate::proofs::Tops::one_taken, crate::proofs::Tops::one_left, crate::proofs::Tops::some_left))]
    pub fn take_top_in(&mut self, n: usize, empty: Vec<Value>) -> Result<Vec<Value>, NoMemory>
        requires there { n ≤ length self.old }
        requires empty { empty.items ≡ [] }
        ensures taken { IfOk result (λ values. values.items ≡ reverse (take n self.old)) }
        ensures left { OnOk result (self.new ≡ drop n self.old) }
    {
        let mut values = empty;
        for _ in 0..n {
            values.push(self.pop())?;
        }
        values.reverse();
        Ok(values)
    }

    /// Takes the `n` values on top, the lowest first.
    pub fn take_top(&mut self, n: usize) -> Result<Vec<Value>, NoMemory>
        requires { n ≤ length self.old }
        ensures taken { IfOk result (λ values. values.items ≡ reverse (take n self.old)) }
        ensures left { OnOk result (self.new ≡ drop n self.old) }
    {
        let at = self.height - n;
        self.slots.truncate(self.height);
        self.height = at;
        let values = self.slots.split_off(at)?;
        Ok(values)
    }
}
