// Instructions that make tuples, vectors, sets and maps.
ghost use Rattle.std.specs.Prelude.{◌≡◌, ◌+◌, ◌<◌, ◌≤◌, ◌^◌, ◌∷◌, [], length, take, drop, reverse, OnOk, IfOk};
ghost use Rattle.sp_value.specs.Val.{tuple, vector, vals_of};
ghost use Rattle.sp_meaning_states.specs.Values.{set_of, map_of};
ghost use Rattle.sp_code.specs.Machine.{At};
ghost use Rattle.sp_machine.specs.declared.machine.Mode.TheVariants.{Running};
ghost use Rattle.sp_machine.specs.Plain.{state_of, plain};

use crate::machine::Machine;
use sp_base::{NoMemory, or_drop};
use sp_frames::Operands;
use sp_value::Value;

/// The values with the first of them on top. Takes no memory.
#[tactic(auto, using(crate::proofs::Turned::turned_twice))]
fn in_order(values: Vec<Value>) -> Operands
    ensures { result ≡ values.items }
{
    let mut turned = values;
    turned.reverse();
    Operands::new(turned)
}

/// The set of these keys.
fn set_from(keys: Vec<Value>) -> Result<Value, NoMemory>
    ensures { IfOk result (λ set. set ≡ set_of keys.items) }
{
    let mut set = Value::set(Vec::new(*keys.allocator()))?;
    let mut rest = in_order(keys);
    while !rest.is_empty() {
        or_drop!(set.add(rest.pop()); set, rest);
    }
    drop(rest);
    Ok(set)
}

/// The map of these keys and values, which come in turn.
fn map_from(values: Vec<Value>) -> Result<Value, NoMemory>
    ensures { IfOk result (λ map. map ≡ map_of values.items) }
{
    let mut map = Value::map(Vec::new(*values.allocator()))?;
    let mut rest = in_order(values);
    while !rest.is_empty() {
        let key = rest.pop();
        if rest.is_empty() {
            drop(key);
            break;
        }
        or_drop!(map.insert(key, rest.pop()); map, rest);
    }
    drop(rest);
    Ok(map)
}

impl Machine {
    pub(crate) fn make_tuple(&mut self, n: u32) -> Result<(), NoMemory>
        requires running { self.old.mode ≡ Running }
        requires within { self.old.pc + 1 < 2 ^ 64 }
        requires operands { n ≤ length self.old.operands }
        ensures { OnOk result (plain self.new ≡ At (self.old.pc + 1)
            (tuple (vals_of (reverse (take n self.old.operands))) ∷ drop n self.old.operands) self.old.stack
            (state_of self.old)) }
    {
        let members = self.operands.take_top(n as usize)?;
        self.push_next(Value::tuple(members)?)
    }

    pub(crate) fn make_vector(&mut self, n: u32) -> Result<(), NoMemory>
        requires running { self.old.mode ≡ Running }
        requires within { self.old.pc + 1 < 2 ^ 64 }
        requires operands { n ≤ length self.old.operands }
        ensures { OnOk result (plain self.new ≡ At (self.old.pc + 1)
            (vector (vals_of (reverse (take n self.old.operands))) ∷ drop n self.old.operands) self.old.stack
            (state_of self.old)) }
    {
        let items = self.operands.take_top(n as usize)?;
        self.push_next(Value::vector(items)?)
    }

    pub(crate) fn make_set(&mut self, n: u32) -> Result<(), NoMemory>
        requires running { self.old.mode ≡ Running }
        requires within { self.old.pc + 1 < 2 ^ 64 }
        requires operands { n ≤ length self.old.operands }
        ensures { OnOk result (plain self.new ≡ At (self.old.pc + 1)
            (set_of (reverse (take n self.old.operands)) ∷ drop n self.old.operands) self.old.stack
            (state_of self.old)) }
    {
        let keys = self.operands.take_top(n as usize)?;
        self.push_next(set_from(keys)?)
    }

    pub(crate) fn make_map(&mut self, n: u32) -> Result<(), NoMemory>
        requires running { self.old.mode ≡ Running }
        requires within { self.old.pc + 1 < 2 ^ 64 }
        requires operands { n ≤ length self.old.operands }
        ensures { OnOk result (plain self.new ≡ At (self.old.pc + 1)
            (map_of (reverse (take n self.old.operands)) ∷ drop n self.old.operands) self.old.stack
            (state_of self.old)) }
    {
        let entries = self.operands.take_top(n as usize)?;
        self.push_next(map_from(entries)?)
    }
}
