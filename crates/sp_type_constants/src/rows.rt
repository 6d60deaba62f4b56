// Tuples, vectors, sets and maps of constants.
ghost use Rattle.std.specs.Prelude.{◌≡◌, [], IfOk, OnOk, drop};
ghost use Rattle.sp_value.specs.Val.{set, map, no_vals, no_entries};
ghost use Rattle.sp_value.specs.Changes.{IsMap, with_entry};
ghost use Rattle.sp_type_constants.specs.Outcomes.{made};
ghost use Rattle.sp_type_constants.specs.Operations.{with_members, with_entries, row_of, makes_row};

use crate::lack::Lack;
use crate::measured::{Extent, Measured};
use crate::outcome::Outcome;
use sp_base::{NoMemory, or_drop};
use sp_typed::ManyOp;
use sp_value::Value;
use std::alloc::Global;

/// The values of the parts of a node, or what the worst of them lacks.
#[derive(Drop)]
pub(crate) struct Gathered {
    pub lack: Lack,
    pub values: Vec<Value>,
    pub extent: Extent,
}

/// The set of some values, added one after another.
#[tactic(auto, using(crate::proofs::Lists::stays_set))]
fn set_of(alloc: Global, values: &[Value]) -> Result<Value, NoMemory>
    ensures { IfOk result (λ s. s ≡ with_members (set no_vals) values.now) }
{
    let mut all = Value::set(Vec::new(alloc))?;
    for value in values {
        let item = or_drop!(value.copy(); all);
        or_drop!(all.add(item); all);
    }
    Ok(all)
}

/// Puts a key and its value into a map.
fn put_in(all: &mut Value, key: &Value, value: &Value) -> Result<(), NoMemory>
    requires { IsMap all.old }
    ensures { OnOk result (all.new ≡ with_entry all.old key.now value.now) }
{
    let key = key.copy()?;
    let value = or_drop!(value.copy(); key);
    all.insert(key, value)
}

/// The map of keys and values in turn, put in one after another.
#[tactic(auto, using(crate::proofs::Lists::stays_map, crate::proofs::Lists::two_left, crate::proofs::Lists::none_left))]
fn map_of(alloc: Global, values: &[Value]) -> Result<Value, NoMemory>
    ensures { IfOk result (λ m. m ≡ with_entries (map no_entries) values.now) }
{
    let mut all = Value::map(Vec::new(alloc))?;
    let mut i = 0;
    while i + 1 < values.len() {
        or_drop!(put_in(&mut all, &values[i], &values[i + 1]); all);
        i += 2;
    }
    Ok(all)
}

/// The value of a node round these values.
fn of_values(alloc: Global, op: ManyOp, values: Vec<Value>) -> Result<Outcome, NoMemory>
    ensures { IfOk result (λ o. o ≡ row_of op values.items) }
{
    match op {
        ManyOp::Tuple => Ok(Outcome::Value(Value::tuple(values)?)),
        ManyOp::Vector => Ok(Outcome::Value(Value::vector(values)?)),
        ManyOp::Set => {
            let set = set_of(alloc, &values);
            drop(values);
            Ok(Outcome::Value(set?))
        }
        ManyOp::Map => {
            let map = map_of(alloc, &values);
            drop(values);
            Ok(Outcome::Value(map?))
        }
        _ => {
            drop(values);
            Ok(Outcome::NotConstant)
        }
    }
}

/// Whether a node makes a row of its parts.
pub(crate) fn makes_row(op: ManyOp) -> bool
    ensures { result ≡ makes_row op }
{
    match op {
        ManyOp::Tuple | ManyOp::Vector | ManyOp::Set | ManyOp::Map => true,
        _ => false,
    }
}

/// What is made of the parts of a node.
pub(crate) fn made(alloc: Global, op: ManyOp, parts: Gathered) -> Result<Measured, NoMemory>
    ensures { IfOk result (λ r. r ≡ made (row_of op) parts.lack parts.values.items) }
{
    match parts.lack {
        Lack::Nothing => {
            let extent = or_drop!(parts.extent.around(); parts);
            Ok(Measured::new(of_values(alloc, op, parts.values)?, extent))
        }
        lack => {
            drop(parts);
            Ok(Measured::small(lack.outcome()))
        }
    }
}
