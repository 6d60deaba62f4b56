// The units of which hooks call a method, asked by unit.
ghost use Rattle.std.specs.Prelude.{◌≡◌, ◌==◌, ◌||◌, ◌++◌, ℕ, IfOk, OnOk};
ghost use Rattle.sp_type_unit_calls.specs.HookCalling.{hook_calls, if_calls, callers, has};
ghost use Rattle.sp_typed_units.specs.Hooks.{unit_of};
ghost use Rattle.sp_type_unit_calls.specs.inside.Units.{has_told};

use crate::exprs::rare_calls;
use crate::stmts::stmt_calls;
use indexmap::IndexSet;
use sp_base::{NoMemory, or_drop};
use sp_typed::UnitMethod;
use sp_typed_units::{Hook, unit_of};
use std::alloc::Global;
use std::marker::Model;

fn hook_calls(method: UnitMethod, hook: &Hook) -> bool
    ensures { result ≡ hook_calls method hook.now }
{
    rare_calls(method, &hook.priority) || stmt_calls(method, &hook.body)
}

/// Adds a unit, if there is one and its hook calls.
fn add_if(calls: bool, unit: Option<u32>, units: &mut Vec<u32>) -> Result<(), NoMemory>
    ensures { OnOk result (units.new.items ≡ units.old.items ++ if_calls calls unit) }
{
    if calls {
        if let Some(unit) = unit {
            units.push(unit)?;
        }
    }
    Ok(())
}

/// The units of hooks that call the method.
fn callers(alloc: Global, method: UnitMethod, hooks: &[Hook]) -> Result<Vec<u32>, NoMemory>
    ensures { IfOk result (λ v. v.items ≡ callers method hooks.now) }
{
    let mut units = Vec::new(alloc);
    for i in 0..hooks.len() {
        let hook = &hooks[i];
        add_if(hook_calls(method, hook), unit_of(hook.of), &mut units)?;
    }
    Ok(units)
}

/// Units by their numbers.
#[derive(Drop)]
pub(crate) struct UnitSet {
    pub(crate) units: IndexSet<u32>,
}

fn add(set: &mut UnitSet, unit: u32) -> Result<(), NoMemory>
    ensures { OnOk result ((n : ℕ) → has_told set.new n ≡ (has_told set.old n || unit == n)) }
{
    set.units.insert(unit)?;
    Ok(())
}

fn set_of(alloc: Global, units: &[u32]) -> Result<UnitSet, NoMemory>
    ensures { IfOk result (λ s. (n : ℕ) → has_told s n ≡ has n units.now) }
{
    let mut set = UnitSet {
        units: IndexSet::new(alloc),
    };
    for i in 0..units.len() {
        or_drop!(add(&mut set, units[i]); set);
    }
    Ok(set)
}

/// The units of hooks that call a method. Clauses see their row, and a look-up doesn't hang on how many there are.
#[derive(Drop)]
pub struct HookCalls {
    row: Vec<u32>,
    set: UnitSet,
}

impl Model for HookCalls {
    ghost use Rattle.std.specs.Prelude.{◌≡◌, ℕ, List};
    ghost use Rattle.sp_type_unit_calls.specs.HookCalling.{has};
    ghost use Rattle.sp_type_unit_calls.specs.inside.Units.{has_told};

    ghost Value = { List ℕ };

    ghost view = { λ c. c.row.items };

    ghost invariant = { λ c. (n : ℕ) → has_told c.set n ≡ has n c.row.items };
}

impl HookCalls {
    /// The units of those hooks that call a method of a unit, in their priorities or their bodies.
    pub fn new(alloc: Global, method: UnitMethod, hooks: &[Hook]) -> Result<HookCalls, NoMemory>
        ensures { IfOk result (λ c. c ≡ callers method hooks.now) }
    {
        let row = callers(alloc, method, hooks)?;
        let set = set_of(alloc, &row)?;
        Ok(HookCalls { row, set })
    }

    /// Whether a hook of this unit calls the method.
    pub fn has(&self, unit: u32) -> bool
        ensures { result ≡ has unit self.now }
    {
        self.set.units.contains(&unit)
    }
}
