// The hooks of what they hang on.
ghost use Rattle.std.specs.Prelude.{◌≡◌, ◌==◌, ◌∷◌, ◌++◌, ℕ, [], length, cond, IfOk, OnOk};
ghost use Rattle.sp_type_hook_order.specs.Keys.{are_same, hangs_on, key_at, hooks_of, parts_of};
ghost use Rattle.sp_type_hook_order.specs.inside.Buckets.{told, AreGathered};

use crate::keys::{HookKey, parts_of};
use crate::order::run_order;
use indexmap::IndexMap;
use sp_base::NoMemory;
use sp_typed_units::Numbers;
use std::alloc::Global;
use std::marker::Model;

/// The numbers of hooks by the parts of what they hang on.
#[derive(Drop)]
pub(crate) struct Buckets {
    pub(crate) of: IndexMap<(u32, u32, u32), Numbers>,
}

/// The numbers of what is of these parts.
fn find(table: &Buckets, parts: (u32, u32, u32)) -> Result<Numbers, NoMemory>
    ensures { IfOk result (λ n. n ≡ told table.now parts) }
{
    match table.of.get(&parts) {
        Some(numbers) => numbers.copy(),
        None => Ok(Numbers::none()),
    }
}

/// The numbers of what is of these parts, moved.
fn taken(table: &mut Buckets, parts: (u32, u32, u32)) -> Numbers
    ensures list { result ≡ told table.old parts }
    ensures left { (x : ℕ × ℕ × ℕ) → told table.new x
        ≡ cond (are_same parts x) [] (told table.old x) }
{
    match table.of.swap_remove(&parts) {
        Some(numbers) => numbers,
        None => Numbers::none(),
    }
}

/// Adds a number behind those of the same parts.
fn add(
    alloc: Global,
    table: &mut Buckets,
    parts: (u32, u32, u32),
    number: u32,
) -> Result<(), NoMemory>
    ensures { OnOk result ((x : ℕ × ℕ × ℕ) → told table.new x
        ≡ cond (are_same x parts) (told table.old x ++ number ∷ []) (told table.old x)) }
{
    let numbers = taken(table, parts).and(alloc, number)?;
    table.of.insert(parts, numbers)?;
    Ok(())
}

/// Adds the number of a hook, unless it hangs on nothing.
fn note(
    alloc: Global,
    table: &mut Buckets,
    key: Option<HookKey>,
    number: u32,
) -> Result<(), NoMemory>
    ensures { OnOk result ((x : ℕ × ℕ × ℕ) → told table.new x
        ≡ cond (hangs_on x key) (told table.old x ++ number ∷ []) (told table.old x)) }
{
    match key {
        Some(key) => add(alloc, table, parts_of(key), number),
        None => Ok(()),
    }
}

fn key_at(keys: &[Option<HookKey>], number: u32) -> Option<HookKey>
    ensures { result ≡ key_at keys.now number }
{
    match keys.get(number as usize) {
        Some(key) => *key,
        None => None,
    }
}

/// The numbers of an order, by what they hang on.
fn gathered(alloc: Global, keys: &[Option<HookKey>], order: &[u32]) -> Result<Buckets, NoMemory>
    ensures { IfOk result (AreGathered keys.now order.now) }
{
    let mut table = Buckets {
        of: IndexMap::new(alloc),
    };
    for i in 0..order.len() {
        note(alloc, &mut table, key_at(keys, order[i]), order[i])?;
    }
    Ok(table)
}

/// The hooks of a list by what they hang on, each in the order in which they run. Clauses see what each hook hangs on, and
/// the ranks. It is made in time that grows with n log n for n hooks, and a look-up doesn't hang on how many there are.
#[derive(Drop)]
pub struct HookTable {
    keys: Vec<Option<HookKey>>,
    ranks: Vec<i64>,
    buckets: Buckets,
}

impl Model for HookTable {
    ghost use Rattle.std.specs.Prelude.{List, Option, ℤ};
    ghost use Rattle.sp_type_hook_order.specs.declared.keys.HookKey.{HookKey as Key};
    ghost use Rattle.sp_type_hook_order.specs.Order.{run_order};
    ghost use Rattle.sp_type_hook_order.specs.inside.Buckets.{AreGathered};

    ghost Value = { List (Option Key) × List ℤ };

    ghost view = { λ t. (t.keys.items, t.ranks.items) };

    ghost invariant = { λ t. AreGathered t.keys.items (run_order t.ranks.items) t.buckets };
}

impl HookTable {
    /// The table of hooks, by their numbers from 0: what each hangs on, if anything, and its rank.
    pub fn new(
        alloc: Global,
        keys: Vec<Option<HookKey>>,
        ranks: Vec<i64>,
    ) -> Result<HookTable, NoMemory>
        ensures { IfOk result (λ t. t ≡ (keys.items, ranks.items)) }
    {
        let order = run_order(alloc, &ranks)?;
        let buckets = gathered(alloc, &keys, &order)?;
        Ok(HookTable {
            keys,
            ranks,
            buckets,
        })
    }

    /// Whether there is no hook.
    pub fn is_empty(&self) -> bool
        ensures { result ≡ (length self.now.0 == 0) }
    {
        self.keys.is_empty()
    }

    /// The numbers of the hooks that hang on something, in the order in which they run. They are shared with the table, so that
    /// nothing is copied however many ask.
    pub fn hooks(&self, key: HookKey) -> Result<Numbers, NoMemory>
        ensures { IfOk result (λ n. n ≡ hooks_of self.now.0 self.now.1 key) }
    {
        find(&self.buckets, parts_of(key))
    }
}
