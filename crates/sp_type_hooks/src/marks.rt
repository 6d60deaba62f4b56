// Fields on which hooks hang, by numbers.
ghost use Rattle.std.specs.Prelude.{◌≡◌, ◌||◌, ℕ, false, IfOk, OnOk};
ghost use Rattle.sp_type_hook_order.specs.Keys.{are_same};
ghost use Rattle.sp_type_hooks.specs.Fields.{mark_of, hangs, site_mark, is_asked};
ghost use Rattle.sp_type_hooks.specs.inside.Tables.{has_mark};

use indexmap::IndexSet;
use sp_base::{NoMemory, or_drop};
use sp_type_hook_order::HookKey;
use sp_type_hook_rows::{Site, site_key};
use sp_type_modules::Tables;
use std::alloc::Global;

/// The numbers by which a field is told from others: whether it has a name, its unit, and its member or its place.
pub(crate) type Mark = (u32, u32, u32);

/// The mark of the field on which hooks of a key hang, if it is one of a field.
pub(crate) fn mark_of(key: Option<HookKey>) -> Option<Mark>
    ensures { result ≡ mark_of key }
{
    match key {
        Some(HookKey::Member(unit, member)) => Some((1, unit, member)),
        Some(HookKey::Anonymous(unit, place)) => Some((2, unit, place)),
        _ => None,
    }
}

/// The mark of the field that stands at a place of hooks.
pub(crate) fn site_mark(tables: &Tables<'_>, site: &Site<'_>) -> Result<Option<Mark>, NoMemory>
    ensures { IfOk result (λ m. m ≡ site_mark tables.now.0 site.now) }
{
    match site_key(tables, site)? {
        Some((_, key)) => Ok(mark_of(Some(key))),
        None => Ok(None),
    }
}

/// Marks of fields.
#[derive(Drop)]
pub(crate) struct Marks {
    pub(crate) all: IndexSet<Mark>,
}

impl Marks {
    pub(crate) fn new(alloc: Global) -> Marks
        ensures { (x : ℕ × ℕ × ℕ) → has_mark result x ≡ false }
    {
        Marks {
            all: IndexSet::new(alloc),
        }
    }

    pub(crate) fn has(&self, mark: Mark) -> bool
        ensures { result ≡ has_mark self.now mark }
    {
        self.all.contains(&mark)
    }

    /// Adds a mark, if there is one.
    pub(crate) fn add(&mut self, mark: Option<Mark>) -> Result<(), NoMemory>
        ensures { OnOk result ((x : ℕ × ℕ × ℕ) → has_mark self.new x
            ≡ (has_mark self.old x || hangs x mark)) }
    {
        if let Some(mark) = mark {
            self.all.insert(mark)?;
        }
        Ok(())
    }
}

/// The fields on which hooks of some keys hang.
pub(crate) fn asked(alloc: Global, keys: &[Option<HookKey>]) -> Result<Marks, NoMemory>
    ensures { IfOk result (λ s. (x : ℕ × ℕ × ℕ) → has_mark s x ≡ is_asked keys.now x) }
{
    let mut marks = Marks::new(alloc);
    for i in 0..keys.len() {
        or_drop!(marks.add(mark_of(keys[i])); marks);
    }
    Ok(marks)
}
