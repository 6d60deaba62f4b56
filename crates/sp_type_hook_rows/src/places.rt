// What the hooks of fields hang on, by the places of the fields.
ghost use Rattle.std.specs.Prelude.{◌≡◌, ℕ, Some, None, if◌then◌else◌, IfOk, OnOk};
ghost use Rattle.sp_type_hook_rows.specs.Tests.{are_equal};
ghost use Rattle.sp_type_hook_rows.specs.Places.{member_key, field_key, holder_key, earlier, if_at, key_at};
ghost use Rattle.sp_type_hook_rows.specs.inside.Keyed.{key_told, AreKeys};

use crate::named::field_number;
use crate::sites::{Holder, Site};
use indexmap::IndexMap;
use sp_ast::{FieldKind, Ref};
use sp_base::{NoMemory, or_drop};
use sp_type_hook_order::HookKey;
use sp_type_modules::Tables;
use std::alloc::Global;

/// What the hooks of each field hang on, by its unit and its place.
#[derive(Drop)]
pub struct FieldKeys {
    pub(crate) keys: IndexMap<(u32, u32), HookKey>,
}

fn member_key(unit: u32, place: u32, number: Option<u32>) -> Option<(u32, HookKey)>
    ensures { result ≡ member_key unit place number }
{
    match number {
        Some(member) => Some((place, HookKey::Member(unit, member))),
        None => None,
    }
}

/// The place of a field, and what its hooks hang on.
fn field_key(
    tables: &Tables<'_>,
    unit: u32,
    field: &Ref<'_, FieldKind>,
) -> Result<Option<(u32, HookKey)>, NoMemory>
    ensures { IfOk result (λ k. k ≡ field_key tables.now.0 unit field.now) }
{
    match field.view().name {
        Some(name) => {
            let number = field_number(tables, unit, name.text())?;
            Ok(member_key(unit, name.span().from, number))
        }
        None => {
            let place = field.span().from;
            Ok(Some((place, HookKey::Anonymous(unit, place))))
        }
    }
}

/// The place of the field that stands at a site, and what its hooks hang on, if one does.
pub fn site_key(tables: &Tables<'_>, site: &Site<'_>) -> Result<Option<(u32, HookKey)>, NoMemory>
    ensures { IfOk result (λ k. k ≡ holder_key tables.now.0 site.now.unit site.now.holder) }
{
    match &site.holder {
        Holder::Field(field) => field_key(tables, site.unit, field),
        Holder::Item(_) | Holder::Declaration(_) => Ok(None),
    }
}

/// Notes what hangs on a place, unless something does.
fn put(table: &mut FieldKeys, at: (u32, u32), key: HookKey) -> Result<(), NoMemory>
    ensures { OnOk result ((x : ℕ × ℕ) → key_told table.new x
        ≡ earlier (key_told table.old x) (if are_equal at x then Some key else None)) }
{
    if table.keys.contains_key(&at) {
        return Ok(());
    }
    table.keys.insert(at, key)?;
    Ok(())
}

/// Notes what hangs on a field of a unit.
fn note(table: &mut FieldKeys, unit: u32, key: Option<(u32, HookKey)>) -> Result<(), NoMemory>
    ensures { OnOk result ((x : ℕ × ℕ) → key_told table.new x
        ≡ earlier (key_told table.old x) (if_at x unit key)) }
{
    match key {
        Some((place, of)) => put(table, (unit, place), of),
        None => Ok(()),
    }
}

impl FieldKeys {
    /// What the hooks of no field hang on. Takes no memory.
    pub fn none(alloc: Global) -> FieldKeys
        ensures { (x : ℕ × ℕ) → key_told result x ≡ None }
    {
        FieldKeys {
            keys: IndexMap::new(alloc),
        }
    }

    /// What the hooks of all fields hang on.
    pub fn new(
        alloc: Global,
        tables: &Tables<'_>,
        sites: &[Site<'_>],
    ) -> Result<FieldKeys, NoMemory>
        ensures { IfOk result (AreKeys tables.now.0 sites.now) }
    {
        let mut table = FieldKeys {
            keys: IndexMap::new(alloc),
        };
        for i in 0..sites.len() {
            let site = &sites[i];
            let key = or_drop!(site_key(tables, site); table);
            or_drop!(note(&mut table, site.unit, key); table);
        }
        Ok(table)
    }

    /// What the hooks hang on of the field at a place of a unit: its name, or the colon of an anonymous one. With it
    /// `sp_type_hook_order::HookTable` tells the hooks in the order in which they run.
    pub fn key(&self, unit: u32, place: u32) -> Option<HookKey>
        ensures { result ≡ key_told self.now (unit, place) }
    {
        self.keys.get(&(unit, place)).copied()
    }
}
