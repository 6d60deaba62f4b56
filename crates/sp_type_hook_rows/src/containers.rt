// The rule on hooks of no unit or field, and on `foreach` of what is no container.
ghost use Rattle.std.specs.Prelude.{◌≡◌, ◌||◌, ℕ, List, IfOk, OnOk};
ghost use Rattle.std.specs.List.{list_any};
ghost use Rattle.indexmap.specs.IndexSet.{contains};
ghost use Rattle.sp_rules.specs.Least.{checked};
ghost use Rattle.sp_type_hook_rows.specs.Tests.{field_container, site_container, containers, are_equal, is_of_none, hook_fault, hook_tests};
ghost use Rattle.sp_type_hook_rows.specs.inside.Found.{among, AreFound};

use crate::named::field_number;
use crate::rows::HookRow;
use crate::sites::{Holder, Site};
use indexmap::IndexSet;
use sp_ast::{FieldKind, NameKind, Ref};
use sp_base::{NoMemory, or_drop};
use sp_rules::{Fault, Rule, note_if};
use sp_type_modules::Tables;
use sp_typed_units::HookOf;
use std::alloc::Global;

/// The members of units that some field with `[ ]` has.
#[derive(Drop)]
pub(crate) struct MemberSet {
    pub(crate) members: IndexSet<(u32, u32)>,
}

/// The unit and the number of a field that has a name and `[ ]`.
fn field_container(
    tables: &Tables<'_>,
    unit: u32,
    field: &Ref<'_, FieldKind>,
) -> Result<Option<(u32, u32)>, NoMemory>
    ensures { IfOk result (λ o. among o ≡ field_container tables.now.0 unit field.now) }
{
    let view = field.view();
    if view.counts.split_first().is_none() {
        return Ok(None);
    }
    let Some(name) = view.name else {
        return Ok(None);
    };
    match field_number(tables, unit, name.text())? {
        Some(number) => Ok(Some((unit, number))),
        None => Ok(None),
    }
}

fn site_container(tables: &Tables<'_>, site: &Site<'_>) -> Result<Option<(u32, u32)>, NoMemory>
    ensures { IfOk result (λ o. among o
        ≡ site_container tables.now.0 site.now.unit site.now.holder) }
{
    match &site.holder {
        Holder::Field(field) => field_container(tables, site.unit, field),
        Holder::Item(_) | Holder::Declaration(_) => Ok(None),
    }
}

/// Adds a member, if there is one.
fn add_container(found: &mut MemberSet, member: Option<(u32, u32)>) -> Result<(), NoMemory>
    ensures { OnOk result ((x : ℕ × ℕ) → contains are_equal found.new.members x
        ≡ (contains are_equal found.old.members x || list_any (are_equal x) (among member))) }
{
    if let Some(pair) = member {
        found.members.insert(pair)?;
    }
    Ok(())
}

/// The members of units that some field with `[ ]` has.
fn containers(alloc: Global, tables: &Tables<'_>, sites: &[Site<'_>]) -> Result<MemberSet, NoMemory>
    ensures { IfOk result (AreFound (containers tables.now.0 sites.now)) }
{
    let mut found = MemberSet {
        members: IndexSet::new(alloc),
    };
    for i in 0..sites.len() {
        let member = or_drop!(site_container(tables, &sites[i]); found);
        or_drop!(add_container(&mut found, member); found);
    }
    Ok(found)
}

/// Whether a hook is of nothing, or of the elements of a field that has none.
fn is_of_none(found: &MemberSet, of: HookOf) -> bool
    ensures { (all : List (ℕ × ℕ)) → AreFound all found.now → result ≡ is_of_none all of }
{
    match of {
        HookOf::Nothing => true,
        HookOf::Elements(unit, member) => !found.members.contains(&(unit, member)),
        HookOf::Unit(..)
        | HookOf::Field(..)
        | HookOf::Anonymous(_)
        | HookOf::AnonymousElements(_) => false,
    }
}

fn hook_fault(row: &HookRow<'_>) -> Fault
    ensures { result ≡ hook_fault row.now }
{
    Fault {
        rule: Rule::UnknownHook,
        module: row.module,
        span: row.span,
    }
}

/// Notes the tests of hooks.
fn note_rows(found: &MemberSet, rows: &[HookRow<'_>], least: &mut Option<Fault>)
    ensures { (all : List (ℕ × ℕ)) → AreFound all found.now
        → least.new ≡ checked least.old (hook_tests all rows.now) }
{
    for i in 0..rows.len() {
        let row = &rows[i];
        let test = row.bare || is_of_none(found, row.of);
        note_if(test, least, hook_fault(row));
    }
}

/// Notes each hook of no unit or field, and each `foreach` on a field without `[ ]`: whether the parameters of a hook are
/// its own is not asked here.
pub fn note_hooks(
    alloc: Global,
    tables: &Tables<'_>,
    sites: &[Site<'_>],
    rows: &[HookRow<'_>],
    least: &mut Option<Fault>,
) -> Result<(), NoMemory>
    ensures { OnOk result (least.new
        ≡ checked least.old (hook_tests (containers tables.now.0 sites.now) rows.now)) }
{
    let found = containers(alloc, tables, sites)?;
    note_rows(&found, rows, least);
    drop(found);
    Ok(())
}
