// The members of a unit: the first of each name.
ghost use Rattle.std.specs.Prelude.{◌≡◌, [], ℕ, List, Some, None, IfOk, OnOk};
ghost use Rattle.sp_solver.specs.Told.{told};
ghost use Rattle.sp_type_modules.specs.Members.{UnitMember, numbered, members_of, unit_members};
ghost use Rattle.sp_type_modules.specs.Arounds.{stored_by, unit_member};
ghost use Rattle.sp_type_modules.specs.inside.Kept.{all_joined};
ghost use Rattle.sp_type_units.specs.Fields.{number_or};
ghost use Rattle.sp_type_units.specs.UnitRows.{member_rows};
ghost use Rattle.sp_type_units.specs.inside.Shown.{shown, shown_one};
ghost use Rattle.sp_type_units.specs.inside.Told.{AreNumbered};
ghost use Rattle.sp_type_units.specs.inside.Joins.{Joined, found_type, row_by, rows_by};

use crate::named::{Named, add_items};
use sp_ast::{Ref, UnitKind};
use sp_base::{NoMemory, Text, or_drop};
use sp_name_tables::{NameTable, declare, look_up, number};
use sp_type_modules::Tables;
use sp_typed_units::Member;
use sp_types::{Type, Word};
use std::alloc::Global;

/// The members of a unit, and their numbers by their names.
#[derive(Drop)]
pub(crate) struct MemberTable<'a> {
    pub(crate) numbers: NameTable,
    pub(crate) rows: Vec<Named<'a>>,
    ghost numbered: { AreNumbered numbers (shown rows.items) },
}

/// Adds a member, unless an earlier one has its name.
fn join<'a>(
    alloc: Global,
    numbers: &mut NameTable,
    rows: &mut Vec<Named<'a>>,
    named: Named<'a>,
) -> Result<(), NoMemory>
    ensures { OnOk result (Joined numbers.old (shown rows.old.items) (shown_one named.entry)
        numbers.new (shown rows.new.items)) }
{
    if look_up(numbers, named.name).is_some() {
        return Ok(());
    }
    let next = number(rows.len())?;
    declare(alloc, numbers, named.name, next)?;
    rows.push(named)?;
    Ok(())
}

/// The members among what is named: the first of each name.
fn joined<'a>(alloc: Global, all: &[Named<'a>]) -> Result<MemberTable<'a>, NoMemory>
    ensures { IfOk result (λ t. shown t.rows.items ≡ all_joined [] (shown all.now)) }
{
    let mut numbers = NameTable::new(alloc);
    let mut rows = Vec::new(alloc);
    for named in all {
        join(alloc, &mut numbers, &mut rows, *named)?;
    }
    Ok(MemberTable { numbers, rows })
}

/// The members of a unit.
pub(crate) fn member_table<'a>(
    alloc: Global,
    unit: &Ref<'a, UnitKind>,
) -> Result<MemberTable<'a>, NoMemory>
    ensures { IfOk result (λ t. shown t.rows.items ≡ members_of unit.now) }
{
    let mut all = Vec::new(alloc);
    add_items(&mut all, unit.view().items)?;
    let table = joined(alloc, &all)?;
    Ok(table)
}

/// The number of the member of a name; 0 where there is none.
pub(crate) fn member_number(table: &MemberTable<'_>, name: &str) -> u32
    ensures { result ≡ number_or (numbered name.now 0 (shown table.now.rows.items)) }
{
    match look_up(&table.numbers, name) {
        Some(number) => number,
        None => 0,
    }
}

/// The type of what is stored in the member of a name of a unit.
fn member_type(
    tables: &Tables<'_>,
    stored: &[Option<Type>],
    unit: u32,
    name: &str,
) -> Result<Type, NoMemory>
    ensures { IfOk result (λ t. t ≡ found_type (unit_member
        (stored_by tables.now.0 (told stored.now) unit) (unit_members tables.now.0 unit)
        (numbered name.now 0 (unit_members tables.now.0 unit)))) }
{
    match tables.unit_member(stored, unit, name)? {
        Some(member) => Ok(member.ty),
        None => Ok(Type::word(Word::Unknown)),
    }
}

fn member_row(
    alloc: Global,
    tables: &Tables<'_>,
    stored: &[Option<Type>],
    unit: u32,
    named: Named<'_>,
) -> Result<Member, NoMemory>
    ensures { IfOk result (λ m. m ≡ row_by (stored_by tables.now.0 (told stored.now) unit)
        (unit_members tables.now.0 unit) (shown_one named.entry)) }
{
    let ty = member_type(tables, stored, unit, named.name)?;
    let name = or_drop!(Text::new(alloc, named.name); ty);
    Ok(Member {
        name,
        kind: named.kind,
        ty,
    })
}

fn rows_by(
    alloc: Global,
    tables: &Tables<'_>,
    stored: &[Option<Type>],
    unit: u32,
    rows: &[Named<'_>],
) -> Result<Vec<Member>, NoMemory>
    ensures { IfOk result (λ v. v.items ≡ rows_by
        (stored_by tables.now.0 (told stored.now) unit) (unit_members tables.now.0 unit)
        (shown rows.now)) }
{
    let mut all = Vec::with_capacity(alloc, rows.len())?;
    for named in rows {
        let row = or_drop!(member_row(alloc, tables, stored, unit, *named); all);
        or_drop!(all.push(row); all);
    }
    Ok(all)
}

/// The members of a unit, with the types of what is stored in them.
pub(crate) fn member_rows(
    alloc: Global,
    tables: &Tables<'_>,
    stored: &[Option<Type>],
    unit: u32,
    table: &MemberTable<'_>,
) -> Result<Vec<Member>, NoMemory>
    requires { shown table.now.rows.items ≡ unit_members tables.now.0 unit }
    ensures { IfOk result (λ v. v.items ≡ member_rows
        (stored_by tables.now.0 (told stored.now) unit) 0 (unit_members tables.now.0 unit)) }
{
    let all = rows_by(alloc, tables, stored, unit, &table.rows)?;
    Ok(all)
}
