// The members of units, by their names.
ghost use Rattle.std.specs.Prelude.{◌∷◌, [], IfOk, OnOk};
ghost use Rattle.sp_ast.specs.Trees.{trees};
ghost use Rattle.sp_type_modules.specs.Members.{named_in, named_among, field_member, members_of};
ghost use Rattle.sp_type_modules.specs.inside.Kept.{IsKept, Joins};

use sp_ast::{
    ArmKind, BodyKind, BodyView, FieldKind, ItemKind, ItemView, Members, PartKind, PartView, Ref,
    UnitKind,
};
use sp_base::NoMemory;
use sp_name_tables::{NameTable, declare, look_up, number};
use sp_typed_units::MemberKind;
use std::alloc::Global;

/// The members of a unit: the number of each name, and the kind of each number.
#[derive(Drop)]
pub(crate) struct MemberTable {
    pub(crate) names: NameTable,
    pub(crate) kinds: Vec<MemberKind>,
}

/// Adds a member, unless an earlier one has its name.
fn add_member(
    alloc: Global,
    table: &mut MemberTable,
    name: &str,
    kind: MemberKind,
) -> Result<(), NoMemory>
    ensures { OnOk result (Joins table.old table.new
        ((record { name = name.now; kind = kind }) ∷ [])) }
{
    if look_up(&table.names, name).is_some() {
        return Ok(());
    }
    let next = number(table.kinds.len())?;
    declare(alloc, &mut table.names, name, next)?;
    table.kinds.push(kind)?;
    Ok(())
}

fn add_field(
    alloc: Global,
    table: &mut MemberTable,
    field: &Ref<'_, FieldKind>,
) -> Result<(), NoMemory>
    ensures { OnOk result (Joins table.old table.new (field_member field.now)) }
{
    match field.view().name {
        Some(name) => add_member(alloc, table, name.text(), MemberKind::Field),
        None => Ok(()),
    }
}

/// Adds what a part of a unit names.
#[cycle(named)]
fn add_part(
    alloc: Global,
    table: &mut MemberTable,
    part: &Ref<'_, PartKind>,
) -> Result<(), NoMemory>
    ensures { OnOk result (Joins table.old table.new (named_in part.now)) }
{
    match part.view() {
        PartView::Field(field) => add_field(alloc, table, &field),
        PartView::Switch { arms, .. } => add_arms(alloc, table, arms),
    }
}

#[cycle(named)]
fn add_arms(
    alloc: Global,
    table: &mut MemberTable,
    arms: Members<'_, ArmKind>,
) -> Result<(), NoMemory>
    ensures { OnOk result (Joins table.old table.new (named_among (trees arms.entry))) }
{
    for arm in arms {
        add_arm(alloc, table, &arm)?;
    }
    Ok(())
}

#[cycle(named)]
fn add_arm(alloc: Global, table: &mut MemberTable, arm: &Ref<'_, ArmKind>) -> Result<(), NoMemory>
    ensures { OnOk result (Joins table.old table.new (named_in arm.now)) }
{
    add_body(alloc, table, &arm.view().body)
}

#[cycle(named)]
fn add_body(
    alloc: Global,
    table: &mut MemberTable,
    body: &Ref<'_, BodyKind>,
) -> Result<(), NoMemory>
    ensures { OnOk result (Joins table.old table.new (named_in body.now)) }
{
    match body.view() {
        BodyView::Nothing => Ok(()),
        BodyView::One(part) => add_part(alloc, table, &part),
        BodyView::Many(parts) => add_parts(alloc, table, parts),
    }
}

#[cycle(named)]
fn add_parts(
    alloc: Global,
    table: &mut MemberTable,
    parts: Members<'_, PartKind>,
) -> Result<(), NoMemory>
    ensures { OnOk result (Joins table.old table.new (named_among (trees parts.entry))) }
{
    for part in parts {
        add_part(alloc, table, &part)?;
    }
    Ok(())
}

/// Adds what an item of a unit names.
fn add_item(
    alloc: Global,
    table: &mut MemberTable,
    item: &Ref<'_, ItemKind>,
) -> Result<(), NoMemory>
    ensures { OnOk result (Joins table.old table.new (named_in item.now)) }
{
    match item.view() {
        ItemView::Variable { name, .. } => {
            add_member(alloc, table, name.text(), MemberKind::Variable)
        }
        ItemView::Sink(name) => add_member(alloc, table, name.text(), MemberKind::Sink),
        ItemView::Part(part) => add_part(alloc, table, &part),
        _ => Ok(()),
    }
}

fn add_items(
    alloc: Global,
    table: &mut MemberTable,
    items: Members<'_, ItemKind>,
) -> Result<(), NoMemory>
    ensures { OnOk result (Joins table.old table.new (named_among (trees items.entry))) }
{
    for item in items {
        add_item(alloc, table, &item)?;
    }
    Ok(())
}

pub(crate) fn no_members(alloc: Global) -> MemberTable
    ensures { IsKept result [] }
{
    MemberTable {
        names: NameTable::new(alloc),
        kinds: Vec::new(alloc),
    }
}

/// The members of a unit.
pub(crate) fn member_table(alloc: Global, unit: &Ref<'_, UnitKind>) -> Result<MemberTable, NoMemory>
    ensures { IfOk result (λ t. IsKept t (members_of unit.now)) }
{
    let mut table = no_members(alloc);
    add_items(alloc, &mut table, unit.view().items)?;
    Ok(table)
}
