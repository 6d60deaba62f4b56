// What is named in units: variables, sinks and fields, with their numbers.
ghost use Rattle.std.specs.Prelude.{◌∷◌, [], IfOk, OnOk};
ghost use Rattle.sp_ast.specs.Trees.{trees};
ghost use Rattle.sp_type_modules.specs.Members.{unit_items};
ghost use Rattle.sp_type_modules.specs.Sources.{declared_in, declared_among, field_named, firsts};
ghost use Rattle.sp_type_members.specs.inside.Tables.{Holds, Joins};

use sp_ast::{
    ArmKind, BodyKind, BodyView, FieldKind, ItemKind, ItemView, Members, PartKind, PartView, Ref,
    UnitKind,
};
use sp_base::NoMemory;
use sp_name_tables::{NameTable, declare, look_up, number};
use sp_type_modules::Source;
use std::alloc::Global;

/// The members of a unit: the number of each name, and what gives each number its type.
#[derive(Drop)]
pub(crate) struct SourceTable<'a> {
    pub(crate) names: NameTable,
    pub(crate) sources: Vec<Source<'a>>,
}

/// Adds a member, unless an earlier one has its name.
fn add_member<'a>(
    alloc: Global,
    table: &mut SourceTable<'a>,
    name: &str,
    source: Source<'a>,
) -> Result<(), NoMemory>
    ensures { OnOk result (Joins table.old table.new
        ((record { name = name.now; source = source.entry }) ∷ [])) }
{
    if look_up(&table.names, name).is_some() {
        return Ok(());
    }
    let next = number(table.sources.len())?;
    declare(alloc, &mut table.names, name, next)?;
    table.sources.push(source)?;
    Ok(())
}

fn add_field<'a>(
    alloc: Global,
    table: &mut SourceTable<'a>,
    field: &Ref<'a, FieldKind>,
) -> Result<(), NoMemory>
    ensures { OnOk result (Joins table.old table.new (field_named field.now)) }
{
    match field.view().name {
        Some(name) => add_member(alloc, table, name.text(), Source::Field(field.again())),
        None => Ok(()),
    }
}

/// Adds what a part of a unit names.
#[cycle(named)]
fn add_part<'a>(
    alloc: Global,
    table: &mut SourceTable<'a>,
    part: &Ref<'a, PartKind>,
) -> Result<(), NoMemory>
    ensures { OnOk result (Joins table.old table.new (declared_in part.now)) }
{
    match part.view() {
        PartView::Field(field) => add_field(alloc, table, &field),
        PartView::Switch { arms, .. } => add_arms(alloc, table, arms),
    }
}

#[cycle(named)]
fn add_arms<'a>(
    alloc: Global,
    table: &mut SourceTable<'a>,
    arms: Members<'a, ArmKind>,
) -> Result<(), NoMemory>
    ensures { OnOk result (Joins table.old table.new (declared_among (trees arms.entry))) }
{
    for arm in arms {
        add_arm(alloc, table, &arm)?;
    }
    Ok(())
}

#[cycle(named)]
fn add_arm<'a>(
    alloc: Global,
    table: &mut SourceTable<'a>,
    arm: &Ref<'a, ArmKind>,
) -> Result<(), NoMemory>
    ensures { OnOk result (Joins table.old table.new (declared_in arm.now)) }
{
    add_body(alloc, table, &arm.view().body)
}

#[cycle(named)]
fn add_body<'a>(
    alloc: Global,
    table: &mut SourceTable<'a>,
    body: &Ref<'a, BodyKind>,
) -> Result<(), NoMemory>
    ensures { OnOk result (Joins table.old table.new (declared_in body.now)) }
{
    match body.view() {
        BodyView::Nothing => Ok(()),
        BodyView::One(part) => add_part(alloc, table, &part),
        BodyView::Many(parts) => add_parts(alloc, table, parts),
    }
}

#[cycle(named)]
fn add_parts<'a>(
    alloc: Global,
    table: &mut SourceTable<'a>,
    parts: Members<'a, PartKind>,
) -> Result<(), NoMemory>
    ensures { OnOk result (Joins table.old table.new (declared_among (trees parts.entry))) }
{
    for part in parts {
        add_part(alloc, table, &part)?;
    }
    Ok(())
}

/// Adds what an item of a unit names.
fn add_item<'a>(
    alloc: Global,
    table: &mut SourceTable<'a>,
    item: &Ref<'a, ItemKind>,
) -> Result<(), NoMemory>
    ensures { OnOk result (Joins table.old table.new (declared_in item.now)) }
{
    match item.view() {
        ItemView::Variable { name, type_, .. } => {
            add_member(alloc, table, name.text(), Source::Variable(type_))
        }
        ItemView::Sink(name) => add_member(alloc, table, name.text(), Source::Sink),
        ItemView::Part(part) => add_part(alloc, table, &part),
        _ => Ok(()),
    }
}

fn add_items<'a>(
    alloc: Global,
    table: &mut SourceTable<'a>,
    items: Members<'a, ItemKind>,
) -> Result<(), NoMemory>
    ensures { OnOk result (Joins table.old table.new (declared_among (trees items.entry))) }
{
    for item in items {
        add_item(alloc, table, &item)?;
    }
    Ok(())
}

pub(crate) fn no_members<'a>(alloc: Global) -> SourceTable<'a>
    ensures { Holds result [] }
{
    SourceTable {
        names: NameTable::new(alloc),
        sources: Vec::new(alloc),
    }
}

/// The members of a unit.
pub(crate) fn source_table<'a>(
    alloc: Global,
    unit: &Ref<'a, UnitKind>,
) -> Result<SourceTable<'a>, NoMemory>
    ensures { IfOk result (λ t. Holds t (firsts (declared_among (unit_items unit.now)))) }
{
    let mut table = no_members(alloc);
    add_items(alloc, &mut table, unit.view().items)?;
    Ok(table)
}
