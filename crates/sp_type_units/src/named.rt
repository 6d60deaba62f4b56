// What a unit names, in the order of the text: variables, sinks and fields, also those in the arms of switches.
ghost use Rattle.std.specs.Prelude.{◌≡◌, ◌∷◌, ◌++◌, [], IfOk, OnOk};
ghost use Rattle.sp_ast.specs.Trees.{trees};
ghost use Rattle.sp_type_modules.specs.Members.{named_in, named_among, field_member, unit_items};
ghost use Rattle.sp_type_units.specs.inside.Shown.{shown};

use sp_ast::{
    ArmKind, BodyKind, BodyView, FieldKind, ItemKind, ItemView, Members, PartKind, PartView, Ref,
};
use sp_base::NoMemory;
use sp_typed_units::MemberKind;

/// What is named in a unit.
#[derive(Clone, Copy)]
pub(crate) struct Named<'a> {
    pub(crate) name: &'a str,
    pub(crate) kind: MemberKind,
}

#[tactic(auto, using(crate::proofs::Joining::shown_more))]
fn add<'a>(all: &mut Vec<Named<'a>>, name: &'a str, kind: MemberKind) -> Result<(), NoMemory>
    ensures { OnOk result (shown all.new.items
        ≡ shown all.old.items ++ (record { name = name.now; kind = kind }) ∷ []) }
{
    all.push(Named { name, kind })?;
    Ok(())
}

fn add_field<'a>(all: &mut Vec<Named<'a>>, field: &Ref<'a, FieldKind>) -> Result<(), NoMemory>
    ensures { OnOk result (shown all.new.items ≡ shown all.old.items ++ field_member field.now) }
{
    match field.view().name {
        Some(name) => add(all, name.text(), MemberKind::Field),
        None => Ok(()),
    }
}

/// Adds what a part of a unit names.
#[cycle(named)]
fn add_part<'a>(all: &mut Vec<Named<'a>>, part: &Ref<'a, PartKind>) -> Result<(), NoMemory>
    ensures { OnOk result (shown all.new.items ≡ shown all.old.items ++ named_in part.now) }
{
    match part.view() {
        PartView::Field(field) => add_field(all, &field),
        PartView::Switch { arms, .. } => add_arms(all, arms),
    }
}

#[cycle(named)]
fn add_arms<'a>(all: &mut Vec<Named<'a>>, arms: Members<'a, ArmKind>) -> Result<(), NoMemory>
    ensures { OnOk result (shown all.new.items
        ≡ shown all.old.items ++ named_among (trees arms.entry)) }
{
    for arm in arms {
        add_arm(all, &arm)?;
    }
    Ok(())
}

#[cycle(named)]
fn add_arm<'a>(all: &mut Vec<Named<'a>>, arm: &Ref<'a, ArmKind>) -> Result<(), NoMemory>
    ensures { OnOk result (shown all.new.items ≡ shown all.old.items ++ named_in arm.now) }
{
    add_body(all, &arm.view().body)
}

#[cycle(named)]
fn add_body<'a>(all: &mut Vec<Named<'a>>, body: &Ref<'a, BodyKind>) -> Result<(), NoMemory>
    ensures { OnOk result (shown all.new.items ≡ shown all.old.items ++ named_in body.now) }
{
    match body.view() {
        BodyView::Nothing => Ok(()),
        BodyView::One(part) => add_part(all, &part),
        BodyView::Many(parts) => add_parts(all, parts),
    }
}

#[cycle(named)]
fn add_parts<'a>(all: &mut Vec<Named<'a>>, parts: Members<'a, PartKind>) -> Result<(), NoMemory>
    ensures { OnOk result (shown all.new.items
        ≡ shown all.old.items ++ named_among (trees parts.entry)) }
{
    for part in parts {
        add_part(all, &part)?;
    }
    Ok(())
}

/// Adds what an item of a unit names.
fn add_item<'a>(all: &mut Vec<Named<'a>>, item: &Ref<'a, ItemKind>) -> Result<(), NoMemory>
    ensures { OnOk result (shown all.new.items ≡ shown all.old.items ++ named_in item.now) }
{
    match item.view() {
        ItemView::Variable { name, .. } => add(all, name.text(), MemberKind::Variable),
        ItemView::Sink(name) => add(all, name.text(), MemberKind::Sink),
        ItemView::Part(part) => add_part(all, &part),
        _ => Ok(()),
    }
}

/// Adds what items of a unit name.
pub(crate) fn add_items<'a>(
    all: &mut Vec<Named<'a>>,
    items: Members<'a, ItemKind>,
) -> Result<(), NoMemory>
    ensures { OnOk result (shown all.new.items
        ≡ shown all.old.items ++ named_among (trees items.entry)) }
{
    for item in items {
        add_item(all, &item)?;
    }
    Ok(())
}
