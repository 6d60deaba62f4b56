// A walk through a unit, which finds the names that come twice.
ghost use Rattle.std.specs.Prelude.{◌≡◌, ◌+◌, ℕ, true, false, [], IfOk, OnOk};
ghost use Rattle.sp_ast.specs.Trees.{trees};
ghost use Rattle.sp_type_modules.specs.Members.{unit_items};
ghost use Rattle.sp_type_modules.specs.Heads.{unit_parameters};
ghost use Rattle.sp_type_modules.specs.Taken.{taken_among, parameter_numbers, with_number};
ghost use Rattle.sp_type_member_names.specs.inside.Seen.{told_count, how_many};
ghost use Rattle.sp_type_member_names.specs.inside.Passing.{IsSeen, PassedField, PassedIn, PassedAmong, PassedArms, Restored};

use crate::naming::Naming;
use crate::near::{NearTable, hide, raise, show};
use crate::seen::{Seen, nothing_seen, pass_kept, pass_name};
use sp_ast::{
    ArmKind, BodyKind, BodyView, FieldKind, ItemKind, ItemView, Members, ParameterKind, PartKind,
    PartView, Ref, UnitKind,
};
use sp_base::{NoMemory, Span};
use std::alloc::Global;
use std::mem;

/// A field.
#[tactic(auto, using(crate::proofs::Passing::passed_nothing))]
fn pass_field<N: Naming>(
    alloc: Global,
    naming: &N,
    seen: &mut Seen,
    field: &Ref<'_, FieldKind>,
) -> Result<(), NoMemory>
    ensures { OnOk result (PassedField (N.numbers naming.now) (N.types naming.now) field.now
        seen.old seen.new) }
{
    match field.view().name {
        Some(name) => {
            let number = naming.number(name.text())?;
            let ty = naming.stored(alloc, field)?;
            pass_kept(seen, number, ty, name.span())
        }
        None => Ok(()),
    }
}

/// The members of an arm or a switch stand behind those before it.
fn restore(seen: &mut Seen, before: Vec<u32>) -> Result<(), NoMemory>
    ensures { OnOk result (Restored before.items seen.old seen.new) }
{
    let mut trail = before;
    trail.append(&mut seen.trail)?;
    seen.trail = trail;
    Ok(())
}

/// A part of a unit.
#[cycle(passed)]
fn pass_part<N: Naming>(
    alloc: Global,
    naming: &N,
    seen: &mut Seen,
    part: &Ref<'_, PartKind>,
) -> Result<(), NoMemory>
    ensures { OnOk result (PassedIn (N.numbers naming.now) (N.types naming.now) true part.now
        seen.old seen.new) }
{
    match part.view() {
        PartView::Field(field) => pass_field(alloc, naming, seen, &field),
        PartView::Switch { arms, .. } => pass_switch(alloc, naming, seen, arms),
    }
}

/// The arms of a switch. Behind it all that they name is near.
#[cycle(passed)]
fn pass_switch<N: Naming>(
    alloc: Global,
    naming: &N,
    seen: &mut Seen,
    arms: Members<'_, ArmKind>,
) -> Result<(), NoMemory>
    ensures { OnOk result (PassedArms (N.numbers naming.now) (N.types naming.now) true
        (trees arms.entry) seen.old seen.new) }
{
    let before = mem::replace(&mut seen.trail, Vec::new(alloc));
    pass_arms(alloc, naming, seen, arms)?;
    show(&mut seen.near, &seen.trail)?;
    restore(seen, before)?;
    Ok(())
}

#[cycle(passed)]
fn pass_arms<N: Naming>(
    alloc: Global,
    naming: &N,
    seen: &mut Seen,
    arms: Members<'_, ArmKind>,
) -> Result<(), NoMemory>
    ensures { OnOk result (PassedArms (N.numbers naming.now) (N.types naming.now) false
        (trees arms.entry) seen.old seen.new) }
{
    for arm in arms {
        pass_arm(alloc, naming, seen, &arm)?;
    }
    Ok(())
}

/// An arm. Behind it nothing that it names is near.
#[cycle(passed)]
fn pass_arm<N: Naming>(
    alloc: Global,
    naming: &N,
    seen: &mut Seen,
    arm: &Ref<'_, ArmKind>,
) -> Result<(), NoMemory>
    ensures { OnOk result (PassedIn (N.numbers naming.now) (N.types naming.now) false arm.now
        seen.old seen.new) }
{
    let before = mem::replace(&mut seen.trail, Vec::new(alloc));
    pass_body(alloc, naming, seen, &arm.view().body)?;
    hide(&mut seen.near, &seen.trail)?;
    restore(seen, before)?;
    Ok(())
}

#[cycle(passed)]
#[tactic(auto, using(crate::proofs::Passing::passed_nothing, crate::proofs::Passing::one_part))]
fn pass_body<N: Naming>(
    alloc: Global,
    naming: &N,
    seen: &mut Seen,
    body: &Ref<'_, BodyKind>,
) -> Result<(), NoMemory>
    ensures { OnOk result (PassedIn (N.numbers naming.now) (N.types naming.now) true body.now
        seen.old seen.new) }
{
    match body.view() {
        BodyView::Nothing => Ok(()),
        BodyView::One(part) => pass_part(alloc, naming, seen, &part),
        BodyView::Many(parts) => pass_parts(alloc, naming, seen, parts),
    }
}

#[cycle(passed)]
fn pass_parts<N: Naming>(
    alloc: Global,
    naming: &N,
    seen: &mut Seen,
    parts: Members<'_, PartKind>,
) -> Result<(), NoMemory>
    ensures { OnOk result (PassedAmong (N.numbers naming.now) (N.types naming.now)
        (trees parts.entry) seen.old seen.new) }
{
    for part in parts {
        pass_part(alloc, naming, seen, &part)?;
    }
    Ok(())
}

/// An item of a unit.
#[tactic(auto, using(crate::proofs::Passing::passed_nothing))]
fn pass_item<N: Naming>(
    alloc: Global,
    naming: &N,
    seen: &mut Seen,
    item: &Ref<'_, ItemKind>,
) -> Result<(), NoMemory>
    ensures { OnOk result (PassedIn (N.numbers naming.now) (N.types naming.now) true item.now
        seen.old seen.new) }
{
    match item.view() {
        ItemView::Variable { name, .. } => {
            let number = naming.number(name.text())?;
            pass_name(seen, number, name.span())
        }
        ItemView::Sink(name) => {
            let number = naming.number(name.text())?;
            pass_name(seen, number, name.span())
        }
        ItemView::Part(part) => pass_part(alloc, naming, seen, &part),
        _ => Ok(()),
    }
}

fn pass_items<N: Naming>(
    alloc: Global,
    naming: &N,
    seen: &mut Seen,
    items: Members<'_, ItemKind>,
) -> Result<(), NoMemory>
    ensures { OnOk result (PassedAmong (N.numbers naming.now) (N.types naming.now)
        (trees items.entry) seen.old seen.new) }
{
    for item in items {
        pass_item(alloc, naming, seen, &item)?;
    }
    Ok(())
}

fn mark(near: &mut NearTable, number: Option<u32>) -> Result<(), NoMemory>
    ensures { OnOk result ((k : ℕ) → told_count near.new k
        ≡ told_count near.old k + how_many k (with_number number [])) }
{
    match number {
        Some(number) => raise(near, number),
        None => Ok(()),
    }
}

/// The parameters of a unit are named before its members.
fn mark_parameters<N: Naming>(
    naming: &N,
    near: &mut NearTable,
    parameters: Members<'_, ParameterKind>,
) -> Result<(), NoMemory>
    ensures { OnOk result ((k : ℕ) → told_count near.new k ≡ told_count near.old k
        + how_many k (parameter_numbers (N.numbers naming.now) parameters.entry)) }
{
    for parameter in parameters {
        let number = naming.number(parameter.view().name.text())?;
        mark(near, number)?;
    }
    Ok(())
}

/// The places of the names of a unit that come twice, in the order of the text: a member whose name a parameter or an earlier
/// member has, other than a field in another arm of a switch that holds both, and such a field that stores another type.
pub fn taken_places<N: Naming>(
    alloc: Global,
    naming: &N,
    unit: &Ref<'_, UnitKind>,
) -> Result<Vec<Span>, NoMemory>
    ensures { IfOk result (λ v. v.items ≡ taken_among (N.numbers naming.now) (N.types naming.now)
        (parameter_numbers (N.numbers naming.now) (unit_parameters unit.now)) []
        (unit_items unit.now)) }
{
    let view = unit.view();
    let mut seen = nothing_seen(alloc);
    mark_parameters(naming, &mut seen.near, view.parameters)?;
    pass_items(alloc, naming, &mut seen, view.items)?;
    Ok(seen.places)
}
