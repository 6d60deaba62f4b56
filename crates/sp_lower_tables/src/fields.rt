// The fields that have bodies of hooks.
ghost use Rattle.std.specs.Prelude.{◌≡◌, ◌<◌, length, replicate, None, IfOk, option_copied};
ghost use Rattle.sp_typed_units.specs.Parts.{field, parts, arms};
ghost use Rattle.sp_code_programs.specs.programs.Currents.{field_in, field_in_parts, field_in_arms, hooked_field};
ghost use Rattle.sp_lower_tables.specs.inside.Fields.{Notes, field_if, field_among, AreFields};

use sp_base::NoMemory;
use sp_typed_units::{Arm, Field, Part, PartNode, Typed, Unit};
use std::alloc::Global;

/// No field yet, for so many bodies.
fn no_fields<'a>(alloc: Global, bodies: usize) -> Result<Vec<Option<&'a Field>>, NoMemory>
    ensures { IfOk result (λ rows. rows.items ≡ replicate bodies None) }
{
    let mut rows = Vec::with_capacity(alloc, bodies)?;
    for _ in 0..bodies {
        rows.push(None)?;
    }
    Ok(rows)
}

/// A field has a body, unless an earlier one has it.
fn note<'a>(rows: &mut Vec<Option<&'a Field>>, body: u32, head: &'a Field)
    ensures { Notes rows.old.items rows.new.items (field_if head.now body) }
{
    let at = body as usize;
    if at < rows.len() && rows[at].is_none() {
        rows[at] = Some(head);
    }
}

/// A field has bodies, unless earlier ones have them.
fn note_bodies<'a>(rows: &mut Vec<Option<&'a Field>>, bodies: &[u32], head: &'a Field)
    ensures { Notes rows.old.items rows.new.items (field_among head.now bodies.now) }
{
    for body in bodies {
        note(rows, *body, head);
    }
}

fn note_field<'a>(rows: &mut Vec<Option<&'a Field>>, head: &'a Field)
    ensures { Notes rows.old.items rows.new.items (λ h. field_in h (field head.now)) }
{
    note_bodies(rows, head.hooks.as_slice(), head);
}

#[cycle(fields)]
fn note_parts<'a>(rows: &mut Vec<Option<&'a Field>>, all: &'a [Part])
    ensures { Notes rows.old.items rows.new.items (λ h. field_in_parts h (parts all.now)) }
{
    for part in all {
        note_part(rows, part);
    }
}

#[cycle(fields)]
fn note_arms<'a>(rows: &mut Vec<Option<&'a Field>>, all: &'a [(Arm, Vec<Part>)])
    ensures { Notes rows.old.items rows.new.items (λ h. field_in_arms h (arms all.now)) }
{
    for arm in all {
        note_parts(rows, &arm.1);
    }
}

#[cycle(fields)]
fn note_part<'a>(rows: &mut Vec<Option<&'a Field>>, part: &'a Part)
    ensures { Notes rows.old.items rows.new.items (λ h. field_in h part.now) }
{
    match part.level() {
        PartNode::Field(head) => note_field(rows, head),
        PartNode::Switch(_, _, all) => note_arms(rows, all),
    }
}

fn note_units<'a>(rows: &mut Vec<Option<&'a Field>>, units: &'a [Unit])
    ensures { Notes rows.old.items rows.new.items (λ h. hooked_field h units.now) }
{
    for unit in units {
        note_parts(rows, unit.parts.as_slice());
    }
}

/// For each body of a hook of a list, the field that has it, where a field has it. It is made in time that grows with the list and the
/// hooks of all its fields, which count for each field that shares them, and no look-up hangs on how many there are.
#[derive(Drop)]
pub struct HookedFields<'a> {
    pub list: &'a Typed,
    rows: Vec<Option<&'a Field>>,
    ghost of_list: { AreFields list.now rows.items },
}

impl<'a> HookedFields<'a> {
    /// The fields of a list.
    pub fn new(alloc: Global, list: &'a Typed) -> Result<HookedFields<'a>, NoMemory>
        ensures { IfOk result (λ t. t.list.now ≡ list.now) }
    {
        let mut rows = no_fields(alloc, list.hooks.as_slice().len())?;
        note_units(&mut rows, list.units.as_slice());
        Ok(HookedFields { list, rows })
    }

    /// The field that has a body of a hook, by the number of the body: the first of the list.
    pub fn at(&self, body: usize) -> Option<&Field>
        requires { body < length self.now.list.now.hooks }
        ensures { option_copied result ≡ hooked_field body self.now.list.now.units }
    {
        self.rows[body]
    }
}
