// The rules at the parts of a unit.
ghost use Rattle.std.specs.Prelude.{◌≡◌};
ghost use Rattle.sp_rules.specs.Least.{checked};
ghost use Rattle.sp_typed_units.specs.Parts.{parts, arms};
ghost use Rattle.sp_type_fields.specs.Kinds.{holder_of};
ghost use Rattle.sp_rule_units.specs.Units.{field_tests, part_tests, parts_tests, arms_tests};

use crate::here::Here;
use crate::readings::{note_attributes, note_spec};
use crate::sweep::{note_exprs, note_maybe, note_rare};
use sp_rules::Fault;
use sp_type_fields::Holder;
use sp_typed_units::{Arm, Field, Part, PartNode, Unit};

fn holder_of(member: Option<u32>) -> Holder
    ensures { result ≡ holder_of member }
{
    match member {
        None => Holder::AnonymousField,
        Some(_) => Holder::NamedField,
    }
}

#[tactic(auto, using(crate::proofs::Checked::checked_more))]
fn note_field(units: &[Unit], here: Here, field: &Field, least: &mut Option<Fault>)
    ensures { least.new ≡ checked least.old (field_tests units.now here field.now) }
{
    let own = field.attributes.as_slice();
    let kind = note_spec(units, here, own, &field.spec, least);
    note_attributes(units, here, holder_of(field.member), kind, own, least);
    note_rare(units, here, &field.condition, least);
    note_rare(units, here, &field.sink, least);
}

/// Notes what is wrong with parts of a unit.
#[cycle(part)]
#[tactic(auto, using(crate::proofs::Checked::checked_more))]
pub(crate) fn note_parts(units: &[Unit], here: Here, all: &[Part], least: &mut Option<Fault>)
    ensures { least.new ≡ checked least.old (parts_tests units.now here (parts all.now)) }
{
    for part in all {
        note_part(units, here, part, least);
    }
}

#[cycle(part)]
#[tactic(auto, using(crate::proofs::Checked::checked_more))]
fn note_arms(units: &[Unit], here: Here, rows: &[(Arm, Vec<Part>)], least: &mut Option<Fault>)
    ensures { least.new ≡ checked least.old (arms_tests units.now here (arms rows.now)) }
{
    for row in rows {
        note_exprs(units, here, row.0.values.as_slice(), least);
        note_parts(units, here, &row.1, least);
    }
}

#[cycle(part)]
#[tactic(auto, using(crate::proofs::Checked::checked_more))]
fn note_part(units: &[Unit], here: Here, part: &Part, least: &mut Option<Fault>)
    ensures { least.new ≡ checked least.old (part_tests units.now here part.now) }
{
    match part.level() {
        PartNode::Field(field) => note_field(units, here, field, least),
        PartNode::Switch(_, subject, rows) => {
            note_maybe(units, here, subject, least);
            note_arms(units, here, rows, least);
        }
    }
}
