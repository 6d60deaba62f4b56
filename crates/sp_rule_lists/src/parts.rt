// The rules of bodies over fields and switches.
ghost use Rattle.std.specs.Prelude.{◌≡◌, ◌&&◌, ◌||◌, not, OnOk};
ghost use Rattle.sp_rules.specs.Least.{checked};
ghost use Rattle.sp_typed_units.specs.Parts.{parts, arms};
ghost use Rattle.sp_rule_lists.specs.Lists.{all_tests, option_tests};
ghost use Rattle.sp_rule_lists.specs.Bodies.{inside_tests};
ghost use Rattle.sp_rule_bodies.specs.Values.{value_tests, arrow_tests};
ghost use Rattle.sp_rule_lists.specs.Fields.{truth_tests, is_bytes_op, reads_bytes, is_bytes_field, sink_tests, field_tests, compared_tests, subject_tests, arm_tests, part_tests, parts_tests, arms_tests};

use crate::attributes::{note_asked, note_attributes, note_truth};
use crate::inside::note_inside;
use crate::readings::note_spec;
use sp_base::NoMemory;
use sp_rule_bodies::{Facts, note_arrow, note_case, note_value};
use sp_rules::{Fault, Rule, note_at};
use sp_type_fields::kind_of;
use sp_type_operands::{OperatorSort, is_bytes};
use sp_typed::Expr;
use sp_typed_units::{Arm, Field, Part, PartNode, Rare, ReadOp, Spec, SpecNode};
use std::alloc::Global;

fn is_bytes_op(op: &ReadOp) -> bool
    ensures { result ≡ is_bytes_op op.now }
{
    matches!(op, ReadOp::Bytes | ReadOp::Broken(_))
}

#[cycle(bytes)]
fn reads_bytes(spec: &Spec) -> bool
    ensures { result ≡ reads_bytes spec.now }
{
    match spec.level() {
        SpecNode::Read(head) => is_bytes_op(&head.op),
        SpecNode::Group(_, inner, _) => reads_bytes(inner),
        SpecNode::Unit(..) | SpecNode::List(..) => false,
    }
}

fn is_bytes_field(field: &Field) -> bool
    ensures { result ≡ is_bytes_field field.now }
{
    reads_bytes(&field.spec) && (!field.ty.is_known() || is_bytes(&field.ty))
}

fn note_field_condition<F: Facts>(
    alloc: Global,
    facts: &F,
    owner: u32,
    condition: &Rare<Expr>,
    least: &mut Option<Fault>,
) -> Result<(), NoMemory>
    ensures { OnOk result (least.new ≡ checked least.old
        (option_tests (truth_tests (F.known facts.now) owner) condition.now)) }
{
    match condition.get() {
        Some(e) => note_truth(alloc, facts, owner, e, least),
        None => Ok(()),
    }
}

#[tactic(auto, using(crate::proofs::Checked::checked_more))]
fn note_sink<F: Facts>(
    alloc: Global,
    facts: &F,
    owner: u32,
    takes: bool,
    sink: &Rare<Expr>,
    least: &mut Option<Fault>,
) -> Result<(), NoMemory>
    ensures { OnOk result (least.new ≡ checked least.old
        (option_tests (sink_tests (F.known facts.now) owner takes) sink.now)) }
{
    match sink.get() {
        Some(e) => {
            note_at(!takes, owner, Rule::TypeMismatch, e.span(), least);
            note_arrow(owner, e, least);
            note_inside(alloc, facts, owner, e, least)
        }
        None => Ok(()),
    }
}

#[tactic(auto, using(crate::proofs::Checked::checked_more))]
fn note_field<F: Facts>(
    alloc: Global,
    facts: &F,
    owner: u32,
    field: &Field,
    least: &mut Option<Fault>,
) -> Result<(), NoMemory>
    ensures { OnOk result (least.new
        ≡ checked least.old (field_tests (F.known facts.now) owner field.now)) }
{
    let kind = kind_of(&field.spec);
    note_spec(alloc, facts, owner, &field.spec, least)?;
    note_attributes(
        alloc,
        facts,
        owner,
        kind,
        &field.ty,
        field.attributes.as_slice(),
        least,
    )?;
    note_field_condition(alloc, facts, owner, &field.condition, least)?;
    let takes = is_bytes_field(field);
    note_sink(alloc, facts, owner, takes, &field.sink, least)
}

#[tactic(auto, using(crate::proofs::Checked::checked_more))]
fn note_all_values(owner: u32, values: &[Expr], least: &mut Option<Fault>)
    ensures { least.new ≡ checked least.old (all_tests (value_tests owner) values.now) }
{
    for e in values {
        note_value(owner, e, least);
    }
}

fn note_compared(
    owner: u32,
    subject: &Option<Expr>,
    values: &[Expr],
    least: &mut Option<Fault>,
) -> Result<(), NoMemory>
    ensures { OnOk result (least.new
        ≡ checked least.old (compared_tests owner subject.now values.now)) }
{
    match subject {
        Some(subject) => note_case(owner, subject, values, least),
        None => {
            note_all_values(owner, values, least);
            Ok(())
        }
    }
}

#[tactic(auto, using(crate::proofs::Checked::checked_more))]
fn note_inside_all<F: Facts>(
    alloc: Global,
    facts: &F,
    owner: u32,
    values: &[Expr],
    least: &mut Option<Fault>,
) -> Result<(), NoMemory>
    ensures { OnOk result (least.new ≡ checked least.old
        (all_tests (inside_tests (F.known facts.now) owner) values.now)) }
{
    for e in values {
        note_inside(alloc, facts, owner, e, least)?;
    }
    Ok(())
}

#[tactic(auto, using(crate::proofs::Checked::checked_more))]
fn note_arm<F: Facts>(
    alloc: Global,
    facts: &F,
    owner: u32,
    subject: &Option<Expr>,
    arm: &Arm,
    least: &mut Option<Fault>,
) -> Result<(), NoMemory>
    ensures { OnOk result (least.new
        ≡ checked least.old (arm_tests (F.known facts.now) owner subject.now arm.now)) }
{
    note_compared(owner, subject, arm.values.as_slice(), least)?;
    note_inside_all(alloc, facts, owner, arm.values.as_slice(), least)
}

fn note_subject<F: Facts>(
    alloc: Global,
    facts: &F,
    owner: u32,
    subject: &Option<Expr>,
    least: &mut Option<Fault>,
) -> Result<(), NoMemory>
    ensures { OnOk result (least.new ≡ checked least.old
        (option_tests (subject_tests (F.known facts.now) owner) subject.now)) }
{
    match subject {
        Some(e) => {
            let right = OperatorSort::Alike.stands_before(e.ty());
            note_asked(alloc, facts, owner, right, e, least)
        }
        None => Ok(()),
    }
}

/// Notes what is wrong with parts of a unit.
#[cycle(parts)]
#[tactic(auto, using(crate::proofs::Checked::checked_more))]
pub(crate) fn note_parts<F: Facts>(
    alloc: Global,
    facts: &F,
    owner: u32,
    all: &[Part],
    least: &mut Option<Fault>,
) -> Result<(), NoMemory>
    ensures { OnOk result (least.new
        ≡ checked least.old (parts_tests (F.known facts.now) owner (parts all.now))) }
{
    for part in all {
        note_part(alloc, facts, owner, part, least)?;
    }
    Ok(())
}

#[cycle(parts)]
#[tactic(auto, using(crate::proofs::Checked::checked_more))]
fn note_arms<F: Facts>(
    alloc: Global,
    facts: &F,
    owner: u32,
    subject: &Option<Expr>,
    rows: &[(Arm, Vec<Part>)],
    least: &mut Option<Fault>,
) -> Result<(), NoMemory>
    ensures { OnOk result (least.new ≡ checked least.old
        (arms_tests (F.known facts.now) owner subject.now (arms rows.now))) }
{
    for row in rows {
        note_arm(alloc, facts, owner, subject, &row.0, least)?;
        note_parts(alloc, facts, owner, &row.1, least)?;
    }
    Ok(())
}

#[cycle(parts)]
#[tactic(auto, using(crate::proofs::Checked::checked_more))]
fn note_part<F: Facts>(
    alloc: Global,
    facts: &F,
    owner: u32,
    part: &Part,
    least: &mut Option<Fault>,
) -> Result<(), NoMemory>
    ensures { OnOk result (least.new
        ≡ checked least.old (part_tests (F.known facts.now) owner part.now)) }
{
    match part.level() {
        PartNode::Field(field) => note_field(alloc, facts, owner, field, least),
        PartNode::Switch(_, subject, rows) => {
            note_subject(alloc, facts, owner, subject, least)?;
            note_arms(alloc, facts, owner, subject, rows, least)
        }
    }
}
