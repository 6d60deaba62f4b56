// The fields of units, by what they read.
ghost use Rattle.std.specs.Prelude.{◌≡◌};
ghost use Rattle.sp_typed_units.specs.Parts.{parts, arms};
ghost use Rattle.sp_unbuilt.specs.First.{noted};
ghost use Rattle.sp_unbuilt.specs.Fields.{is_integer, reads_integer, kinds_of_part, kinds_among, kinds_in_arms, kinds_in_units};

use crate::first::note_at;
use sp_base::Diag;
use sp_typed_units::{Arm, Part, PartNode, ReadOp, Spec, SpecNode, Unit};

fn is_integer(op: &ReadOp) -> bool
    ensures { result ≡ is_integer op.now }
{
    match op {
        ReadOp::Int => true,
        ReadOp::Bits(_) | ReadOp::Bytes | ReadOp::Token(..) | ReadOp::Void | ReadOp::Broken(_) =>
            false,
    }
}

/// Whether it is an integer that is read, in parentheses or not.
fn reads_integer(spec: &Spec) -> bool
    ensures { result ≡ reads_integer spec.now }
{
    match spec.level() {
        SpecNode::Read(reading) => is_integer(&reading.op),
        SpecNode::Unit(..) | SpecNode::List(..) => false,
        SpecNode::Group(_, inner, _) => reads_integer(inner),
    }
}

/// Notes the fields among parts of a unit that don't read an integer.
#[cycle(kinds)]
#[tactic(auto, using(crate::proofs::Noting::noted_more))]
fn note_among(owner: u32, all: &[Part], first: &mut Option<Diag>)
    ensures { first.new ≡ noted first.old (kinds_among owner (parts all.now)) }
{
    for part in all {
        note_part(owner, part, first);
    }
}

#[cycle(kinds)]
#[tactic(auto, using(crate::proofs::Noting::noted_more))]
fn note_arms(owner: u32, rows: &[(Arm, Vec<Part>)], first: &mut Option<Diag>)
    ensures { first.new ≡ noted first.old (kinds_in_arms owner (arms rows.now)) }
{
    for row in rows {
        note_among(owner, &row.1, first);
    }
}

#[cycle(kinds)]
fn note_part(owner: u32, part: &Part, first: &mut Option<Diag>)
    ensures { first.new ≡ noted first.old (kinds_of_part owner part.now) }
{
    match part.level() {
        PartNode::Field(field) => {
            note_at(!reads_integer(&field.spec), owner, field.span, first);
        }
        PartNode::Switch(_, _, rows) => note_arms(owner, rows, first),
    }
}

/// Notes the fields of units that don't read an integer.
#[tactic(auto, using(crate::proofs::Noting::noted_more))]
pub(crate) fn note_units(units: &[Unit], first: &mut Option<Diag>)
    ensures { first.new ≡ noted first.old (kinds_in_units units.now) }
{
    for unit in units {
        note_among(unit.module, unit.parts.as_slice(), first);
    }
}
