// The rules at how a field, an element or a group is read.
ghost use Rattle.std.specs.Prelude.{◌≡◌, ◌||◌, [], List};
ghost use Rattle.sp_rules.specs.Least.{checked};
ghost use Rattle.sp_type_fields.specs.Roles.{grouped};
ghost use Rattle.sp_type_fields.specs.Kinds.{read_kind, list_kind, kind_of};
ghost use Rattle.sp_rule_units.specs.Readings.{attributes_tests, is_decoder, read_tests, unit_of_tests, spec_tests};

use crate::attributes::{is_bounded, note_attribute};
use crate::here::Here;
use crate::nodes::{connects_filter, is_filter};
use crate::sweep::{note_exprs, note_maybe, note_rare};
use sp_rules::{Fault, Rule, note_at};
use sp_type_fields::{Holder, Kind, grouped, list_kind, read_kind};
use sp_typed_units::{Attribute, ReadOp, Reading, Spec, SpecNode, Unit, UnitOf};
use sp_types::{Level, Type, Word};

/// Notes what is wrong with attributes, and in their values.
#[tactic(auto, using(crate::proofs::Checked::checked_more))]
pub(crate) fn note_attributes(
    units: &[Unit],
    here: Here,
    holder: Holder,
    kind: Kind,
    all: &[Attribute],
    least: &mut Option<Fault>,
)
    ensures { least.new ≡ checked least.old (attributes_tests units.now here holder kind [] all.now) }
{
    for place in 0..all.len() {
        let attribute = &all[place];
        note_attribute(here.owner, holder, kind, all, place, attribute, least);
        note_maybe(units, here, &attribute.value, least);
    }
}

fn is_decoder(t: &Type) -> bool
    ensures { result ≡ is_decoder t.now }
{
    matches!(t.level(), Level::Word(Word::Decoder))
}

fn note_read(owner: u32, own: &[Attribute], reading: &Reading, least: &mut Option<Fault>)
    ensures { least.new ≡ checked least.old (read_tests owner own.now reading.now.span
        reading.now.ty reading.now.op) }
{
    match &reading.op {
        ReadOp::Bytes => {
            let bounded = is_bounded(own);
            note_at(!bounded, owner, Rule::MissingBound, reading.span, least);
        }
        ReadOp::Broken(_) => {
            let decoder = is_decoder(&reading.ty);
            note_at(decoder, owner, Rule::FilterPlace, reading.span, least);
        }
        _ => {}
    }
}

fn note_unit_of(units: &[Unit], owner: u32, head: UnitOf, least: &mut Option<Fault>)
    ensures { least.new ≡ checked least.old (unit_of_tests units.now owner head) }
{
    let filters = is_filter(units, head.unit) || connects_filter(units, head.unit);
    note_at(filters, owner, Rule::FilterPlace, head.span, least);
}

/// Notes what is wrong with how something is read, and in the expressions inside. It answers what is read, by the attributes
/// that can stand on it.
#[tactic(auto, using(crate::proofs::Checked::checked_more))]
pub(crate) fn note_spec(
    units: &[Unit],
    here: Here,
    own: &[Attribute],
    spec: &Spec,
    least: &mut Option<Fault>,
) -> Kind
    ensures kind { result ≡ kind_of spec.now }
    ensures noted { least.new ≡ checked least.old (spec_tests units.now here own.now spec.now) }
{
    match spec.level() {
        SpecNode::Read(reading) => {
            note_read(here.owner, own, reading, least);
            read_kind(&reading.op)
        }
        SpecNode::Unit(head, arguments) => {
            note_unit_of(units, here.owner, *head, least);
            note_exprs(units, here, arguments, least);
            Kind::Unit
        }
        SpecNode::List(_, element, count) => {
            let _ = note_spec(units, here, &own[..0], element, least);
            note_rare(units, here, count, least);
            list_kind(count)
        }
        SpecNode::Group(_, inner, attributes) => {
            let kind = note_spec(units, here, attributes, inner, least);
            note_attributes(units, here, Holder::Group, kind, attributes, least);
            grouped(kind)
        }
    }
}
