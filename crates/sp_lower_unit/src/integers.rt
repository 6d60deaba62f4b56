// Which fields are integers, and how these stand in the input.
ghost use Rattle.std.specs.Prelude.{◌≡◌};
ghost use Rattle.sp_meaning.specs.Integers as forms;
ghost use Rattle.sp_lower_unit.specs.Forms.{is_order, neither, read_as, form_of, form_with};

use sp_code::IntForm;
use sp_numbers::Width;
use sp_typed::Expr;
use sp_typed_units::{Attribute, Field, Rare, ReadOp, Spec, SpecNode};
use sp_types::{Level, Type, Word};
use sp_words::AttributeName;

/// Whether the first byte counts least in this byte order.
#[tactic(auto, using(crate::proofs::Formed::zero_order))]
fn is_little(order: Option<u64>) -> bool
    ensures { result ≡ forms.is_little order }
{
    match order {
        Some(n) => n == 0,
        None => false,
    }
}

fn form(width: Width, signed: bool, order: Option<u64>) -> IntForm
    ensures { form_of result ≡ form_with width signed (forms.is_little order) }
{
    IntForm {
        width,
        signed,
        little: is_little(order),
    }
}

/// The form of an integer of a type, where it is one.
fn integer_type(order: Option<u64>, ty: &Type) -> Option<IntForm>
    ensures { read_as result ≡ forms.integer_type order ty.now }
{
    match ty.level() {
        Level::Word(Word::Uint(width)) => Some(form(width, false, order)),
        Level::Word(Word::Int(width)) => Some(form(width, true, order)),
        _ => None,
    }
}

/// That of what is read as one.
fn integer_read(order: Option<u64>, op: &ReadOp, ty: &Type) -> Option<IntForm>
    ensures { read_as result ≡ forms.integer_read order op.now ty.now }
{
    match op {
        ReadOp::Int => integer_type(order, ty),
        _ => None,
    }
}

fn is_order(name: AttributeName) -> bool
    ensures { result ≡ is_order name }
{
    matches!(name, AttributeName::ByteOrder)
}

/// The byte order of what has these attributes, where they are byte orders alone. The last one counts.
#[tactic(auto, using(crate::proofs::Formed::order_first, crate::proofs::Formed::other_first))]
fn only_orders(order: Option<u64>, attributes: &[Attribute]) -> Option<Option<u64>>
    ensures { result ≡ forms.only_orders order attributes.now }
{
    let mut last = order;
    for attribute in attributes {
        if !is_order(attribute.name) {
            return None;
        }
        last = attribute.number;
    }
    Some(last)
}

/// The form of a reading, where it is an integer. It may stand in parentheses, and the byte order that stands nearest counts.
#[cycle(integer)]
fn integer_spec(order: Option<u64>, spec: &Spec) -> Option<IntForm>
    ensures { read_as result ≡ forms.integer_spec order spec.now }
{
    match spec.level() {
        SpecNode::Read(reading) => integer_read(order, &reading.op, &reading.ty),
        SpecNode::Group(_, inner, attributes) => {
            match only_orders(order, attributes) {
                Some(order) => integer_spec(order, inner),
                None => None,
            }
        }
        SpecNode::Unit(..) | SpecNode::List(..) => None,
    }
}

/// The form of a reading with attributes.
fn with_attributes(order: Option<u64>, attributes: &[Attribute], spec: &Spec) -> Option<IntForm>
    ensures { read_as result ≡ forms.where_known (forms.only_orders order attributes.now)
        (λ o. forms.integer_spec o spec.now) }
{
    match only_orders(order, attributes) {
        Some(order) => integer_spec(order, spec),
        None => None,
    }
}

/// Whether neither of two expressions stands.
fn neither(a: &Rare<Expr>, b: &Rare<Expr>) -> bool
    ensures { result ≡ neither a.now b.now }
{
    match (a.get(), b.get()) {
        (None, None) => true,
        _ => false,
    }
}

/// The form of a field, where it is an integer and has no condition, no sink, and no attribute but a byte order.
#[tactic(auto, using(crate::proofs::Formed::without, crate::proofs::Formed::with_either))]
pub fn integer_field(order: Option<u64>, field: &Field) -> Option<IntForm>
    ensures { read_as result ≡ forms.integer_field order field.now }
{
    if neither(&field.condition, &field.sink) {
        with_attributes(order, field.attributes.as_slice(), &field.spec)
    } else {
        None
    }
}
