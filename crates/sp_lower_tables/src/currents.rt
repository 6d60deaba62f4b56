// The kind of `$$` in a body of a hook.
ghost use Rattle.std.specs.Prelude.{◌≡◌, Some, unwrap_or, option_copied, IfOk};
ghost use Rattle.sp_types.specs.Types.{Ty};
ghost use Rattle.sp_meaning_states.specs.Types.{kind_of_type};
ghost use Rattle.sp_meaning.specs.Globals.{globals_of};
ghost use Rattle.sp_code_programs.specs.programs.Currents.{converted_by, read_type, element_type, current_type};
ghost use Rattle.sp_lower_tables.specs.Numbers.{GivesNumber};
ghost use Rattle.sp_lower_tables.specs.inside.Conversions.{is_convert, written_type, conversion};

use crate::kinds::{row_number, type_number};
use sp_base::NoMemory;
use sp_code::KindRow;
use sp_emit::Emitter;
use sp_typed::Expr;
use sp_typed_units::{Attribute, Field, HookOf, Spec, SpecNode, Typed};
use sp_types::Type;
use sp_words::AttributeName;

fn is_convert(name: AttributeName) -> bool
    ensures { result ≡ is_convert name }
{
    matches!(name, AttributeName::Convert)
}

/// The type of an expression that is written, where one is.
fn written_type(value: &Option<Expr>) -> Option<&Type>
    ensures { option_copied result ≡ written_type value.now }
{
    match value {
        Some(e) => Some(e.ty()),
        None => None,
    }
}

/// The type of what a `&convert` makes, where an attribute is one.
fn conversion(attribute: &Attribute) -> Option<&Type>
    ensures { option_copied result ≡ conversion attribute.now.name attribute.now.value }
{
    if is_convert(attribute.name) {
        written_type(&attribute.value)
    } else {
        None
    }
}

/// The type of what the first `&convert` of several attributes makes.
fn converted(attributes: &[Attribute]) -> Option<&Type>
    ensures { (t : Ty) → converted_by attributes.now t ≡ unwrap_or (option_copied result) t }
{
    for attribute in attributes {
        if let Some(ty) = conversion(attribute) {
            return Some(ty);
        }
    }
    None
}

/// The number of the kind of what is read.
#[cycle(specs)]
fn read_kind(out: &mut Emitter, list: &Typed, spec: &Spec) -> Result<u32, NoMemory>
    ensures { IfOk result (GivesNumber out.old out.new (kind_of_type
        (globals_of list.now).ranges (read_type spec.now))) }
{
    match spec.level() {
        SpecNode::Read(head) => type_number(out, list, &head.ty),
        SpecNode::Unit(head, _) => row_number(out, KindRow::Unit(head.unit)),
        SpecNode::List(_, element, _) => {
            let item = read_kind(out, list, element)?;
            row_number(out, KindRow::Vector(item))
        }
        SpecNode::Group(_, inner, attributes) => match converted(attributes) {
            Some(ty) => type_number(out, list, ty),
            None => read_kind(out, list, inner),
        },
    }
}

/// The number of the kind of the elements of what is read, or that of void where it is no container.
fn element_kind(out: &mut Emitter, list: &Typed, spec: &Spec) -> Result<u32, NoMemory>
    ensures { IfOk result (GivesNumber out.old out.new (kind_of_type
        (globals_of list.now).ranges (element_type spec.now))) }
{
    match spec.level() {
        SpecNode::List(_, element, _) => read_kind(out, list, element),
        SpecNode::Read(_) | SpecNode::Unit(..) | SpecNode::Group(..) => row_number(
            out,
            KindRow::Void,
        ),
    }
}

/// The number of the kind of `$$` in a body of a hook that a field has.
fn current_in(out: &mut Emitter, list: &Typed, of: HookOf, field: &Field) -> Result<u32, NoMemory>
    ensures { IfOk result (GivesNumber out.old out.new (kind_of_type
        (globals_of list.now).ranges (current_type of (Some field.now)))) }
{
    match of {
        HookOf::Nothing | HookOf::Unit(..) => row_number(out, KindRow::Void),
        HookOf::Field(..) | HookOf::Anonymous(_) => type_number(out, list, &field.ty),
        HookOf::Elements(..) | HookOf::AnonymousElements(_) => {
            element_kind(out, list, &field.spec)
        }
    }
}

/// The number of the kind of `$$` in a body of a hook, by what the hook is of and the field that has the body.
pub fn current(
    out: &mut Emitter,
    list: &Typed,
    of: HookOf,
    field: Option<&Field>,
) -> Result<u32, NoMemory>
    ensures { IfOk result (GivesNumber out.old out.new (kind_of_type
        (globals_of list.now).ranges (current_type of (option_copied field.entry)))) }
{
    match field {
        Some(field) => current_in(out, list, of, field),
        None => row_number(out, KindRow::Void),
    }
}
