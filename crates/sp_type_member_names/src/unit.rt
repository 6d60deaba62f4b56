// A unit of a list: what its names mean, and what its fields store.
ghost use Rattle.std.specs.Prelude.{◌≡◌, IfOk};
ghost use Rattle.sp_type_modules.specs.Taken.{member_number};
ghost use Rattle.sp_type_fields.specs.Fields.{field_type};
ghost use Rattle.sp_type_member_names.specs.FieldTables.{unit_of};
ghost use Rattle.sp_type_member_names.specs.inside.Numbers.{number_of};

use crate::naming::Naming;
use sp_ast::{FieldKind, Ref};
use sp_base::NoMemory;
use sp_type_context::{Context, Member};
use sp_type_fields::{Constants, converted, read_type};
use sp_type_modules::Tables;
use sp_typed::OneOp;
use sp_types::Type;
use std::alloc::Global;

/// A unit of a list, with what stands round its expressions and what constants are worth there.
#[derive(Drop)]
pub struct UnitNames<'a, C: Context, V: Constants> {
    tables: &'a Tables<'a>,
    unit: u32,
    context: &'a C,
    constants: &'a V,
}

impl<'a, C: Context, V: Constants> UnitNames<'a, C, V> {
    /// The unit of a number, with what stands round its expressions and what constants are worth there.
    pub fn new(
        tables: &'a Tables<'a>,
        unit: u32,
        context: &'a C,
        constants: &'a V,
    ) -> UnitNames<'a, C, V>
        ensures tables { result.tables.now ≡ tables.now }
        ensures unit { result.unit ≡ unit }
        ensures context { result.context.now ≡ context.now }
        ensures constants { result.constants.now ≡ constants.now }
    {
        UnitNames {
            tables,
            unit,
            context,
            constants,
        }
    }
}

/// The number of a member.
fn number_of(member: &Option<Member>) -> Option<u32>
    ensures { result ≡ number_of member.now }
{
    match member {
        Some(found) => match found.op {
            OneOp::Field(number) | OneOp::Variable(number) | OneOp::SinkOf(number) => Some(number),
            OneOp::Negate
            | OneOp::Not
            | OneOp::Complement
            | OneOp::Size
            | OneOp::Cast(_)
            | OneOp::Widen
            | OneOp::Bit(_)
            | OneOp::IsSet(_)
            | OneOp::NoMember(_) => None,
        },
        None => None,
    }
}

/// The number of the member of a name in a unit.
#[tactic(auto, using(crate::proofs::Numbers::number_is))]
fn member_number(tables: &Tables<'_>, unit: u32, name: &str) -> Result<Option<u32>, NoMemory>
    ensures { IfOk result (λ k. k ≡ member_number (unit_of tables.now.0 unit) name.now) }
{
    let member = tables.unit_member(&[], unit, name)?;
    let number = number_of(&member);
    drop(member);
    Ok(number)
}

/// The type of what a field stores.
fn stored_type<C: Context, V: Constants>(
    alloc: Global,
    context: &C,
    constants: &V,
    field: &Ref<'_, FieldKind>,
) -> Result<Type, NoMemory>
    ensures { IfOk result (λ t. t ≡ field_type (C.around context.now) (V.values constants.now)
        field.now) }
{
    let view = field.view();
    let read = read_type(alloc, context, constants, &view.base, &view.counts)?;
    let stored = converted(alloc, context, &read, &view.attributes)?;
    Ok(stored)
}

impl<'a, C: Context, V: Constants> Naming for UnitNames<'a, C, V> {
    ghost use Rattle.sp_type_modules.specs.Taken.{member_number};
    ghost use Rattle.sp_type_fields.specs.Fields.{field_type};
    ghost use Rattle.sp_type_member_names.specs.FieldTables.{unit_of};

    ghost numbers = { λ w. member_number (unit_of w.tables.now.0 w.unit) };

    ghost types = { λ w. field_type (C.around w.context.now) (V.values w.constants.now) };

    fn number(&self, name: &str) -> Result<Option<u32>, NoMemory> {
        member_number(self.tables, self.unit, name)
    }

    fn stored(&self, alloc: Global, field: &Ref<'_, FieldKind>) -> Result<Type, NoMemory> {
        stored_type(alloc, self.context, self.constants, field)
    }
}
