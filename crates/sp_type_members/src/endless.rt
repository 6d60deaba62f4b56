// Conversions that are made of themselves, by what fields store.
ghost use Rattle.std.specs.Prelude.{◌≡◌, map, length, IfOk};
ghost use Rattle.sp_solver.specs.Told.{told};
ghost use Rattle.sp_ast.specs.Trees.{trees};
ghost use Rattle.sp_types.specs.Types.{word};
ghost use Rattle.sp_types.specs.declared.words.Word.TheVariants as word_is;
ghost use Rattle.sp_typed.specs.declared.words.Standing.TheVariants as standing_is;
ghost use Rattle.sp_type_scopes.specs.Decorators.{with_self};
ghost use Rattle.sp_type_fields.specs.Attributes.{conversion};
ghost use Rattle.sp_type_fields.specs.Readings.{counted_read};
ghost use Rattle.sp_type_modules.specs.Sources.{questions};
ghost use Rattle.sp_type_members.specs.Opens.{with_members};
ghost use Rattle.sp_type_members.specs.Endless.{span_if, conversion_place, base_place, field_place, place_of};

use crate::fields::conversion_open;
use crate::members::WithMembers;
use crate::rows::MemberRows;
use sp_ast::{AttributeKind, BaseKind, BaseView, CountKind, ExprKind, FieldKind, Members, Ref};
use sp_base::{NoMemory, Span};
use sp_type_context::Context;
use sp_type_fields::{Constants, conversion, read_type};
use sp_type_modules::Tables;
use sp_type_scopes::WithSelf;
use sp_typed::Standing;
use sp_types::{Type, Word};
use std::alloc::Global;

fn span_if(member: Option<usize>, span: Span) -> Option<Span>
    ensures { result ≡ span_if member span }
{
    match member {
        Some(_) => Some(span),
        None => None,
    }
}

/// Where the value of a conversion stands that hangs on a member without a type.
fn conversion_place<C: Context>(
    alloc: Global,
    rows: &MemberRows<'_>,
    known: &[Option<Type>],
    context: &C,
    read: &Type,
    value: &Option<Ref<'_, ExprKind>>,
) -> Result<Option<Span>, NoMemory>
    requires { length known.now ≡ length (questions rows.now) }
    ensures { IfOk result (λ o. o ≡ conversion_place rows.now (length (questions rows.now))
        (told known.now) (C.around context.now) read.now value.now) }
{
    match value {
        Some(tree) => {
            let member = conversion_open(alloc, rows, known, context, read, value)?;
            Ok(span_if(member, tree.span()))
        }
        None => Ok(None),
    }
}

/// Where the conversion behind what is read stands, if it is one of these. Only where there is one the type of what is read is asked.
fn behind_place<C: Context, V: Constants>(
    alloc: Global,
    rows: &MemberRows<'_>,
    known: &[Option<Type>],
    context: &C,
    constants: &V,
    base: &Ref<'_, BaseKind>,
    counts: &Members<'_, CountKind>,
    attributes: &Members<'_, AttributeKind>,
) -> Result<Option<Span>, NoMemory>
    requires { length known.now ≡ length (questions rows.now) }
    ensures { IfOk result (λ o. o ≡ conversion_place rows.now (length (questions rows.now))
        (told known.now) (C.around context.now) (counted_read (C.around context.now)
        (V.values constants.now) base.now (trees counts.now)).ty
        (conversion (trees attributes.now))) }
{
    let value = conversion(attributes);
    match &value {
        None => Ok(None),
        Some(_) => {
            let read = read_type(alloc, context, constants, base, counts)?;
            let place = conversion_place(alloc, rows, known, context, &read, &value);
            drop(read);
            Ok(place?)
        }
    }
}

/// Where the first such conversion in groups stands, from the inside.
#[cycle(base)]
fn base_place<C: Context, V: Constants>(
    alloc: Global,
    rows: &MemberRows<'_>,
    known: &[Option<Type>],
    context: &C,
    constants: &V,
    base: &Ref<'_, BaseKind>,
) -> Result<Option<Span>, NoMemory>
    requires { length known.now ≡ length (questions rows.now) }
    ensures { IfOk result (λ o. o ≡ base_place rows.now (length (questions rows.now))
        (told known.now) (C.around context.now) (V.values constants.now) base.now) }
{
    match base.view() {
        BaseView::Group {
            base,
            counts,
            attributes,
        } => match base_place(alloc, rows, known, context, constants, &base)? {
            Some(span) => Ok(Some(span)),
            None => Ok(behind_place(
                alloc,
                rows,
                known,
                context,
                constants,
                &base,
                &counts,
                &attributes,
            )?),
        },
        _ => Ok(None),
    }
}

/// Where the first of a field stands.
fn field_place<C: Context, V: Constants>(
    alloc: Global,
    rows: &MemberRows<'_>,
    known: &[Option<Type>],
    context: &C,
    constants: &V,
    tree: &Ref<'_, FieldKind>,
) -> Result<Option<Span>, NoMemory>
    requires { length known.now ≡ length (questions rows.now) }
    ensures { IfOk result (λ o. o ≡ field_place rows.now (length (questions rows.now))
        (told known.now) (C.around context.now) (V.values constants.now) tree.now) }
{
    let view = tree.view();
    match base_place(alloc, rows, known, context, constants, &view.base)? {
        Some(span) => Ok(Some(span)),
        None => Ok(behind_place(
            alloc,
            rows,
            known,
            context,
            constants,
            &view.base,
            &view.counts,
            &view.attributes,
        )?),
    }
}

/// A place where `self` is the unit.
fn inside_place<C: Context, V: Constants>(
    alloc: Global,
    rows: &MemberRows<'_>,
    known: &[Option<Type>],
    context: &C,
    constants: &V,
    unit: u32,
    tree: &Ref<'_, FieldKind>,
) -> Result<Option<Span>, NoMemory>
    requires { length known.now ≡ length (questions rows.now) }
    ensures { IfOk result (λ o. o ≡ field_place rows.now (length (questions rows.now))
        (told known.now) (with_self (word (word_is.Unit unit)) standing_is.Meant
        (C.around context.now)) (V.values constants.now) tree.now) }
{
    let of = Type::word(Word::Unit(unit));
    let place = field_place(
        alloc,
        rows,
        known,
        &WithSelf::new(context, &of, Standing::Meant),
        constants,
        tree,
    );
    drop(of);
    place
}

/// A place in the context of the unit.
fn unit_place<C: Context, V: Constants>(
    alloc: Global,
    rows: &MemberRows<'_>,
    tables: &Tables<'_>,
    known: &[Option<Type>],
    context: &C,
    constants: &V,
    unit: u32,
    tree: &Ref<'_, FieldKind>,
) -> Result<Option<Span>, NoMemory>
    requires { length known.now ≡ length (questions rows.now) }
    ensures { IfOk result (λ o. o ≡ field_place rows.now (length (questions rows.now))
        (told known.now) (with_self (word (word_is.Unit unit)) standing_is.Meant
        (with_members tables.now.0 (told known.now) (C.around context.now)))
        (V.values constants.now) tree.now) }
{
    inside_place(
        alloc,
        rows,
        known,
        &WithMembers::new(context, tables, known),
        constants,
        unit,
        tree,
    )
}

/// Where `types` are the types of what is stored in the members of all units, as [`stored_types`](crate::stored_types) answers
/// them: the place in a field of a unit of its first conversion that is made of itself, those in its groups from the inside before
/// its own. `contexts` are what stands round the expressions of each unit, by its number.
pub fn endless_place<C: Context, V: Constants>(
    alloc: Global,
    rows: &MemberRows<'_>,
    tables: &Tables<'_>,
    contexts: &[C],
    constants: &V,
    types: &[Option<Type>],
    unit: u32,
    tree: &Ref<'_, FieldKind>,
) -> Result<Option<Span>, NoMemory>
    requires all { length types.now ≡ length (questions rows.now) }
    requires same { tables.now.0 ≡ rows.now }
    ensures { IfOk result (λ o. o ≡ place_of rows.now (map C.around contexts.now)
        (V.values constants.now) types.now unit tree.now) }
{
    match contexts.get(unit as usize) {
        Some(context) => Ok(unit_place(
            alloc, rows, tables, types, context, constants, unit, tree,
        )?),
        None => Ok(None),
    }
}
