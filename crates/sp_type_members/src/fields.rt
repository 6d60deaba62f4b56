// The type of a field, or the member for which it waits.
ghost use Rattle.std.specs.Prelude.{◌≡◌, Option, None, length, IfOk};
ghost use Rattle.sp_solver.specs.Told.{told};
ghost use Rattle.sp_type_fields.specs.Attributes.{conversion, converted};
ghost use Rattle.sp_type_context.specs.Typing.{typed};
ghost use Rattle.sp_type_scopes.specs.Decorators.{meant};
ghost use Rattle.sp_type_modules.specs.Sources.{questions};
ghost use Rattle.sp_type_members.specs.Opens.{conversion_open, base_open, field_open};
ghost use Rattle.sp_type_fields.specs.Fields.{field_type};
ghost use Rattle.sp_type_members.specs.Tries.{when_open, try_in};

use crate::opens::open_in;
use crate::rows::MemberRows;
use sp_ast::{
    AttributeKind, BaseKind, BaseView, CountKind, ExprKind, FieldKind, Members, Ref, is_present,
};
use sp_base::{NoMemory, or_drop};
use sp_solver::Attempt;
use sp_type_context::{Context, Place};
use sp_type_exprs::typed;
use sp_type_fields::{Constants, conversion, read_type};
use sp_type_modules::Source;
use sp_type_operands::seen;
use sp_type_scopes::WithCurrent;
use sp_typed::{Expr, Standing};
use sp_types::{Type, Word};
use std::alloc::Global;

/// An expression where `$$` is of a type.
fn typed_with<C: Context>(
    alloc: Global,
    context: &C,
    current: &Type,
    tree: &Ref<'_, ExprKind>,
) -> Result<Expr, NoMemory>
    ensures { IfOk result (λ e. e ≡ typed (meant current.now (C.around context.now)) tree.now) }
{
    typed(
        alloc,
        &WithCurrent::new(context, current, Standing::Meant),
        tree,
    )
}

/// A member without a type on which a conversion of what is read hangs.
pub(crate) fn conversion_open<C: Context>(
    alloc: Global,
    rows: &MemberRows<'_>,
    known: &[Option<Type>],
    context: &C,
    read: &Type,
    value: &Option<Ref<'_, ExprKind>>,
) -> Result<Option<usize>, NoMemory>
    requires { length known.now ≡ length (questions rows.now) }
    ensures { IfOk result (λ o. o ≡ conversion_open rows.now (length (questions rows.now))
        (told known.now) (C.around context.now) read.now value.now) }
{
    match value {
        Some(tree) => {
            let e = typed_with(alloc, context, read, tree)?;
            let found = open_in(rows, known, &e);
            drop(e);
            Ok(found?)
        }
        None => Ok(None),
    }
}

/// A member without a type on which the conversions of groups hang, from the inside.
#[cycle(base)]
fn base_open<C: Context, V: Constants>(
    alloc: Global,
    rows: &MemberRows<'_>,
    known: &[Option<Type>],
    context: &C,
    constants: &V,
    base: &Ref<'_, BaseKind>,
) -> Result<Option<usize>, NoMemory>
    requires { length known.now ≡ length (questions rows.now) }
    ensures { IfOk result (λ o. o ≡ base_open rows.now (length (questions rows.now))
        (told known.now) (C.around context.now) (V.values constants.now) base.now) }
{
    match base.view() {
        BaseView::Group {
            base,
            counts,
            attributes,
        } => match base_open(alloc, rows, known, context, constants, &base)? {
            Some(place) => Ok(Some(place)),
            None => {
                let read = read_type(alloc, context, constants, &base, &counts)?;
                let value = conversion(&attributes);
                let place = conversion_open(alloc, rows, known, context, &read, &value);
                drop(read);
                Ok(place?)
            }
        },
        _ => Ok(None),
    }
}

/// What is read becomes this, unless it waits for a member.
fn converted_try<C: Context>(
    alloc: Global,
    rows: &MemberRows<'_>,
    known: &[Option<Type>],
    context: &C,
    read: Type,
    value: &Option<Ref<'_, ExprKind>>,
) -> Result<Attempt<Type>, NoMemory>
    requires { length known.now ≡ length (questions rows.now) }
    ensures { IfOk result (λ t. t ≡ when_open (converted (C.around context.now) read value.now)
        (conversion_open rows.now (length (questions rows.now)) (told known.now)
        (C.around context.now) read value.now)) }
{
    match value {
        Some(tree) => {
            let e = typed_with(alloc, context, &read, tree);
            drop(read);
            let e = e?;
            let open = or_drop!(open_in(rows, known, &e); e);
            match open {
                Some(place) => {
                    drop(e);
                    Ok(Attempt::Waits(place))
                }
                None => {
                    let ty = seen(&e);
                    drop(e);
                    Ok(Attempt::Done(ty?))
                }
            }
        }
        None => Ok(Attempt::Done(read)),
    }
}

/// The type of what a field stores, unless it waits for a member.
fn field_try<C: Context, V: Constants>(
    alloc: Global,
    rows: &MemberRows<'_>,
    known: &[Option<Type>],
    context: &C,
    constants: &V,
    tree: &Ref<'_, FieldKind>,
) -> Result<Attempt<Type>, NoMemory>
    requires { length known.now ≡ length (questions rows.now) }
    ensures { IfOk result (λ t. t ≡ when_open (field_type (C.around context.now)
        (V.values constants.now) tree.now) (field_open rows.now (length (questions rows.now))
        (told known.now) (C.around context.now) (V.values constants.now) tree.now)) }
{
    let view = tree.view();
    match base_open(alloc, rows, known, context, constants, &view.base)? {
        Some(place) => Ok(Attempt::Waits(place)),
        None => {
            let read = read_type(alloc, context, constants, &view.base, &view.counts)?;
            let value = conversion(&view.attributes);
            Ok(converted_try(alloc, rows, known, context, read, &value)?)
        }
    }
}

/// The type of what is stored in a member, unless it waits for another member.
pub fn source_try<C: Context, V: Constants>(
    alloc: Global,
    rows: &MemberRows<'_>,
    known: &[Option<Type>],
    context: &C,
    constants: &V,
    source: &Source<'_>,
) -> Result<Attempt<Type>, NoMemory>
    requires { length known.now ≡ length (questions rows.now) }
    ensures { IfOk result (λ t. t ≡ try_in rows.now (length (questions rows.now)) (told known.now)
        (C.around context.now) (V.values constants.now) source.now) }
{
    match source {
        Source::Variable(tree) => {
            Ok(Attempt::Done(context.type_in(alloc, Place::Value, tree)?))
        },
        Source::Sink => Ok(Attempt::Done(Type::word(Word::Sink))),
        Source::Field(tree) => { Ok(field_try(alloc, rows, known, context, constants, tree)?) }
    }
}
