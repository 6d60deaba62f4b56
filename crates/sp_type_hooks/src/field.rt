// What `$$` is in the hooks of a field.
ghost use Rattle.std.specs.Prelude.{◌≡◌, map, slice_get, IfOk};
ghost use Rattle.sp_ast.specs.Trees.{trees};
ghost use Rattle.sp_type_fields.specs.Attributes.{element_of, converted, conversion};
ghost use Rattle.sp_type_hooks.specs.Fields.{nothing_known, field_types, types_in, holder_types, is_container, holds_container};

use crate::contexts::context_at;
use sp_ast::{AttributeKind, FieldKind, Members, Ref};
use sp_base::{NoMemory, or_drop};
use sp_type_context::Context;
use sp_type_fields::{Constants, converted, counted_read, element_of};
use sp_type_hook_rows::{Holder, Site};
use sp_types::{Type, Word};
use std::alloc::Global;

/// What `$$` is in the hooks of a field.
#[derive(Drop)]
pub struct FieldType {
    /// The type that it stores.
    pub stored: Type,
    /// The type of an element of what it reads, before any `&convert` of the field.
    pub element: Type,
}

fn nothing_known() -> FieldType
    ensures { result ≡ nothing_known }
{
    FieldType {
        stored: Type::word(Word::Unknown),
        element: Type::word(Word::Unknown),
    }
}

/// The types of a field that reads a value of a type, which an attribute may convert.
fn types_of<C: Context>(
    alloc: Global,
    context: &C,
    read: &Type,
    attributes: &Members<'_, AttributeKind>,
) -> Result<FieldType, NoMemory>
    ensures { IfOk result (λ t. t ≡ record {
      stored = converted (C.around context.now) read.now (conversion (trees attributes.now));
      element = element_of read.now;
    }) }
{
    let element = element_of(read)?;
    let stored = or_drop!(converted(alloc, context, read, attributes); element);
    Ok(FieldType { stored, element })
}

/// The types of a field, in what stands round its expressions.
fn field_types<C: Context, V: Constants>(
    alloc: Global,
    context: &C,
    constants: &V,
    field: &Ref<'_, FieldKind>,
) -> Result<FieldType, NoMemory>
    ensures { IfOk result (λ t. t ≡ field_types (C.around context.now) (V.values constants.now)
        field.now) }
{
    let view = field.view();
    let read = counted_read(alloc, context, constants, &view.base, &view.counts)?;
    let types = types_of(alloc, context, &read.ty, &view.attributes);
    drop(read);
    types
}

/// The types of a field of a unit.
fn types_in<C: Context, V: Constants>(
    alloc: Global,
    contexts: &[C],
    constants: &V,
    unit: u32,
    field: &Ref<'_, FieldKind>,
) -> Result<FieldType, NoMemory>
    ensures { IfOk result (λ t. t ≡ types_in (slice_get (map C.around contexts.now) unit)
        (V.values constants.now) field.now) }
{
    match context_at(contexts, unit) {
        Some(context) => field_types(alloc, context, constants, field),
        None => Ok(nothing_known()),
    }
}

/// The types of what stands at a place of hooks.
pub(crate) fn holder_types<C: Context, V: Constants>(
    alloc: Global,
    contexts: &[C],
    constants: &V,
    site: &Site<'_>,
) -> Result<FieldType, NoMemory>
    ensures { IfOk result (λ t. t ≡ holder_types (map C.around contexts.now)
        (V.values constants.now) site.now.unit site.now.holder) }
{
    match &site.holder {
        Holder::Field(field) => types_in(alloc, contexts, constants, site.unit, field),
        Holder::Item(_) | Holder::Declaration(_) => Ok(nothing_known()),
    }
}

/// Whether a field has brackets.
fn is_container(field: &Ref<'_, FieldKind>) -> bool
    ensures { result ≡ is_container field.now }
{
    field.view().counts.split_first().is_some()
}

/// Whether a field with brackets stands at a place of hooks.
pub(crate) fn holds_container(site: &Site<'_>) -> bool
    ensures { result ≡ holds_container site.now.holder }
{
    match &site.holder {
        Holder::Field(field) => is_container(field),
        Holder::Item(_) | Holder::Declaration(_) => false,
    }
}
