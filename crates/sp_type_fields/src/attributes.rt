// Attributes: their values, and the type to which what is read is converted.
ghost use Rattle.std.specs.Prelude.{◌≡◌, IfOk};
ghost use Rattle.sp_ast.specs.Trees.{trees};
ghost use Rattle.sp_ast.specs.Views.{optional_tree};
ghost use Rattle.sp_type_context.specs.Typing.{typed};
ghost use Rattle.sp_type_scopes.specs.Decorators.{meant};
ghost use Rattle.sp_type_fields.specs.Roles.{role_of};
ghost use Rattle.sp_type_fields.specs.Attributes.{element_of, default_typed, value_typed, maybe_value, order_number, delimiter_bytes, attribute_with, attribute_by, attributes, if_convert, conversion_of, or_next, conversion, converted};

use crate::constants::Constants;
use crate::roles::{Kind, Role, role_of};
use sp_ast::{AttributeKind, ExprKind, Members, Ref, is_present};
use sp_base::{ByteList, NoMemory, Span, or_drop};
use sp_type_context::Context;
use sp_type_exprs::{to_target, typed};
use sp_type_operands::{first_type, seen};
use sp_type_scopes::WithCurrent;
use sp_typed::{Expr, Standing};
use sp_typed_units::Attribute;
use sp_types::{Level, Maker, Type, Word};
use sp_words::AttributeName;
use std::alloc::Global;

/// What attributes stand on: what is read, its type, and the type of what is stored.
#[derive(Drop)]
pub struct Site {
    pub kind: Kind,
    pub read: Type,
    pub stored: Type,
    /// Whether it is a field, and not what stands in parentheses.
    pub of_field: bool,
}

/// The type of the elements of a container.
pub fn element_of(of: &Type) -> Result<Type, NoMemory>
    ensures { IfOk result (λ t. t ≡ element_of of.now) }
{
    match of.level() {
        Level::Made(Maker::Vector, parts) => first_type(parts),
        _ => Ok(Type::word(Word::Unknown)),
    }
}

/// An expression where `$$` is of a type.
fn typed_with<C: Context>(
    alloc: Global,
    context: &C,
    current: &Type,
    tree: &Ref<'_, ExprKind>,
) -> Result<Expr, NoMemory>
    ensures { IfOk result (λ e. e ≡ typed (meant current.now (C.around context.now)) tree.now) }
{
    let inside = WithCurrent::new(context, current, Standing::Meant);
    typed(alloc, &inside, tree)
}

/// A default, which goes to the type of its field, if it has one.
fn default_typed(alloc: Global, of_field: bool, stored: &Type, e: Expr) -> Result<Expr, NoMemory>
    ensures { IfOk result (λ r. r ≡ default_typed of_field stored.now e) }
{
    if of_field {
        to_target(alloc, stored, e)
    } else {
        Ok(e)
    }
}

/// The value of an attribute.
fn value_typed<C: Context>(
    alloc: Global,
    context: &C,
    role: Role,
    site: &Site,
    tree: &Ref<'_, ExprKind>,
) -> Result<Expr, NoMemory>
    ensures { IfOk result (λ e. e ≡ value_typed (C.around context.now) role site.now tree.now) }
{
    match role {
        Role::Conversion => typed_with(alloc, context, &site.read, tree),
        Role::Requirement => typed_with(alloc, context, &site.stored, tree),
        Role::Test => {
            let element = element_of(&site.read)?;
            let value = typed_with(alloc, context, &element, tree);
            drop(element);
            value
        }
        Role::Unasked | Role::Alone => {
            let unknown = Type::word(Word::Unknown);
            let value = typed_with(alloc, context, &unknown, tree);
            drop(unknown);
            value
        }
        Role::Default => {
            let value = typed(alloc, context, tree)?;
            default_typed(alloc, site.of_field, &site.stored, value)
        }
        Role::Amount | Role::Delimiter | Role::Order | Role::Source | Role::Place => {
            typed(alloc, context, tree)
        }
    }
}

fn maybe_value<C: Context>(
    alloc: Global,
    context: &C,
    role: Role,
    site: &Site,
    value: &Option<Ref<'_, ExprKind>>,
) -> Result<Option<Expr>, NoMemory>
    ensures { IfOk result (λ e. e ≡ maybe_value (C.around context.now) role site.now value.now) }
{
    match value {
        Some(tree) => Ok(Some(value_typed(alloc, context, role, site, tree)?)),
        None => Ok(None),
    }
}

fn order_number<V: Constants>(
    alloc: Global,
    constants: &V,
    role: Role,
    value: &Option<Expr>,
) -> Result<Option<u64>, NoMemory>
    ensures { IfOk result (λ n. n ≡ order_number (V.values constants.now) role value.now) }
{
    match (role, value) {
        (Role::Order, Some(e)) => constants.number(alloc, e),
        _ => Ok(None),
    }
}

fn delimiter_bytes<V: Constants>(
    alloc: Global,
    constants: &V,
    role: Role,
    value: &Option<Expr>,
) -> Result<Option<ByteList>, NoMemory>
    ensures { IfOk result (λ b. b ≡ delimiter_bytes (V.values constants.now) role value.now) }
{
    match (role, value) {
        (Role::Delimiter, Some(e)) => constants.bytes(alloc, e),
        _ => Ok(None),
    }
}

fn attribute_with<V: Constants>(
    alloc: Global,
    constants: &V,
    role: Role,
    span: Span,
    name: AttributeName,
    value: Option<Expr>,
) -> Result<Attribute, NoMemory>
    ensures { IfOk result (λ a. a ≡ attribute_with (V.values constants.now) role span name value) }
{
    let number = or_drop!(order_number(alloc, constants, role, &value); value);
    let bytes = or_drop!(delimiter_bytes(alloc, constants, role, &value); value);
    Ok(Attribute {
        span,
        name,
        value,
        number,
        bytes,
    })
}

fn attribute_by<C: Context, V: Constants>(
    alloc: Global,
    context: &C,
    constants: &V,
    site: &Site,
    span: Span,
    name: AttributeName,
    value: &Option<Ref<'_, ExprKind>>,
) -> Result<Attribute, NoMemory>
    ensures { IfOk result (λ a. a ≡ attribute_by (C.around context.now) (V.values constants.now)
        site.now (role_of site.now.kind name) span name value.now) }
{
    let role = role_of(site.kind, name);
    let value = maybe_value(alloc, context, role, site, value)?;
    attribute_with(alloc, constants, role, span, name, value)
}

/// The attributes behind what is read, in the order of the text.
pub fn attributes_of<C: Context, V: Constants>(
    alloc: Global,
    context: &C,
    constants: &V,
    site: &Site,
    list: &Members<'_, AttributeKind>,
) -> Result<Vec<Attribute>, NoMemory>
    ensures { IfOk result (λ r. r.items ≡ attributes (C.around context.now) (V.values constants.now)
        site.now (trees list.now)) }
{
    let mut all = Vec::new(alloc);
    for attribute in list.again() {
        let span = attribute.span();
        let view = attribute.view();
        is_present(&view.value);
        let typed = attribute_by(
            alloc,
            context,
            constants,
            site,
            span,
            view.name,
            &view.value,
        )?;
        all.push(typed)?;
    }
    Ok(all)
}

/// The value of an attribute that is `&convert`.
fn conversion_of<'a>(attribute: &Ref<'a, AttributeKind>) -> Option<Ref<'a, ExprKind>>
    ensures { result ≡ conversion_of attribute.now }
{
    let view = attribute.view();
    is_present(&view.value);
    match view.name {
        AttributeName::Convert => view.value,
        _ => None,
    }
}

/// The value of the first `&convert` that has one.
pub fn conversion<'a>(list: &Members<'a, AttributeKind>) -> Option<Ref<'a, ExprKind>>
    ensures { result ≡ conversion (trees list.now) }
{
    for attribute in list.again() {
        let value = conversion_of(&attribute);
        if value.is_some() {
            return value;
        }
    }
    None
}

/// The type of what is stored: what is read, or what that is converted to.
pub fn converted<C: Context>(
    alloc: Global,
    context: &C,
    read: &Type,
    list: &Members<'_, AttributeKind>,
) -> Result<Type, NoMemory>
    ensures { IfOk result (λ t. t ≡ converted (C.around context.now) read.now
        (conversion (trees list.now))) }
{
    match conversion(list) {
        Some(tree) => {
            let e = typed_with(alloc, context, read, &tree)?;
            let ty = seen(&e);
            drop(e);
            ty
        }
        None => read.copy(),
    }
}

/// What is stored of what is read, and the attributes that it has.
#[derive(Drop)]
pub(crate) struct Stored {
    pub ty: Type,
    pub attributes: Vec<Attribute>,
}

/// What is stored of something of a kind, of which this type is read, and its attributes.
pub(crate) fn stored_by<C: Context, V: Constants>(
    alloc: Global,
    context: &C,
    constants: &V,
    kind: Kind,
    read: Type,
    of_field: bool,
    list: &Members<'_, AttributeKind>,
) -> Result<Stored, NoMemory>
    ensures ty { IfOk result (λ s. s.ty ≡ converted (C.around context.now) read
        (conversion (trees list.now))) }
    ensures attributes { IfOk result (λ s. s.attributes.items ≡ attributes (C.around context.now)
        (V.values constants.now)
        (record { kind = kind; read = read; stored = s.ty; of_field = of_field })
        (trees list.now)) }
{
    let stored = or_drop!(converted(alloc, context, &read, list); read);
    let site = Site {
        kind,
        read,
        stored,
        of_field,
    };
    let attributes = or_drop!(attributes_of(alloc, context, constants, &site, list); site);
    let Site {
        kind: _,
        read,
        stored,
        of_field: _,
    } = site;
    drop(read);
    Ok(Stored {
        ty: stored,
        attributes,
    })
}
