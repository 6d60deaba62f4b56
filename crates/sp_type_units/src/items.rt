// What the items of a unit give its row, each in the order of the text.
ghost use Rattle.std.specs.Prelude.{◌≡◌, ◌++◌, IfOk, OnOk};
ghost use Rattle.sp_ast.specs.Trees.{trees};
ghost use Rattle.sp_type_fields.specs.Attributes.{maybe_typed};
ghost use Rattle.sp_type_units.specs.Items.{brought, variable_of, variable_in, variables_in, sink_of, sink_in, sinks_in, order_in, orders_in, part_in, parts_in, is_filter, has_filter};

use sp_ast::{
    ExprKind, ItemKind, ItemView, Members, NameKind, PathKind, Ref, TypeKind, is_present,
};
use sp_base::{NoMemory, or_drop};
use sp_type_context::{Context, Place};
use sp_type_exprs::{to_target, typed};
use sp_type_fields::{Constants, FieldTable, order_of, part_of};
use sp_typed::Expr;
use sp_typed_units::{OrderProperty, Part, Sink, Variable};
use sp_types::Type;
use std::alloc::Global;

/// What is written behind `=`, where something is, goes to a type.
fn brought<C: Context>(
    alloc: Global,
    context: &C,
    to: &Type,
    value: &Option<Ref<'_, ExprKind>>,
) -> Result<Option<Expr>, NoMemory>
    ensures { IfOk result (λ e. e
        ≡ brought to.now (maybe_typed (C.around context.now) value.now)) }
{
    match value {
        Some(tree) => Ok(Some(to_target(alloc, to, typed(alloc, context, tree)?)?)),
        None => Ok(None),
    }
}

fn variable_of<C: Context, F: FieldTable>(
    alloc: Global,
    context: &C,
    table: &F,
    name: &Ref<'_, NameKind>,
    tree: &Ref<'_, TypeKind>,
    value: &Option<Ref<'_, ExprKind>>,
) -> Result<Variable, NoMemory>
    ensures { IfOk result (λ v. v ≡ variable_of (C.around context.now) (F.fields table.now)
        name.now tree.now value.now) }
{
    let written = context.written(alloc, Place::Value, tree)?;
    let to = context.type_in(alloc, Place::Value, tree)?;
    let value = brought(alloc, context, &to, value);
    drop(to);
    let value = value?;
    Ok(Variable {
        member: table.number(name.text()),
        span: name.span(),
        written,
        taken: table.taken(name.span()),
        value,
    })
}

fn add_variable<C: Context, F: FieldTable>(
    alloc: Global,
    context: &C,
    table: &F,
    all: &mut Vec<Variable>,
    item: &Ref<'_, ItemKind>,
) -> Result<(), NoMemory>
    ensures { OnOk result (all.new.items ≡ all.old.items
        ++ variable_in (C.around context.now) (F.fields table.now) item.now) }
{
    match item.view() {
        ItemView::Variable { name, type_, value } => {
            is_present(&value);
            all.push(variable_of(alloc, context, table, &name, &type_, &value)?)?;
            Ok(())
        }
        _ => Ok(()),
    }
}

/// The variables of a unit.
pub(crate) fn variables_in<C: Context, F: FieldTable>(
    alloc: Global,
    context: &C,
    table: &F,
    items: &Members<'_, ItemKind>,
) -> Result<Vec<Variable>, NoMemory>
    ensures { IfOk result (λ v. v.items ≡ variables_in (C.around context.now)
        (F.fields table.now) (trees items.now)) }
{
    let mut all = Vec::new(alloc);
    for item in items.again() {
        or_drop!(add_variable(alloc, context, table, &mut all, &item); all);
    }
    Ok(all)
}

fn sink_of<F: FieldTable>(table: &F, name: &Ref<'_, NameKind>) -> Sink
    ensures { result ≡ sink_of (F.fields table.now) name.now }
{
    Sink {
        member: table.number(name.text()),
        span: name.span(),
        taken: table.taken(name.span()),
    }
}

fn add_sink<F: FieldTable>(
    table: &F,
    all: &mut Vec<Sink>,
    item: &Ref<'_, ItemKind>,
) -> Result<(), NoMemory>
    ensures { OnOk result (all.new.items
        ≡ all.old.items ++ sink_in (F.fields table.now) item.now) }
{
    match item.view() {
        ItemView::Sink(name) => {
            all.push(sink_of(table, &name))?;
            Ok(())
        }
        _ => Ok(()),
    }
}

/// The sinks of a unit.
pub(crate) fn sinks_in<F: FieldTable>(
    alloc: Global,
    table: &F,
    items: &Members<'_, ItemKind>,
) -> Result<Vec<Sink>, NoMemory>
    ensures { IfOk result (λ v. v.items ≡ sinks_in (F.fields table.now) (trees items.now)) }
{
    let mut all = Vec::new(alloc);
    for item in items.again() {
        add_sink(table, &mut all, &item)?;
    }
    Ok(all)
}

fn add_order<C: Context, V: Constants>(
    alloc: Global,
    context: &C,
    constants: &V,
    module: u32,
    all: &mut Vec<OrderProperty>,
    item: &Ref<'_, ItemKind>,
) -> Result<(), NoMemory>
    ensures { OnOk result (all.new.items ≡ all.old.items ++ order_in (C.around context.now)
        (V.values constants.now) «module» item.now) }
{
    match item.view() {
        ItemView::ByteOrder(path) => {
            all.push(order_of(alloc, context, constants, module, &path)?)?;
            Ok(())
        }
        _ => Ok(()),
    }
}

/// The byte orders of a unit.
pub(crate) fn orders_in<C: Context, V: Constants>(
    alloc: Global,
    context: &C,
    constants: &V,
    module: u32,
    items: &Members<'_, ItemKind>,
) -> Result<Vec<OrderProperty>, NoMemory>
    ensures { IfOk result (λ v. v.items ≡ orders_in (C.around context.now)
        (V.values constants.now) «module» (trees items.now)) }
{
    let mut all = Vec::new(alloc);
    for item in items.again() {
        or_drop!(add_order(alloc, context, constants, module, &mut all, &item); all);
    }
    Ok(all)
}

fn add_part<C: Context, V: Constants, F: FieldTable>(
    alloc: Global,
    context: &C,
    constants: &V,
    table: &F,
    all: &mut Vec<Part>,
    item: &Ref<'_, ItemKind>,
) -> Result<(), NoMemory>
    ensures { OnOk result (all.new.items ≡ all.old.items ++ part_in (C.around context.now)
        (V.values constants.now) (F.fields table.now) item.now) }
{
    match item.view() {
        ItemView::Part(part) => {
            all.push(part_of(alloc, context, constants, table, &part)?)?;
            Ok(())
        }
        _ => Ok(()),
    }
}

/// The parts of a unit.
pub(crate) fn parts_in<C: Context, V: Constants, F: FieldTable>(
    alloc: Global,
    context: &C,
    constants: &V,
    table: &F,
    items: &Members<'_, ItemKind>,
) -> Result<Vec<Part>, NoMemory>
    ensures { IfOk result (λ v. v.items ≡ parts_in (C.around context.now)
        (V.values constants.now) (F.fields table.now) (trees items.now)) }
{
    let mut all = Vec::new(alloc);
    for item in items.again() {
        or_drop!(add_part(alloc, context, constants, table, &mut all, &item); all);
    }
    Ok(all)
}

fn is_filter(item: &Ref<'_, ItemKind>) -> bool
    ensures { result ≡ is_filter item.now }
{
    matches!(item.view(), ItemView::Filter)
}

/// Whether a unit is a filter.
pub(crate) fn has_filter(items: &Members<'_, ItemKind>) -> bool
    ensures { result ≡ has_filter (trees items.now) }
{
    for item in items.again() {
        if is_filter(&item) {
            return true;
        }
    }
    false
}
