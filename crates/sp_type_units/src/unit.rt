// A unit of the typed list.
ghost use Rattle.std.specs.Prelude.{◌≡◌, Some, IfOk};
ghost use Rattle.sp_ast.specs.Trees.{trees};
ghost use Rattle.sp_solver.specs.Told.{told};
ghost use Rattle.sp_type_scopes.specs.Parameters.{parameters_in};
ghost use Rattle.sp_type_member_names.specs.FieldTables.{unit_of};
ghost use Rattle.sp_type_modules.specs.Members.{unit_declaration};
ghost use Rattle.sp_type_units.specs.UnitRows.{parameter_trees, calls_method, no_unit, inside_unit, row_after, declared_row, unit_row};
ghost use Rattle.sp_type_units.specs.inside.Insides.{items_with, inside_with, unit_with, bare_unit};

use crate::calls::UnitCalls;
use crate::fields::unit_fields;
use crate::items::{has_filter, orders_in, parts_in, sinks_in, variables_in};
use crate::known::UnitRows;
use crate::members::member_rows;
use crate::tell::{Head, head_of};
use sp_ast::{ItemKind, Members, Ref, UnitKind};
use sp_base::{NoMemory, Span, Text, or_drop};
use sp_names::{Declaration, Names};
use sp_type_context::Context;
use sp_type_fields::{Constants, FieldTable};
use sp_type_modules::{declaration_at, unit_in};
use sp_type_scopes::{Parameters, WithParameters, WithSelf, parameters_in};
use sp_type_unit_calls::{parts_call, variables_call};
use sp_typed::{Standing, UnitMethod};
use sp_typed_units::{Member, OrderProperty, Parameter, Part, Row, Sink, Unit, Variable};
use sp_types::{Type, Word};
use std::alloc::Global;

/// What the items of a unit give its row.
#[derive(Drop)]
pub(crate) struct ItemRows {
    pub(crate) variables: Row<Variable>,
    pub(crate) sinks: Row<Sink>,
    pub(crate) parts: Row<Part>,
    pub(crate) orders: Row<OrderProperty>,
    pub(crate) filter: bool,
    pub(crate) uses_input: bool,
    pub(crate) connects_filter: bool,
}

/// What is made where the parameters of a unit are seen.
#[derive(Drop)]
pub(crate) struct Inside {
    pub(crate) members: Row<Member>,
    pub(crate) items: ItemRows,
}

/// Whether a unit calls a method.
fn calls_method(method: UnitMethod, in_hooks: bool, variables: &[Variable], parts: &[Part]) -> bool
    ensures { result ≡ calls_method method in_hooks variables.now parts.now }
{
    in_hooks || variables_call(method, variables) || parts_call(method, parts)
}

/// What items give, where this is known of the fields among them.
fn items_of<C: Context, V: Constants, F: FieldTable>(
    alloc: Global,
    context: &C,
    constants: &V,
    table: &F,
    calls: UnitCalls,
    module: u32,
    items: &Members<'_, ItemKind>,
) -> Result<ItemRows, NoMemory>
    ensures { IfOk result (λ r. r ≡ items_with (C.around context.now) (V.values constants.now)
        (F.fields table.now) calls «module» (trees items.now)) }
{
    let variables = variables_in(alloc, context, table, items)?;
    let sinks = or_drop!(sinks_in(alloc, table, items); variables);
    let orders = or_drop!(
        orders_in(alloc, context, constants, module, items);
        variables, sinks
    );
    let parts = or_drop!(
        parts_in(alloc, context, constants, table, items);
        variables, sinks, orders
    );
    let uses_input = calls_method(UnitMethod::Input, calls.input, &variables, &parts);
    let connects_filter = calls_method(
        UnitMethod::ConnectFilter,
        calls.connect_filter,
        &variables,
        &parts,
    );
    Ok(ItemRows {
        variables: Row::from_vec(variables),
        sinks: Row::from_vec(sinks),
        parts: Row::from_vec(parts),
        orders: Row::from_vec(orders),
        filter: has_filter(items),
        uses_input,
        connects_filter,
    })
}

/// What is made of a unit in what stands round its expressions.
fn inside_of<C: Context, V: Constants>(
    alloc: Global,
    rows: &UnitRows<'_>,
    context: &C,
    constants: &V,
    calls: UnitCalls,
    unit: u32,
    module: u32,
    tree: &Ref<'_, UnitKind>,
) -> Result<Inside, NoMemory>
    requires { unit_of rows.now.tables.now.0 unit ≡ tree.now }
    ensures { IfOk result (λ r. r ≡ inside_with rows.now.tables.now.0 (told rows.now.stored.now)
        rows.now.sites.now rows.now.hooks.now (V.values constants.now) calls unit «module»
        tree.now (C.around context.now)) }
{
    let table = unit_fields(alloc, rows, context, constants, unit, tree)?;
    let members = or_drop!(
        member_rows(alloc, rows.tables, rows.stored, unit, &table.members);
        table
    );
    let items = tree.view().items;
    let made = items_of(alloc, context, constants, &table, calls, module, &items);
    drop(table);
    let made = or_drop!(made; members);
    Ok(Inside {
        items: made,
        members: Row::from_vec(members),
    })
}

/// What is made of a unit with these parameters, where `context` stands round the expressions of its module.
fn inside_unit<C: Context, V: Constants>(
    alloc: Global,
    rows: &UnitRows<'_>,
    context: &C,
    constants: &V,
    calls: UnitCalls,
    unit: u32,
    module: u32,
    tree: &Ref<'_, UnitKind>,
    parameters: &[Parameter],
) -> Result<Inside, NoMemory>
    requires { unit_of rows.now.tables.now.0 unit ≡ tree.now }
    ensures { IfOk result (λ r. r ≡ inside_with rows.now.tables.now.0 (told rows.now.stored.now)
        rows.now.sites.now rows.now.hooks.now (V.values constants.now) calls unit «module»
        tree.now (inside_unit unit parameters.now (C.around context.now))) }
{
    let seen = Parameters::new(alloc, parameters)?;
    let outer = WithParameters::new(context, &seen, 0, false);
    let ty = Type::word(Word::Unit(unit));
    let inside = WithSelf::new(&outer, &ty, Standing::Meant);
    inside_of(alloc, rows, &inside, constants, calls, unit, module, tree)
}

/// A unit of these parts.
fn unit_with(head: Head, parameters: Vec<Parameter>, inside: Inside) -> Unit
    ensures { result ≡ unit_with head parameters.items inside }
{
    let Inside { members, items } = inside;
    Unit {
        path: head.path,
        module: head.module,
        span: head.span,
        public: head.public,
        parameters: Row::from_vec(parameters),
        members,
        variables: items.variables,
        sinks: items.sinks,
        parts: items.parts,
        orders: items.orders,
        filter: items.filter,
        uses_input: items.uses_input,
        connects_filter: items.connects_filter,
    }
}

/// The unit that a tree is, of a declaration.
fn unit_in_tree<C: Context, V: Constants>(
    alloc: Global,
    rows: &UnitRows<'_>,
    context: &C,
    constants: &V,
    calls: UnitCalls,
    unit: u32,
    declaration: &Declaration<'_>,
    tree: &Ref<'_, UnitKind>,
) -> Result<Unit, NoMemory>
    requires { unit_of rows.now.tables.now.0 unit ≡ tree.now }
    ensures { IfOk result (λ u. u ≡ row_after rows.now.tables.now.0 (told rows.now.stored.now)
        rows.now.sites.now rows.now.hooks.now (V.values constants.now) calls unit declaration.now
        tree.now (C.around context.now)
        (parameters_in (C.around context.now) (parameter_trees tree.now))) }
{
    let head = head_of(alloc, rows.tables.names(), declaration)?;
    let own = parameters_in(alloc, context, tree.view().parameters)?;
    let module = declaration.module;
    let inside = inside_unit(
        alloc, rows, context, constants, calls, unit, module, tree, &own,
    )?;
    Ok(unit_with(head, own, inside))
}

/// What is no unit, by its declaration.
fn bare_unit(
    alloc: Global,
    names: &Names<'_>,
    calls: UnitCalls,
    declaration: &Declaration<'_>,
) -> Result<Unit, NoMemory>
    ensures { IfOk result (λ u. u ≡ bare_unit names.now calls declaration.now) }
{
    let head = head_of(alloc, names, declaration)?;
    let items = ItemRows {
        variables: Row::new(alloc),
        sinks: Row::new(alloc),
        parts: Row::new(alloc),
        orders: Row::new(alloc),
        filter: false,
        uses_input: calls_method(UnitMethod::Input, calls.input, &[], &[]),
        connects_filter: calls_method(UnitMethod::ConnectFilter, calls.connect_filter, &[], &[]),
    };
    let inside = Inside {
        members: Row::new(alloc),
        items,
    };
    Ok(unit_with(head, Vec::new(alloc), inside))
}

/// The unit of a declaration, which is that of this number.
#[tactic(auto, using(crate::proofs::Bodies::bare_is))]
fn declared_row<C: Context, V: Constants>(
    alloc: Global,
    rows: &UnitRows<'_>,
    context: &C,
    constants: &V,
    calls: UnitCalls,
    unit: u32,
    declaration: &Declaration<'_>,
) -> Result<Unit, NoMemory>
    requires { Some declaration.now ≡ unit_declaration rows.now.tables.now.0 unit }
    ensures { IfOk result (λ u. u ≡ declared_row rows.now.tables.now.0
        (told rows.now.stored.now) rows.now.sites.now rows.now.hooks.now (V.values constants.now)
        calls (C.around context.now) unit (Some declaration.now)) }
{
    match unit_in(&declaration.tree) {
        Some(tree) => unit_in_tree(
            alloc,
            rows,
            context,
            constants,
            calls,
            unit,
            declaration,
            &tree,
        ),
        None => bare_unit(alloc, rows.tables.names(), calls, declaration),
    }
}

/// No unit.
fn no_unit(alloc: Global) -> Result<Unit, NoMemory>
    ensures { IfOk result (λ u. u ≡ no_unit) }
{
    Ok(Unit {
        path: Text::new(alloc, "")?,
        module: 0,
        span: Span { from: 0, to: 0 },
        public: false,
        parameters: Row::new(alloc),
        members: Row::new(alloc),
        variables: Row::new(alloc),
        sinks: Row::new(alloc),
        parts: Row::new(alloc),
        orders: Row::new(alloc),
        filter: false,
        uses_input: false,
        connects_filter: false,
    })
}

impl<'a> UnitRows<'a> {
    /// The row of the unit of a number, whose hooks call these, where `context` stands round the expressions of its module. It
    /// takes time that grows with the unit's text and the hooks of its fields.
    pub fn row<C: Context, V: Constants>(
        &self,
        alloc: Global,
        context: &C,
        constants: &V,
        calls: UnitCalls,
        unit: u32,
    ) -> Result<Unit, NoMemory>
        ensures { IfOk result (λ u. u ≡ unit_row self.now.tables.now.0 (told self.now.stored.now)
            self.now.sites.now self.now.hooks.now (V.values constants.now) calls
            (C.around context.now) unit) }
    {
        let names = self.tables.names();
        match declaration_at(names, names.units(), unit as usize) {
            Some(declaration) => {
                declared_row(alloc, self, context, constants, calls, unit, declaration)
            }
            None => no_unit(alloc),
        }
    }
}
