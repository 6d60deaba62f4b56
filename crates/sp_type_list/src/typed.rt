// The typed list.
ghost use Rattle.std.specs.Prelude.{◌≡◌, ◌∷◌, ◌++◌, ℕ, [], length, map, Option, IfOk, OnOk};
ghost use Rattle.sp_solver.specs.Told.{told};
ghost use Rattle.sp_names.specs.declared.sort.DeclSort.TheVariants as sort_is;
ghost use Rattle.sp_names.specs.Declarations.{all_of};
ghost use Rattle.sp_typed.specs.declared.words.UnitMethod.TheVariants as method_is;
ghost use Rattle.sp_type_values.specs.Answers.{values};
ghost use Rattle.sp_type_unit_calls.specs.HookCalling.{callers, has};
ghost use Rattle.sp_type_modules.specs.Sources.{questions};
ghost use Rattle.sp_type_hook_rows.specs.HookRows.{keys_of};
ghost use Rattle.sp_types.specs.Types.{Ty};
ghost use Rattle.sp_type_hooks.specs.Fields.{seen_of};
ghost use Rattle.sp_type_hooks.specs.Hooks.{typed_hooks};
ghost use Rattle.sp_type_hooks.specs.inside.Tables.{Tells};
ghost use Rattle.sp_type_units.specs.UnitRows.{unit_row};
ghost use Rattle.sp_type_list_context.specs.Contexts.{in_modules, homes, seeing, unit_types, being, seeing_parameters};
ghost use Rattle.sp_type_list_context.specs.Holds.{here_told};
ghost use Rattle.sp_type_declarations.specs.FunctionsAndOrders.{ranks};
ghost use Rattle.sp_type_list.specs.inside.Units.{units_by};
ghost use Rattle.sp_type_answers.specs.Lists.{hooks_in, units_from, list_in};

use sp_base::{NoMemory, or_drop};
use sp_name_tables::number;
use sp_type_declarations::{SignedNumbers, aliases, bitfields, conversions, functions, orders};
use sp_type_hook_order::HookTable;
use sp_type_hook_rows::{HookRow, Site, keys_of};
use sp_type_hooks::{FieldTypes, ranks_of, typed_hooks};
use sp_type_list_context::{
    all_parameters, homes, in_modules, in_units, parameter_tables, seeing_parameters, unit_types,
};
use sp_type_modules::Here;
use sp_type_scopes::Parameters;
use sp_type_unit_calls::HookCalls;
use sp_type_units::{UnitCalls, UnitRows};
use sp_type_values::Known;
use sp_typed::UnitMethod;
use sp_typed_units::{Hook, Row, Typed, Unit};
use sp_types::Type;
use std::alloc::Global;

/// What hooks see of the fields on which they hang, where units have these parameters.
fn fields_seen(
    alloc: Global,
    known: &Known<'_>,
    stored: &[Option<Type>],
    sites: &[Site<'_>],
    rows: &[HookRow<'_>],
    seen: &[Parameters<'_>],
) -> Result<FieldTypes, NoMemory>
    ensures { IfOk result (Tells (keys_of rows.now) (seen_of known.now.row.now.0
        (being (unit_types 0 (all_of sort_is.Unit known.now.row.now.0)) (seeing
        (homes known.now.row.now.0 (told known.now.row.now.1) (told known.now.answers.now)
        (told stored.now)) seen.now)) (values known.now.row.now.0 (told known.now.row.now.1)
        (told known.now.answers.now)) sites.now)) }
{
    let tables = known.row.tables();
    let homes = homes(alloc, known, stored)?;
    let contexts = seeing_parameters(alloc, &homes, seen)?;
    let units = unit_types(alloc, tables.names())?;
    let inside = in_units(alloc, &units, &contexts)?;
    let keys = keys_of(alloc, rows)?;
    FieldTypes::new(alloc, tables, sites, &keys, &inside, known)
}

/// The hooks of the rows of a list, where units have these parameters, and this is seen of fields.
fn hooks_seeing(
    alloc: Global,
    known: &Known<'_>,
    stored: &[Option<Type>],
    types: &FieldTypes,
    rows: &[HookRow<'_>],
    seen: &[Parameters<'_>],
) -> Result<Vec<Hook>, NoMemory>
    ensures { (f : ℕ × ℕ × ℕ → Option Ty × Option Ty) → Tells (keys_of rows.now) f types.now
        → IfOk result (λ v. v.items ≡ typed_hooks (in_modules known.now.row.now.0
        (told known.now.row.now.1) (told known.now.answers.now) (told stored.now))
        (ranks known.now.row.now.0 (told known.now.row.now.1) (told known.now.answers.now))
        f seen.now rows.now) }
{
    let modules = in_modules(alloc, known, stored)?;
    typed_hooks(alloc, &modules, &SignedNumbers { known }, types, seen, rows)
}

/// The hooks of the rows of a list, where fields stand at these sites.
fn hooks_in(
    alloc: Global,
    known: &Known<'_>,
    stored: &[Option<Type>],
    sites: &[Site<'_>],
    rows: &[HookRow<'_>],
) -> Result<Vec<Hook>, NoMemory>
    ensures { IfOk result (λ v. v.items ≡ hooks_in known.now.row.now.0 (told known.now.row.now.1)
        (told known.now.answers.now) stored.now sites.now rows.now) }
{
    let parameters = all_parameters(alloc, known, stored)?;
    let seen = parameter_tables(alloc, &parameters)?;
    let types = fields_seen(alloc, known, stored, sites, rows, &seen)?;
    hooks_seeing(alloc, known, stored, &types, rows, &seen)
}

/// Which methods hooks call, by their units.
#[derive(Drop)]
struct Calls {
    input: HookCalls,
    connect_filter: HookCalls,
}

fn calls_in(alloc: Global, hooks: &[Hook]) -> Result<Calls, NoMemory>
    ensures input { IfOk result (λ c. c.input ≡ callers method_is.Input hooks.now) }
    ensures connect_filter { IfOk result (λ c. c.connect_filter
        ≡ callers method_is.ConnectFilter hooks.now) }
{
    Ok(Calls {
        input: HookCalls::new(alloc, UnitMethod::Input, hooks)?,
        connect_filter: HookCalls::new(alloc, UnitMethod::ConnectFilter, hooks)?,
    })
}

/// Which methods hooks of a unit call.
fn calls_of(calls: &Calls, unit: u32) -> UnitCalls
    ensures { result ≡ record { input = has unit calls.now.input; connect_filter = has unit calls.now.connect_filter } }
{
    UnitCalls {
        input: calls.input.has(unit),
        connect_filter: calls.connect_filter.has(unit),
    }
}

/// The unit of a number, where this stands round the expressions of its module.
fn unit_at(
    alloc: Global,
    known: &Known<'_>,
    units: &UnitRows<'_>,
    calls: &Calls,
    home: &Here<'_, Known<'_>>,
    unit: u32,
) -> Result<Unit, NoMemory>
    ensures { IfOk result (λ u. u ≡ unit_row units.now.tables.now.0 (told units.now.stored.now)
        units.now.sites.now units.now.hooks.now (values known.now.row.now.0
        (told known.now.row.now.1) (told known.now.answers.now))
        (record { input = has unit calls.now.input; connect_filter = has unit calls.now.connect_filter })
        (here_told home.now) unit) }
{
    units.row(alloc, home, known, calls_of(calls, unit), unit)
}

/// Adds the unit of a number.
fn add_unit(
    alloc: Global,
    known: &Known<'_>,
    units: &UnitRows<'_>,
    calls: &Calls,
    home: &Here<'_, Known<'_>>,
    count: usize,
    all: &mut Vec<Unit>,
) -> Result<(), NoMemory>
    ensures { OnOk result (all.new.items ≡ all.old.items ++ unit_row units.now.tables.now.0
        (told units.now.stored.now) units.now.sites.now units.now.hooks.now
        (values known.now.row.now.0 (told known.now.row.now.1) (told known.now.answers.now))
        (record { input = has count calls.now.input; connect_filter = has count calls.now.connect_filter })
        (here_told home.now) count ∷ []) }
{
    let unit = number(count)?;
    all.push(unit_at(alloc, known, units, calls, home, unit)?)?;
    Ok(())
}

/// The units that stand in these modules, by their numbers.
fn units_with(
    alloc: Global,
    known: &Known<'_>,
    units: &UnitRows<'_>,
    calls: &Calls,
    homes: &[Here<'_, Known<'_>>],
) -> Result<Vec<Unit>, NoMemory>
    ensures { IfOk result (λ v. v.items ≡ units_by units.now.tables.now.0
        (told units.now.stored.now) units.now.sites.now units.now.hooks.now
        (values known.now.row.now.0 (told known.now.row.now.1) (told known.now.answers.now))
        calls.now.input calls.now.connect_filter 0 (map here_told homes.now)) }
{
    let mut all = Vec::new(alloc);
    for i in 0..homes.len() {
        add_unit(alloc, known, units, calls, &homes[i], i, &mut all)?;
    }
    Ok(all)
}

/// All units, by their numbers.
fn units_in(
    alloc: Global,
    known: &Known<'_>,
    stored: &[Option<Type>],
    sites: &[Site<'_>],
    rows: &[HookRow<'_>],
    hooks: &[Hook],
) -> Result<Vec<Unit>, NoMemory>
    ensures { IfOk result (λ v. v.items ≡ units_from known.now.row.now.0
        (told known.now.row.now.1) (told known.now.answers.now) stored.now sites.now
        rows.now hooks.now 0 (homes known.now.row.now.0 (told known.now.row.now.1)
        (told known.now.answers.now) (told stored.now))) }
{
    let tables = known.row.tables();
    let homes = homes(alloc, known, stored)?;
    let table = HookTable::new(alloc, keys_of(alloc, rows)?, ranks_of(alloc, hooks)?)?;
    let units = UnitRows::new(alloc, tables, stored, sites, &table)?;
    let calls = calls_in(alloc, hooks)?;
    units_with(alloc, known, &units, &calls, &homes)
}

/// The typed list of a list of modules, where its type declarations, constants and labels are answered, `stored` tells the types
/// of the members of its units, and its hooks are these. It is linear in the text, apart from looking names up.
pub fn typed_list(
    alloc: Global,
    known: &Known<'_>,
    stored: &[Option<Type>],
    sites: &[Site<'_>],
    rows: &[HookRow<'_>],
) -> Result<Typed, NoMemory>
    requires { length stored.now ≡ length (questions known.now.row.now.0) }
    ensures { IfOk result (λ t. t ≡ list_in known.now.row.now.0 (told known.now.row.now.1)
        (told known.now.answers.now) stored.now sites.now rows.now) }
{
    let tables = known.row.tables();
    let names = tables.names();
    let hooks = hooks_in(alloc, known, stored, sites, rows)?;
    let units = or_drop!(
        units_in(alloc, known, stored, sites, rows, &hooks);
        hooks
    );
    let functions = or_drop!(
        functions(alloc, known, stored);
        hooks, units
    );
    let constants = or_drop!(
        known.constants(alloc);
        hooks, units, functions
    );
    let enums = or_drop!(
        known.enums(alloc);
        hooks, units, functions, constants
    );
    let bitfields = or_drop!(
        bitfields(alloc, names);
        hooks, units, functions, constants, enums
    );
    let aliases = or_drop!(
        aliases(alloc, names, tables.known());
        hooks, units, functions, constants, enums, bitfields
    );
    let conversions = or_drop!(
        conversions(alloc, known, stored, sites);
        hooks, units, functions, constants, enums, bitfields, aliases
    );
    let orders = or_drop!(
        orders(alloc, known, stored);
        hooks, units, functions, constants, enums, bitfields, aliases, conversions
    );
    Ok(Typed {
        units: Row::from_vec(units),
        functions: Row::from_vec(functions),
        hooks: Row::from_vec(hooks),
        constants: Row::from_vec(constants),
        enums: Row::from_vec(enums),
        bitfields: Row::from_vec(bitfields),
        aliases: Row::from_vec(aliases),
        conversions: Row::from_vec(conversions),
        orders: Row::from_vec(orders),
    })
}
