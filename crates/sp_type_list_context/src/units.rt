// What stands round the expressions of units, and their parameters.
ghost use Rattle.std.specs.Prelude.{◌≡◌, ◌++◌, ◌∷◌, [], false, Some, map, option_copied, IfOk, OnOk};
ghost use Rattle.sp_names.specs.declared.sort.DeclSort.TheVariants as sort_is;
ghost use Rattle.sp_names.specs.Declarations.{all_of};
ghost use Rattle.sp_names.specs.Names.{declaration_of};
ghost use Rattle.sp_type_modules.specs.Members.{unit_in};
ghost use Rattle.sp_solver.specs.Told.{told};
ghost use Rattle.sp_typed.specs.declared.words.Standing.TheVariants as standing_is;
ghost use Rattle.sp_type_scopes.specs.Parameters.{parameters_in, with_parameters};
ghost use Rattle.sp_type_scopes.specs.Decorators.{with_self};
ghost use Rattle.sp_type_list_context.specs.Contexts.{module_of, parameter_trees, parameters_of, all_parameters, homes, seeing, unit_types, being};
ghost use Rattle.sp_type_list_context.specs.Holds.{here_told, seeing_told, unit_told};

use crate::modules::{add_module, in_module, names_of, next};
use sp_ast::{Ref, UnitKind};
use sp_base::{NoMemory, or_drop};
use sp_names::{Declaration, Names};
use sp_type_context::Context;
use sp_type_modules::{Here, unit_in};
use sp_type_scopes::{Parameters, WithParameters, WithSelf, parameters_in};
use sp_type_values::Known;
use sp_typed::Standing;
use sp_typed_units::{Parameter, Row};
use sp_types::{Type, Word};
use std::alloc::Global;

/// The declaration of a number.
pub fn declared<'n, 'a>(names: &'n Names<'a>, declaration: u32) -> Option<&'n Declaration<'a>>
    ensures { option_copied result ≡ declaration_of names.now (Some declaration) }
{
    names.rows().get(declaration as usize)
}

fn module_of(declaration: Option<&Declaration<'_>>) -> u32
    ensures { result ≡ module_of (option_copied declaration.entry) }
{
    match declaration {
        Some(found) => found.module,
        None => 0,
    }
}

/// The module of the declaration of a number.
fn module_at(names: &Names<'_>, declaration: u32) -> u32
    ensures { result ≡ module_of (declaration_of names.now (Some declaration)) }
{
    module_of(declared(names, declaration))
}

/// The parameters of a unit, in what stands round it.
fn unit_parameters<C: Context>(
    alloc: Global,
    context: &C,
    unit: &Ref<'_, UnitKind>,
) -> Result<Vec<Parameter>, NoMemory>
    ensures { IfOk result (λ v. v.items
        ≡ parameters_in (C.around context.now) (parameter_trees unit.now)) }
{
    parameters_in(alloc, context, unit.view().parameters)
}

/// The parameters of the unit that a declaration declares.
fn declared_parameters(
    alloc: Global,
    known: &Known<'_>,
    stored: &[Option<Type>],
    declaration: &Declaration<'_>,
) -> Result<Vec<Parameter>, NoMemory>
    ensures { IfOk result (λ v. v.items ≡ parameters_of known.now.row.now.0
        (told known.now.row.now.1) (told known.now.answers.now) (told stored.now)
        (Some declaration.now)) }
{
    match unit_in(&declaration.tree) {
        Some(unit) => {
            let here = in_module(known, stored, declaration.module);
            unit_parameters(alloc, &here, &unit)
        }
        None => Ok(Vec::new(alloc)),
    }
}

fn parameters_of(
    alloc: Global,
    known: &Known<'_>,
    stored: &[Option<Type>],
    declaration: Option<&Declaration<'_>>,
) -> Result<Vec<Parameter>, NoMemory>
    ensures { IfOk result (λ v. v.items ≡ parameters_of known.now.row.now.0
        (told known.now.row.now.1) (told known.now.answers.now) (told stored.now)
        (option_copied declaration.entry)) }
{
    match declaration {
        Some(found) => declared_parameters(alloc, known, stored, found),
        None => Ok(Vec::new(alloc)),
    }
}

/// The parameters of each unit of a list, by its number.
pub fn all_parameters(
    alloc: Global,
    known: &Known<'_>,
    stored: &[Option<Type>],
) -> Result<Vec<Row<Parameter>>, NoMemory>
    ensures { IfOk result (λ v. v.items ≡ all_parameters known.now.row.now.0
        (told known.now.row.now.1) (told known.now.answers.now) (told stored.now)) }
{
    let names = names_of(known);
    let mut all = Vec::new(alloc);
    for declaration in names.units() {
        let own = parameters_of(alloc, known, stored, declared(names, *declaration));
        let own = or_drop!(own; all);
        or_drop!(all.push(Row::from_vec(own)); all);
    }
    Ok(all)
}

/// The parameters of each unit, to be found by their names.
pub fn parameter_tables<'a>(
    alloc: Global,
    rows: &'a [Row<Parameter>],
) -> Result<Vec<Parameters<'a>>, NoMemory>
    ensures { IfOk result (λ v. v.items ≡ rows.now) }
{
    let mut all = Vec::new(alloc);
    for i in 0..rows.len() {
        let table = or_drop!(Parameters::new(alloc, rows[i].as_slice()); all);
        or_drop!(all.push(table); all);
    }
    Ok(all)
}

/// What stands round the expressions of the module of each unit, by the unit's number.
pub fn homes<'a>(
    alloc: Global,
    known: &'a Known<'a>,
    stored: &'a [Option<Type>],
) -> Result<Vec<Here<'a, Known<'a>>>, NoMemory>
    ensures { IfOk result (λ v. map here_told v.items ≡ homes known.now.row.now.0
        (told known.now.row.now.1) (told known.now.answers.now) (told stored.now)) }
{
    let names = names_of(known);
    let mut all = Vec::new(alloc);
    let units = names.units();
    for i in 0..units.len() {
        let owner = module_at(names, units[i]);
        add_module(&mut all, known, stored, owner)?;
    }
    Ok(all)
}

/// Adds what stands round an expression that sees parameters.
fn add_seeing<'a>(
    all: &mut Vec<WithParameters<'a, Here<'a, Known<'a>>>>,
    home: &'a Here<'a, Known<'a>>,
    table: &'a Parameters<'a>,
) -> Result<(), NoMemory>
    ensures { OnOk result (map seeing_told all.new.items ≡ map seeing_told all.old.items
        ++ with_parameters 0 false table.now (here_told home.now) ∷ []) }
{
    all.push(WithParameters::new(home, table, 0, false))?;
    Ok(())
}

/// What stands round the expressions of each unit, with its parameters.
pub fn seeing_parameters<'a>(
    alloc: Global,
    homes: &'a [Here<'a, Known<'a>>],
    tables: &'a [Parameters<'a>],
) -> Result<Vec<WithParameters<'a, Here<'a, Known<'a>>>>, NoMemory>
    ensures { IfOk result (λ v. map seeing_told v.items
        ≡ seeing (map here_told homes.now) tables.now) }
{
    let mut all = Vec::new(alloc);
    for i in 0..homes.len() {
        let Some(table) = tables.get(i) else {
            return Ok(all);
        };
        add_seeing(&mut all, &homes[i], table)?;
    }
    Ok(all)
}

/// The type of each unit of a list, by its number.
pub fn unit_types(alloc: Global, names: &Names<'_>) -> Result<Vec<Type>, NoMemory>
    ensures { IfOk result (λ v. v.items ≡ unit_types 0 (all_of sort_is.Unit names.now)) }
{
    let mut all = Vec::new(alloc);
    let mut unit: u32 = 0;
    for _declaration in names.units() {
        all.push(Type::word(Word::Unit(unit)))?;
        unit = next(unit)?;
    }
    Ok(all)
}

/// Adds what stands round an expression where `self` is of a type.
fn add_being<'a>(
    all: &mut Vec<WithSelf<'a, WithParameters<'a, Here<'a, Known<'a>>>>>,
    ty: &'a Type,
    context: &'a WithParameters<'a, Here<'a, Known<'a>>>,
) -> Result<(), NoMemory>
    ensures { OnOk result (map unit_told all.new.items ≡ map unit_told all.old.items
        ++ with_self ty.now standing_is.Meant (seeing_told context.now) ∷ []) }
{
    all.push(WithSelf::new(context, ty, Standing::Meant))?;
    Ok(())
}

/// What stands round the expressions of each unit, where `self` is the unit.
pub fn in_units<'a>(
    alloc: Global,
    types: &'a [Type],
    contexts: &'a [WithParameters<'a, Here<'a, Known<'a>>>],
) -> Result<Vec<WithSelf<'a, WithParameters<'a, Here<'a, Known<'a>>>>>, NoMemory>
    ensures { IfOk result (λ v. map unit_told v.items
        ≡ being types.now (map seeing_told contexts.now)) }
{
    let mut all = Vec::new(alloc);
    for i in 0..types.len() {
        let Some(context) = contexts.get(i) else {
            return Ok(all);
        };
        add_being(&mut all, &types[i], context)?;
    }
    Ok(all)
}
