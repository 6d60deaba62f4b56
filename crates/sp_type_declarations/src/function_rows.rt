// The functions of a list of modules.
ghost use Rattle.std.specs.Prelude.{◌≡◌, ◌++◌, Some, option_copied, IfOk, OnOk};
ghost use Rattle.sp_names.specs.Declarations.{module_name, module_at};
ghost use Rattle.sp_solver.specs.Told.{told};
ghost use Rattle.sp_type_functions.specs.Functions.{function_of};
ghost use Rattle.sp_type_list_context.specs.Contexts.{in_module};
ghost use Rattle.sp_type_declarations.specs.FunctionsAndOrders.{declared_function, functions};

use sp_ast::{DeclView, Ref};
use sp_base::NoMemory;
use sp_names::{Declaration, RowTree, RowView};
use sp_type_context::Context;
use sp_type_functions::{function_of, no_function};
use sp_type_list_context::declared;
use sp_type_modules::Here;
use sp_type_values::Known;
use sp_typed_units::Function;
use sp_types::Type;
use std::alloc::Global;

/// The name of the module of a number in a list.
fn owner_name<'k>(known: &'k Known<'_>, number: u32) -> &'k str
    ensures { result.now ≡ module_name (module_at known.now.row.now.0 number) }
{
    known.row.tables().names().module_name(number)
}

/// The function that a tree declares, in what stands round it in its module.
fn tree_function<C: Context>(
    alloc: Global,
    context: &C,
    owner: &str,
    module: u32,
    tree: &RowTree<'_>,
) -> Result<Function, NoMemory>
    ensures { IfOk result (λ g. g
        ≡ function_of (C.around context.now) owner.now «module» tree.now) }
{
    match tree.view() {
        RowView::Declared(DeclView::Function { .. }) => {
            function_of(alloc, context, owner, module, &Ref::new(tree.lend()))
        }
        _ => no_function(alloc, module),
    }
}

/// The function of a declaration, in what stands round it.
fn function_in<C: Context>(
    alloc: Global,
    context: &C,
    known: &Known<'_>,
    found: &Declaration<'_>,
) -> Result<Function, NoMemory>
    ensures { IfOk result (λ g. g ≡ function_of (C.around context.now)
        (module_name (module_at known.now.row.now.0 found.now.«module»)) found.now.«module»
        found.now.tree) }
{
    let owner = owner_name(known, found.module);
    tree_function(alloc, context, owner, found.module, &found.tree)
}

/// The function of a declaration.
fn function_at(
    alloc: Global,
    known: &Known<'_>,
    stored: &[Option<Type>],
    found: &Declaration<'_>,
) -> Result<Function, NoMemory>
    ensures { IfOk result (λ g. g ≡ function_of (in_module known.now.row.now.0
        (told known.now.row.now.1) (told known.now.answers.now) (told stored.now)
        found.now.«module») (module_name (module_at known.now.row.now.0 found.now.«module»))
        found.now.«module» found.now.tree) }
{
    let here = Here {
        tables: known.row.tables(),
        stored,
        constants: known,
        owner: found.module,
    };
    function_in(alloc, &here, known, found)
}

/// Adds the function of a declaration.
fn add_function(
    alloc: Global,
    known: &Known<'_>,
    stored: &[Option<Type>],
    all: &mut Vec<Function>,
    declaration: Option<&Declaration<'_>>,
) -> Result<(), NoMemory>
    ensures { OnOk result (all.new.items ≡ all.old.items ++ declared_function
        known.now.row.now.0 (told known.now.row.now.1) (told known.now.answers.now)
        (told stored.now) (option_copied declaration.entry)) }
{
    match declaration {
        Some(found) => {
            all.push(function_at(alloc, known, stored, found)?)?;
            Ok(())
        }
        None => Ok(()),
    }
}

/// All functions of a list of modules, by their numbers.
pub fn functions(
    alloc: Global,
    known: &Known<'_>,
    stored: &[Option<Type>],
) -> Result<Vec<Function>, NoMemory>
    ensures { IfOk result (λ v. v.items ≡ functions known.now.row.now.0
        (told known.now.row.now.1) (told known.now.answers.now) (told stored.now)) }
{
    let names = known.row.tables().names();
    let mut all = Vec::new(alloc);
    for declaration in names.functions() {
        add_function(
            alloc,
            known,
            stored,
            &mut all,
            declared(names, *declaration),
        )?;
    }
    Ok(all)
}
