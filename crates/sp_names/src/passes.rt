// The tables over a list of modules, each made in one pass.
ghost use Rattle.std.specs.Prelude.{◌≡◌, ◌++◌, true, length, slice_get, IfOk, OnOk};
ghost use Rattle.sp_names.specs.Declarations.{declarations, rows, rows_of};
ghost use Rattle.sp_names.specs.Names.{label_name, labels_of};
ghost use Rattle.sp_names.specs.declared.sort.DeclSort.TheVariants as sort_is;
ghost use Rattle.sp_names.specs.Tables.{Each, IsOf, IsLabels, IsNumber, IsTable, AreSorted, grown, grown_by, number_by};
ghost use Rattle.sp_name_tables.specs.Tables.{told_by};

use crate::inner::inner_of;
use crate::rows::{Declaration, RowTree};
use crate::sort::DeclSort;
use crate::table::{ModuleNames, label_table, module_names};
use crate::tell::{declarations_of, labels_of, sort_of};
use sp_ast::{DeclKind, Members, Module, Ref};
use sp_base::NoMemory;
use sp_name_tables::{NameTable, number, sum};
use std::alloc::Global;

/// How many enums the library has. Their numbers are the first.
pub const LIBRARY_ENUMS: u32 = 4;

/// The row of a declaration.
#[tactic(auto, using(crate::proofs::Lists::declaration_is_row))]
fn declared<'a>(module: u32, tree: &Ref<'a, DeclKind>) -> Declaration<'a>
    ensures { result ≡ record { «module» = «module»; tree = tree.now } }
{
    tree.is_sound();
    Declaration {
        module,
        tree: RowTree::new(tree.lend()),
    }
}

fn add_rows<'a>(
    rows: &mut Vec<Declaration<'a>>,
    module: u32,
    declarations: Members<'a, DeclKind>,
) -> Result<(), NoMemory>
    ensures { OnOk result (rows.new.items ≡ rows.old.items ++ rows_of «module» declarations.entry) }
{
    for tree in declarations {
        rows.push(declared(module, &tree))?;
    }
    Ok(())
}

/// All declarations in one row.
fn declarations<'a>(alloc: Global, modules: &'a [Module]) -> Result<Vec<Declaration<'a>>, NoMemory>
    ensures { IfOk result (λ v. v.items ≡ declarations modules.now) }
{
    let mut rows = Vec::new(alloc);
    for i in 0..modules.len() {
        add_rows(&mut rows, number(i)?, declarations_of(&modules[i]))?;
    }
    Ok(rows)
}

/// All declarations in one row, and behind them all inner units and enums.
pub(crate) fn all_rows<'a>(
    alloc: Global,
    modules: &'a [Module],
) -> Result<Vec<Declaration<'a>>, NoMemory>
    ensures { IfOk result (λ v. v.items ≡ rows modules.now) }
{
    let mut rows = declarations(alloc, modules)?;
    let mut inner = inner_of(alloc, &rows)?;
    rows.append(&mut inner)?;
    Ok(rows)
}

/// The names of each module.
pub(crate) fn all_names(alloc: Global, modules: &[Module]) -> Result<Vec<ModuleNames>, NoMemory>
    ensures all { IfOk result (λ v. length v.items ≡ length modules.now) }
    ensures each { IfOk result (λ v. Each (IsOf modules.now) v.items) }
{
    let mut names = Vec::new(alloc);
    let mut first: u32 = 0;
    for i in 0..modules.len() {
        let declarations = declarations_of(&modules[i]);
        let count = number(declarations.len())?;
        names.push(module_names(alloc, declarations, first)?)?;
        first = sum(first, count)?;
    }
    Ok(names)
}

/// The numbers of declarations by their sorts, and the number of each among its sort.
#[derive(Drop)]
pub(crate) struct Sorted {
    pub(crate) units: Vec<u32>,
    pub(crate) enums: Vec<u32>,
    pub(crate) constants: Vec<u32>,
    pub(crate) functions: Vec<u32>,
}

/// Puts a number on a list, and tells how many stand before it.
fn put(list: &mut Vec<u32>, declaration: u32) -> Result<u32, NoMemory>
    ensures put { OnOk result (list.new.items ≡ grown true list.old.items declaration) }
    ensures before { IfOk result (λ n. n ≡ length list.old.items) }
{
    let before = number(list.len())?;
    list.push(declaration)?;
    Ok(before)
}

fn add_sorted(sorted: &mut Sorted, sort: DeclSort, declaration: u32) -> Result<u32, NoMemory>
    ensures units { OnOk result (sorted.new.units.items
        ≡ grown_by sort_is.Unit sort sorted.old.units.items declaration) }
    ensures enums { OnOk result (sorted.new.enums.items
        ≡ grown_by sort_is.Enum sort sorted.old.enums.items declaration) }
    ensures constants { OnOk result (sorted.new.constants.items
        ≡ grown_by sort_is.Constant sort sorted.old.constants.items declaration) }
    ensures functions { OnOk result (sorted.new.functions.items
        ≡ grown_by sort_is.Function sort sorted.old.functions.items declaration) }
    ensures number { IfOk result (λ n. n ≡ number_by sorted.old.units.items sorted.old.enums.items
        sorted.old.constants.items sorted.old.functions.items sort) }
{
    match sort {
        DeclSort::Unit => put(&mut sorted.units, declaration),
        DeclSort::Enum => {
            let before = put(&mut sorted.enums, declaration)?;
            sum(before, LIBRARY_ENUMS)
        }
        DeclSort::Constant => put(&mut sorted.constants, declaration),
        DeclSort::Function => put(&mut sorted.functions, declaration),
        _ => Ok(0),
    }
}

/// The numbers of all units, enums, constants and functions, and the number of each declaration among its sort.
pub(crate) fn all_sorted(
    alloc: Global,
    rows: &[Declaration<'_>],
) -> Result<(Sorted, Vec<u32>), NoMemory>
    ensures sorted { IfOk result (λ r. AreSorted rows.now r.0.units.items r.0.enums.items
        r.0.constants.items r.0.functions.items) }
    ensures all { IfOk result (λ r. length r.1.items ≡ length rows.now) }
    ensures each { IfOk result (λ r. Each (IsNumber rows.now) r.1.items) }
{
    let mut sorted = Sorted {
        units: Vec::new(alloc),
        enums: Vec::new(alloc),
        constants: Vec::new(alloc),
        functions: Vec::new(alloc),
    };
    let mut numbers = Vec::new(alloc);
    for g in 0..rows.len() {
        let among = add_sorted(&mut sorted, sort_of(&rows[g].tree), number(g)?)?;
        numbers.push(among)?;
    }
    Ok((sorted, numbers))
}

/// The labels of the enum that a declaration is.
fn labels_at(
    alloc: Global,
    rows: &[Declaration<'_>],
    declaration: u32,
) -> Result<NameTable, NoMemory>
    ensures { IfOk result (λ t. IsTable label_name 0
        (labels_of (slice_get rows.now declaration)) (told_by t)) }
{
    match rows.get(declaration as usize) {
        Some(row) => match labels_of(&row.tree) {
            Some(labels) => label_table(alloc, labels),
            None => Ok(NameTable::new(alloc)),
        },
        None => Ok(NameTable::new(alloc)),
    }
}

/// The labels of each enum of the list.
pub(crate) fn all_labels(
    alloc: Global,
    rows: &[Declaration<'_>],
    enums: &[u32],
) -> Result<Vec<NameTable>, NoMemory>
    ensures all { IfOk result (λ v. length v.items ≡ length enums.now) }
    ensures each { IfOk result (λ v. Each (IsLabels rows.now enums.now) v.items) }
{
    let mut tables = Vec::new(alloc);
    for n in 0..enums.len() {
        tables.push(labels_at(alloc, rows, enums[n])?)?;
    }
    Ok(tables)
}
