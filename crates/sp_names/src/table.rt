// Tables of names: the number of the first tree that gives each.
ghost use Rattle.std.specs.Prelude.{Some, None, option_copied, IfOk, OnOk};
ghost use Rattle.sp_names.specs.Names.{declared_name, import_name, label_name, name_of_module};
ghost use Rattle.sp_names.specs.Tables.{IsNoted, IsTable};
ghost use Rattle.sp_name_tables.specs.Tables.{told_by};

use crate::tell::{declared_name, import_name, label_name, name_of};
use sp_ast::{DeclKind, LabelKind, Members, Module};
use sp_base::{NoMemory, or_drop};
use sp_name_tables::{NameTable, declare, sum};
use std::alloc::Global;

/// The names of one module.
#[derive(Drop)]
pub(crate) struct ModuleNames {
    /// The number of the first type, constant or function of each name.
    pub(crate) declared: NameTable,
    /// The number of the first import of each name.
    pub(crate) imported: NameTable,
}

/// The numbers of modules, from 0, by their names.
pub(crate) fn module_table(alloc: Global, modules: &[Module]) -> Result<NameTable, NoMemory>
    ensures { IfOk result (λ t. IsTable name_of_module 0 modules.now (told_by t)) }
{
    let mut table = NameTable::new(alloc);
    let mut number = 0;
    for i in 0..modules.len() {
        or_drop!(note_name(alloc, &mut table, Some(name_of(&modules[i])), number); table);
        number = or_drop!(sum(number, 1); table);
    }
    Ok(table)
}

/// Notes the number of a name, if there is one, unless it has one.
pub fn note_name(
    alloc: Global,
    table: &mut NameTable,
    name: Option<&str>,
    number: u32,
) -> Result<(), NoMemory>
    ensures { OnOk result (IsNoted (told_by table.old) (told_by table.new)
        (option_copied name.entry) number) }
{
    match name {
        Some(name) => declare(alloc, table, name, number),
        None => Ok(()),
    }
}

/// The places of labels, from 0, by their names.
pub(crate) fn label_table(
    alloc: Global,
    labels: Members<'_, LabelKind>,
) -> Result<NameTable, NoMemory>
    ensures { IfOk result (λ t. IsTable label_name 0 labels.entry (told_by t)) }
{
    let mut table = NameTable::new(alloc);
    let mut number = 0;
    for label in labels {
        or_drop!(note_name(alloc, &mut table, label_name(&label), number); table);
        number = or_drop!(sum(number, 1); table);
    }
    Ok(table)
}

/// The names of a module by its declarations, of which the first has this number.
pub(crate) fn module_names(
    alloc: Global,
    declarations: Members<'_, DeclKind>,
    first: u32,
) -> Result<ModuleNames, NoMemory>
    ensures declared { IfOk result (λ t. IsTable declared_name first declarations.entry
        (told_by t.declared)) }
    ensures imported { IfOk result (λ t. IsTable import_name first declarations.entry
        (told_by t.imported)) }
{
    let mut declared = NameTable::new(alloc);
    let mut imported = NameTable::new(alloc);
    let mut number = first;
    for declaration in declarations {
        or_drop!(note_name(alloc, &mut declared, declared_name(&declaration), number); declared, imported);
        or_drop!(note_name(alloc, &mut imported, import_name(&declaration), number); declared, imported);
        number = or_drop!(sum(number, 1); declared, imported);
    }
    Ok(ModuleNames { declared, imported })
}
