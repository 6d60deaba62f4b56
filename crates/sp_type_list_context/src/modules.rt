// What stands round the expressions of modules.
ghost use Rattle.std.specs.Prelude.{◌≡◌, ◌+◌, ◌++◌, ◌∷◌, [], map, IfOk, OnOk};
ghost use Rattle.sp_solver.specs.Told.{told};
ghost use Rattle.sp_type_list_context.specs.Contexts.{in_module, in_modules};
ghost use Rattle.sp_type_list_context.specs.Holds.{here_told};

use sp_base::NoMemory;
use sp_names::Names;
use sp_type_modules::Here;
use sp_type_values::Known;
use sp_types::Type;
use std::alloc::Global;

/// The names of a list whose constants and labels are answered.
pub(crate) fn names_of<'k>(known: &'k Known<'k>) -> &'k Names<'k>
    ensures { result.now ≡ known.now.row.now.0 }
{
    known.row.tables().names()
}

/// What stands round the expressions of a module.
pub(crate) fn in_module<'a>(
    known: &'a Known<'a>,
    stored: &'a [Option<Type>],
    owner: u32,
) -> Here<'a, Known<'a>>
    ensures { here_told result ≡ in_module known.now.row.now.0 (told known.now.row.now.1)
        (told known.now.answers.now) (told stored.now) owner }
{
    Here {
        tables: known.row.tables(),
        stored,
        constants: known,
        owner,
    }
}

/// Adds what stands round the expressions of a module.
pub(crate) fn add_module<'a>(
    all: &mut Vec<Here<'a, Known<'a>>>,
    known: &'a Known<'a>,
    stored: &'a [Option<Type>],
    owner: u32,
) -> Result<(), NoMemory>
    ensures { OnOk result (map here_told all.new.items ≡ map here_told all.old.items
        ++ in_module known.now.row.now.0 (told known.now.row.now.1)
        (told known.now.answers.now) (told stored.now) owner ∷ []) }
{
    all.push(in_module(known, stored, owner))?;
    Ok(())
}

/// The next number. Lists of more modules than numbers don't fit into memory.
pub(crate) fn next(number: u32) -> Result<u32, NoMemory>
    ensures { IfOk result (λ n. n ≡ number + 1) }
{
    number.checked_add(1).ok_or(NoMemory)
}

/// What stands round the expressions of each module of a list, by its number, where its constants and labels are answered and
/// `stored` tells the types of the members of its units.
pub fn in_modules<'a>(
    alloc: Global,
    known: &'a Known<'a>,
    stored: &'a [Option<Type>],
) -> Result<Vec<Here<'a, Known<'a>>>, NoMemory>
    ensures { IfOk result (λ v. map here_told v.items ≡ in_modules known.now.row.now.0
        (told known.now.row.now.1) (told known.now.answers.now) (told stored.now)) }
{
    let mut all = Vec::new(alloc);
    let mut owner: u32 = 0;
    for _module in names_of(known).modules() {
        add_module(&mut all, known, stored, owner)?;
        owner = next(owner)?;
    }
    Ok(all)
}
