// The list of modules is read, and checked.
ghost use Rattle.std.specs.Prelude.{◌≡◌, ◌<◌, ◌-◌, ◌^◌, List, IfOk, IfErr, MatchResult};
ghost use Rattle.sp_read_file.specs.Loads.{UnreadCause};
ghost use Rattle.sp_front.specs.declared.entries.ModuleFile.{ModuleFile as File};
ghost use Rattle.sp_front.specs.Asked.{Asks, AsksAll, AsksNoMore};
ghost use Rattle.sp_front.specs.inside.Follow.{IsRefusedBy};
ghost use Rattle.sp_load.specs.Loads.{sources_of, trees_of, IsLoaded, IsLoadRefused, IsVerdict};
ghost use Rattle.sp_type_answers.specs.NameRules.{IsTyped};

use crate::loaded::{Loaded, parts_of};
use crate::sources::refusal_of;
use sp_ast::Module;
use sp_base::{Diag, NoMemory, Text};
use sp_check_unit::check;
use sp_front::read_list;
use sp_io::Modules;
use sp_read_file::Unread;
use sp_type_answers::CheckFault;
use sp_typed_units::Typed;
use std::alloc::Global;

/// What is typed of modules, or the least rule that is broken in them.
fn verdict_on(alloc: Global, modules: &[Module]) -> Result<Result<Typed, Diag>, NoMemory>
    ensures { IfOk result (IsVerdict modules.now) }
{
    match check(alloc, modules) {
        Ok(checked) => Ok(Ok(checked.into_typed())),
        Err(CheckFault::Diag(diag)) => Ok(Err(diag)),
        Err(CheckFault::NoMemory) => Err(NoMemory),
    }
}

/// Reads the list of modules, as `read_list` does, and checks it, as `check` does: the composition of the two. A refusal is that
/// of reading, or else that of the least rule that is broken, at the path of its module's file, and at the line and the column at
/// which the slice of text begins. Rules are asked only where all modules were read. No file is read but those that `read_list` reads,
/// and where nothing fails and there is memory exactly these are.
pub fn load<M: Modules>(
    alloc: Global,
    modules: &mut M,
    names: &[Text],
    directories: &[Text],
) -> Result<Loaded, Unread>
    requires { M.faults modules.old < 2 ^ 64 - 1 }
    ensures loaded { IfOk result (λ l. (fs : List File)
        × IsLoaded (M.files modules.old) names.now directories.now fs
        × (l.sources.items ≡ sources_of fs) × (l.modules.items ≡ trees_of fs)) }
    ensures typed { IfOk result (λ l. IsTyped l.modules.items l.typed) }
    ensures refused { IfErr result (IsRefusedBy (IsLoadRefused (M.files modules.old) names.now
        directories.now)) }
    ensures asks { IfOk result (λ _. Asks (M.files modules.old) (M.asked modules.old)
        (M.asked modules.new) (λ told. AsksAll told names.now directories.now)) }
    ensures asks_refused { IfErr result (IsRefusedBy (λ _. Asks (M.files modules.old)
        (M.asked modules.old) (M.asked modules.new)
        (λ told. AsksAll told names.now directories.now))) }
    ensures asks_no_more { Asks (M.files modules.old) (M.asked modules.old) (M.asked modules.new)
        (λ told. AsksNoMore told names.now directories.now) }
    ensures cause { MatchResult result (λ _. M.faults modules.new ≡ M.faults modules.old)
        (UnreadCause (M.faults modules.old) (M.faults modules.new)) }
{
    let files = read_list(alloc, modules, names, directories)?;
    let parts = parts_of(alloc, files)?;
    match verdict_on(alloc, &parts.modules)? {
        Ok(typed) => Ok(Loaded {
            sources: parts.sources,
            modules: parts.modules,
            typed,
        }),
        Err(diag) => Err(Unread::Refused(refusal_of(alloc, &parts.sources, diag)?)),
    }
}
