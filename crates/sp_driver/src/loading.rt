// The list of modules that the words name is loaded.
ghost use Rattle.std.specs.Prelude.{◌≡◌, ◌<◌, ◌-◌, ◌^◌, List, IfOk, IfErr, MatchResult};
ghost use Rattle.sp_command.specs.Directories.{directories_of};
ghost use Rattle.sp_read_file.specs.Loads.{UnreadCause};
ghost use Rattle.sp_front.specs.declared.entries.ModuleFile.{ModuleFile as File};
ghost use Rattle.sp_front.specs.Asked.{Asks, AsksAll, AsksNoMore};
ghost use Rattle.sp_front.specs.inside.Follow.{IsRefusedBy};
ghost use Rattle.sp_load.specs.Loads.{IsLoaded, IsLoadRefused, sources_of, trees_of};
ghost use Rattle.sp_type_answers.specs.NameRules.{IsTyped};
ghost use Rattle.sp_driver.specs.inside.Ready.{PassesWhereBuilt};

use crate::loaded_lists::loaded_lists_pass;
use sp_base::Text;
use sp_command::directories_of;
use sp_io::Modules;
use sp_load::{Loaded, load};
use sp_read_file::Unread;
use std::alloc::Global;

/// Loads the list of modules that some files and their imports make, which are looked for in directories with a colon between two.
pub fn load_list<M: Modules>(
    alloc: Global,
    files: &[Text],
    directories: &str,
    modules: &mut M,
) -> Result<Loaded, Unread>
    requires { M.faults modules.old < 2 ^ 64 - 1 }
    ensures loaded { IfOk result (λ l. (fs : List File)
        × IsLoaded (M.files modules.old) files.now (directories_of directories.now) fs
        × (l.sources.items ≡ sources_of fs) × (l.modules.items ≡ trees_of fs)) }
    ensures typed { IfOk result (λ l. IsTyped l.modules.items l.typed) }
    ensures passing { IfOk result (λ l. PassesWhereBuilt l.modules.items l.typed) }
    ensures refused { IfErr result (IsRefusedBy (IsLoadRefused (M.files modules.old) files.now
        (directories_of directories.now))) }
    ensures asks { IfOk result (λ _. Asks (M.files modules.old) (M.asked modules.old)
        (M.asked modules.new) (λ told. AsksAll told files.now (directories_of directories.now))) }
    ensures asks_refused { IfErr result (IsRefusedBy (λ _. Asks (M.files modules.old)
        (M.asked modules.old) (M.asked modules.new)
        (λ told. AsksAll told files.now (directories_of directories.now)))) }
    ensures asks_no_more { Asks (M.files modules.old) (M.asked modules.old) (M.asked modules.new)
        (λ told. AsksNoMore told files.now (directories_of directories.now)) }
    ensures cause { MatchResult result (λ _. M.faults modules.new ≡ M.faults modules.old)
        (UnreadCause (M.faults modules.old) (M.faults modules.new)) }
{
    loaded_lists_pass();
    let directories = directories_of(alloc, directories)?;
    load(alloc, modules, files, &directories)
}
