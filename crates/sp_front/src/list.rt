// The list of modules.
ghost use Rattle.std.specs.Prelude.{◌≡◌, ◌<◌, ◌-◌, ◌^◌, IfOk, IfErr, MatchResult};
ghost use Rattle.sp_read_file.specs.Loads.{UnreadCause};
ghost use Rattle.sp_front.specs.Asked.{Asks, AsksList, AsksRefused, AsksNoMore};
ghost use Rattle.sp_front.specs.Lists.{IsList, IsListRefused, entries_of, stop, clear};
ghost use Rattle.sp_front.specs.inside.Follow.{IsRefusedBy};

use crate::entries::{Entry, ModuleFile};
use crate::follow::complete;
use crate::named::read_named;
use crate::seen::Seen;
use sp_base::{NoMemory, Text};
use sp_io::Modules;
use sp_read_file::Unread;
use std::alloc::Global;

/// The files of entries that are all modules.
fn files_of(alloc: Global, entries: Vec<Entry>) -> Result<Vec<ModuleFile>, NoMemory>
    requires { stop entries.items ≡ clear }
    ensures { IfOk result (λ files. entries_of files.items ≡ entries.items) }
{
    let mut files = Vec::new(alloc);
    for entry in entries {
        match entry {
            Entry::Held(file) => files.push(file)?,
            Entry::Refused(..) => unreachable!(),
        }
    }
    Ok(files)
}

/// Reads the list of modules: the named files in order, then the file of each import whose module is not in the list, in the
/// order in which they are first mentioned. An import's file is the first that is there in the directories in order, each
/// with the module's name in lower case and `.spicy` behind it, and last by that name alone. The refusal is the first in
/// the order of the list: a file that is not there or is no module, a module of a name that is taken, an import whose
/// file is not there or holds another module, a module past the 256th, which is not read.
pub fn read_list<M: Modules>(
    alloc: Global,
    modules: &mut M,
    names: &[Text],
    directories: &[Text],
) -> Result<Vec<ModuleFile>, Unread>
    requires { M.faults modules.old < 2 ^ 64 - 1 }
    ensures list { IfOk result (λ files. IsList (M.files modules.old) names.now directories.now
        files.items) }
    ensures asks { IfOk result (λ files. Asks (M.files modules.old) (M.asked modules.old)
        (M.asked modules.new) (λ told. AsksList told names.now directories.now files.items)) }
    ensures asks_refused { IfErr result (IsRefusedBy (λ r. Asks (M.files modules.old)
        (M.asked modules.old) (M.asked modules.new)
        (λ told. AsksRefused told names.now directories.now r))) }
    ensures asks_no_more { Asks (M.files modules.old) (M.asked modules.old) (M.asked modules.new)
        (λ told. AsksNoMore told names.now directories.now) }
    ensures refused { IfErr result (IsRefusedBy (IsListRefused (M.files modules.old) names.now
        directories.now)) }
    ensures cause { MatchResult result (λ _. M.faults modules.new ≡ M.faults modules.old)
        (UnreadCause (M.faults modules.old) (M.faults modules.new)) }
{
    let mut seen = Seen::new(alloc);
    let mut entries = read_named(alloc, modules, names, &mut seen)?;
    complete(alloc, modules, directories, &mut entries, &mut seen)?;
    Ok(files_of(alloc, entries)?)
}
