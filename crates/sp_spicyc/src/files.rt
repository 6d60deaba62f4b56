// The list is loaded, and its named files are printed.
ghost use Rattle.std.specs.Prelude.{◌≡◌, ◌<◌, ◌-◌, ◌^◌, List, if◌then◌else◌, [], take, length, flat_map, IfOk, IfErr, MatchResult};
ghost use Rattle.sp_command.specs.Directories.{directories_of};
ghost use Rattle.sp_print.specs.Canonical.{canonical};
ghost use Rattle.sp_read_file.specs.Loads.{UnreadCause};
ghost use Rattle.sp_front.specs.declared.entries.ModuleFile.{ModuleFile as File};
ghost use Rattle.sp_front.specs.Asked.{Asks, AsksAll, AsksNoMore};
ghost use Rattle.sp_front.specs.inside.Follow.{IsRefusedBy};
ghost use Rattle.sp_load.specs.Loads.{IsLoaded, IsLoadRefused};
ghost use Rattle.sp_spicyc.specs.Files.{printed, printed_first};
ghost use Rattle.sp_spicyc.specs.Wants.{wanted_words, with_directories};

use crate::words::Wanted;
use sp_ast::Module;
use sp_base::{ByteList, NoMemory, Text};
use sp_command::directories_of;
use sp_io::Modules;
use sp_load::load;
use sp_print::print_module;
use sp_read_file::Unread;
use std::alloc::Global;

/// The first modules, so many of them, or all where there are less.
fn first_of(most: usize, modules: &[Module]) -> &[Module]
    ensures { result.now ≡ take most modules.now }
{
    if most < modules.len() {
        &modules[..most]
    } else {
        modules
    }
}

/// The canonical texts of modules.
fn print_all(alloc: Global, modules: &[Module]) -> Result<ByteList, NoMemory>
    ensures { IfOk result (λ text. text ≡ flat_map canonical modules.now) }
{
    let mut text = ByteList::new(alloc);
    for one in modules {
        text.append(print_module(alloc, one)?.as_str().as_bytes())?;
    }
    Ok(text)
}

/// What is printed of modules, if they are: the first, so many of them.
fn print_first(
    alloc: Global,
    print: bool,
    most: usize,
    modules: &[Module],
) -> Result<ByteList, NoMemory>
    ensures { IfOk result (λ text. text
        ≡ (if print then printed_first most modules.now else [])) }
{
    if print {
        print_all(alloc, first_of(most, modules))
    } else {
        Ok(ByteList::new(alloc))
    }
}

/// Loads the list of modules that words want with these directories, and answers what is printed of it.
fn load_from<M: Modules>(
    alloc: Global,
    wanted: &Wanted<'_>,
    directories: &[Text],
    modules: &mut M,
) -> Result<ByteList, Unread>
    requires { M.faults modules.old < 2 ^ 64 - 1 }
    ensures loads { IfOk result (λ text. (list : List File)
        × IsLoaded (M.files modules.old) wanted.now.files.now directories.now list
        × (text ≡ printed (with_directories directories.now wanted.now) list)) }
    ensures unread { IfErr result (IsRefusedBy (IsLoadRefused (M.files modules.old)
        wanted.now.files.now directories.now)) }
    ensures asks { IfOk result (λ _. Asks (M.files modules.old) (M.asked modules.old)
        (M.asked modules.new) (λ told. AsksAll told wanted.now.files.now directories.now)) }
    ensures asks_refused { IfErr result (IsRefusedBy (λ _. Asks (M.files modules.old)
        (M.asked modules.old) (M.asked modules.new)
        (λ told. AsksAll told wanted.now.files.now directories.now))) }
    ensures asks_no_more { Asks (M.files modules.old) (M.asked modules.old) (M.asked modules.new)
        (λ told. AsksNoMore told wanted.now.files.now directories.now) }
    ensures cause { MatchResult result (λ _. M.faults modules.new ≡ M.faults modules.old)
        (UnreadCause (M.faults modules.old) (M.faults modules.new)) }
{
    let list = load(alloc, modules, wanted.files, directories)?;
    let most = wanted.files.len();
    let text = print_first(alloc, wanted.print, most, &list.modules);
    drop(list);
    Ok(text?)
}

/// Loads the list of modules that words want, and answers what is printed of it.
pub fn load_and_print<M: Modules>(
    alloc: Global,
    wanted: &Wanted<'_>,
    modules: &mut M,
) -> Result<ByteList, Unread>
    requires { M.faults modules.old < 2 ^ 64 - 1 }
    ensures loads { IfOk result (λ text. (list : List File)
        × IsLoaded (M.files modules.old) wanted.now.files.now
        (directories_of wanted.now.directories.now) list
        × (text ≡ printed (wanted_words wanted.now) list)) }
    ensures unread { IfErr result (IsRefusedBy (IsLoadRefused (M.files modules.old)
        wanted.now.files.now (directories_of wanted.now.directories.now))) }
    ensures asks { IfOk result (λ _. Asks (M.files modules.old) (M.asked modules.old)
        (M.asked modules.new) (λ told. AsksAll told wanted.now.files.now
        (directories_of wanted.now.directories.now))) }
    ensures asks_refused { IfErr result (IsRefusedBy (λ _. Asks (M.files modules.old)
        (M.asked modules.old) (M.asked modules.new) (λ told. AsksAll told wanted.now.files.now
        (directories_of wanted.now.directories.now)))) }
    ensures asks_no_more { Asks (M.files modules.old) (M.asked modules.old) (M.asked modules.new)
        (λ told. AsksNoMore told wanted.now.files.now
        (directories_of wanted.now.directories.now)) }
    ensures cause { MatchResult result (λ _. M.faults modules.new ≡ M.faults modules.old)
        (UnreadCause (M.faults modules.old) (M.faults modules.new)) }
{
    let directories = directories_of(alloc, wanted.directories)?;
    let text = load_from(alloc, wanted, &directories, modules);
    drop(directories);
    text
}
