// The file of an import: it is looked for at one path after another.
ghost use Rattle.std.specs.Prelude.{◌≡◌, ◌<◌, ◌-◌, ◌^◌, ◌++◌, ◌∷◌, [], codes, string_bytes, IfOk, IfErr, MatchResult};
ghost use Rattle.sp_io.specs.Asked.{also_asked};
ghost use Rattle.sp_read_file.specs.Loads.{UnreadCause};
ghost use Rattle.sp_front.specs.Asked.{asked_for};
ghost use Rattle.sp_front.specs.Imports.{file_name, paths_of};
ghost use Rattle.sp_front.specs.inside.Asking.{Asked, AskedPart};
ghost use Rattle.sp_front.specs.inside.Files.{IsRead, IsFound, IsNoRefusal};

use sp_base::{ByteList, NoMemory, Text};
use sp_io::{Modules, ModulesFault};
use sp_read_file::Unread;
use std::alloc::Global;

/// The name of the file of a module.
fn file_name(alloc: Global, name: &str) -> Result<String, NoMemory>
    ensures { IfOk result (λ s. string_bytes s ≡ file_name name.now) }
{
    let mut file = name.to_ascii_lowercase(alloc)?;
    file.push_str(".spicy")?;
    Ok(file)
}

/// The path of a file in a directory.
fn path_in(alloc: Global, directory: &str, file: &str) -> Result<Text, NoMemory>
    ensures { IfOk result (λ t. t ≡ directory.now ++ codes "/" ++ file.now) }
{
    let mut path = String::from_str(alloc, directory)?;
    path.push_str("/")?;
    path.push_str(file)?;
    Text::from_string(path)
}

/// The text of the file at a path, if there is one.
pub(crate) fn read<M: Modules>(modules: &mut M, path: &str) -> Result<Option<ByteList>, Unread>
    requires { M.faults modules.old < 2 ^ 64 - 1 }
    ensures read { IfOk result (IsRead (M.files modules.old) path.now) }
    ensures unread { IfErr result IsNoRefusal }
    ensures asks { MatchResult result (λ _. M.asked modules.new
        ≡ also_asked (M.asked modules.old) (path.now ∷ []))
        (λ _. M.asked modules.new ≡ M.asked modules.old) }
    ensures files { M.files modules.new ≡ M.files modules.old }
    ensures cause { MatchResult result (λ _. M.faults modules.new ≡ M.faults modules.old)
        (UnreadCause (M.faults modules.old) (M.faults modules.new)) }
{
    match modules.read(path) {
        Ok(text) => Ok(text),
        Err(ModulesFault::Failed) => Err(Unread::ModulesFault),
        Err(ModulesFault::NoMemory) => Err(Unread::NoMemory),
    }
}

/// The first file that is there at one of the paths of a module, and its text.
pub(crate) fn find<M: Modules>(
    alloc: Global,
    modules: &mut M,
    directories: &[Text],
    name: &str,
) -> Result<Option<(Text, ByteList)>, Unread>
    requires { M.faults modules.old < 2 ^ 64 - 1 }
    ensures found { IfOk result (IsFound (M.files modules.old) (paths_of directories.now name.now)) }
    ensures unread { IfErr result IsNoRefusal }
    ensures asks { IfOk result (λ _. Asked (M.files modules.old) (M.asked modules.old)
        (M.asked modules.new) (λ files. asked_for files directories.now name.now)) }
    ensures asks_part { IfErr result (λ _. AskedPart (M.files modules.old) (M.asked modules.old)
        (M.asked modules.new) (λ files. asked_for files directories.now name.now)) }
    ensures files { M.files modules.new ≡ M.files modules.old }
    ensures cause { MatchResult result (λ _. M.faults modules.new ≡ M.faults modules.old)
        (UnreadCause (M.faults modules.old) (M.faults modules.new)) }
{
    let file = file_name(alloc, name)?;
    for directory in directories {
        let path = path_in(alloc, directory.as_str(), file.as_str())?;
        if let Some(text) = read(modules, path.as_str())? {
            return Ok(Some((path, text)));
        }
    }
    match read(modules, file.as_str())? {
        Some(text) => Ok(Some((Text::from_string(file)?, text))),
        None => Ok(None),
    }
}
