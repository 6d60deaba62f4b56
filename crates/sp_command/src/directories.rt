// The directories in which imports are looked for.
ghost use Rattle.std.specs.Prelude.{◌≡◌, ◌++◌, ◌∷◌, [], if◌then◌else◌, IfOk, OnOk};
ghost use Rattle.sp_command.specs.Directories.{directories_of, is_empty};

use sp_base::{NoMemory, Text};
use std::alloc::Global;

/// Appends a directory, unless it is empty.
fn push_directory(
    alloc: Global,
    directories: &mut Vec<Text>,
    directory: &str,
) -> Result<(), NoMemory>
    ensures { OnOk result (directories.new.items ≡ directories.old.items
        ++ (if is_empty directory.now then [] else directory.now ∷ [])) }
{
    if !directory.is_empty() {
        directories.push(Text::new(alloc, directory)?)?;
    }
    Ok(())
}

/// The directories of a text that has them with a colon between two. Empty ones are passed over.
pub fn directories_of(alloc: Global, text: &str) -> Result<Vec<Text>, NoMemory>
    ensures { IfOk result (λ ds. ds.items ≡ directories_of text.now) }
{
    let mut directories = Vec::new(alloc);
    let mut rest = text;
    while let Some((directory, behind)) = rest.split_once(':') {
        push_directory(alloc, &mut directories, directory)?;
        rest = behind;
    }
    push_directory(alloc, &mut directories, rest)?;
    Ok(directories)
}
