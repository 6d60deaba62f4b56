// The command line.
ghost use Rattle.std.specs.Prelude.{◌≡◌, option_map};
ghost use Rattle.sp_command.specs.Directories.{directories_of};
ghost use Rattle.sp_spicyc.specs.Wants.{wanted_words};
ghost use Rattle.sp_spicyc.specs.Words.{are_files, with_files, behind_directories, behind_library, words_of};

use sp_base::Text;
use sp_command::is_path;

/// The words of a call.
#[derive(Clone, Copy)]
pub struct Wanted<'w> {
    /// The directories in which imports are looked for, with a colon between two.
    pub directories: &'w str,
    /// Whether the modules are printed.
    pub print: bool,
    /// The files that are named.
    pub files: &'w [Text],
}

fn are_paths(words: &[Text]) -> bool
    ensures { result ≡ are_files words.now }
{
    words.iter().all(|word| is_path(word.as_str().as_bytes()))
}

/// These files, unless there are none or one of them can be no file.
fn with_files<'w>(directories: &'w str, print: bool, files: &'w [Text]) -> Option<Wanted<'w>>
    ensures { option_map wanted_words result ≡ with_files (directories_of directories.now) print files.now }
{
    if files.is_empty() || !are_paths(files) {
        return None;
    }
    Some(Wanted {
        directories,
        print,
        files,
    })
}

/// What the words behind the directories want.
fn behind_directories<'w>(directories: &'w str, words: &'w [Text]) -> Option<Wanted<'w>>
    ensures { option_map wanted_words result
        ≡ behind_directories (directories_of directories.now) words.now }
{
    match words {
        [] => None,
        [first, files @ ..] => {
            if first.as_str() == "--print" {
                with_files(directories, true, files)
            } else {
                with_files(directories, false, words)
            }
        }
    }
}

/// What the words behind `-L` want, the first of which are the directories.
fn behind_library(words: &[Text]) -> Option<Wanted<'_>>
    ensures { option_map wanted_words result ≡ behind_library words.now }
{
    match words {
        [] => None,
        [directories, words @ ..] => {
            if is_path(directories.as_str().as_bytes()) {
                behind_directories(directories.as_str(), words)
            } else {
                None
            }
        }
    }
}

/// What the words want, or `None` at a usage fault.
pub fn words_wanted(words: &[Text]) -> Option<Wanted<'_>>
    ensures { option_map wanted_words result ≡ words_of words.now }
{
    match words {
        [] => None,
        [first, behind @ ..] => {
            if first.as_str() == "-L" {
                behind_library(behind)
            } else {
                behind_directories("", words)
            }
        }
    }
}
