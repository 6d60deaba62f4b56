// Options and flags.
ghost use Rattle.std.specs.Prelude.{◌≡◌, option_map};
ghost use Rattle.sp_driver_args.specs.Words.{valued, option_of, flag_of};
ghost use Rattle.sp_driver_args.specs.Wants.{taken_words, flag_words};

use sp_base::Text;
use sp_command::is_path;

/// The value of an option, where it is there, and the words behind it.
#[derive(Clone, Copy)]
pub struct Taken<'w> {
    pub value: Option<&'w str>,
    pub behind: &'w [Text],
}

/// Whether a flag is there, and the words behind it.
#[derive(Clone, Copy)]
pub struct Flag<'w> {
    pub set: bool,
    pub behind: &'w [Text],
}

/// The value of an option that is there.
fn valued(words: &[Text]) -> Option<Taken<'_>>
    ensures { option_map taken_words result ≡ valued words.now }
{
    match words {
        [] => None,
        [value, behind @ ..] => {
            if !is_path(value.as_str().as_bytes()) {
                return None;
            }
            Some(Taken {
                value: Some(value.as_str()),
                behind,
            })
        }
    }
}

/// The option of a name, where the words begin with it, or `None` where it lacks its value.
pub(crate) fn option_of<'w>(name: &str, words: &'w [Text]) -> Option<Taken<'w>>
    ensures { option_map taken_words result ≡ option_of name.now words.now }
{
    match words {
        [] => Some(Taken {
            value: None,
            behind: words,
        }),
        [word, behind @ ..] => {
            if word.as_str() == name {
                valued(behind)
            } else {
                Some(Taken {
                    value: None,
                    behind: words,
                })
            }
        }
    }
}

/// The flag of a name, where the words begin with it.
pub(crate) fn flag_of<'w>(name: &str, words: &'w [Text]) -> Flag<'w>
    ensures { flag_words result ≡ flag_of name.now words.now }
{
    match words {
        [] => Flag {
            set: false,
            behind: words,
        },
        [word, behind @ ..] => {
            if word.as_str() == name {
                Flag { set: true, behind }
            } else {
                Flag {
                    set: false,
                    behind: words,
                }
            }
        }
    }
}
