// What the words of a call want.
ghost use Rattle.std.specs.Prelude.{◌≡◌, option_map, IfSome};
ghost use Rattle.sp_driver_args.specs.Words.{are_files, text_or_nothing, with_files, limits_of, flags_of, words_of};
ghost use Rattle.sp_driver_args.specs.Wants.{wanted_words, AreInRange};

use crate::numbers::number_in;
use crate::options::{flag_of, option_of};
use sp_base::Text;
use sp_command::is_path;

/// The most bytes of a piece, and the size of pieces without `-i`.
const MOST_PIECE: u64 = 65_536;

/// The turns that may pass without a byte, without `--max-turns`, and the most that it can name.
const TURNS: u64 = 1_000_000;

const MOST_TURNS: u64 = 1 << 32;

/// The most bytes that a run takes.
const MOST_TAKEN: u64 = 1 << 62;

/// The words of a run.
#[derive(Clone, Copy)]
pub struct Wanted<'w> {
    /// The path of the unit that runs, as `M::U`, where one is named.
    pub unit: Option<&'w str>,
    /// The size of its pieces in bytes.
    pub increment: u64,
    /// The directories in which imports are looked for, with a colon between two.
    pub directories: &'w str,
    /// Whether lines on the bytes that are kept are written.
    pub report: bool,
    /// Whether lines on hooks are written.
    pub trace: bool,
    /// How many turns may pass without a byte.
    pub turns: u64,
    /// How many bytes may be taken.
    pub most: u64,
    /// The files that are named.
    pub files: &'w [Text],
}

/// Whether all words can be files.
fn are_files(words: &[Text]) -> bool
    ensures { result ≡ are_files words.now }
{
    words.iter().all(|word| is_path(word.as_str().as_bytes()))
}

fn text_or_nothing(text: Option<&str>) -> &str
    ensures { result.now ≡ text_or_nothing (option_map (λ s. s.now) text.entry) }
{
    match text {
        Some(text) => text,
        None => "",
    }
}

/// These files, unless there are none or one of them can be no file.
fn with_files<'w>(wanted: Wanted<'w>, files: &'w [Text]) -> Option<Wanted<'w>>
    requires { AreInRange wanted }
    ensures value { option_map wanted_words result ≡ with_files (wanted_words wanted.entry) files.now }
    ensures range { IfSome result AreInRange }
{
    if files.is_empty() || !are_files(files) {
        return None;
    }
    Some(Wanted { files, ..wanted })
}

/// What the words behind the flags want.
fn limits_of<'w>(wanted: Wanted<'w>, words: &'w [Text]) -> Option<Wanted<'w>>
    requires { AreInRange wanted }
    ensures value { option_map wanted_words result ≡ limits_of (wanted_words wanted.entry) words.now }
    ensures range { IfSome result AreInRange }
{
    let turns = option_of("--max-turns", words)?;
    let most_turns = number_in(1, MOST_TURNS, TURNS, turns.value)?;
    let input = option_of("--max-input", turns.behind)?;
    let most_taken = number_in(0, MOST_TAKEN, MOST_TAKEN, input.value)?;
    let limited = Wanted {
        turns: most_turns,
        most: most_taken,
        ..wanted
    };
    with_files(limited, input.behind)
}

/// What the words behind the directories want.
fn flags_of<'w>(wanted: Wanted<'w>, words: &'w [Text]) -> Option<Wanted<'w>>
    requires { AreInRange wanted }
    ensures value { option_map wanted_words result ≡ flags_of (wanted_words wanted.entry) words.now }
    ensures range { IfSome result AreInRange }
{
    let report = flag_of("--report", words);
    let trace = flag_of("--trace", report.behind);
    let flagged = Wanted {
        report: report.set,
        trace: trace.set,
        ..wanted
    };
    limits_of(flagged, trace.behind)
}

/// What the words want, or `None` at a usage fault.
pub fn words_wanted(words: &[Text]) -> Option<Wanted<'_>>
    ensures value { option_map wanted_words result ≡ words_of words.now }
    ensures range { IfSome result AreInRange }
{
    let unit = option_of("-p", words)?;
    let pieces = option_of("-i", unit.behind)?;
    let increment = number_in(1, MOST_PIECE, MOST_PIECE, pieces.value)?;
    let library = option_of("-L", pieces.behind)?;
    let wanted = Wanted {
        unit: unit.value,
        increment,
        directories: text_or_nothing(library.value),
        report: false,
        trace: false,
        turns: TURNS,
        most: MOST_TAKEN,
        files: &[],
    };
    flags_of(wanted, library.behind)
}
