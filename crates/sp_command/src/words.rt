// The words of a command line.
ghost use Rattle.std.specs.Prelude.{◌≡◌};
ghost use Rattle.sp_command.specs.Words.{is_file};

/// Whether the word can be the path of a file: it is not empty and does not begin with a dash.
pub fn is_path(word: &[u8]) -> bool
    ensures { result ≡ is_file word.now }
{
    match word {
        [] => false,
        [first, ..] => *first != b'-',
    }
}
