// The types that are words of integers.
ghost use Rattle.std.specs.Prelude.{◌≡◌};
ghost use Rattle.sp_types.specs.Integers.{int_word};

use crate::words::Word;
use sp_numbers::Width;
use sp_words::IntWord;

/// The type that is a word of integers.
pub fn int_word(word: IntWord) -> Word
    ensures { result ≡ int_word word }
{
    match word {
        IntWord::Uint8 => Word::Uint(Width::W8),
        IntWord::Uint16 => Word::Uint(Width::W16),
        IntWord::Uint32 => Word::Uint(Width::W32),
        IntWord::Uint64 => Word::Uint(Width::W64),
        IntWord::Int8 => Word::Int(Width::W8),
        IntWord::Int16 => Word::Int(Width::W16),
        IntWord::Int32 => Word::Int(Width::W32),
        IntWord::Int64 => Word::Int(Width::W64),
    }
}
