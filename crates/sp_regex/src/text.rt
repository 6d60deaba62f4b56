// Reads the text of a regular expression.
ghost use Rattle.std.specs.Prelude.{◌≡◌, ℕ, IfOk, OnOk};
ghost use Rattle.sp_regex.specs.Trees.{Syntax};
ghost use Rattle.sp_regex.specs.Syntax.{Derives, IsRegexText, IsFault};

use crate::reader::Reader;
use crate::tree::Regex;
use sp_base::{NoMemory, or_drop};
use std::alloc::Global;
use thiserror::Error;

/// Why a text is not read as a regular expression.
#[derive(Debug, Drop, Error)]
pub enum RegexFault {
    /// The text is none: the place of the first byte that no such text has there, or the length where
    /// the text ends too early.
    #[error("no regular expression at byte {0}")]
    Bad(u64),
    /// There was no memory.
    #[error("out of memory")]
    NoMemory,
}

impl From<NoMemory> for RegexFault {
    ghost use Rattle.sp_regex.specs.declared.text.RegexFault.TheVariants;

    ghost from_gives = { λ _ e. e ≡ TheVariants.NoMemory };

    fn from(_: NoMemory) -> RegexFault {
        RegexFault::NoMemory
    }
}

/// The regular expression whose text these bytes are. One pass, and at most 64 groups deep.
pub fn parse(alloc: Global, text: &[u8]) -> Result<Regex, RegexFault>
    ensures text { OnOk result (IsRegexText text.now) }
    ensures tree { IfOk result (λ r. Derives text.now r) }
    ensures only { IfOk result (λ r. (other : Syntax) → Derives text.now other → other ≡ r) }
    ensures bad { (i : ℕ) → result ≡ Err (RegexFault.Bad i) → ¬ IsRegexText text.now }
    ensures place { (i : ℕ) → result ≡ Err (RegexFault.Bad i) → IsFault text.now i }
{
    let mut reader = Reader::new(alloc);
    for (i, byte) in text.iter().enumerate() {
        let goes_on = or_drop!(reader.step(*byte); reader);
        if !goes_on {
            drop(reader);
            return Err(RegexFault::Bad(i as u64));
        }
    }
    match reader.finish()? {
        Some(regex) => Ok(regex),
        None => Err(RegexFault::Bad(text.len() as u64)),
    }
}
