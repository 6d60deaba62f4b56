// How a unit stands.
ghost use Rattle.std.specs.Prelude.{◌≡◌, IfOk};

use sp_base::{NoMemory, ParseError};

/// How a unit stands: it waits for more input, it was read whole, or it failed.
#[derive(Drop)]
pub enum Stand {
    Waiting,
    Done,
    Failed(ParseError),
}

impl Stand {
    /// An equal stand.
    pub fn copy(&self) -> Result<Stand, NoMemory>
        ensures { IfOk result (λ copy. copy ≡ self.now) }
    {
        match self {
            Stand::Waiting => Ok(Stand::Waiting),
            Stand::Done => Ok(Stand::Done),
            Stand::Failed(error) => Ok(Stand::Failed(copy_of(error)?)),
        }
    }
}

/// An equal error.
pub fn copy_of(error: &ParseError) -> Result<ParseError, NoMemory>
    ensures { IfOk result (λ copy. copy ≡ error.now) }
{
    let text = match &error.text {
        Some(text) => Some(text.copy()?),
        None => None,
    };
    Ok(ParseError {
        kind: error.kind,
        offset: error.offset,
        text,
    })
}
