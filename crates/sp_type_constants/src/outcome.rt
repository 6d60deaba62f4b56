// What an expression is as a constant.
ghost use Rattle.std.specs.Prelude.{◌≡◌, IfOk};

use sp_base::{NoMemory, Text};
use sp_value::Value;

/// What an expression is as a constant.
#[derive(Drop)]
pub enum Outcome {
    Value(Value),
    /// A regular expression: what stands between the slashes, as it is written.
    Regex(Text),
    /// It is no constant expression.
    NotConstant,
    /// It is a constant expression whose value is an error.
    Error,
    /// Nothing is known of it, since a part of it breaks another rule.
    Unknown,
}

impl Outcome {
    /// An equal one, which shares the parts of the value.
    pub fn copy(&self) -> Result<Outcome, NoMemory>
        ensures { IfOk result (λ copy. copy ≡ self.now) }
    {
        match self {
            Outcome::Value(value) => Ok(Outcome::Value(value.copy()?)),
            Outcome::Regex(text) => Ok(Outcome::Regex(text.copy()?)),
            Outcome::NotConstant => Ok(Outcome::NotConstant),
            Outcome::Error => Ok(Outcome::Error),
            Outcome::Unknown => Ok(Outcome::Unknown),
        }
    }
}
