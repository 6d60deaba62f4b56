// What parts lack to be values, and the truths among them.
ghost use Rattle.std.specs.Prelude.{◌≡◌};
ghost use Rattle.sp_type_constants.specs.Outcomes.{lacking, worse};

use crate::outcome::Outcome;
use sp_value::Level;

/// What an expression lacks to be a value, from the least on.
#[derive(Clone, Copy)]
pub(crate) enum Lack {
    Nothing,
    /// Nothing is known of it.
    Known,
    /// Its value is an error.
    Value,
    /// It is no constant expression.
    Constant,
}

impl Lack {
    /// The worse of two.
    pub(crate) fn worse(self, other: Lack) -> Lack
        ensures { result ≡ worse self other }
    {
        match (self, other) {
            (Lack::Nothing, other) => other,
            (Lack::Known, Lack::Nothing) => Lack::Known,
            (Lack::Known, other) => other,
            (Lack::Value, Lack::Constant) => Lack::Constant,
            (Lack::Value, _) => Lack::Value,
            (Lack::Constant, _) => Lack::Constant,
        }
    }

    /// What lacks this is no value.
    pub(crate) fn outcome(self) -> Outcome
        ensures { result ≡ lacking self }
    {
        match self {
            Lack::Nothing | Lack::Known => Outcome::Unknown,
            Lack::Value => Outcome::Error,
            Lack::Constant => Outcome::NotConstant,
        }
    }
}

impl Outcome {
    ghost use Rattle.std.specs.Prelude.{◌≡◌};
    ghost use Rattle.sp_type_constants.specs.Outcomes.{lack_of, is_constant, is_true, is_false};

    pub(crate) fn lack(&self) -> Lack
        ensures { result ≡ lack_of self.now }
    {
        match self {
            Outcome::Value(_) => Lack::Nothing,
            Outcome::Error => Lack::Value,
            Outcome::Regex(_) | Outcome::Unknown => Lack::Known,
            Outcome::NotConstant => Lack::Constant,
        }
    }

    pub(crate) fn is_constant(&self) -> bool
        ensures { result ≡ is_constant self.now }
    {
        !matches!(self, Outcome::NotConstant)
    }

    /// Whether it is the truth `True`.
    pub(crate) fn is_true(&self) -> bool
        ensures { result ≡ is_true self.now }
    {
        match self {
            Outcome::Value(value) => matches!(value.level(), Level::Bool(true)),
            _ => false,
        }
    }

    /// Whether it is the truth `False`.
    pub(crate) fn is_false(&self) -> bool
        ensures { result ≡ is_false self.now }
    {
        match self {
            Outcome::Value(value) => matches!(value.level(), Level::Bool(false)),
            _ => false,
        }
    }
}
