// What an expression is as a constant, and how large its value is.
ghost use Rattle.std.specs.Prelude.{◌≡◌, ◌≤◌, IfOk};
ghost use Rattle.sp_type_constants.specs.declared.outcome.Outcome.TheVariants as outcome_is;
ghost use Rattle.sp_type_constants.specs.Extents.{most_parts, most_levels};

use crate::outcome::Outcome;
use sp_base::{NoMemory, ResourceError};
use std::marker::Model;

/// The most parts that the value of a constant may have where it is written out: constants can build towers of values by
/// name, and whatever is compared or copied has to stay short. What is larger exceeds the limit.
pub const MOST_PARTS: u32 = 1 << 20;

/// The most parts of a value that stand inside one another, for what walks into values calls itself once a level.
pub const MOST_LEVELS: u16 = 1000;

/// How large a value is at most: how many parts it has where it is written out, and how many stand inside one another.
#[derive(Clone, Copy)]
pub(crate) struct Extent {
    parts: u32,
    levels: u16,
    ghost few: { parts ≤ most_parts },
    ghost low: { levels ≤ most_levels },
}

impl Extent {
    ghost use Rattle.std.specs.Prelude.{◌≡◌, ◌<◌, ◌+◌, max, ◌⊎◌, ◌↔◌, IfOk, IsErrOf, IsOkUnless};
    ghost use Rattle.sp_base.specs.declared.resources.ResourceError.TheVariants.{LimitExceeded};

    /// That of no value.
    pub(crate) fn none() -> Extent
        ensures parts { result.parts ≡ 0 }
        ensures levels { result.levels ≡ 0 }
    {
        Extent {
            parts: 0,
            levels: 0,
        }
    }

    /// That of a value without parts.
    pub(crate) fn one() -> Extent
        ensures parts { result.parts ≡ 1 }
        ensures levels { result.levels ≡ 1 }
    {
        Extent {
            parts: 1,
            levels: 1,
        }
    }

    /// That of bytes or a text of this length, unless it has too many parts.
    pub(crate) fn of_length(n: usize) -> Result<Extent, ResourceError>
        ensures extent { IfOk result (λ e. (e.parts ≡ n + 1) × (e.levels ≡ 1)) }
        ensures unless { IsOkUnless result LimitExceeded }
        ensures limit { IsErrOf result LimitExceeded ↔ (most_parts < n + 1) }
    {
        if n >= MOST_PARTS as usize {
            return Err(ResourceError::LimitExceeded);
        }
        Ok(Extent {
            parts: n as u32 + 1,
            levels: 1,
        })
    }

    /// That of two values side by side, unless they have too many parts.
    pub(crate) fn beside(self, other: Extent) -> Result<Extent, ResourceError>
        ensures extent { IfOk result (λ e. (e.parts ≡ self.parts + other.parts)
            × (e.levels ≡ max self.levels other.levels)) }
        ensures unless { IsOkUnless result LimitExceeded }
        ensures limit { IsErrOf result LimitExceeded ↔ (most_parts < self.parts + other.parts) }
    {
        let parts = self.parts + other.parts;
        if parts > MOST_PARTS {
            return Err(ResourceError::LimitExceeded);
        }
        let levels = if self.levels < other.levels {
            other.levels
        } else {
            self.levels
        };
        Ok(Extent { parts, levels })
    }

    /// That of a value made of these parts, unless it has too many of them or too many levels.
    pub(crate) fn around(self) -> Result<Extent, ResourceError>
        ensures extent { IfOk result (λ e. (e.parts ≡ self.parts + 1)
            × (e.levels ≡ self.levels + 1)) }
        ensures unless { IsOkUnless result LimitExceeded }
        ensures limit { IsErrOf result LimitExceeded
            ↔ ((most_parts < self.parts + 1) ⊎ (most_levels < self.levels + 1)) }
    {
        if self.parts >= MOST_PARTS || self.levels >= MOST_LEVELS {
            return Err(ResourceError::LimitExceeded);
        }
        Ok(Extent {
            parts: self.parts + 1,
            levels: self.levels + 1,
        })
    }
}

/// What an expression is as a constant. Clauses see the outcome alone.
#[derive(Drop)]
pub struct Measured {
    outcome: Outcome,
    extent: Extent,
}

impl Model for Measured {
    ghost use Rattle.std.specs.Coded.{codes};
    ghost use Rattle.sp_value.specs.contracts.value.Value as value_row;
    ghost use Rattle.sp_type_constants.specs.declared.outcome.Outcome.{Outcome as Data};

    ghost Value = { Data };

    ghost coded = { Prim.hlevel (codes, value_row.the_row.coded) };

    ghost view = { λ m. m.outcome };
}

impl Measured {
    /// What has this value, which is at most so large.
    pub(crate) fn new(outcome: Outcome, extent: Extent) -> Measured
        ensures { result ≡ outcome }
    {
        Measured { outcome, extent }
    }

    /// What has no value, or one without parts.
    pub(crate) fn small(outcome: Outcome) -> Measured
        ensures { result ≡ outcome }
    {
        Measured {
            outcome,
            extent: Extent::one(),
        }
    }

    /// What has no known value.
    pub fn unknown() -> Measured
        ensures { result ≡ outcome_is.Unknown }
    {
        Measured::small(Outcome::Unknown)
    }

    /// What is no constant expression.
    pub fn not_constant() -> Measured
        ensures { result ≡ outcome_is.NotConstant }
    {
        Measured::small(Outcome::NotConstant)
    }

    pub fn outcome(&self) -> &Outcome
        ensures { result.now ≡ self.now }
    {
        &self.outcome
    }

    pub fn into_outcome(self) -> Outcome
        ensures { result ≡ self }
    {
        self.outcome
    }

    /// How large its value is at most.
    pub(crate) fn extent(&self) -> Extent {
        self.extent
    }

    /// An equal one, which shares the parts of the value.
    pub fn copy(&self) -> Result<Measured, NoMemory>
        ensures { IfOk result (λ copy. copy ≡ self.now) }
    {
        Ok(Measured {
            outcome: self.outcome.copy()?,
            extent: self.extent,
        })
    }
}
