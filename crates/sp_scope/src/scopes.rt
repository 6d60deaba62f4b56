// What the names of a list mean, and what its constants are.
ghost use Rattle.std.specs.Prelude.{◌≡◌, option_copied, slice_get, IfOk};
ghost use Rattle.sp_rule_lists.specs.Told.{constant_told, label_outcome, label_in};
ghost use Rattle.sp_scope.specs.Kept.{outcomes, outcome_or};

use sp_base::NoMemory;
use sp_type_constants::{Constants, Measured, label_of};
use sp_typed_units::{Enum, Label, LabelNumber, Typed};

/// What a label is.
fn label_outcome(owner: u32, number: LabelNumber) -> Measured
    ensures { result ≡ label_outcome owner number }
{
    match number {
        LabelNumber::Number(n) => label_of(owner, n),
        LabelNumber::NotConstant => Measured::not_constant(),
        LabelNumber::Past | LabelNumber::Unknown => Measured::unknown(),
    }
}

fn label_in(owner: u32, label: u32, found: Option<&Enum>) -> Measured
    ensures { result ≡ label_in owner label (option_copied found.entry) }
{
    match found {
        Some(one) => match one.labels.as_slice().get(label as usize) {
            Some(label) => label_outcome(owner, label.number),
            None => Measured::unknown(),
        },
        None => Measured::unknown(),
    }
}

fn constant_in(values: &[Measured], number: u32) -> Result<Measured, NoMemory>
    ensures { IfOk result (λ v. v ≡ outcome_or (slice_get values.now number)) }
{
    match values.get(number as usize) {
        Some(value) => value.copy(),
        None => Ok(Measured::unknown()),
    }
}

/// What the names of a list of modules mean and what type each part has.
#[derive(Drop)]
pub struct Scopes {
    pub(crate) typed: Typed,
    /// What the constants of the list are, by their numbers.
    values: Vec<Measured>,
    ghost same: { values.items ≡ outcomes typed.constants },
}

impl Scopes {
    pub(crate) fn new(typed: Typed, values: Vec<Measured>) -> Scopes
        requires { values.items ≡ outcomes typed.constants }
        ensures { result.typed ≡ typed }
    {
        Scopes { typed, values }
    }

    /// The typed list.
    pub fn typed(&self) -> &Typed
        ensures { result.now ≡ self.now.typed }
    {
        &self.typed
    }

    /// The typed list, moved.
    pub fn into_typed(self) -> Typed
        ensures { result ≡ self.typed }
    {
        self.typed
    }
}

impl Constants for Scopes {
    ghost use Rattle.sp_rule_lists.specs.Told.{values_of};

    ghost known = { λ s. values_of s.typed };

    #[tactic(auto, using(crate::proofs::Values::told_same))]
    fn constant(&self, number: u32) -> Result<Measured, NoMemory> {
        constant_in(&self.values, number)
    }

    fn label(&self, owner: u32, label: u32) -> Result<Measured, NoMemory> {
        Ok(label_in(
            owner,
            label,
            self.typed.enums.as_slice().get(owner as usize),
        ))
    }
}
