// What is known of the constants and the labels that an expression names.
ghost use Rattle.std.specs.Prelude.{◌≡◌, IfOk};
ghost use Rattle.sp_type_constants.specs.Known.{Known};

use crate::measured::Measured;
use sp_base::NoMemory;

/// What is known of constants and labels.
pub trait Constants {
    ghost known: { Self → Known };

    /// The constant of a number.
    fn constant(&self, number: u32) -> Result<Measured, NoMemory>
        ensures { IfOk result (λ r. r ≡ (known self.now).constant number) };

    /// The label of an enum, both by their numbers.
    fn label(&self, owner: u32, label: u32) -> Result<Measured, NoMemory>
        ensures { IfOk result (λ r. r ≡ (known self.now).label owner label) };
}
