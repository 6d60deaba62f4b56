// What constant expressions are worth, as the layer that evaluates them tells it.
ghost use Rattle.std.specs.Prelude.{◌≡◌, IfOk};
ghost use Rattle.sp_type_fields.specs.Values.{Values};

use sp_base::{ByteList, NoMemory, Text};
use sp_typed::Expr;
use std::alloc::Global;

/// The values of constant expressions.
pub trait Constants {
    ghost values: { Self → Values };

    /// The number of a constant, and the number that the value of an enum has.
    fn number(&self, alloc: Global, e: &Expr) -> Result<Option<u64>, NoMemory>
        ensures { IfOk result (λ n. n ≡ (values self.now).number e.now) };

    /// The bytes that a constant is.
    fn bytes(&self, alloc: Global, e: &Expr) -> Result<Option<ByteList>, NoMemory>
        ensures { IfOk result (λ b. b ≡ (values self.now).bytes e.now) };

    /// What stands between the slashes of a constant that is a regular expression.
    fn regex(&self, alloc: Global, e: &Expr) -> Result<Option<Text>, NoMemory>
        ensures { IfOk result (λ t. t ≡ (values self.now).regex e.now) };
}
