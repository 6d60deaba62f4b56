// What a rule asks that a node can't tell.
ghost use Rattle.std.specs.Prelude.{◌≡◌, IfOk};
ghost use Rattle.sp_rule_bodies.specs.Known.{Known};

use sp_base::NoMemory;
use sp_typed::{Expr, ManyOp};
use sp_types::Type;
use std::alloc::Global;

/// Whether an expression has a constant value.
#[derive(Clone, Copy, PartialEq, Eq, Debug)]
pub enum Constancy {
    Constant,
    /// It is no constant expression, or its value is an error.
    NotConstant,
    /// It hangs on a constant that breaks a rule itself.
    Unknown,
}

/// What a rule asks that a node can't tell.
pub trait Facts {
    ghost known: { Self → Known };

    /// The type to which an argument goes, by its number from 0, where the receiver has this type. There is none where
    /// there are no more parameters than that number.
    fn target(&self, op: &ManyOp, receiver: &Type, number: usize) -> Result<Option<Type>, NoMemory>
        ensures { IfOk result (λ t. t ≡ (known self.now).target op.now receiver.now number) };

    /// Whether a slot of the body is that of the variable of a `for`, which can't be changed.
    fn fixed(&self, slot: u32) -> bool
        ensures { result ≡ (known self.now).fixed slot };

    /// Whether an expression has a constant value. It is asked of indexes of tuples that are no member's.
    fn constancy(&self, alloc: Global, e: &Expr) -> Result<Constancy, NoMemory>
        ensures { IfOk result (λ c. c ≡ (known self.now).constancy e.now) };
}
