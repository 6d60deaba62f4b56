// The ranks of priorities, as the layer that evaluates constants tells them.
ghost use Rattle.std.specs.Prelude.{◌≡◌, ℤ, Option, IfOk};
ghost use Rattle.sp_typed.specs.Exprs.{Expr as Data};

use sp_base::NoMemory;
use sp_typed::Expr;
use std::alloc::Global;

/// The signed numbers that constant expressions are.
pub trait Ranks {
    ghost ranks: { Self → Data → Option ℤ };

    /// The signed number of an expression, where it is constant and has one.
    fn rank(&self, alloc: Global, e: &Expr) -> Result<Option<i64>, NoMemory>
        ensures { IfOk result (λ n. n ≡ ranks self.now e.now) };
}
