// Sizes of statements in which no other one stands.
ghost use Rattle.std.specs.Prelude.{◌≡◌, IfOk};
ghost use Rattle.sp_typed.specs.Exprs.{exprs};
ghost use Rattle.sp_code_programs.specs.units.Sizes.{bare_size, valued_size, values_size};
ghost use Rattle.sp_lower_expr.specs.Around.{layout_in};

use crate::changes::key_size;
use crate::nodes::expr_size;
use sp_base::NoMemory;
use sp_lower_expr::{Around, slot_local, sum};
use sp_typed::{BareOp, Expr, ValuedOp};

/// A statement without parts.
pub(crate) fn bare_size(op: &BareOp) -> u32
    ensures { result ≡ bare_size op.now }
{
    match op {
        BareOp::Local(_) => 2,
        BareOp::Return => 2,
        BareOp::Break(_) => 1,
        BareOp::Continue(_) => 1,
        _ => 0,
    }
}

/// A statement with one expression.
pub(crate) fn valued_size(around: &Around<'_>, op: &ValuedOp, e: &Expr) -> Result<u32, NoMemory>
    ensures { IfOk result (λ n. n ≡ valued_size (layout_in around.now) op.now e.now) }
{
    match op {
        ValuedOp::Assert(_) => sum(expr_size(around, e)?, 2),
        ValuedOp::Add(owner) => key_size(around, slot_local(around, *owner)?, e),
        ValuedOp::Delete(owner) => key_size(around, slot_local(around, *owner)?, e),
        _ => sum(expr_size(around, e)?, 1),
    }
}

/// How many instructions test the values of a case.
pub fn values_size(around: &Around<'_>, values: &[Expr]) -> Result<u32, NoMemory>
    ensures { IfOk result (λ n. n ≡ values_size (layout_in around.now) (exprs values.now)) }
{
    let mut total = 0;
    for value in values {
        total = sum(total, sum(expr_size(around, value)?, 4)?)?;
    }
    Ok(total)
}
