// The operators on one value.
ghost use Rattle.std.specs.Prelude.{◌≡◌, neg_ℤ, IsTrue, false};
ghost use Rattle.sp_base.specs.declared.kinds.PKind.TheVariants.{Overflow};
ghost use Rattle.sp_numbers.specs.Numbers.{signed_or};
ghost use Rattle.sp_value.specs.Val.{int};
ghost use Rattle.sp_operators.specs.Outcomes.{Answers};
ghost use Rattle.sp_operators.specs.Operands.{takes_one};
ghost use Rattle.sp_operators.specs.Operators.{value_or_error, unary};

use crate::fault::{ValueFault, told};
use sp_base::PKind;
use sp_numbers::Width;
use sp_value::{Level, Value};
use sp_words::UnaryOp;

fn negated(width: Width, n: i64) -> Result<Value, PKind>
    ensures { result ≡ value_or_error (int width) (signed_or Overflow width (neg_ℤ n)) }
{
    let number = sp_numbers::negate_signed(width, n)?;
    Ok(Value::int(width, number))
}

fn found(op: UnaryOp, a: &Value) -> Result<Value, PKind>
    requires { IsTrue (takes_one op a.now) }
    ensures { result ≡ unary op a.now }
{
    match (op, a.level()) {
        (UnaryOp::Not, Level::Bool(b)) => Ok(Value::bool(!b)),
        (UnaryOp::Negate, Level::Int(width, n)) => negated(width, n),
        (UnaryOp::Complement, Level::Uint(width, n)) => {
            Ok(Value::uint(width, sp_numbers::complement(width, n)))
        }
        _ => unreachable!(),
    }
}

/// What the operator makes of a value. It takes no memory. Error: `Overflow` of `-`.
pub fn unary(op: UnaryOp, a: &Value) -> Result<Value, ValueFault>
    requires { IsTrue (takes_one op a.now) }
    ensures { Answers false (unary op a.now) result }
{
    told(found(op, a))
}
