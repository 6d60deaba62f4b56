// Casts between integers, and between integers and enums.
ghost use Rattle.std.specs.Prelude.{◌≡◌, pos, IsTrue, false};
ghost use Rattle.sp_base.specs.declared.kinds.PKind.TheVariants.{CastRange};
ghost use Rattle.sp_numbers.specs.declared.width.Width.TheVariants.{W64};
ghost use Rattle.sp_numbers.specs.Numbers.{unsigned_or, signed_or};
ghost use Rattle.sp_value.specs.Val.{uint, int, enum};
ghost use Rattle.sp_operators.specs.Outcomes.{Answers};
ghost use Rattle.sp_operators.specs.Operands.{is_cast};
ghost use Rattle.sp_operators.specs.Operators.{value_or_error, cast};

use crate::fault::{ValueFault, told};
use crate::plain_type::PlainType;
use sp_base::PKind;
use sp_numbers::Width;
use sp_value::{Level, Value};

fn unsigned_as_unsigned(to: Width, n: u64) -> Result<Value, PKind>
    ensures { result ≡ value_or_error (uint to) (unsigned_or CastRange to (pos n)) }
{
    let number = sp_numbers::unsigned_to_unsigned(n, to)?;
    Ok(Value::uint(to, number))
}

fn unsigned_as_signed(to: Width, n: u64) -> Result<Value, PKind>
    ensures { result ≡ value_or_error (int to) (signed_or CastRange to (pos n)) }
{
    let number = sp_numbers::unsigned_to_signed(n, to)?;
    Ok(Value::int(to, number))
}

fn signed_as_unsigned(to: Width, n: i64) -> Result<Value, PKind>
    ensures { result ≡ value_or_error (uint to) (unsigned_or CastRange to n) }
{
    let number = sp_numbers::signed_to_unsigned(n, to)?;
    Ok(Value::uint(to, number))
}

fn signed_as_signed(to: Width, n: i64) -> Result<Value, PKind>
    ensures { result ≡ value_or_error (int to) (signed_or CastRange to n) }
{
    let number = sp_numbers::signed_to_signed(n, to)?;
    Ok(Value::int(to, number))
}

fn signed_as_label(kind: u32, n: i64) -> Result<Value, PKind>
    ensures { result ≡ value_or_error (enum kind) (unsigned_or CastRange W64 n) }
{
    let number = sp_numbers::signed_to_unsigned(n, Width::W64)?;
    Ok(Value::label(kind, number))
}

fn found(a: &Value, to: PlainType) -> Result<Value, PKind>
    requires { IsTrue (is_cast a.now to) }
    ensures { result ≡ cast a.now to }
{
    match a.level() {
        Level::Uint(_, n) => match to {
            PlainType::Uint(width) => unsigned_as_unsigned(width, n),
            PlainType::Int(width) => unsigned_as_signed(width, n),
            PlainType::Enum(kind) => Ok(Value::label(kind, n)),
            _ => unreachable!(),
        },
        Level::Int(_, n) => match to {
            PlainType::Uint(width) => signed_as_unsigned(width, n),
            PlainType::Int(width) => signed_as_signed(width, n),
            PlainType::Enum(kind) => signed_as_label(kind, n),
            _ => unreachable!(),
        },
        Level::Enum(_, n) => match to {
            PlainType::Uint(width) => unsigned_as_unsigned(width, n),
            _ => unreachable!(),
        },
        _ => unreachable!(),
    }
}

/// The value as one of another type: an integer as an integer or as an enum, which need not list its number, and a label as
/// an unsigned integer. It takes no memory. Error: `CastRange` where the other type doesn't have the number.
pub fn cast(a: &Value, to: &PlainType) -> Result<Value, ValueFault>
    requires { IsTrue (is_cast a.now to.now) }
    ensures { Answers false (cast a.now to.now) result }
{
    told(found(a, *to))
}
