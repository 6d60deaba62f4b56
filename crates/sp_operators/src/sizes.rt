// The size of a value.
ghost use Rattle.std.specs.Prelude.{◌≡◌, length, IsTrue};
ghost use Rattle.std.specs.Str.{chars};
ghost use Rattle.sp_numbers.specs.declared.width.Width.TheVariants.{W64};
ghost use Rattle.sp_value.specs.Val.{uint};
ghost use Rattle.sp_operators.specs.Operands.{has_size};
ghost use Rattle.sp_operators.specs.Operators.{size_of};

use sp_numbers::Width;
use sp_value::{Level, Value};

/// How many characters a text has, which takes a look at each.
fn characters(text: &str) -> usize
    ensures { result ≡ length (chars text.now) }
{
    text.chars().count()
}

/// How many bytes, characters, items, keys or entries there are.
#[tactic(auto, using(sp_value::proofs::Lists::list_of_vals_of, sp_value::proofs::Lists::pairs_of_entries_of))]
fn count(value: &Value) -> usize
    requires { IsTrue (has_size value.now) }
    ensures { result ≡ size_of value.now }
{
    match value.level() {
        Level::Bytes(bytes) => bytes.len(),
        Level::Str(text) => characters(text),
        Level::Vector(items) => items.len(),
        Level::Set(_) => value.size().unwrap_or(0),
        Level::Map(_) => value.size().unwrap_or(0),
        _ => unreachable!(),
    }
}

/// `|x|`: the size of a value, a `uint64`. It takes no memory; that of a text takes a look at each of its characters.
pub fn size(value: &Value) -> Value
    requires { IsTrue (has_size value.now) }
    ensures { result ≡ uint W64 (size_of value.now) }
{
    Value::uint(Width::W64, count(value) as u64)
}
