// Whether a key is in a set or a map, or bytes are a part of others.
ghost use Rattle.std.specs.Prelude.{◌≡◌, IsTrue};
ghost use Rattle.sp_operators.specs.Parts.{has_part};
ghost use Rattle.sp_operators.specs.Operands.{can_hold};
ghost use Rattle.sp_operators.specs.Operators.{is_in};

use memchr::memmem;
use sp_value::{Level, Value};

/// Whether the part stands in the whole. The time grows with the sum of their lengths.
fn has_part(whole: &[u8], part: &[u8]) -> bool
    ensures { result ≡ has_part whole.now part.now }
{
    memmem::find(whole, part).is_some()
}

/// Whether bytes stand in others, or a key in a set or a map.
pub(crate) fn is_in(a: &Value, b: &Value) -> bool
    requires { IsTrue (can_hold a.now b.now) }
    ensures { result ≡ is_in a.now b.now }
{
    match (a.level(), b.level()) {
        (Level::Bytes(part), Level::Bytes(whole)) => has_part(whole, part),
        _ => b.contains(a),
    }
}
