// What can be printed.
ghost use Rattle.std.specs.Prelude.{◌≡◌};
ghost use Rattle.sp_types.specs.Types.{tys};
ghost use Rattle.sp_rule_bodies.specs.StmtTests.{is_printable, are_printable};

use sp_types::{Level, Type, Word};

#[cycle(printable)]
fn are_printable(parts: &[Type]) -> bool
    ensures { result ≡ are_printable (tys parts.now) }
{
    for part in parts {
        if !is_printable(part) {
            return false;
        }
    }
    true
}

/// Whether values of a type can be printed.
#[cycle(printable)]
pub(crate) fn is_printable(t: &Type) -> bool
    ensures { result ≡ is_printable t.now }
{
    match t.level() {
        Level::Word(word) => !matches!(word, Word::Iterator),
        Level::Made(_, parts) => are_printable(parts),
    }
}
