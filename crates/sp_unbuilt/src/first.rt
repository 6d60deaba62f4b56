// The first of constructs that aren't built.
ghost use Rattle.std.specs.Prelude.{◌≡◌, if◌then◌else◌};
ghost use Rattle.sp_unbuilt.specs.First.{precedes, earlier};
ghost use Rattle.sp_unbuilt.specs.Constructs.{at};

use sp_base::{Diag, MKind, Span};

/// Whether one begins before another: by module, and by the place at which its slice begins.
fn precedes(diag: Diag, other: Diag) -> bool
    ensures { result ≡ precedes diag other }
{
    if diag.module == other.module {
        diag.span.from < other.span.from
    } else {
        diag.module < other.module
    }
}

/// Notes one more: the first stays.
fn note(first: &mut Option<Diag>, diag: Diag)
    ensures { first.new ≡ earlier first.old diag }
{
    match *first {
        None => *first = Some(diag),
        Some(old) => {
            if precedes(diag, old) {
                *first = Some(diag);
            }
        }
    }
}

/// Notes a construct that isn't built where the test holds, on a slice of the text of a module.
pub(crate) fn note_at(test: bool, owner: u32, span: Span, first: &mut Option<Diag>)
    ensures { first.new ≡ (if test then earlier first.old (at owner span) else first.old) }
{
    if test {
        let diag = Diag {
            module: owner,
            span,
            kind: MKind::OutOfProfile,
        };
        note(first, diag);
    }
}
