// The files of a list without their trees, and places in them.
ghost use Rattle.std.specs.Prelude.{◌≡◌, IfOk};
ghost use Rattle.sp_read_file.specs.Files.{place_in, refused_at};
ghost use Rattle.sp_load.specs.Loads.{refusal_of};

use sp_base::{ByteList, Diag, MKind, NoMemory, Place, Text};
use sp_command::Refusal;
use sp_front::place_in;
use std::alloc::Global;

/// A file of a list: the path that was asked, and its text.
#[derive(Drop)]
pub struct Source {
    pub path: Text,
    pub text: ByteList,
}

/// A refusal of a file, at a place in its text.
fn refusal_in(source: &Source, from: u32, kind: MKind) -> Result<Refusal, NoMemory>
    ensures { IfOk result (λ r. r ≡ refused_at source.now.path (place_in source.now.text from)
        kind) }
{
    let place = place_in(source.text.as_slice(), from)?;
    let path = source.path.copy()?;
    Ok(Refusal { path, place, kind })
}

/// The refusal of a module of a list: the path of its file, and the line and the column at which the slice of its text begins.
pub fn refusal_of(alloc: Global, sources: &[Source], diag: Diag) -> Result<Refusal, NoMemory>
    ensures { IfOk result (λ r. r ≡ refusal_of sources.now diag) }
{
    match sources.get(diag.module as usize) {
        Some(source) => refusal_in(source, diag.span.from, diag.kind),
        None => Ok(Refusal {
            path: Text::new(alloc, "")?,
            place: Place { line: 0, col: 0 },
            kind: diag.kind,
        }),
    }
}
