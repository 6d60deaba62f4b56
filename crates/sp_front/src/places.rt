// Places in texts.
ghost use Rattle.std.specs.Prelude.{◌≡◌, IfOk};
ghost use Rattle.sp_read_file.specs.Files.{place_in};

use sp_base::{NoMemory, Place, place_of};

/// The line and the column of a byte of a text; behind its end, those of the end.
pub fn place_in(text: &[u8], at: u32) -> Result<Place, NoMemory>
    ensures { IfOk result (λ place. place ≡ place_in text.now at) }
{
    if at == u32::MAX {
        return Err(NoMemory);
    }
    let inside = if (at as usize) < text.len() {
        at
    } else {
        text.len() as u32
    };
    Ok(place_of(text, inside))
}
