// The last line of a run on the made input.
ghost use Rattle.std.specs.Prelude.{◌≡◌, IfOk};
ghost use Rattle.serde_json.specs.View.{view};
ghost use Rattle.sp_generator.specs.Line.{line_json, line_of};

use serde_json::{Value, json};
use sp_base::{ByteList, NoMemory};
use std::alloc::{AllocError, Global};

fn line_value(alloc: Global, bytes: u64, most_kept: u64) -> Result<Value, AllocError>
    ensures { IfOk result (λ value. view value ≡ line_json bytes most_kept) }
{
    json!(in alloc; {"bytes": bytes, "most_kept": most_kept})
}

/// The line that tells how many bytes were made and the most bytes that were kept behind a piece: the compact JSON text (RFC 8259),
/// and a newline.
pub fn gen_line(alloc: Global, bytes: u64, most_kept: u64) -> Result<ByteList, NoMemory>
    ensures { IfOk result (λ line. line ≡ line_of bytes most_kept) }
{
    let value = line_value(alloc, bytes, most_kept)?;
    let text = value.to_string(alloc)?;
    let mut line = ByteList::from_slice(alloc, text.as_str().as_bytes())?;
    line.push(b'\n')?;
    Ok(line)
}
