// The lines of a run as JSON (RFC 8259), one compact object a line, its keys in byte order.
ghost use Rattle.std.specs.Prelude.{◌≡◌, ◌++◌, IfOk, codes, false, string_bytes};
ghost use Rattle.serde_json.specs.View.{view};
ghost use Rattle.serde_json.specs.Written.{has_float, compact_text};
ghost use Rattle.sp_json.specs.Lines.{path_text, line_of, report_json, report_of};

use crate::buffer::line_in;
use itoa::Buffer;
use serde_json::{Value, json};
use sp_base::{ByteList, NoMemory};
use sp_events::Event;
use std::alloc::{AllocError, Global};

/// The flow's name, and behind it a dot and a number for each connect on the way to the fiber.
pub(crate) fn path_name(alloc: Global, flow: &str, numbers: &[u64]) -> Result<String, AllocError>
    ensures { IfOk result (λ text. string_bytes text ≡ path_text flow.now numbers.now) }
{
    let mut text = String::from_str(alloc, flow)?;
    for number in numbers {
        let mut buffer = Buffer::new();
        text.push_str(".")?;
        text.push_str(buffer.format(*number))?;
    }
    Ok(text)
}

/// The compact text of a value without floats, and a newline.
fn value_line(alloc: Global, value: &Value) -> Result<ByteList, NoMemory>
    requires { has_float (view value.now) ≡ false }
    ensures { IfOk result (λ line. line ≡ compact_text (view value.now) ++ codes "\n") }
{
    let text = value.to_string(alloc)?;
    let mut line = ByteList::from_slice(alloc, text.as_str().as_bytes())?;
    line.push(b'\n')?;
    Ok(line)
}

/// The line of an event of the flow: the compact JSON text, and a newline.
pub fn line(alloc: Global, flow: &str, event: &Event) -> Result<ByteList, NoMemory>
    ensures { IfOk result (λ line. line ≡ line_of flow.now event.now) }
{
    let text = line_in(Vec::new(alloc), flow, event)?;
    Ok(ByteList::from_vec(text))
}

fn report_value(alloc: Global, flow: &str, kept: u64, received: u64) -> Result<Value, AllocError>
    ensures { IfOk result (λ value. view value ≡ report_json flow.now kept received) }
{
    json!(in alloc; {"at": flow, "kept": kept, "received": received})
}

/// The line that tells how many bytes of the flow are kept and how many were received: the compact JSON text, and a
/// newline.
pub fn report(alloc: Global, flow: &str, kept: u64, received: u64) -> Result<ByteList, NoMemory>
    ensures { IfOk result (λ line. line ≡ report_of flow.now kept received) }
{
    let value = report_value(alloc, flow, kept, received)?;
    value_line(alloc, &value)
}
