// Refusals of modules, and their messages.
ghost use Rattle.std.specs.Prelude.{◌≡◌, ◌++◌, decimal, IfOk, OnOk};
ghost use Rattle.sp_command.specs.Refusals.{refusal_text};

use itoa::Buffer;
use sp_base::{ByteList, MKind, NoMemory, Place, Text};
use std::alloc::Global;

/// Why a module was refused, and where.
#[derive(Drop)]
pub struct Refusal {
    pub path: Text,
    pub place: Place,
    pub kind: MKind,
}

impl Refusal {
    /// `PATH:LINE:COL: M9 TypeMismatch` and a newline.
    pub fn message(&self, alloc: Global) -> Result<ByteList, NoMemory>
        ensures { IfOk result (λ message. message ≡ refusal_text self.now) }
    {
        let place = self.place;
        let mut message = ByteList::from_slice(alloc, self.path.as_str().as_bytes())?;
        message.append(b":")?;
        append_number(&mut message, place.line)?;
        message.append(b":")?;
        append_number(&mut message, place.col)?;
        message.append(b": M")?;
        append_number(&mut message, u32::from(self.kind.number()))?;
        message.append(b" ")?;
        message.append(self.kind.name().as_bytes())?;
        message.append(b"\n")?;
        Ok(message)
    }
}

fn append_number(message: &mut ByteList, number: u32) -> Result<(), NoMemory>
    ensures { OnOk result (message.new ≡ message.old ++ decimal number) }
{
    let mut buffer = Buffer::new();
    message.append(buffer.format(number).as_bytes())
}
