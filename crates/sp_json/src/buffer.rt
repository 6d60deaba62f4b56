// The lines of many events in one buffer.
ghost use Rattle.std.specs.Prelude.{◌≡◌, ◌++◌, [], IfOk, OnOk, OnErr};
ghost use Rattle.sp_json.specs.Lines.{line_of};

use crate::events::write_event;
use json::Writer;
use sp_base::NoMemory;
use sp_events::Event;
use std::alloc::{AllocError, Global};
use std::marker::Model;
use std::mem;

/// Lines of events, one behind another, seen as their text. A line costs a time that grows as its length, and where members don't
/// stand in the order of their names as the time to sort them.
#[derive(Drop)]
pub struct Lines {
    text: Vec<u8>,
    /// What a line is written in before it is whole.
    draft: Vec<u8>,
}

impl Model for Lines {
    ghost use Rattle.std.specs.Prelude.{ℕ, List};

    ghost Value = { List ℕ };

    ghost view = { λ l. l.text.items };
}

/// The line of an event, written into a vector in place of what it holds.
pub(crate) fn line_in(mut draft: Vec<u8>, flow: &str, event: &Event) -> Result<Vec<u8>, AllocError>
    ensures { IfOk result (λ line. line.items ≡ line_of flow.now event.now) }
{
    let alloc = *draft.allocator();
    draft.clear();
    let mut out = Writer::new(draft);
    write_event(alloc, flow, event, &mut out)?;
    let mut line = out.into_inner();
    line.push(b'\n')?;
    Ok(line)
}

impl Lines {
    /// No lines. Takes no memory.
    pub fn new(alloc: Global) -> Lines
        ensures { result ≡ [] }
    {
        Lines {
            text: Vec::new(alloc),
            draft: Vec::new(alloc),
        }
    }

    /// Appends the line of an event of the flow, as `line` makes it, or changes nothing.
    pub fn push(&mut self, flow: &str, event: &Event) -> Result<(), NoMemory>
        ensures ok { OnOk result (self.new ≡ self.old ++ line_of flow.now event.now) }
        ensures err { OnErr result (self.new ≡ self.old) }
    {
        let alloc = *self.text.allocator();
        let draft = mem::replace(&mut self.draft, Vec::new(alloc));
        let line = line_in(draft, flow, event)?;
        self.text.extend_from_slice(line.as_slice())?;
        self.draft = line;
        Ok(())
    }

    pub fn as_slice(&self) -> &[u8]
        ensures { result.now ≡ self.now }
    {
        self.text.as_slice()
    }

    pub fn clear(&mut self)
        ensures { self.new ≡ [] }
    {
        self.text.clear();
    }
}
