// What a run tells.
ghost use Rattle.std.specs.Prelude.{◌≡◌, List, ℕ, [], ◌∷◌, ◌++◌, OnOk, OnErr};

use crate::{Tree, Trees};
use sp_base::{ByteList, NoMemory, ParseError, Text};
use std::alloc::Global;
use std::marker::Model;

/// The way from a flow to one of its fibers: the numbers, from 1, of the connects that lead to it. Empty
/// for the fiber that reads the flow's own bytes.
#[derive(Drop)]
pub struct Path {
    numbers: Vec<u64>,
}

impl Model for Path {
    ghost Value = { List ℕ };

    ghost view = { λ p. p.numbers.items };
}

impl Path {
    /// The way to the fiber of the flow itself. Takes no memory.
    pub fn new(alloc: Global) -> Path
        ensures { result ≡ [] }
    {
        Path {
            numbers: Vec::new(alloc),
        }
    }

    pub fn numbers(&self) -> &[u64]
        ensures { result.now ≡ self.now }
    {
        self.numbers.as_slice()
    }
}

/// What happened.
#[derive(Drop)]
pub enum What {
    /// A hook ran: its name, as `M::U::x`, and the values of its arguments.
    Hook {
        name: Text,
        args: Trees,
    },
    /// A `print` of these values.
    Print(Trees),
    /// Bytes were written to a sink, the first of them at the sequence number `seq`.
    Write {
        sink: Text,
        seq: u64,
        bytes: ByteList,
    },
    /// A filter forwarded these bytes.
    Forward(ByteList),
    /// A filter ended its data.
    ForwardEod,
    /// The unit was read whole; this is its value.
    Done(Tree),
    /// The unit failed.
    Failed(ParseError),
}

/// Something that a run tells, and the fiber in which it happened.
#[derive(Drop)]
pub struct Event {
    pub at: Path,
    pub what: What,
}

/// Events in the order in which they happened, seen as their list.
#[derive(Drop)]
pub struct Events {
    items: Vec<Event>,
}

impl Model for Events {
    ghost use Rattle.std.specs.Prelude.{List};
    ghost use Rattle.sp_events.specs.declared.event.Event.{Event};

    ghost Value = { List Event };

    ghost use Rattle.std.specs.Coded.{codes};
    ghost use Rattle.sp_events.specs.inside.TreeCodes.{coded_tree};

    ghost coded = { Prim.hlevel (codes, coded_tree) };

    ghost view = { λ e. e.items.items };
}

impl Events {
    /// No events. Takes no memory.
    pub fn new(alloc: Global) -> Events
        ensures { result ≡ [] }
    {
        Events {
            items: Vec::new(alloc),
        }
    }

    /// Appends the event, or changes nothing.
    pub fn push(&mut self, event: Event) -> Result<(), NoMemory>
        ensures ok { OnOk result (self.new ≡ self.old ++ event ∷ []) }
        ensures err { OnErr result (self.new ≡ self.old) }
    {
        self.items.push(event)?;
        Ok(())
    }

    pub fn clear(&mut self)
        ensures { self.new ≡ [] }
    {
        self.items.clear();
    }

    pub fn as_slice(&self) -> &[Event]
        ensures { result.now ≡ self.now }
    {
        self.items.as_slice()
    }
}
