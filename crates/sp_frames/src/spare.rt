// Lists that were freed, to be used again.
ghost use Rattle.std.specs.Prelude.{◌≡◌, []};

use crate::operands::Operands;
use sp_value::Value;
use std::alloc::Global;

/// How many lists and how many stacks are kept, and how much room one of them may have.
const MOST: usize = 256;

const MOST_ROOM: usize = 64;

/// Lists and stacks of values that were freed. What stands in them before they are taken again, no one sees.
#[derive(Drop)]
pub struct Spare {
    lists: Vec<Vec<Value>>,
    stacks: Vec<Operands>,
}

impl Spare {
    /// Takes no memory.
    pub fn new(alloc: Global) -> Spare {
        Spare {
            lists: Vec::new(alloc),
            stacks: Vec::new(alloc),
        }
    }

    /// A list without values. Takes no memory.
    pub fn take(&mut self) -> Vec<Value>
        ensures { result.items ≡ [] }
    {
        match self.lists.pop() {
            Some(list) if list.is_empty() => list,
            _ => Vec::new(*self.lists.allocator()),
        }
    }

    /// Keeps a list to be used again, unless it has no room or too much, or there are enough.
    pub fn give(&mut self, list: Vec<Value>) {
        let room = list.capacity();
        if self.lists.len() < MOST && 0 < room && room <= MOST_ROOM {
            let mut emptied = list;
            emptied.clear();
            let _kept = self.lists.push(emptied);
        }
    }

    /// A stack without operands. Takes no memory.
    pub fn take_stack(&mut self) -> Operands
        ensures { result ≡ [] }
    {
        match self.stacks.pop() {
            Some(stack) if stack.is_empty() => stack,
            _ => Operands::new(Vec::new(*self.lists.allocator())),
        }
    }

    /// Keeps a stack to be used again, unless it has no room or too much, or there are enough.
    pub fn give_stack(&mut self, stack: Operands) {
        let room = stack.room();
        if self.stacks.len() < MOST && 0 < room && room <= MOST_ROOM {
            let mut emptied = stack;
            emptied.clear();
            let _kept = self.stacks.push(emptied);
        }
    }
}
