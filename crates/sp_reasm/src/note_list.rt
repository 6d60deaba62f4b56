// A list of notes.
ghost use Rattle.std.specs.Prelude.{◌≡◌, [], ◌∷◌, ◌++◌, length, take, OnOk, OnErr};

use crate::notes::Note;
use sp_base::NoMemory;
use std::alloc::Global;
use std::marker::Model;

/// Notes in the order in which they were told, seen as their list.
#[derive(Drop)]
pub struct Notes {
    items: Vec<Note>,
}

impl Model for Notes {
    ghost use Rattle.std.specs.Prelude.{List};
    ghost use Rattle.sp_reasm.specs.declared.notes.Note.{Note};

    ghost Value = { List Note };

    ghost view = { λ n. n.items.items };
}

impl Notes {
    /// No notes. Takes no memory.
    pub fn new(alloc: Global) -> Notes
        ensures { result ≡ [] }
    {
        Notes {
            items: Vec::new(alloc),
        }
    }

    /// The notes of a vector. Takes no memory.
    pub fn from_vec(items: Vec<Note>) -> Notes
        ensures { result ≡ items.items }
    {
        Notes { items }
    }

    /// The notes as a vector. Takes no memory.
    pub fn into_vec(self) -> Vec<Note>
        ensures { result.items ≡ self }
    {
        let Notes { items } = self;
        items
    }

    pub fn as_slice(&self) -> &[Note]
        ensures { result.now ≡ self.now }
    {
        self.items.as_slice()
    }

    pub fn len(&self) -> usize
        ensures { result ≡ length self.now }
    {
        self.items.len()
    }

    /// Keeps the first notes, so many.
    pub fn truncate(&mut self, kept: usize)
        ensures { self.new ≡ take kept self.old }
    {
        self.items.truncate(kept);
    }

    pub fn clear(&mut self)
        ensures { self.new ≡ [] }
    {
        self.items.clear();
    }

    /// Appends the note, or changes nothing.
    pub fn push(&mut self, note: Note) -> Result<(), NoMemory>
        ensures ok { OnOk result (self.new ≡ self.old ++ note ∷ []) }
        ensures err { OnErr result (self.new ≡ self.old) }
    {
        self.items.push(note)?;
        Ok(())
    }

    /// Appends these notes, or changes nothing.
    pub fn append(&mut self, more: Notes) -> Result<(), NoMemory>
        ensures ok { OnOk result (self.new ≡ self.old ++ more) }
        ensures err { OnErr result (self.new ≡ self.old) }
    {
        let Notes { items } = more;
        let mut items = items;
        self.items.append(&mut items)?;
        Ok(())
    }
}
