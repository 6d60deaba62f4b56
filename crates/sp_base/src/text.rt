// Text, seen as its bytes.
ghost use Rattle.std.specs.Prelude.{◌≡◌, List, ℕ, IfOk, string_bytes};

use crate::NoMemory;
use std::alloc::Global;
use std::marker::Model;
use std::rc::Rc;

/// UTF-8 text, seen as its bytes. Copies share it.
#[derive(Drop)]
pub struct Text {
    shared: Rc<String>,
}

impl Model for Text {
    ghost Value = { List ℕ };

    ghost view = { λ t. string_bytes t.shared.value };
}

impl Text {
    /// A copy of this text.
    pub fn new(alloc: Global, s: &str) -> Result<Text, NoMemory>
        ensures { IfOk result (λ text. text ≡ s.now) }
    {
        Text::from_string(String::from_str(alloc, s)?)
    }

    /// This text itself, with a count of those that share it, for which it takes memory.
    pub fn from_string(text: String) -> Result<Text, NoMemory>
        ensures { IfOk result (λ it. it ≡ string_bytes text) }
    {
        let shared = Rc::new(*text.allocator(), text)?;
        Ok(Text { shared })
    }

    /// The text in a string of its own: the text itself where nothing shares it, and else a copy, which takes memory.
    pub fn into_string(self) -> Result<String, NoMemory>
        ensures { IfOk result (λ string. string_bytes string ≡ self) }
    {
        match Rc::try_unwrap(self.shared) {
            Ok(text) => Ok(text),
            Err(shared) => Ok(String::from_str(*shared.allocator(), shared.as_str())?),
        }
    }

    pub fn as_str(&self) -> &str
        ensures { result.now ≡ self.now }
    {
        self.shared.as_str()
    }

    /// The same text. Takes no memory; the error answers a count of those that share it which can't be raised.
    pub fn copy(&self) -> Result<Text, NoMemory>
        ensures { IfOk result (λ copy. copy ≡ self.now) }
    {
        let shared = self.shared.clone()?;
        Ok(Text { shared })
    }
}
