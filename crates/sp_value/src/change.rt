// Changes of bytes, texts and vectors, in place. What a copy of the value shares is copied first, one level of it.
ghost use Rattle.std.specs.Prelude.{◌≡◌, ◌++◌, ◌∷◌, [], ◌<◌, length, slice_set, IfOk, OnOk, OnErr, MatchOption, string_bytes};
ghost use Rattle.sp_value.specs.Changes.{IsBytes, IsText, IsVector, items_of, with_bytes, with_text, with_last, with_item};

use crate::value::{Node, Value};
use sp_base::NoMemory;
use std::rc::Rc;

fn append_to(list: &mut Rc<Vec<u8>>, more: &[u8]) -> Result<(), NoMemory>
    ensures ok { OnOk result (list.new.value.items ≡ list.old.value.items ++ more.now) }
    ensures err { OnErr result (list.new.value.items ≡ list.old.value.items) }
{
    let own = Rc::make_mut(list)?;
    own.extend_from_slice(more)?;
    Ok(())
}

fn append_text_to(text: &mut Rc<String>, more: &str) -> Result<(), NoMemory>
    ensures ok { OnOk result (string_bytes text.new.value
        ≡ string_bytes text.old.value ++ more.now) }
    ensures err { OnErr result (string_bytes text.new.value ≡ string_bytes text.old.value) }
{
    let own = Rc::make_mut(text)?;
    own.push_str(more)?;
    Ok(())
}

fn push_to(items: &mut Rc<Vec<Value>>, x: Value) -> Result<(), NoMemory>
    ensures ok { OnOk result (items.new.value.items ≡ items.old.value.items ++ x ∷ []) }
    ensures err { OnErr result (items.new.value.items ≡ items.old.value.items) }
{
    let own = Rc::make_mut(items)?;
    own.push(x)?;
    Ok(())
}

fn assign_in(items: &mut Rc<Vec<Value>>, i: usize, x: Value) -> Result<(), NoMemory>
    requires { i < length items.old.value.items }
    ensures ok { OnOk result (items.new.value.items ≡ slice_set items.old.value.items i x) }
    ensures err { OnErr result (items.new.value.items ≡ items.old.value.items) }
{
    let own = Rc::make_mut(items)?;
    own[i] = x;
    Ok(())
}

fn pop_from(items: &mut Rc<Vec<Value>>) -> Result<Option<Value>, NoMemory>
    ensures ok { IfOk result (λ last. MatchOption last
        ((items.new.value.items ≡ items.old.value.items) × (items.old.value.items ≡ []))
        (λ x. items.old.value.items ≡ items.new.value.items ++ x ∷ [])) }
    ensures err { OnErr result (items.new.value.items ≡ items.old.value.items) }
{
    let own = Rc::make_mut(items)?;
    Ok(own.pop())
}

impl Value {
    /// Appends to bytes, or changes nothing.
    pub fn append_bytes(&mut self, more: &[u8]) -> Result<(), NoMemory>
        requires { IsBytes self.old }
        ensures ok { OnOk result (self.new ≡ with_bytes self.old more.now) }
        ensures err { OnErr result (self.new ≡ self.old) }
    {
        match &mut self.node {
            Node::Bytes(list) => append_to(list, more),
            _ => unreachable!(),
        }
    }

    /// Appends to a text, or changes nothing.
    pub fn append_str(&mut self, more: &str) -> Result<(), NoMemory>
        requires { IsText self.old }
        ensures ok { OnOk result (self.new ≡ with_text self.old more.now) }
        ensures err { OnErr result (self.new ≡ self.old) }
    {
        match &mut self.node {
            Node::Str(text) => append_text_to(text, more),
            _ => unreachable!(),
        }
    }

    /// Appends an item to a vector, or changes nothing.
    #[tactic(auto, using(crate::proofs::Lists::list_of_vals_of))]
    pub fn push_back(&mut self, x: Value) -> Result<(), NoMemory>
        requires { IsVector self.old }
        ensures ok { OnOk result (self.new ≡ with_last self.old x) }
        ensures err { OnErr result (self.new ≡ self.old) }
    {
        match &mut self.node {
            Node::Vector(items) => push_to(items, x),
            _ => unreachable!(),
        }
    }

    /// Puts `x` in place of item `i` of a vector, counted from 0, or changes nothing.
    #[tactic(auto, using(crate::proofs::Lists::list_of_vals_of))]
    pub fn set_item(&mut self, i: usize, x: Value) -> Result<(), NoMemory>
        requires vector { IsVector self.old }
        requires within { i < length (items_of self.old) }
        ensures ok { OnOk result (self.new ≡ with_item self.old i x) }
        ensures err { OnErr result (self.new ≡ self.old) }
    {
        match &mut self.node {
            Node::Vector(items) => assign_in(items, i, x),
            _ => unreachable!(),
        }
    }

    /// Takes the last item of a vector away, and answers it: `None` where there is none. At an error nothing is changed.
    #[tactic(auto, using(crate::proofs::Lists::list_of_vals_of))]
    pub fn pop_back(&mut self) -> Result<Option<Value>, NoMemory>
        requires { IsVector self.old }
        ensures ok { IfOk result (λ last. MatchOption last
            ((self.new ≡ self.old) × (items_of self.old ≡ []))
            (λ x. self.old ≡ with_last self.new x)) }
        ensures err { OnErr result (self.new ≡ self.old) }
    {
        match &mut self.node {
            Node::Vector(items) => pop_from(items),
            _ => unreachable!(),
        }
    }
}
