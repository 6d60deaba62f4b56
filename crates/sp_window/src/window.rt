// The window itself.
ghost use Rattle.std.specs.Prelude.{◌≡◌, ◌≤◌, ◌<◌, ◌+◌, ◌-◌, ◌++◌, [], length, drop, get_or, OnOk, OnErr};
ghost use Rattle.sp_window.specs.Windows.{Held, end_of, most, between, trimmed};

use crate::view::View;
use sp_base::NoMemory;
use std::alloc::Global;
use std::marker::Model;

/// The bytes of an input from a place on. Places count from 0, over all bytes that were pushed.
/// Clauses see the place of the first byte that is held, and the bytes.
#[derive(Drop)]
pub struct Window {
    /// The place of the first byte that is held.
    base: u64,
    /// How many bytes before it are still in the vector: at most half of it.
    dead: usize,
    bytes: Vec<u8>,
}

impl Model for Window {
    ghost use Rattle.std.specs.Prelude.{◌≤◌, ◌+◌, length, drop};
    ghost use Rattle.sp_window.specs.Windows.{Held, most};

    ghost Value = { Held };

    ghost view = { λ w. record { base = w.base; bytes = drop w.dead w.bytes.items } };

    ghost invariant = { λ w. (w.dead + w.dead ≤ length w.bytes.items)
        × (w.base + length (drop w.dead w.bytes.items) ≤ most) };
}

/// Takes the bytes before a place away, and moves the others down.
fn cut_off(bytes: &mut Vec<u8>, before: usize)
    requires { before ≤ length bytes.old.items }
    ensures { bytes.new.items ≡ drop before bytes.old.items }
{
    let left = bytes.len() - before;
    bytes.rotate_left(before);
    bytes.truncate(left);
}

impl Window {
    /// A window at the start of an input. Takes no memory.
    pub fn new(alloc: Global) -> Window
        ensures { result ≡ record { base = 0; bytes = [] } }
    {
        Window {
            base: 0,
            dead: 0,
            bytes: Vec::new(alloc),
        }
    }

    /// The place of the first byte that is held.
    pub fn base(&self) -> u64
        ensures { result ≡ self.now.base }
    {
        self.base
    }

    /// The place behind the last byte, at most 2^62.
    pub fn end(&self) -> u64
        ensures exact { result ≡ end_of self.now }
        ensures most { result ≤ most }
    {
        self.base + (self.bytes.len() - self.dead) as u64
    }

    /// Appends the bytes, or changes nothing.
    pub fn push(&mut self, piece: &[u8]) -> Result<(), NoMemory>
        requires { end_of self.old + length piece.now ≤ most }
        ensures ok { OnOk result (self.new
            ≡ record { base = self.old.base; bytes = self.old.bytes ++ piece.now }) }
        ensures err { OnErr result (self.new ≡ self.old) }
    {
        self.bytes.extend_from_slice(piece)?;
        Ok(())
    }

    /// Lends the bytes from one place up to another. It copies nothing.
    pub fn view(&self, from: u64, to: u64) -> View<'_>
        requires from { self.now.base ≤ from }
        requires order { from ≤ to }
        requires to { to ≤ end_of self.now }
        ensures { result ≡ between self.now from to }
    {
        let first = self.dead + (from - self.base) as usize;
        let behind = self.dead + (to - self.base) as usize;
        View::new(&self.bytes[first..behind])
    }

    /// The byte at a place.
    pub fn byte_at(&self, at: u64) -> u8
        requires from { self.now.base ≤ at }
        requires to { at < end_of self.now }
        ensures { result ≡ get_or self.now.bytes (at - self.now.base) 0 }
    {
        self.bytes[self.dead + (at - self.base) as usize]
    }

    /// Cuts off the bytes before a place. Takes no memory.
    pub fn trim(&mut self, to: u64)
        requires from { self.old.base ≤ to }
        requires to { to ≤ end_of self.old }
        ensures { self.new ≡ trimmed to self.old }
    {
        let dead = self.dead + (to - self.base) as usize;
        if dead > self.bytes.len() / 2 {
            cut_off(&mut self.bytes, dead);
            self.dead = 0;
        } else {
            self.dead = dead;
        }
        self.base = to;
    }
}
