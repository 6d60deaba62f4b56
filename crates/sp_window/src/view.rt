// Bytes that are lent.
ghost use Rattle.std.specs.Prelude.{◌≡◌, ◌<◌, length, drop, get_or};

use std::marker::Model;

/// Some bytes of a window, lent. Clauses see their list.
#[derive(Drop)]
pub struct View<'a> {
    bytes: &'a [u8],
}

impl<'a> Model for View<'a> {
    ghost use Rattle.std.specs.Prelude.{ℕ, List};

    ghost Value = { List ℕ };

    ghost view = { λ v. v.bytes.now };
}

impl<'a> View<'a> {
    pub(crate) fn new(bytes: &'a [u8]) -> View<'a>
        ensures { result ≡ bytes.now }
    {
        View { bytes }
    }

    /// How many bytes it has.
    pub fn len(&self) -> u64
        ensures { result ≡ length self.now }
    {
        self.bytes.len() as u64
    }

    /// The byte at a place, counted from 0.
    pub fn at(&self, i: u64) -> u8
        requires { i < length self.now }
        ensures { result ≡ get_or self.now i 0 }
    {
        self.bytes[i as usize]
    }

    /// The bytes from a place on, counted from 0: all of them, since they stand in one piece.
    pub fn part(&self, i: u64) -> &[u8]
        requires { i < length self.now }
        ensures { result.now ≡ drop i self.now }
    {
        &self.bytes[i as usize..]
    }
}
