// Lists in pieces, as the members of sets and the entries of maps are kept: a change touches one piece, and copies share
// those that they have in common.
ghost use Rattle.std.specs.Prelude.{◌≡◌, ◌<◌, ◌∷◌, [], ◌++◌, length, IfOk, MatchOption};
ghost use Rattle.std.specs.List.{HoldsAt};
ghost use Rattle.sp_value.specs.Pieces.{all_in, NoneEmpty, NoneEmptyBut, rest_in};

use sp_base::NoMemory;
use std::alloc::Global;
use std::rc::Rc;

/// A piece with more items than this is halved.
pub(crate) const MOST: usize = 256;

/// A place in a list that is kept in pieces.
#[derive(Clone, Copy)]
pub struct Cursor {
    piece: usize,
    item: usize,
}

impl Cursor {
    /// The place of the first item.
    pub fn new() -> Cursor
        ensures piece { result.piece ≡ 0 }
        ensures item { result.item ≡ 0 }
    {
        Cursor { piece: 0, item: 0 }
    }
}

/// The item at a place, or at the front of the next piece where that one is used up. The place becomes that behind it.
pub fn next_in<'a, T>(pieces: &'a [Rc<Vec<T>>], at: &mut Cursor) -> Option<&'a T>
    requires { NoneEmpty pieces.now }
    ensures { MatchOption result
        (rest_in pieces.now at.old.piece at.old.item ≡ [])
        (λ x. rest_in pieces.now at.old.piece at.old.item ≡ x.now
        ∷ rest_in pieces.now at.new.piece at.new.item) }
{
    let c = at.piece;
    if c >= pieces.len() {
        return None;
    }
    let i = at.item;
    let piece = &pieces[c];
    if i < piece.len() {
        at.item = i + 1;
        return Some(&piece[i]);
    }
    if c + 1 >= pieces.len() {
        return None;
    }
    at.piece = c + 1;
    at.item = 1;
    Some(&pieces[c + 1][0])
}

/// Puts two halves in place of piece `c`, or changes nothing if there is no memory.
pub(crate) fn put_halves<T: Drop>(
    pieces: &mut Vec<Rc<Vec<T>>>,
    c: usize,
    front: Rc<Vec<T>>,
    back: Rc<Vec<T>>,
)
    requires within { c < length pieces.old.items }
    requires halves { HoldsAt (λ p. front.value.items ++ back.value.items ≡ p.value.items)
        pieces.old.items c }
    requires front { 0 < length front.value.items }
    requires back { 0 < length back.value.items }
    ensures all { all_in pieces.new.items ≡ all_in pieces.old.items }
    ensures none_empty { NoneEmpty pieces.old.items → NoneEmpty pieces.new.items }
{
    if pieces.insert(c + 1, back).is_ok() {
        pieces[c] = front;
    }
}

/// Takes piece `c` away where it is empty.
pub(crate) fn drop_empty<T: Drop>(pieces: &mut Vec<Rc<Vec<T>>>, c: usize)
    requires within { c < length pieces.old.items }
    requires others { NoneEmptyBut c pieces.old.items }
    ensures all { all_in pieces.new.items ≡ all_in pieces.old.items }
    ensures none_empty { NoneEmpty pieces.new.items }
{
    if pieces[c].is_empty() {
        pieces.remove(c);
    }
}

/// The list as one piece, or as none where it is empty.
pub(crate) fn one_piece<T: Drop>(alloc: Global, items: Vec<T>) -> Result<Vec<Rc<Vec<T>>>, NoMemory>
    ensures all { IfOk result (λ pieces. all_in pieces.items ≡ items.items) }
    ensures none_empty { IfOk result (λ pieces. NoneEmpty pieces.items) }
{
    let mut pieces = Vec::new(alloc);
    if !items.is_empty() {
        pieces.push(Rc::new(alloc, items)?)?;
    }
    Ok(pieces)
}

/// The same pieces, shared, in a list of their own.
pub(crate) fn copy_of<T: Drop>(pieces: &Vec<Rc<Vec<T>>>) -> Result<Vec<Rc<Vec<T>>>, NoMemory>
    ensures all { IfOk result (λ copy. all_in copy.items ≡ all_in pieces.now.items) }
    ensures none_empty { IfOk result (λ copy. NoneEmpty pieces.now.items → NoneEmpty copy.items) }
{
    let copy = pieces.clone()?;
    Ok(copy)
}
