// Sets and maps in pieces: the piece of a key is found by its first keys, and changed alone.
ghost use Rattle.std.specs.Prelude.{◌≡◌, ◌<◌, ◌++◌, suc, length, is_some, if◌then◌else◌, IfOk, OnOk, OnErr};
ghost use Rattle.sp_value.specs.Order.{val_cmp};
ghost use Rattle.sp_value.specs.Ascending.{found, with_key, without};
ghost use Rattle.sp_value.specs.Pieces.{all_in, first_key, IsIn, NoneEmpty, NoneEmptyBut, ArePieces};

use crate::keyed::{Keyed, copy_items, has, put_shared, take};
use crate::order::compare;
use crate::pieces::{MOST, drop_empty, put_halves};
use crate::value::Value;
use sp_base::NoMemory;
use std::alloc::Global;
use std::cmp::Ordering;
use std::rc::Rc;

/// How the first key of a piece stands to a key.
fn first_to<T: Keyed>(piece: &[T], key: &Value) -> Ordering
    ensures { result ≡ val_cmp (first_key T.key piece.now) key.now }
{
    match piece.first() {
        Some(item) => compare(item.key(), key),
        None => compare(&Value::void(), key),
    }
}

/// The number of the piece in which a key has its place: the last whose first key isn't greater, or else the first.
#[tactic(auto, using(crate::proofs::PieceKeys::firsts_ascend))]
pub(crate) fn piece_of<T: Keyed>(pieces: &[Rc<Vec<T>>], key: &Value) -> usize
    requires pieces { ArePieces T.key pieces.now }
    requires some { 0 < length pieces.now }
    ensures within { result < length pieces.now }
    ensures place { IsIn T.key key.now pieces.now result }
{
    match pieces.binary_search_by(|piece| first_to(piece.as_slice(), key)) {
        Ok(c) => c,
        Err(c) => c.saturating_sub(1),
    }
}

pub(crate) fn has_key<T: Keyed>(pieces: &[Rc<Vec<T>>], key: &Value) -> bool
    requires { ArePieces T.key pieces.now }
    ensures { result ≡ is_some (found T.key key.now (all_in pieces.now)) }
{
    if pieces.is_empty() {
        return false;
    }
    let c = piece_of(pieces, key);
    has(pieces[c].as_slice(), key)
}

fn halves_of<T: Keyed>(alloc: Global, items: &[T]) -> Result<(Rc<Vec<T>>, Rc<Vec<T>>), NoMemory>
    requires { 1 < length items.now }
    ensures all { IfOk result (λ halves. halves.0.value.items ++ halves.1.value.items ≡ items.now) }
    ensures front { IfOk result (λ halves. 0 < length halves.0.value.items) }
    ensures back { IfOk result (λ halves. 0 < length halves.1.value.items) }
{
    let half = items.len() / 2;
    let front = copy_items(alloc, &items[..half])?;
    let back = copy_items(alloc, &items[half..])?;
    Ok((Rc::new(alloc, front)?, Rc::new(alloc, back)?))
}

/// Halves piece `c` where it is long, if there is memory for it. The list stays the same.
fn halve<T: Keyed>(pieces: &mut Vec<Rc<Vec<T>>>, c: usize)
    requires { c < length pieces.old.items }
    ensures all { all_in pieces.new.items ≡ all_in pieces.old.items }
    ensures none_empty { NoneEmpty pieces.old.items → NoneEmpty pieces.new.items }
{
    let alloc = *pieces.allocator();
    if pieces[c].len() > MOST {
        if let Ok((front, back)) = halves_of(alloc, pieces[c].as_slice()) {
            put_halves(pieces, c, front, back);
        }
    }
}

/// The first piece.
fn put_first<T: Keyed>(pieces: &mut Vec<Rc<Vec<T>>>, item: T) -> Result<bool, NoMemory>
    requires { length pieces.old.items ≡ 0 }
    ensures ok { OnOk result (all_in pieces.new.items
        ≡ with_key T.key item (all_in pieces.old.items)) }
    ensures grows { IfOk result (λ new. length (all_in pieces.new.items) ≡
        (if new then suc (length (all_in pieces.old.items))
        else length (all_in pieces.old.items))) }
    ensures err { OnErr result (all_in pieces.new.items ≡ all_in pieces.old.items) }
    ensures none_empty { NoneEmpty pieces.new.items }
{
    let alloc = *pieces.allocator();
    let mut items = Vec::new(alloc);
    items.push(item)?;
    pieces.push(Rc::new(alloc, items)?)?;
    Ok(true)
}

fn put_in_piece<T: Keyed>(pieces: &mut Vec<Rc<Vec<T>>>, c: usize, item: T) -> Result<bool, NoMemory>
    requires pieces { ArePieces T.key pieces.old.items }
    requires within { c < length pieces.old.items }
    requires place { IsIn T.key (T.key item) pieces.old.items c }
    ensures ok { OnOk result (all_in pieces.new.items
        ≡ with_key T.key item (all_in pieces.old.items)) }
    ensures grows { IfOk result (λ new. length (all_in pieces.new.items) ≡
        (if new then suc (length (all_in pieces.old.items))
        else length (all_in pieces.old.items))) }
    ensures err { OnErr result (all_in pieces.new.items ≡ all_in pieces.old.items) }
    ensures none_empty { NoneEmpty pieces.new.items }
    ensures pieces { length pieces.new.items ≡ length pieces.old.items }
{
    put_shared(&mut pieces[c], item)
}

/// Puts an item in, in place of what has its key, and answers whether its key is new.
pub(crate) fn put_item<T: Keyed>(pieces: &mut Vec<Rc<Vec<T>>>, item: T) -> Result<bool, NoMemory>
    requires { ArePieces T.key pieces.old.items }
    ensures ok { OnOk result (all_in pieces.new.items
        ≡ with_key T.key item (all_in pieces.old.items)) }
    ensures grows { IfOk result (λ new. length (all_in pieces.new.items) ≡
        (if new then suc (length (all_in pieces.old.items))
        else length (all_in pieces.old.items))) }
    ensures err { OnErr result (all_in pieces.new.items ≡ all_in pieces.old.items) }
    ensures none_empty { NoneEmpty pieces.new.items }
{
    if pieces.is_empty() {
        return put_first(pieces, item);
    }
    let c = piece_of(pieces.as_slice(), item.key());
    let new = put_in_piece(pieces, c, item)?;
    halve(pieces, c);
    Ok(new)
}

fn take_in_piece<T: Keyed>(
    pieces: &mut Vec<Rc<Vec<T>>>,
    c: usize,
    key: &Value,
) -> Result<bool, NoMemory>
    requires pieces { ArePieces T.key pieces.old.items }
    requires within { c < length pieces.old.items }
    requires place { IsIn T.key key.now pieces.old.items c }
    ensures ok { OnOk result (all_in pieces.new.items
        ≡ without T.key key.now (all_in pieces.old.items)) }
    ensures shrinks { IfOk result (λ took. length (all_in pieces.old.items) ≡
        (if took then suc (length (all_in pieces.new.items))
        else length (all_in pieces.new.items))) }
    ensures err { OnErr result (all_in pieces.new.items ≡ all_in pieces.old.items) }
    ensures none_empty { NoneEmptyBut c pieces.new.items }
    ensures pieces { length pieces.new.items ≡ length pieces.old.items }
{
    take(&mut pieces[c], key)
}

/// Takes a key away, and answers whether it was there.
pub(crate) fn take_key<T: Keyed>(
    pieces: &mut Vec<Rc<Vec<T>>>,
    key: &Value,
) -> Result<bool, NoMemory>
    requires { ArePieces T.key pieces.old.items }
    ensures ok { OnOk result (all_in pieces.new.items
        ≡ without T.key key.now (all_in pieces.old.items)) }
    ensures shrinks { IfOk result (λ took. length (all_in pieces.old.items) ≡
        (if took then suc (length (all_in pieces.new.items))
        else length (all_in pieces.new.items))) }
    ensures err { OnErr result (all_in pieces.new.items ≡ all_in pieces.old.items) }
    ensures none_empty { NoneEmpty pieces.new.items }
{
    if pieces.is_empty() {
        return Ok(false);
    }
    let c = piece_of(pieces.as_slice(), key);
    let answer = take_in_piece(pieces, c, key);
    drop_empty(pieces, c);
    answer
}
