// Values at the keys of a map, lent and swapped.
ghost use Rattle.std.specs.Prelude.{◌≡◌, ◌<◌, length, is_some, unwrap_or, option_copied, IfOk, OnOk, OnErr};
ghost use Rattle.std.specs.Option.{option_map};
ghost use Rattle.sp_value.specs.Val.{Val};
ghost use Rattle.sp_value.specs.Changes.{with_value_in};
ghost use Rattle.sp_value.specs.Ascending.{entry_key, found};
ghost use Rattle.sp_value.specs.Pieces.{all_in, IsIn, NoneEmpty, ArePieces};

use crate::keyed::value_in;
use crate::keyed_pieces::piece_of;
use crate::swap::swap_entry;
use crate::value::Value;
use sp_base::NoMemory;
use std::rc::Rc;

pub(crate) fn map_get<'a>(pieces: &'a [Rc<Vec<(Value, Value)>>], key: &Value) -> Option<&'a Value>
    requires { ArePieces entry_key pieces.now }
    ensures { option_copied result ≡ option_map (λ (e : Val × Val). e.1)
        (found entry_key key.now (all_in pieces.now)) }
{
    if pieces.is_empty() {
        return None;
    }
    let c = piece_of(pieces, key);
    value_in(pieces[c].as_slice(), key)
}

fn swap_in_piece(
    pieces: &mut Vec<Rc<Vec<(Value, Value)>>>,
    c: usize,
    key: &Value,
    x: &mut Value,
) -> Result<bool, NoMemory>
    requires pieces { ArePieces entry_key pieces.old.items }
    requires within { c < length pieces.old.items }
    requires place { IsIn entry_key key.now pieces.old.items c }
    ensures there { IfOk result (λ there. there ≡ is_some
        (found entry_key key.now (all_in pieces.old.items))) }
    ensures ok { OnOk result (all_in pieces.new.items ≡ with_value_in (all_in pieces.old.items)
        key.now x.old) }
    ensures taken { OnOk result
        (x.new ≡ unwrap_or (option_map (λ (e : Val × Val). e.1)
        (found entry_key key.now (all_in pieces.old.items))) x.old) }
    ensures err { OnErr result (all_in pieces.new.items ≡ all_in pieces.old.items) }
    ensures kept { OnErr result (x.new ≡ x.old) }
    ensures none_empty { NoneEmpty pieces.new.items }
    ensures length { length (all_in pieces.new.items) ≡ length (all_in pieces.old.items) }
{
    swap_entry(&mut pieces[c], key, x)
}

pub(crate) fn map_swap(
    pieces: &mut Vec<Rc<Vec<(Value, Value)>>>,
    key: &Value,
    x: &mut Value,
) -> Result<bool, NoMemory>
    requires { ArePieces entry_key pieces.old.items }
    ensures there { IfOk result (λ there. there ≡ is_some
        (found entry_key key.now (all_in pieces.old.items))) }
    ensures ok { OnOk result (all_in pieces.new.items ≡ with_value_in (all_in pieces.old.items)
        key.now x.old) }
    ensures taken { OnOk result
        (x.new ≡ unwrap_or (option_map (λ (e : Val × Val). e.1)
        (found entry_key key.now (all_in pieces.old.items))) x.old) }
    ensures err { OnErr result (all_in pieces.new.items ≡ all_in pieces.old.items) }
    ensures kept { OnErr result (x.new ≡ x.old) }
    ensures none_empty { NoneEmpty pieces.new.items }
    ensures length { length (all_in pieces.new.items) ≡ length (all_in pieces.old.items) }
{
    if pieces.is_empty() {
        return Ok(false);
    }
    let c = piece_of(pieces.as_slice(), key);
    swap_in_piece(pieces, c, key, x)
}
