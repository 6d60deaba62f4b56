// The order of values, and changes beside a copy that is held.
ghost use Rattle.std.specs.Prelude.{◌≡◌, []};
ghost use Rattle.sp_value.specs.Changes.{IsMap, IsText};
ghost use Rattle.sp_value.specs.Val.{vector, vals_of};

use sp_base::{NoMemory, or_drop};
use sp_numbers::Width::{W8, W64};
use sp_value::{Value, compare};
use std::alloc::Global;
use std::cmp::Ordering;
use std::cmp::Ordering::{Equal, Greater, Less};
use std::test::Fail;

const BYTES: [(&[u8], &[u8], Ordering); 4] = [
    (b"b", b"aa", Greater),
    (b"a", b"aa", Less),
    (b"\xff", b"\x01\x02", Greater),
    (b"", b"", Equal),
];

fn order_of(a: Value, b: Value) -> Ordering {
    let order = compare(&a, &b);
    drop(a);
    drop(b);
    order
}

fn order_of_bytes(alloc: Global, a: &[u8], b: &[u8]) -> Result<Ordering, Fail> {
    let a = Value::bytes(Vec::from_slice(alloc, a)?)?;
    let b = or_drop!(Vec::from_slice(alloc, b); a);
    let b = or_drop!(Value::bytes(b); a);
    Ok(order_of(a, b))
}

#[test]
fn order_of_all_bytes(rt: HostRuntime) -> Result<(), Fail> {
    for (a, b, want) in &BYTES {
        let found = order_of_bytes(rt.alloc(), a, b)?;
        assert_eq!(rt; found, *want);
    }
    Ok(())
}

#[test]
fn order(rt: HostRuntime) {
    let uints = order_of(Value::uint(W8, 200), Value::uint(W8, 9));
    let ints = order_of(Value::int(W64, -1), Value::int(W64, 0));
    let truths = order_of(Value::bool(false), Value::bool(true));
    let labels = order_of(Value::label(3, 10), Value::label(3, 2));
    assert!(rt; (uints, ints, truths, labels) == (Greater, Less, Less, Greater));
}

/// Puts numbers with their tenfold into a map, one of them twice.
fn put_tenfold(map: &mut Value) -> Result<(), NoMemory>
    requires { IsMap map.old }
    ensures { IsMap map.new }
{
    for n in [5, 2, 9, 2] {
        map.insert(Value::uint(W64, n), Value::uint(W64, n * 10))?;
    }
    Ok(())
}

fn number_at(map: &Value, key: u64) -> Option<u64>
    requires { IsMap map.now }
{
    let key = Value::uint(W64, key);
    let number = match map.get(&key) {
        Some(value) => value.as_uint(),
        None => None,
    };
    drop(key);
    number
}

fn truth_at(map: &Value, key: u64) -> Option<bool>
    requires { IsMap map.now }
{
    let key = Value::uint(W64, key);
    let truth = match map.get(&key) {
        Some(value) => value.as_bool(),
        None => None,
    };
    drop(key);
    truth
}

type Beside = (Option<bool>, Option<u64>, Option<usize>);

/// What stands under 2 in a map that is changed there, and in a copy from before.
fn changed_beside_a_copy(map: &mut Value) -> Result<Beside, NoMemory>
    requires { IsMap map.old }
{
    let held = map.copy()?;
    or_drop!(map.insert(Value::uint(W64, 2), Value::bool(true)); held);
    let told = (truth_at(map, 2), number_at(&held, 2), held.size());
    drop(held);
    Ok(told)
}

fn tenfold_beside_a_copy(map: &mut Value) -> Result<Beside, NoMemory>
    requires { IsMap map.old }
{
    put_tenfold(map)?;
    changed_beside_a_copy(map)
}

fn beside_a_copy(alloc: Global) -> Result<Beside, NoMemory> {
    let mut map = Value::map(Vec::new(alloc))?;
    let told = tenfold_beside_a_copy(&mut map);
    drop(map);
    told
}

#[test]
fn map_beside_a_copy(rt: HostRuntime) -> Result<(), Fail> {
    let found = beside_a_copy(rt.alloc())?;
    assert!(rt; found == (Some(true), Some(20), Some(3)));
    Ok(())
}

/// How many entries are left of two where one is taken out.
fn left_without_a_key(map: &mut Value) -> Result<Option<usize>, NoMemory>
    requires { IsMap map.old }
{
    map.insert(Value::uint(W64, 5), Value::void())?;
    map.insert(Value::uint(W64, 2), Value::void())?;
    let key = Value::uint(W64, 5);
    let deleted = map.delete(&key);
    drop(key);
    deleted?;
    Ok(map.size())
}

fn without_a_key(alloc: Global) -> Result<Option<usize>, NoMemory> {
    let mut map = Value::map(Vec::new(alloc))?;
    let left = left_without_a_key(&mut map);
    drop(map);
    left
}

#[test]
fn map_without_a_key(rt: HostRuntime) -> Result<(), Fail> {
    assert_eq!(rt; without_a_key(rt.alloc())?, Some(1));
    Ok(())
}

/// Whether a text is longer by what is appended, and a copy from before isn't.
fn appended_beside_a_copy(text: &mut Value) -> Result<bool, NoMemory>
    requires { IsText text.old }
{
    let held = text.copy()?;
    or_drop!(text.append_str("cd"); held);
    let told = text.as_str() == Some("abcd") && held.as_str() == Some("ab");
    drop(held);
    Ok(told)
}

fn text_beside_a_copy(alloc: Global) -> Result<bool, Fail> {
    let mut text = Value::str(String::from_str(alloc, "ab")?)?;
    let told = appended_beside_a_copy(&mut text);
    drop(text);
    Ok(told?)
}

/// Whether there is a last item of two, and how many are left without it.
fn left_without_the_last(list: &mut Value) -> Result<(bool, Option<usize>), NoMemory>
    requires { list.old ≡ vector (vals_of []) }
{
    list.push_back(Value::bool(true))?;
    list.push_back(Value::void())?;
    list.set_item(0, Value::place(7))?;
    let last = list.pop_back()?;
    let is_there = last.is_some();
    drop(last);
    Ok((is_there, list.size()))
}

fn without_the_last(alloc: Global) -> Result<(bool, Option<usize>), NoMemory> {
    let mut list = Value::vector(Vec::new(alloc))?;
    let left = left_without_the_last(&mut list);
    drop(list);
    left
}

#[test]
fn lists_beside_a_copy(rt: HostRuntime) -> Result<(), Fail> {
    let is_right = text_beside_a_copy(rt.alloc())?;
    assert!(rt; is_right);
    let left = without_the_last(rt.alloc())?;
    assert!(rt; left == (true, Some(1)));
    Ok(())
}
