// Items of vectors, and values of maps.
ghost use Rattle.std.specs.Prelude.{◌≡◌, OnOk, OnErr, Ok, ok_or, option_copied};
ghost use Rattle.sp_base.specs.declared.kinds.PKind.TheVariants.{Index};
ghost use Rattle.sp_value.specs.Changes.{IsVector, IsMap, with_last};
ghost use Rattle.sp_methods.specs.Answers.{Tells};
ghost use Rattle.sp_methods.specs.Taken.{first_item, last_item, front, back, popped, got};

use crate::fault::made;
use sp_base::{NoMemory, PKind};
use sp_operators::ValueFault;
use sp_value::{Level, Value};

/// Appends an item to a vector, or changes nothing.
pub fn push_back(v: &mut Value, x: Value) -> Result<(), NoMemory>
    requires { IsVector v.old }
    ensures ok { OnOk result (v.new ≡ with_last v.old x) }
    ensures err { OnErr result (v.new ≡ v.old) }
{
    v.push_back(x)
}

/// Takes the last item of a vector away, and answers it. It takes no memory where no copy shares the vector. At an error nothing is
/// changed. Error: `Index` where the vector is empty.
pub fn pop_back(v: &mut Value) -> Result<Value, ValueFault>
    requires { IsVector v.old }
    ensures ok { Tells (λ x. (v.new, x)) (popped v.old) result }
    ensures err { OnErr result (v.new ≡ v.old) }
{
    match v.pop_back() {
        Ok(Some(x)) => Ok(x),
        Ok(None) => Err(ValueFault::Run(PKind::Index)),
        Err(NoMemory) => Err(ValueFault::NoMemory),
    }
}

/// A copy, as the answer of a method.
fn copied(x: &Value) -> Result<Value, ValueFault>
    ensures { Tells (λ x. x) (Ok x.now) result }
{
    made(x.copy())
}

fn first_of(items: &[Value]) -> Result<Value, ValueFault>
    ensures { Tells (λ x. x) (ok_or (first_item items.now) Index) result }
{
    match items.first() {
        Some(item) => copied(item),
        None => Err(ValueFault::Run(PKind::Index)),
    }
}

fn last_of(items: &[Value]) -> Result<Value, ValueFault>
    ensures { Tells (λ x. x) (ok_or (last_item items.now) Index) result }
{
    match items.last() {
        Some(item) => copied(item),
        None => Err(ValueFault::Run(PKind::Index)),
    }
}

/// The first item of a vector. Error: `Index` where it is empty.
#[tactic(auto, using(sp_value::proofs::Lists::list_of_vals_of))]
pub fn front(v: &Value) -> Result<Value, ValueFault>
    requires { IsVector v.now }
    ensures { Tells (λ x. x) (front v.now) result }
{
    match v.level() {
        Level::Vector(items) => first_of(items),
        _ => unreachable!(),
    }
}

/// The last item of a vector. Error: `Index` where it is empty.
#[tactic(auto, using(sp_value::proofs::Lists::list_of_vals_of))]
pub fn back(v: &Value) -> Result<Value, ValueFault>
    requires { IsVector v.now }
    ensures { Tells (λ x. x) (back v.now) result }
{
    match v.level() {
        Level::Vector(items) => last_of(items),
        _ => unreachable!(),
    }
}

/// The value that a map has at a key, or `d`, where one is given, if the map has none. Error: `MissingKey` where there is neither.
pub fn get(m: &Value, k: &Value, d: Option<&Value>) -> Result<Value, ValueFault>
    requires { IsMap m.now }
    ensures { Tells (λ x. x) (got m.now k.now (option_copied d.entry)) result }
{
    match m.get(k).or(d) {
        Some(value) => copied(value),
        None => Err(ValueFault::Run(PKind::MissingKey)),
    }
}
