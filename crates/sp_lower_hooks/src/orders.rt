// The byte orders of modules.
ghost use Rattle.std.specs.Prelude.{◌≡◌, ◌==◌, ℕ, None, cond, IfOk, OnOk};
ghost use Rattle.sp_lower_hooks.specs.inside.Orders.{order_in, AreOrders};

use indexmap::IndexMap;
use sp_base::NoMemory;
use sp_typed_units::{OrderProperty, Typed};
use std::alloc::Global;

/// The byte order of each module that has the property.
#[derive(Drop)]
pub(crate) struct Orders {
    pub of: IndexMap<u32, Option<u64>>,
}

fn no_orders(alloc: Global) -> Orders
    ensures { (m : ℕ) → order_in result m ≡ None }
{
    Orders {
        of: IndexMap::new(alloc),
    }
}

/// The order of a module, if it has one.
pub(crate) fn order_of(orders: &Orders, module: u32) -> Option<u64>
    ensures { result ≡ order_in orders.now «module» }
{
    match orders.of.get(&module) {
        Some(order) => *order,
        None => None,
    }
}

/// A module has this order.
fn put(orders: &mut Orders, module: u32, order: Option<u64>) -> Result<(), NoMemory>
    ensures { OnOk result ((m : ℕ) → order_in orders.new m
        ≡ cond («module» == m) order (order_in orders.old m)) }
{
    orders.of.insert(module, order)?;
    Ok(())
}

/// The orders of several modules, of which the last one of each counts.
fn all_orders(alloc: Global, list: &[OrderProperty]) -> Result<Orders, NoMemory>
    ensures { IfOk result (AreOrders list.now) }
{
    let mut orders = no_orders(alloc);
    for i in 0..list.len() {
        put(&mut orders, list[i].module, list[i].number)?;
    }
    Ok(orders)
}

/// The orders of the modules of a list.
pub(crate) fn orders_of(alloc: Global, list: &Typed) -> Result<Orders, NoMemory>
    ensures { IfOk result (AreOrders list.now.orders) }
{
    all_orders(alloc, list.orders.as_slice())
}
