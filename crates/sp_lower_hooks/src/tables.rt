// What the code of units looks up.
ghost use Rattle.std.specs.Prelude.{◌≡◌, ◌<◌, None, length, IfOk};
ghost use Rattle.sp_words.specs.declared.words.HookName.TheVariants.{Init, Done, Error, Finally};
ghost use Rattle.sp_meaning.specs.Hooks.{hook_bodies, is_of_unit};
ghost use Rattle.sp_meaning.specs.Integers.{module_order};
ghost use Rattle.sp_lower_hooks.specs.inside.Rows.{AreRows};
ghost use Rattle.sp_lower_hooks.specs.inside.Orders.{AreOrders};

use crate::orders::{Orders, order_of, orders_of};
use crate::rows::{row_of, rows_of};
use sp_base::{NoMemory, or_drop};
use sp_typed_units::Typed;
use sp_words::HookName;
use std::alloc::Global;

/// A typed list, with the bodies of the hooks that each unit has, by units, and the byte orders of modules. It is made in time
/// that grows with n log n for n bodies of hooks, and no look-up hangs on how many there are.
#[derive(Drop)]
pub struct UnitTables<'a> {
    pub list: &'a Typed,
    init: Vec<Vec<u32>>,
    done: Vec<Vec<u32>>,
    error: Vec<Vec<u32>>,
    finally: Vec<Vec<u32>>,
    orders: Orders,
    ghost of_init: { AreRows Init list.now init.items },
    ghost of_done: { AreRows Done list.now done.items },
    ghost of_error: { AreRows Error list.now error.items },
    ghost of_finally: { AreRows Finally list.now finally.items },
    ghost of_modules: { AreOrders list.now.orders orders },
}

impl<'a> UnitTables<'a> {
    /// What the code of the units of a list looks up.
    pub fn new(alloc: Global, list: &'a Typed) -> Result<UnitTables<'a>, NoMemory>
        ensures { IfOk result (λ t. t.list.now ≡ list.now) }
    {
        let init = rows_of(alloc, list, HookName::Init)?;
        let done = or_drop!(rows_of(alloc, list, HookName::Done); init);
        let error = or_drop!(rows_of(alloc, list, HookName::Error); init, done);
        let finally = or_drop!(rows_of(alloc, list, HookName::Finally); init, done, error);
        let orders = or_drop!(orders_of(alloc, list); init, done, error, finally);
        Ok(UnitTables {
            list,
            init,
            done,
            error,
            finally,
            orders,
        })
    }

    /// The numbers of the bodies of a hook that each unit has, of a unit by number, in the order in which they run. There are none
    /// of a hook that not each unit has.
    pub fn bodies(&self, unit: u32, name: HookName) -> &[u32]
        requires { unit < length self.now.list.now.units }
        ensures { result.now ≡ hook_bodies (is_of_unit unit name) self.now.list.now.hooks }
    {
        match name {
            HookName::Init => row_of(&self.init, unit),
            HookName::Done => row_of(&self.done, unit),
            HookName::Error => row_of(&self.error, unit),
            HookName::Finally => row_of(&self.finally, unit),
            _ => &[],
        }
    }

    /// The number of the byte order that a module has as a property, if it has one.
    pub fn order(&self, module: u32) -> Option<u64>
        ensures { result ≡ module_order «module» None self.now.list.now.orders }
    {
        order_of(&self.orders, module)
    }
}
