// Byte orders that stand behind `%byte-order =`.
ghost use Rattle.std.specs.Prelude.{◌≡◌, IfOk};
ghost use Rattle.sp_type_fields.specs.Orders.{order_of};

use crate::constants::Constants;
use sp_ast::{PathKind, Ref};
use sp_base::{NoMemory, or_drop};
use sp_type_context::Context;
use sp_typed_units::OrderProperty;
use std::alloc::Global;

/// A byte order, by the path behind its `=`.
pub fn order_of<C: Context, V: Constants>(
    alloc: Global,
    context: &C,
    constants: &V,
    module: u32,
    path: &Ref<'_, PathKind>,
) -> Result<OrderProperty, NoMemory>
    ensures { IfOk result (λ o. o ≡ order_of (C.around context.now) (V.values constants.now)
        «module» path.now) }
{
    let value = context.path(alloc, path.span(), path)?;
    let number = or_drop!(constants.number(alloc, &value); value);
    Ok(OrderProperty {
        module,
        value,
        number,
    })
}
