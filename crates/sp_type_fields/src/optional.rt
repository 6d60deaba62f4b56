// Parts that may be left out.
ghost use Rattle.std.specs.Prelude.{◌≡◌, IfOk};
ghost use Rattle.sp_type_fields.specs.Attributes.{maybe_typed};

use sp_ast::{ExprKind, Ref};
use sp_base::NoMemory;
use sp_type_context::Context;
use sp_type_exprs::typed;
use sp_typed::Expr;
use sp_typed_units::Rare;
use std::alloc::Global;

/// The typed expression, where there is one.
pub(crate) fn maybe_typed<C: Context>(
    alloc: Global,
    context: &C,
    part: &Option<Ref<'_, ExprKind>>,
) -> Result<Option<Expr>, NoMemory>
    ensures { IfOk result (λ e. e ≡ maybe_typed (C.around context.now) part.now) }
{
    match part {
        Some(tree) => Ok(Some(typed(alloc, context, tree)?)),
        None => Ok(None),
    }
}

/// The same of what is mostly left out.
pub(crate) fn rarely_typed<C: Context>(
    alloc: Global,
    context: &C,
    part: &Option<Ref<'_, ExprKind>>,
) -> Result<Rare<Expr>, NoMemory>
    ensures { IfOk result (λ e. e ≡ maybe_typed (C.around context.now) part.now) }
{
    Rare::new(alloc, maybe_typed(alloc, context, part)?)
}
