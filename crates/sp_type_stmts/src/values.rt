// Expressions of a body.
ghost use Rattle.std.specs.Prelude.{◌≡◌, IfOk, OnOk};
ghost use Rattle.sp_ast.specs.Trees.{trees};
ghost use Rattle.sp_type_stmts.specs.Values.{value_in, values_in};

use crate::context::WithLocals;
use crate::owners::keep_owners;
use crate::scope::Scope;
use sp_ast::{ExprKind, Members, Ref};
use sp_base::NoMemory;
use sp_type_context::Context;
use sp_type_exprs::typed;
use sp_typed::Expr;
use std::alloc::Global;

/// The typed expression that a tree is, where its locals are seen.
pub fn value_in<C: Context>(
    alloc: Global,
    context: &C,
    scope: &mut Scope,
    tree: &Ref<'_, ExprKind>,
) -> Result<Expr, NoMemory>
    ensures expr { IfOk result (λ e. e ≡ (value_in (C.around context.now) scope.old tree.now).0) }
    ensures scope { OnOk result (scope.new
        ≡ (value_in (C.around context.now) scope.old tree.now).1) }
{
    let inside = WithLocals {
        outside: context,
        locals: scope.locals(),
    };
    let e = typed(alloc, &inside, tree)?;
    keep_owners(alloc, scope, e)
}

/// The typed expressions of trees, in their order.
pub fn values_in<C: Context>(
    alloc: Global,
    context: &C,
    scope: &mut Scope,
    members: &Members<'_, ExprKind>,
) -> Result<Vec<Expr>, NoMemory>
    ensures exprs { IfOk result (λ r. r.items
        ≡ (values_in (C.around context.now) scope.old (trees members.now)).0) }
    ensures scope { OnOk result (scope.new
        ≡ (values_in (C.around context.now) scope.old (trees members.now)).1) }
{
    let mut all = Vec::new(alloc);
    for tree in members.again() {
        all.push(value_in(alloc, context, scope, &tree)?)?;
    }
    Ok(all)
}
