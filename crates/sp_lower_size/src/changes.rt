// Sizes of what changes places.
ghost use Rattle.std.specs.Prelude.{◌≡◌, IfOk};
ghost use Rattle.sp_code_meaning.specs.Exprs.{slot_local};
ghost use Rattle.sp_code_programs.specs.exprs.Sizes.{expr_size, put_size, update_size, key_size};
ghost use Rattle.sp_code_programs.specs.units.Sizes.{assign_size};
ghost use Rattle.sp_lower_expr.specs.Around.{layout_in};

use crate::forms::{changed_size, keep_size, member_size};
use crate::nodes::{expr_size, load_size, store_size};
use sp_base::NoMemory;
use sp_lower_expr::{Around, slot_local, sum};
use sp_typed::{Assign, Expr, ExprLevel};
use sp_words::AssignOp;

/// `t = e`, where e has so many.
fn put_size(
    around: &Around<'_>,
    owner: Option<u32>,
    target: &Expr,
    value: u32,
) -> Result<u32, NoMemory>
    ensures { IfOk result (λ n. n ≡ put_size (layout_in around.now) owner target.now value) }
{
    match target.level() {
        ExprLevel::Leaf(_) => sum(value, 1),
        ExprLevel::One(_, a) => {
            let n = expr_size(around, a)?;
            let kept = keep_size(owner, n)?;
            sum(kept, sum(value, member_size(owner, n)?)?)
        }
        ExprLevel::Two(_, a, b) => {
            let load = load_size(around, owner, a)?;
            let key = expr_size(around, b)?;
            let store = store_size(around, owner, a)?;
            sum(load, changed_size(key, value, store)?)
        }
        _ => Ok(0),
    }
}

/// `t o= e`, where e has so many.
fn update_size(
    around: &Around<'_>,
    owner: Option<u32>,
    target: &Expr,
    value: u32,
) -> Result<u32, NoMemory>
    ensures { IfOk result (λ n. n ≡ update_size (layout_in around.now) owner target.now value) }
{
    let load = load_size(around, owner, target)?;
    let store = store_size(around, owner, target)?;
    changed_size(load, value, store)
}

/// `add s[k]` and `delete s[k]`
pub(crate) fn key_size(
    around: &Around<'_>,
    owner: Option<u32>,
    target: &Expr,
) -> Result<u32, NoMemory>
    ensures { IfOk result (λ n. n ≡ key_size (layout_in around.now) owner target.now) }
{
    match target.level() {
        ExprLevel::Two(_, a, b) => {
            let load = load_size(around, owner, a)?;
            let key = expr_size(around, b)?;
            let store = store_size(around, owner, a)?;
            changed_size(load, key, store)
        }
        _ => Ok(0),
    }
}

/// An assignment.
pub(crate) fn assign_size(
    around: &Around<'_>,
    head: &Assign,
    target: &Expr,
    value: &Expr,
) -> Result<u32, NoMemory>
    ensures { IfOk result (λ n. n ≡ assign_size (layout_in around.now) head.now.op (slot_local
        (layout_in around.now) head.now.owner) target.now value.now) }
{
    let owner = slot_local(around, head.owner)?;
    let size = expr_size(around, value)?;
    match head.op {
        AssignOp::Set => put_size(around, owner, target, size),
        AssignOp::Add => update_size(around, owner, target, size),
        AssignOp::Subtract => update_size(around, owner, target, size),
    }
}
