// The code of what changes places: `t = e`, `t o= e`, `add s[k]` and `delete s[k]`.
ghost use Rattle.std.specs.Prelude.{OnOk};
ghost use Rattle.sp_emit.specs.Emitted.{IsOther};
ghost use Rattle.sp_lower_expr.specs.Literals.{LiteralsFit, PlaceFits};
ghost use Rattle.sp_lower_expr.specs.Changes.{AddsPut, AddsUpdate, AddsKey};

use crate::around::Around;
use crate::nodes::{expr, keep, load, owned, store};
use crate::places::{put_local, store_item, store_member};
use sp_base::NoMemory;
use sp_code::Instr;
use sp_emit::Emitter;
use sp_typed::{Expr, ExprLevel};
use sp_words::BinaryOp;

/// `t = e`. The owner of a member is kept in a local, where it has one.
pub fn put(
    out: &mut Emitter,
    around: &Around<'_>,
    owner: Option<u32>,
    target: &Expr,
    value: &Expr,
) -> Result<(), NoMemory>
    requires target { PlaceFits target.now }
    requires value { LiteralsFit value.now }
    ensures { OnOk result (AddsPut around.now out.old out.new owner target.now value.now) }
{
    match target.level() {
        ExprLevel::Leaf(head) => {
            expr(out, around, value)?;
            put_local(out, around, head)
        }
        ExprLevel::One(head, a) => {
            keep(out, around, owner, a)?;
            expr(out, around, value)?;
            owned(out, around, owner, a)?;
            store_member(out, head)
        }
        ExprLevel::Two(_, a, b) => {
            load(out, around, owner, a)?;
            expr(out, around, b)?;
            expr(out, around, value)?;
            store_item(out)?;
            store(out, around, owner, a)
        }
        _ => Ok(()),
    }
}

/// `t o= e`
pub fn update(
    out: &mut Emitter,
    around: &Around<'_>,
    owner: Option<u32>,
    target: &Expr,
    op: BinaryOp,
    value: &Expr,
) -> Result<(), NoMemory>
    requires target { PlaceFits target.now }
    requires value { LiteralsFit value.now }
    ensures { OnOk result (AddsUpdate around.now out.old out.new owner target.now op value.now) }
{
    load(out, around, owner, target)?;
    expr(out, around, value)?;
    out.emit_last(Instr::Binary(op))?;
    store(out, around, owner, target)
}

/// `add s[k]` and `delete s[k]`, by the instruction that does it.
pub fn key(
    out: &mut Emitter,
    around: &Around<'_>,
    owner: Option<u32>,
    target: &Expr,
    instr: Instr,
) -> Result<(), NoMemory>
    requires target { PlaceFits target.now }
    requires instr { IsOther instr }
    ensures { OnOk result (AddsKey around.now out.old out.new owner target.now instr) }
{
    match target.level() {
        ExprLevel::Two(_, a, k) => {
            load(out, around, owner, a)?;
            expr(out, around, k)?;
            out.emit_last(instr)?;
            store(out, around, owner, a)
        }
        _ => Ok(()),
    }
}
