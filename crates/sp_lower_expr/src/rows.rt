// The code of what has any number of parts, behind that of the parts.
ghost use Rattle.std.specs.Prelude.{◌≡◌, IfSome, IfNone, OnOk};
ghost use Rattle.sp_typed.specs.Exprs.{exprs, more, none};
ghost use Rattle.sp_meaning.specs.Operations.{itself, is_self};
ghost use Rattle.sp_code_meaning.specs.Exprs.{offset_local};
ghost use Rattle.sp_code_programs.specs.exprs.Code.{many_code};
ghost use Rattle.sp_emit.specs.Emitted.{Adds};
ghost use Rattle.sp_lower_expr.specs.Around.{globals_in, layout_in, layout_of};
ghost use Rattle.sp_lower_expr.specs.Many.{row_of};

use crate::around::{Around, Places};
use sp_base::NoMemory;
use sp_code::Instr;
use sp_emit::{Emitter, number};
use sp_operators::PlainType;
use sp_typed::{Expr, ExprLevel, LeafOp, ManyOp, UnitMethod};
use sp_value::Value;
use sp_words::Method;

/// What is done with any number of parts.
#[derive(Clone, Copy)]
pub enum Row {
    /// What is asked for stands in a local.
    Kept(u32),
    /// A method that changes its receiver, which is the first part, and the slot of its owner.
    Changes(Method, Option<u32>),
    /// All are evaluated, and taken at once.
    Values,
}

fn itself(op: &LeafOp) -> bool
    ensures { result ≡ itself op.now }
{
    matches!(op, LeafOp::Itself(_))
}

fn is_itself(part: &Expr) -> bool
    ensures { result ≡ is_self (more part.now none) }
{
    match part.level() {
        ExprLevel::Leaf(head) => itself(&head.op),
        _ => false,
    }
}

/// Whether the parts are `self` alone.
fn is_self(parts: &[Expr]) -> bool
    ensures { result ≡ is_self (exprs parts.now) }
{
    if parts.len() != 1 {
        return false;
    }
    is_itself(&parts[0])
}

/// The local in which the offset of the field at hand stands, where it is asked of `self`.
fn offset_local(places: &Places, of_self: bool) -> Option<u32>
    ensures { result ≡ offset_local (layout_of places.now) of_self }
{
    if of_self { places.offset } else { None }
}

/// What is done with the parts of a node.
pub fn row_of(op: ManyOp, places: &Places, parts: &[Expr]) -> Row
    ensures { result ≡ row_of op (offset_local (layout_of places.now) (is_self
        (exprs parts.now))) }
{
    match op {
        ManyOp::OfUnit(UnitMethod::Offset, _) => {
            match offset_local(places, is_self(parts)) {
                Some(l) => Row::Kept(l),
                None => Row::Values,
            }
        }
        ManyOp::Method(m, slot) if m.changes() => Row::Changes(m, slot),
        _ => Row::Values,
    }
}

/// The first part and those behind it, where there is one.
pub fn first_and_rest(parts: &[Expr]) -> Option<(&Expr, &[Expr])>
    ensures some { IfSome result (λ p. exprs parts.now ≡ more p.0.now (exprs p.1.now)) }
    ensures none { IfNone result (exprs parts.now ≡ none) }
{
    if parts.len() == 0 {
        return None;
    }
    Some((&parts[0], &parts[1..]))
}

/// What takes so many values on top.
pub(crate) fn row_code(
    out: &mut Emitter,
    around: &Around<'_>,
    op: ManyOp,
    count: usize,
) -> Result<(), NoMemory>
    ensures { OnOk result (Adds out.old out.new (many_code (globals_in around.now) (layout_in around.now) out.old.now op count) out.old.now) }
{
    match op {
        ManyOp::Tuple => out.emit(Instr::MakeTuple(number(count)?)),
        ManyOp::Vector => out.emit(Instr::MakeVector(number(count)?)),
        ManyOp::Set => out.emit(Instr::MakeSet(number(count)?)),
        ManyOp::Map => out.emit(Instr::MakeMap(number(count)?)),
        ManyOp::Call(f) => out.emit(Instr::Call(f)),
        ManyOp::Convert(k) => out.emit(Instr::Cast(PlainType::Enum(k))),
        ManyOp::Method(m, _) => out.emit(Instr::Lib(m)),
        ManyOp::OfUnit(UnitMethod::Offset, _) => out.emit(Instr::Offset),
        _ => out.constant(Value::void()),
    }
}
