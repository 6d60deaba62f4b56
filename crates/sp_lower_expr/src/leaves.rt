// The code of what has no parts.
ghost use Rattle.std.specs.Prelude.{◌≡◌, [], ◌∷◌, IfOk, OnOk, slice_get, unwrap_or};
ghost use Rattle.sp_value.specs.Val.{str, bytes, void};
ghost use Rattle.sp_typed.specs.Exprs.{leaf};
ghost use Rattle.sp_meaning.specs.Globals.{constant_value, number_of, label_numbers, label_value};
ghost use Rattle.sp_code_programs.specs.exprs.Marked.{constant};
ghost use Rattle.sp_code_programs.specs.exprs.Code.{constant_code, parameter_code, leaf_code};
ghost use Rattle.sp_emit.specs.Emitted.{Adds};
ghost use Rattle.sp_lower_expr.specs.Around.{globals_in, layout_in, constant_at};
ghost use Rattle.sp_lower_expr.specs.Added.{AddsExpr};
ghost use Rattle.sp_lower_expr.specs.Literals.{LeafFits};

use crate::around::{Around, sum};
use crate::operands::push_type;
use crate::values::{number_value, zero_value};
use sp_base::{ByteList, NoMemory, Text};
use sp_code::Instr;
use sp_emit::Emitter;
use sp_typed::{Leaf, LeafOp};
use sp_typed_units::{ConstantValue, Label, LabelNumber};
use sp_types::Type;
use sp_value::Value;

/// The value of a constant, or void where it has none.
fn known_value(known: &ConstantValue) -> Result<Value, NoMemory>
    ensures { IfOk result (λ v. v ≡ unwrap_or (constant_value known.now) void) }
{
    match known {
        ConstantValue::Value(value) => value.copy(),
        _ => Ok(Value::void()),
    }
}

/// The value of a constant of the list, or void where there is none.
fn constant_at(around: &Around<'_>, c: u32) -> Result<Value, NoMemory>
    ensures { IfOk result (λ v. v ≡ constant_at (globals_in around.now) c) }
{
    let constants = around.list.constants.as_slice();
    let c = c as usize;
    if c < constants.len() {
        known_value(&constants[c].value)
    } else {
        Ok(Value::void())
    }
}

/// The number of a label, or 0 where it has none.
fn number_of(number: LabelNumber) -> u64
    ensures { result ≡ number_of number }
{
    match number {
        LabelNumber::Number(n) => n,
        _ => 0,
    }
}

/// The number of a label of an enum.
fn label_number(labels: &[Label], l: u32) -> u64
    ensures { result ≡ unwrap_or (slice_get (label_numbers labels.now) l) 0 }
{
    let l = l as usize;
    if l < labels.len() {
        number_of(labels[l].number)
    } else {
        0
    }
}

/// A label of an enum of the list as a value.
fn label_value(around: &Around<'_>, k: u32, l: u32) -> Value
    ensures { result ≡ label_value (globals_in around.now) k l }
{
    let enums = around.list.enums.as_slice();
    let place = k as usize;
    if place < enums.len() {
        Value::label(k, label_number(enums[place].labels.as_slice(), l))
    } else {
        Value::label(k, 0)
    }
}

fn text(out: &mut Emitter, literal: &Text) -> Result<(), NoMemory>
    ensures { OnOk result (Adds out.old out.new (constant out.old.now (str literal.now) ∷ [])
        out.old.now) }
{
    out.constant(Value::str(literal.copy()?.into_string()?)?)
}

fn bytes(out: &mut Emitter, literal: &ByteList) -> Result<(), NoMemory>
    ensures { OnOk result (Adds out.old out.new (constant out.old.now (bytes literal.now) ∷ [])
        out.old.now) }
{
    out.constant(Value::bytes(literal.copy()?.into_vec())?)
}

/// A constant of the list.
fn constant(out: &mut Emitter, around: &Around<'_>, c: u32) -> Result<(), NoMemory>
    ensures { OnOk result (Adds out.old out.new (constant_code (globals_in around.now)
        (layout_in around.now) out.old.now (slice_get (globals_in around.now).constants c))
        out.old.now) }
{
    out.constant(constant_at(around, c)?)
}

/// A parameter of the body, or of the unit behind these.
fn parameter(out: &mut Emitter, around: &Around<'_>, n: u32) -> Result<(), NoMemory>
    ensures { OnOk result (Adds out.old out.new (parameter_code (globals_in around.now)
        (layout_in around.now) out.old.now n) out.old.now) }
{
    if n < around.places.own {
        out.emit(Instr::Load(n))
    } else {
        out.emit(Instr::Param(n - around.places.own))
    }
}

/// The code of what has no parts, without a look at the shape behind it.
fn leaf_code(out: &mut Emitter, around: &Around<'_>, op: &LeafOp, ty: &Type) -> Result<(), NoMemory>
    requires { LeafFits op.now ty.now }
    ensures { OnOk result (Adds out.old out.new (leaf_code (globals_in around.now)
        (layout_in around.now) out.old.now op.now ty.now) out.old.now) }
{
    match op {
        LeafOp::True => out.constant(Value::bool(true)),
        LeafOp::False => out.constant(Value::bool(false)),
        LeafOp::Number(n) => out.constant(number_value(ty, false, *n)),
        LeafOp::TypedNumber(n) => out.constant(number_value(ty, false, *n)),
        LeafOp::Text(literal) => text(out, literal),
        LeafOp::Bytes(literal) => bytes(out, literal),
        LeafOp::Empty(_) => {
            let zero = zero_value(out.allocator(), around.bitfields(), ty)?;
            out.constant(zero)
        }
        LeafOp::Itself(_) => out.emit(Instr::SelfUnit),
        LeafOp::Current(_) => out.emit(Instr::Load(around.places.current)),
        LeafOp::Local(l) => out.emit(Instr::Load(sum(around.places.first, *l)?)),
        LeafOp::Parameter(n, _) => parameter(out, around, *n),
        LeafOp::Constant(c) => constant(out, around, *c),
        LeafOp::Label(k, l) => out.constant(label_value(around, *k, *l)),
        _ => out.constant(Value::void()),
    }
}

/// The code of an expression without parts.
pub(crate) fn leaf(out: &mut Emitter, around: &Around<'_>, head: &Leaf) -> Result<(), NoMemory>
    requires { LeafFits head.now.op head.now.ty }
    ensures { OnOk result (AddsExpr around.now out.old out.new (leaf head.now)) }
{
    leaf_code(out, around, &head.op, &head.ty)?;
    push_type(out, around, &head.ty)
}
