// The code of fields.
ghost use Rattle.std.specs.Prelude.{◌≡◌, [], ◌∷◌, OnOk};
ghost use Rattle.sp_methods.specs.Kinds.{Unsigned, UnitOf};
ghost use Rattle.sp_code_meaning.specs.Units as slots;
ghost use Rattle.sp_meaning.specs.Integers as forms;
ghost use Rattle.sp_code.specs.declared.instr.Instr.TheVariants as does;
ghost use Rattle.sp_code.specs.Shapes.{Round, push, read_kind};
ghost use Rattle.sp_code_programs.specs.exprs.Marked.{mark};
ghost use Rattle.sp_code_programs.specs.units.Units.{unit_shape, where_integer};
ghost use Rattle.sp_code_programs.specs.units.Units as code;
ghost use Rattle.sp_emit.specs.Emitted.{Adds};
ghost use Rattle.sp_lower_unit.specs.Forms.{form_of};

use crate::hooks::{Handed, OFFSET_SLOT, hooks, push_read, value_slot};
use crate::integers::integer_field;
use crate::members::{keep, store};
use sp_base::NoMemory;
use sp_code::{Instr, IntForm, KindRow};
use sp_emit::Emitter;
use sp_typed_units::{Field, Typed};

/// The offset of a field's first byte is kept in its local.
fn keep_offset(out: &mut Emitter, unit: u32) -> Result<(), NoMemory>
    ensures { OnOk result (Adds out.old out.new (mark out.old.now does.SelfUnit ∷ mark (push
        (UnitOf unit) out.old.now) does.Offset ∷ mark (push Unsigned out.old.now) (does.Store
        slots.offset_slot) ∷ []) out.old.now) }
{
    out.emit(Instr::SelfUnit)?;
    out.push_row(KindRow::Unit(unit))?;
    out.emit_last(Instr::Offset)?;
    out.push_row(KindRow::Unsigned)?;
    out.emit_last(Instr::Store(OFFSET_SLOT))
}

/// An integer is read, and its value is on top.
fn read(out: &mut Emitter, form: IntForm) -> Result<(), NoMemory>
    ensures { OnOk result (Adds out.old out.new (mark out.old.now (does.ReadInt form) ∷ [])
        (push (read_kind form.signed) out.old.now)) }
{
    out.emit(Instr::ReadInt(form))?;
    push_read(out, form.signed)
}

/// An integer is read, and its value is kept in the local of `$$`.
fn read_current(out: &mut Emitter, form: IntForm) -> Result<(), NoMemory>
    ensures { OnOk result (Adds out.old out.new (mark out.old.now (does.ReadInt form) ∷ mark (push
        (read_kind form.signed) out.old.now) (does.Store (slots.value_slot form.signed)) ∷ [])
        out.old.now) }
{
    read(out, form)?;
    out.emit_last(Instr::Store(value_slot(form.signed)))
}

/// A field with hooks: the offset of its first byte is kept, and so is its value, which is stored before the hooks run.
fn hooked(
    out: &mut Emitter,
    list: &Typed,
    unit: u32,
    form: IntForm,
    member: Option<u32>,
    bodies: &[u32],
) -> Result<(), NoMemory>
    ensures { (r : Round) → out.old.now ≡ unit_shape unit r → OnOk result (Adds out.old out.new
        (code.hooked_code list.now unit (unit_shape unit r) (form_of form) member bodies.now)
        (unit_shape unit r)) }
{
    keep_offset(out, unit)?;
    read_current(out, form)?;
    keep(out, unit, form.signed, member)?;
    hooks(out, list, Handed::Current(form.signed), bodies)
}

/// A field without hooks keeps nothing for them.
fn plain(out: &mut Emitter, unit: u32, form: IntForm, member: Option<u32>) -> Result<(), NoMemory>
    ensures { (r : Round) → out.old.now ≡ unit_shape unit r → OnOk result (Adds out.old out.new
        (mark (unit_shape unit r) (does.ReadInt form) ∷ code.stored_code unit (unit_shape unit r)
        (read_kind form.signed) member) (unit_shape unit r)) }
{
    read(out, form)?;
    store(out, unit, member)
}

fn integer(
    out: &mut Emitter,
    list: &Typed,
    unit: u32,
    form: IntForm,
    member: Option<u32>,
    bodies: &[u32],
) -> Result<(), NoMemory>
    ensures { (r : Round) → out.old.now ≡ unit_shape unit r → OnOk result (Adds out.old out.new
        (code.field_code list.now unit (unit_shape unit r) (form_of form) member bodies.now)
        (unit_shape unit r)) }
{
    if bodies.is_empty() {
        plain(out, unit, form, member)
    } else {
        hooked(out, list, unit, form, member, bodies)
    }
}

/// The code of a field, where this is the byte order of its unit. One that is no integer has none.
pub(crate) fn field(
    out: &mut Emitter,
    list: &Typed,
    unit: u32,
    order: Option<u64>,
    field: &Field,
) -> Result<(), NoMemory>
    ensures { (r : Round) → out.old.now ≡ unit_shape unit r → OnOk result (Adds out.old out.new
        (where_integer list.now (forms.integer_field order field.now) (λ form.
        code.field_code list.now unit (unit_shape unit r) form field.now.member field.now.hooks))
        (unit_shape unit r)) }
{
    match integer_field(order, field) {
        Some(form) => { integer(out, list, unit, form, field.member, field.hooks.as_slice()) }
        None => Ok(()),
    }
}
