// The code that runs the bodies of a hook.
ghost use Rattle.std.specs.Prelude.{◌≡◌, ◌+◌, ℕ, [], ◌∷◌, length, IfOk, OnOk};
ghost use Rattle.sp_methods.specs.Kinds.{Unsigned};
ghost use Rattle.sp_code_meaning.specs.Units as slots;
ghost use Rattle.sp_code.specs.declared.instr.Instr.TheVariants as does;
ghost use Rattle.sp_code.specs.Shapes.{Round, push, read_kind};
ghost use Rattle.sp_code_programs.specs.exprs.Marked.{mark};
ghost use Rattle.sp_code_programs.specs.units.Bodies.{loads_code, loaded, hooks_code};
ghost use Rattle.sp_code_programs.specs.units.Units.{unit_shape};
ghost use Rattle.sp_emit.specs.Emitted.{Adds, TurnsTo};
ghost use Rattle.sp_lower_unit.specs.Handed.{handed_locals};

use sp_base::NoMemory;
use sp_code::{Instr, KindRow};
use sp_emit::{Emitter, number};
use sp_lower_expr::sum;
use sp_typed_units::Typed;

/// The local of a unit's own code that has the offset of the field at hand.
pub(crate) const OFFSET_SLOT: u32 = 0;

/// What a hook hands to each of its bodies, from the locals of a unit's own code.
#[derive(Clone, Copy)]
pub(crate) enum Handed {
    Nothing,
    /// `$$`, which has a sign or none, and the offset of the field.
    Current(bool),
}

/// The local of a unit's own code that has `$$`.
pub(crate) fn value_slot(signed: bool) -> u32
    ensures { result ≡ slots.value_slot signed }
{
    if signed { 2 } else { 1 }
}

/// One more operand, of the kind of an integer that is read.
pub(crate) fn push_read(out: &mut Emitter, signed: bool) -> Result<(), NoMemory>
    ensures { OnOk result (TurnsTo out.old out.new (push (read_kind signed) out.old.now)) }
{
    if signed {
        out.push_row(KindRow::Signed)
    } else {
        out.push_row(KindRow::Unsigned)
    }
}

/// `$$`, and on it the offset of the field.
fn load_current(out: &mut Emitter, signed: bool) -> Result<(), NoMemory>
    ensures { OnOk result (Adds out.old out.new (mark out.old.now (does.Load
        (slots.value_slot signed)) ∷ mark (push (read_kind signed) out.old.now) (does.Load
        slots.offset_slot) ∷ []) (push Unsigned (push (read_kind signed) out.old.now))) }
{
    out.emit(Instr::Load(value_slot(signed)))?;
    push_read(out, signed)?;
    out.emit(Instr::Load(OFFSET_SLOT))?;
    out.push_row(KindRow::Unsigned)
}

/// What a hook hands to one of its bodies.
fn loads(out: &mut Emitter, handed: Handed) -> Result<(), NoMemory>
    ensures { (u : ℕ) (r : Round) → out.old.now ≡ unit_shape u r → OnOk result (Adds out.old
        out.new (loads_code (unit_shape u r) (handed_locals handed)) (loaded (unit_shape u r)
        (handed_locals handed))) }
{
    match handed {
        Handed::Nothing => Ok(()),
        Handed::Current(signed) => load_current(out, signed),
    }
}

/// The entry of a body of a hook in the table of bodies, where functions stand first.
fn entry_of(list: &Typed, body: u32) -> Result<u32, NoMemory>
    ensures { IfOk result (λ n. n ≡ length list.now.functions + body) }
{
    sum(number(list.functions.as_slice().len())?, body)
}

/// One body of a hook, by its number among all bodies of hooks.
fn hook(out: &mut Emitter, list: &Typed, handed: Handed, body: u32) -> Result<(), NoMemory>
    ensures { (u : ℕ) (r : Round) → out.old.now ≡ unit_shape u r → OnOk result (Adds out.old
        out.new (hooks_code (unit_shape u r) (length list.now.functions) (handed_locals handed)
        (body ∷ [])) (unit_shape u r)) }
{
    let entry = entry_of(list, body)?;
    loads(out, handed)?;
    out.emit(Instr::Hook(entry))?;
    out.lower(0);
    Ok(())
}

/// The bodies of a hook, by their numbers among all bodies of hooks, one after another.
pub(crate) fn hooks(
    out: &mut Emitter,
    list: &Typed,
    handed: Handed,
    bodies: &[u32],
) -> Result<(), NoMemory>
    ensures { (u : ℕ) (r : Round) → out.old.now ≡ unit_shape u r → OnOk result (Adds out.old
        out.new (hooks_code (unit_shape u r) (length list.now.functions) (handed_locals handed)
        bodies.now) (unit_shape u r)) }
{
    for body in bodies {
        hook(out, list, handed, *body)?;
    }
    Ok(())
}
