// Programs, put together.
ghost use Rattle.std.specs.Prelude.{IfOk};
ghost use Rattle.sp_code_programs.specs.programs.Whole.{IsCompiled};
ghost use Rattle.sp_lower.specs.Literals.{ListLiteralsFit};
ghost use Rattle.sp_lower.specs.inside.Laid.{LaysAll};
ghost use Rattle.sp_lower.specs.inside.Whole.{IsCode, IsAssembled};

use crate::bodies::{Bodies, no_bodies};
use crate::functions::functions;
use crate::hooks::hooks;
use crate::starters::starters;
use crate::units::all_units;
use sp_base::NoMemory;
use sp_code::{Labels, Program, Ranges, Shapes, UnitCode};
use sp_emit::{Emission, Emitter};
use sp_lower_tables::{HookedFields, labels_of, ranges_of};
use sp_typed_units::Typed;
use std::alloc::Global;

/// Lays out the functions and the bodies of hooks of a list at the beginning of the code, and answers their tables.
fn all_bodies(out: &mut Emitter, list: &Typed) -> Result<Bodies, NoMemory>
    requires { ListLiteralsFit list.now }
    ensures { IfOk result (LaysAll list.now out.old out.new) }
{
    let alloc = out.allocator();
    let fields = HookedFields::new(alloc, list)?;
    let mut bodies = no_bodies(alloc);
    functions(out, &mut bodies, list, list.functions.as_slice())?;
    hooks(out, &mut bodies, &fields, list.hooks.as_slice())?;
    Ok(bodies)
}

/// All code of a list, and the tables of its bodies and its units.
#[derive(Drop)]
pub(crate) struct Code {
    pub(crate) emission: Emission,
    pub(crate) bodies: Bodies,
    pub(crate) units: Vec<UnitCode>,
}

fn code_of(alloc: Global, list: &Typed) -> Result<Code, NoMemory>
    requires { ListLiteralsFit list.now }
    ensures { IfOk result (IsCode list.now) }
{
    let mut out = Emitter::new(alloc);
    let bodies = all_bodies(&mut out, list)?;
    let units = all_units(&mut out, list)?;
    starters(&mut out, list, list.units.as_slice())?;
    let emission = out.finish()?;
    Ok(Code {
        emission,
        bodies,
        units,
    })
}

/// The program of its parts. Takes no memory.
fn assembled(code: Code, enums: Vec<Labels>, bitfields: Vec<Ranges>) -> Program
    ensures { IsAssembled code enums.items bitfields.items result }
{
    let Code {
        emission,
        bodies,
        units,
    } = code;
    Program {
        code: emission.code,
        consts: emission.consts,
        units,
        hooks: bodies.entries,
        shapes: Shapes {
            kinds: emission.kinds,
            stacks: emission.stacks,
            opens: emission.opens,
            at: emission.at,
            bodies: bodies.locals,
            enums,
            bitfields,
        },
    }
}

/// The program of a typed list: the code of all functions, bodies of hooks and units, a starter of each unit, and their tables. It
/// is made in time that grows with n log n for a list of size n.
pub fn lower(alloc: Global, list: &Typed) -> Result<Program, NoMemory>
    requires literals { ListLiteralsFit list.now }
    ensures { IfOk result (λ p. IsCompiled list.now p) }
{
    let enums = labels_of(alloc, list.enums.as_slice())?;
    let bitfields = ranges_of(alloc, list.bitfields.as_slice())?;
    let code = code_of(alloc, list)?;
    Ok(assembled(code, enums, bitfields))
}
