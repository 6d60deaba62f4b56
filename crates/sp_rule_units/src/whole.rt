// The rules of units over a typed list.
ghost use Rattle.std.specs.Prelude.{◌≡◌};
ghost use Rattle.sp_rules.specs.Least.{checked};
ghost use Rattle.sp_rule_units.specs.Faults.{each};
ghost use Rattle.sp_rule_units.specs.Bits.{bitfield_tests};
ghost use Rattle.sp_rule_units.specs.Units.{unit_tests, hook_tests, function_tests, all_tests};

use crate::bits::note_bitfield;
use crate::declarations::{note_function, note_hook, note_unit};
use sp_rules::Fault;
use sp_typed_units::{Bitfield, Function, Hook, Typed, Unit};

#[tactic(auto, using(crate::proofs::Checked::checked_more))]
fn note_units(units: &[Unit], least: &mut Option<Fault>)
    ensures { least.new ≡ checked least.old (each (unit_tests units.now) units.now) }
{
    for unit in units {
        note_unit(units, unit, least);
    }
}

#[tactic(auto, using(crate::proofs::Checked::checked_more))]
fn note_hooks(units: &[Unit], hooks: &[Hook], least: &mut Option<Fault>)
    ensures { least.new ≡ checked least.old (each (hook_tests units.now) hooks.now) }
{
    for hook in hooks {
        note_hook(units, hook, least);
    }
}

#[tactic(auto, using(crate::proofs::Checked::checked_more))]
fn note_functions(units: &[Unit], functions: &[Function], least: &mut Option<Fault>)
    ensures { least.new ≡ checked least.old (each (function_tests units.now) functions.now) }
{
    for function in functions {
        note_function(units, function, least);
    }
}

#[tactic(auto, using(crate::proofs::Checked::checked_more))]
fn note_bitfields(bitfields: &[Bitfield], least: &mut Option<Fault>)
    ensures { least.new ≡ checked least.old (each bitfield_tests bitfields.now) }
{
    for bitfield in bitfields {
        note_bitfield(bitfield, least);
    }
}

/// Notes what is wrong with the units, hooks, functions and bitfields of a typed list: with attributes, bounds of bytes, ranges
/// of bits, filters, and what sink hooks and `new` use. Takes no memory; its time is that of the list's size, and its calls
/// stand as high as the list's trees.
#[tactic(auto, using(crate::proofs::Checked::checked_more))]
pub fn note_unit_rules(typed: &Typed, least: &mut Option<Fault>)
    ensures { least.new ≡ checked least.old (all_tests typed.now) }
{
    let units = typed.units.as_slice();
    note_units(units, least);
    note_hooks(units, typed.hooks.as_slice(), least);
    note_functions(units, typed.functions.as_slice(), least);
    note_bitfields(typed.bitfields.as_slice(), least);
}
