// The rules of bodies over a typed list.
ghost use Rattle.std.specs.Prelude.{◌≡◌, [], OnOk};
ghost use Rattle.sp_rules.specs.Least.{checked};
ghost use Rattle.sp_rule_lists.specs.Told.{known_in};
ghost use Rattle.sp_rule_lists.specs.Wholes.{outer_tests, list_tests};

use crate::declared::{note_aliases, note_constants, note_conversions, note_enums};
use crate::functions::note_functions;
use crate::hooks::note_hooks;
use crate::slots::ForSlots;
use crate::told::Told;
use crate::units::{note_orders, note_units};
use sp_base::NoMemory;
use sp_rule_bodies::Facts;
use sp_rules::Fault;
use sp_type_constants::Constants;
use sp_typed_units::Typed;
use std::alloc::Global;

/// Notes what is wrong outside of bodies.
#[tactic(auto, using(crate::proofs::Checked::checked_more))]
fn note_outer<F: Facts>(
    alloc: Global,
    facts: &F,
    typed: &Typed,
    least: &mut Option<Fault>,
) -> Result<(), NoMemory>
    ensures { OnOk result (least.new
        ≡ checked least.old (outer_tests (F.known facts.now) typed.now)) }
{
    note_orders(alloc, facts, typed.orders.as_slice(), least)?;
    note_aliases(typed.aliases.as_slice(), least);
    note_conversions(typed.conversions.as_slice(), least);
    note_enums(alloc, facts, typed.enums.as_slice(), least)?;
    note_constants(alloc, facts, typed.constants.as_slice(), least)?;
    note_units(alloc, facts, typed.units.as_slice(), least)
}

/// Notes what is wrong outside of bodies, where `for` has variables in these slots.
fn note_outer_in<C: Constants>(
    alloc: Global,
    typed: &Typed,
    constants: &C,
    slots: &ForSlots,
    least: &mut Option<Fault>,
) -> Result<(), NoMemory>
    ensures { OnOk result (least.new ≡ checked least.old
        (outer_tests (known_in typed.now (C.known constants.now) slots.now) typed.now)) }
{
    let told = Told {
        typed,
        constants,
        slots,
    };
    note_outer(alloc, &told, typed, least)
}

/// Notes what is wrong outside of bodies, where no slot is that of a variable of `for`.
fn note_all_outer<C: Constants>(
    alloc: Global,
    typed: &Typed,
    constants: &C,
    least: &mut Option<Fault>,
) -> Result<(), NoMemory>
    ensures { OnOk result (least.new ≡ checked least.old
        (outer_tests (known_in typed.now (C.known constants.now) []) typed.now)) }
{
    let slots = ForSlots::none(alloc);
    note_outer_in(alloc, typed, constants, &slots, least)
}

/// Notes what is wrong with the bodies of a typed list: with functions, hooks, constants, labels, aliases, conversions, byte
/// orders and units, and with what these read. `constants` tells the constants and labels of the list. Time and calls are those
/// of the list's size and height, and of the constants that its indexes, orders and priorities name.
#[tactic(auto, using(crate::proofs::Checked::checked_more))]
pub fn note_bodies<C: Constants>(
    alloc: Global,
    typed: &Typed,
    constants: &C,
    least: &mut Option<Fault>,
) -> Result<(), NoMemory>
    ensures { OnOk result (least.new ≡ checked least.old
        (list_tests typed.now (C.known constants.now))) }
{
    note_all_outer(alloc, typed, constants, least)?;
    note_functions(alloc, typed, constants, typed.functions.as_slice(), least)?;
    note_hooks(alloc, typed, constants, typed.hooks.as_slice(), least)
}
