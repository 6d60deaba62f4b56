// What a typed list tells the rules that a node can't tell.
ghost use Rattle.std.specs.Prelude.{◌≡◌, slice_get, IfOk};
ghost use Rattle.sp_rule_lists.specs.Told.{parameter_type, function_takes, unit_takes, new_takes, target_of, constancy_of, known_in};

use crate::slots::ForSlots;
use sp_base::NoMemory;
use sp_rule_bodies::{Constancy, Facts};
use sp_type_constants::{Constants, Outcome, value_of};
use sp_type_methods::{method_takes, sink_method_takes, unit_method_takes};
use sp_typed::{Expr, ManyOp, NewOf};
use sp_typed_units::{Parameter, Typed};
use sp_types::Type;
use std::alloc::Global;

/// What a typed list tells the rules in a body, where `for` has variables in these slots.
#[derive(Drop)]
pub(crate) struct Told<'a, C: Constants> {
    pub(crate) typed: &'a Typed,
    pub(crate) constants: &'a C,
    pub(crate) slots: &'a ForSlots,
}

fn parameter_type(parameters: &[Parameter], number: usize) -> Result<Option<Type>, NoMemory>
    ensures { IfOk result (λ t. t ≡ parameter_type (slice_get parameters.now number)) }
{
    match parameters.get(number) {
        Some(parameter) => Ok(Some(parameter.ty.copy()?)),
        None => Ok(None),
    }
}

fn function_takes(typed: &Typed, function: u32, number: usize) -> Result<Option<Type>, NoMemory>
    ensures { IfOk result (λ t. t ≡ function_takes (slice_get typed.now.functions function)
        number) }
{
    match typed.functions.as_slice().get(function as usize) {
        Some(found) => parameter_type(found.parameters.as_slice(), number),
        None => Ok(None),
    }
}

fn unit_takes(typed: &Typed, unit: u32, number: usize) -> Result<Option<Type>, NoMemory>
    ensures { IfOk result (λ t. t ≡ unit_takes (slice_get typed.now.units unit) number) }
{
    match typed.units.as_slice().get(unit as usize) {
        Some(found) => parameter_type(found.parameters.as_slice(), number),
        None => Ok(None),
    }
}

fn new_takes(typed: &Typed, of: NewOf, number: usize) -> Result<Option<Type>, NoMemory>
    ensures { IfOk result (λ t. t ≡ new_takes typed.now of number) }
{
    match of {
        NewOf::Unit(unit) => unit_takes(typed, unit, number),
        NewOf::Decoder => Ok(None),
    }
}

fn constancy_of(found: &Outcome) -> Constancy
    ensures { result ≡ constancy_of found.now }
{
    match found {
        Outcome::Value(_) | Outcome::Regex(_) => Constancy::Constant,
        Outcome::NotConstant | Outcome::Error => Constancy::NotConstant,
        Outcome::Unknown => Constancy::Unknown,
    }
}

impl<'a, C: Constants> Facts for Told<'a, C> {
    ghost known = { λ f. known_in f.typed.now (C.known f.constants.now) f.slots.now };

    fn target(
        &self,
        op: &ManyOp,
        receiver: &Type,
        number: usize,
    ) -> Result<Option<Type>, NoMemory> {
        match *op {
            ManyOp::Call(function) => function_takes(self.typed, function, number),
            ManyOp::New(of, _) => new_takes(self.typed, of, number),
            ManyOp::Method(method, _) => method_takes(method, receiver, number),
            ManyOp::OfUnit(method, _) => Ok(unit_method_takes(method, number)),
            ManyOp::OfSink(method) => Ok(sink_method_takes(method, number)),
            _ => Ok(None),
        }
    }

    fn fixed(&self, slot: u32) -> bool {
        self.slots.has(slot)
    }

    fn constancy(&self, alloc: Global, e: &Expr) -> Result<Constancy, NoMemory> {
        let found = value_of(alloc, self.constants, e)?;
        let constancy = constancy_of(found.outcome());
        drop(found);
        Ok(constancy)
    }
}
