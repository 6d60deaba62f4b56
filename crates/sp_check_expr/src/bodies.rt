// Whether a rule of bodies is broken.
ghost use Rattle.std.specs.Prelude.{◌≡◌, None, IfOk, IfErr, OnOk};
ghost use Rattle.sp_rules.specs.Least.{IsLeast, checked};
ghost use Rattle.sp_rule_lists.specs.Told.{values_of};
ghost use Rattle.sp_rule_lists.specs.Wholes.{list_tests};
ghost use Rattle.sp_type_answers.specs.Refusals.{IsRefused};
ghost use Rattle.sp_check_expr.specs.Broken.{BreaksBody};

use sp_base::NoMemory;
use sp_rule_lists::{least_of_broken, note_bodies};
use sp_rules::Fault;
use sp_scope::Scopes;
use sp_type_answers::CheckFault;
use std::alloc::Global;

/// A list of modules in which no rule of bodies is broken.
#[derive(Drop)]
pub struct Bodies<'s> {
    scopes: &'s Scopes,
    ghost whole: { IsLeast (BreaksBody scopes.now.typed) None },
}

impl<'s> Bodies<'s> {
    /// The list.
    pub fn scopes(&self) -> &'s Scopes
        ensures same { result.now ≡ self.now.scopes.now }
        ensures whole { IsLeast (BreaksBody result.now.typed) None }
    {
        self.scopes
    }
}

/// The least rule of bodies that is broken.
fn least_of(alloc: Global, scopes: &Scopes) -> Result<Option<Fault>, NoMemory>
    ensures { IfOk result (λ least. IsLeast (BreaksBody scopes.now.typed) least) }
{
    least_of_broken();
    let mut least = None;
    note_bodies(alloc, scopes.typed(), scopes, &mut least)?;
    Ok(least)
}

/// Whether no rule of bodies is broken in a list: members and methods that nothing has, operands, places and values of a wrong
/// type, targets to which a value doesn't go, literals past their type, what is not constant, `self` and `$$` where they are
/// not meant, functions that may end without a value, `break`, `continue` and `stop` outside of what they leave, and arguments
/// that a call doesn't take. Else the least that is broken, by module, place and number. Time and calls are those of the
/// list's size and height, and of the constants that its indexes, orders and priorities name.
#[tactic(auto, using(sp_type_answers::proofs::Refused::refused_at))]
pub fn check_bodies<'s>(alloc: Global, scopes: &'s Scopes) -> Result<Bodies<'s>, CheckFault>
    ensures whole { IfOk result (λ b. b.scopes.now ≡ scopes.now) }
    ensures sound { IfOk result (λ b. IsLeast (BreaksBody scopes.now.typed) None) }
    ensures refused { IfErr result (IsRefused (BreaksBody scopes.now.typed)) }
{
    match least_of(alloc, scopes)? {
        Some(fault) => Err(CheckFault::Diag(fault.diag())),
        None => Ok(Bodies { scopes }),
    }
}
