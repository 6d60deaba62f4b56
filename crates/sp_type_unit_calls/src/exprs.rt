// Calls in expressions.
ghost use Rattle.std.specs.Prelude.{◌≡◌};
ghost use Rattle.sp_typed.specs.Exprs.{exprs};
ghost use Rattle.sp_type_unit_calls.specs.Calls.{method_number, is_same, op_calls, expr_calls, exprs_call, option_calls};

use sp_typed::{Expr, ExprLevel, ManyOp, UnitMethod};
use sp_typed_units::Rare;

/// The place of a method among the methods of units, from 0.
fn method_number(method: UnitMethod) -> u8
    ensures { result ≡ method_number method }
{
    match method {
        UnitMethod::Offset => 0,
        UnitMethod::Input => 1,
        UnitMethod::SetInput => 2,
        UnitMethod::Backtrack => 3,
        UnitMethod::ConnectFilter => 4,
        UnitMethod::Forward => 5,
        UnitMethod::ForwardEod => 6,
    }
}

fn is_same(method: UnitMethod, other: UnitMethod) -> bool
    ensures { result ≡ is_same method other }
{
    method_number(method) == method_number(other)
}

fn op_calls(method: UnitMethod, op: ManyOp) -> bool
    ensures { result ≡ op_calls method op }
{
    match op {
        ManyOp::OfUnit(other, _) => is_same(method, other),
        _ => false,
    }
}

/// Whether some of these expressions call the method.
#[cycle(calls)]
pub(crate) fn exprs_call(method: UnitMethod, all: &[Expr]) -> bool
    ensures { result ≡ exprs_call method (exprs all.now) }
{
    for e in all {
        if expr_calls(method, e) {
            return true;
        }
    }
    false
}

/// Whether an expression calls the method.
#[cycle(calls)]
pub(crate) fn expr_calls(method: UnitMethod, e: &Expr) -> bool
    ensures { result ≡ expr_calls method e.now }
{
    match e.level() {
        ExprLevel::Leaf(_) => false,
        ExprLevel::One(_, a) => expr_calls(method, a),
        ExprLevel::Two(_, a, b) => expr_calls(method, a) || expr_calls(method, b),
        ExprLevel::Three(_, a, b, c) => {
            expr_calls(method, a) || (expr_calls(method, b) || expr_calls(method, c))
        }
        ExprLevel::Many(head, all) => op_calls(method, head.op) || exprs_call(method, all),
    }
}

/// Whether an expression that may be left out calls the method.
pub(crate) fn option_calls(method: UnitMethod, e: &Option<Expr>) -> bool
    ensures { result ≡ option_calls method e.now }
{
    match e {
        Some(e) => expr_calls(method, e),
        None => false,
    }
}

/// Whether an expression that is mostly left out calls the method.
pub(crate) fn rare_calls(method: UnitMethod, e: &Rare<Expr>) -> bool
    ensures { result ≡ option_calls method e.now }
{
    match e.get() {
        Some(e) => expr_calls(method, e),
        None => false,
    }
}
