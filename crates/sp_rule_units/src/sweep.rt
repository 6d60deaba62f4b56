// Sweeps over all nodes of expressions.
ghost use Rattle.std.specs.Prelude.{◌≡◌};
ghost use Rattle.sp_rules.specs.Least.{checked};
ghost use Rattle.sp_typed.specs.Exprs.{exprs};
ghost use Rattle.sp_rule_units.specs.Readings.{expr_tests, maybe_tests, exprs_tests};

use crate::here::Here;
use crate::nodes::note_node;
use sp_rules::Fault;
use sp_typed::{Expr, ExprLevel};
use sp_typed_units::{Rare, Unit};

/// Notes what is wrong at all nodes of some expressions.
#[cycle(expr)]
#[tactic(auto, using(crate::proofs::Checked::each_more))]
pub(crate) fn note_exprs(units: &[Unit], here: Here, parts: &[Expr], least: &mut Option<Fault>)
    ensures { least.new ≡ checked least.old (exprs_tests units.now here (exprs parts.now)) }
{
    for e in parts {
        note_expr(units, here, e, least);
    }
}

/// Notes what is wrong at all nodes of an expression.
#[cycle(expr)]
#[tactic(auto, using(crate::proofs::Checked::checked_more, crate::proofs::Checked::each_more))]
pub(crate) fn note_expr(units: &[Unit], here: Here, e: &Expr, least: &mut Option<Fault>)
    ensures { least.new ≡ checked least.old (expr_tests units.now here e.now) }
{
    note_node(units, here, e, least);
    match e.level() {
        ExprLevel::Leaf(_) => {}
        ExprLevel::One(_, a) => note_expr(units, here, a, least),
        ExprLevel::Two(_, a, b) => {
            note_expr(units, here, a, least);
            note_expr(units, here, b, least);
        }
        ExprLevel::Three(_, a, b, c) => {
            note_expr(units, here, a, least);
            note_expr(units, here, b, least);
            note_expr(units, here, c, least);
        }
        ExprLevel::Many(_, parts) => note_exprs(units, here, parts, least),
    }
}

/// Notes what is wrong in an expression that may be left out.
pub(crate) fn note_maybe(
    units: &[Unit],
    here: Here,
    value: &Option<Expr>,
    least: &mut Option<Fault>,
)
    ensures { least.new ≡ checked least.old (maybe_tests units.now here value.now) }
{
    if let Some(e) = value {
        note_expr(units, here, e, least);
    }
}

/// Notes what is wrong in an expression that is mostly left out.
pub(crate) fn note_rare(units: &[Unit], here: Here, value: &Rare<Expr>, least: &mut Option<Fault>)
    ensures { least.new ≡ checked least.old (maybe_tests units.now here value.now) }
{
    if let Some(e) = value.get() {
        note_expr(units, here, e, least);
    }
}
