// Sweeps over an expression and over a body.
ghost use Rattle.std.specs.Prelude.{◌≡◌, ◌&&◌, not, OnOk, [], ◌∷◌};
ghost use Rattle.sp_rules.specs.Least.{better, checked};
ghost use Rattle.sp_typed.specs.Exprs.{exprs};
ghost use Rattle.sp_typed.specs.Nodes.{nodes, all_nodes};
ghost use Rattle.sp_typed.specs.Stmts.{stmts, branch_row, case_row};
ghost use Rattle.sp_typed.specs.StmtNodes.{stmt_nodes, stmts_nodes, branches_nodes, cases_nodes, stmts_in, stmts_in_all, stmts_in_branches, stmts_in_cases};
ghost use Rattle.sp_rule_bodies.specs.Known.{Known};
ghost use Rattle.sp_rules.specs.Faults.{at};
ghost use Rattle.sp_rule_bodies.specs.Sweeps.{swept_nodes, swept_expr};

use crate::ends::ends_well;
use crate::facts::Facts;
use crate::nodes::note_node;
use crate::stmts::note_one_stmt;
use sp_base::{NoMemory, Span};
use sp_rules::{Fault, Rule, note_at};
use sp_typed::{Expr, ExprLevel, Stmt, StmtNode};
use sp_types::Type;
use std::alloc::Global;

#[cycle(expr)]
#[tactic(auto, using(crate::proofs::Swept::nodes_more))]
pub(crate) fn note_exprs<F: Facts>(
    alloc: Global,
    facts: &F,
    owner: u32,
    parts: &[Expr],
    least: &mut Option<Fault>,
) -> Result<(), NoMemory>
    ensures { OnOk result (least.new
        ≡ swept_nodes (F.known facts.now) owner least.old (all_nodes (exprs parts.now))) }
{
    for e in parts {
        note_expr(alloc, facts, owner, e, least)?;
    }
    Ok(())
}

/// Notes what is wrong inside an expression: at all of its nodes, each apart from what stands round it.
#[cycle(expr)]
#[tactic(auto, using(crate::proofs::Swept::nodes_more))]
pub fn note_expr<F: Facts>(
    alloc: Global,
    facts: &F,
    owner: u32,
    e: &Expr,
    least: &mut Option<Fault>,
) -> Result<(), NoMemory>
    ensures { OnOk result (least.new ≡ swept_expr (F.known facts.now) owner least.old e.now) }
{
    note_node(alloc, facts, owner, e, least)?;
    match e.level() {
        ExprLevel::Leaf(_) => Ok(()),
        ExprLevel::One(_, a) => note_expr(alloc, facts, owner, a, least),
        ExprLevel::Two(_, a, b) => {
            note_expr(alloc, facts, owner, a, least)?;
            note_expr(alloc, facts, owner, b, least)
        }
        ExprLevel::Three(_, a, b, c) => {
            note_expr(alloc, facts, owner, a, least)?;
            note_expr(alloc, facts, owner, b, least)?;
            note_expr(alloc, facts, owner, c, least)
        }
        ExprLevel::Many(_, parts) => note_exprs(alloc, facts, owner, parts, least),
    }
}
