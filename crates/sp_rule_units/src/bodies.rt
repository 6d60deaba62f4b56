// Sweeps over all nodes of the expressions of a body.
ghost use Rattle.std.specs.Prelude.{◌≡◌};
ghost use Rattle.sp_rules.specs.Least.{checked};
ghost use Rattle.sp_typed.specs.Stmts.{stmts, branch_row, case_row};
ghost use Rattle.sp_typed.specs.StmtNodes.{stmt_nodes, stmts_nodes, branches_nodes, cases_nodes};
ghost use Rattle.sp_rule_units.specs.Faults.{each};
ghost use Rattle.sp_rule_units.specs.Filters.{node_tests};

use crate::here::Here;
use crate::sweep::{note_expr, note_exprs};
use sp_rules::Fault;
use sp_typed::{Expr, Stmt, StmtNode};
use sp_typed_units::Unit;

#[cycle(body)]
#[tactic(auto, using(crate::proofs::Checked::each_more))]
fn note_stmts(units: &[Unit], here: Here, all: &[Stmt], least: &mut Option<Fault>)
    ensures { least.new
        ≡ checked least.old (each (node_tests units.now here) (stmts_nodes (stmts all.now))) }
{
    for stmt in all {
        note_body(units, here, stmt, least);
    }
}

#[cycle(body)]
#[tactic(auto, using(crate::proofs::Checked::each_more))]
fn note_branches(units: &[Unit], here: Here, branches: &[(Expr, Stmt)], least: &mut Option<Fault>)
    ensures { least.new ≡ checked least.old (each (node_tests units.now here)
        (branches_nodes (branch_row branches.now))) }
{
    for branch in branches {
        note_expr(units, here, &branch.0, least);
        note_body(units, here, &branch.1, least);
    }
}

#[cycle(body)]
#[tactic(auto, using(crate::proofs::Checked::each_more))]
fn note_cases(units: &[Unit], here: Here, cases: &[(Vec<Expr>, Stmt)], least: &mut Option<Fault>)
    ensures { least.new ≡ checked least.old (each (node_tests units.now here)
        (cases_nodes (case_row cases.now))) }
{
    for case in cases {
        note_exprs(units, here, &case.0, least);
        note_body(units, here, &case.1, least);
    }
}

/// Notes what is wrong at all nodes of the expressions of a body.
#[cycle(body)]
#[tactic(auto, using(crate::proofs::Checked::each_more))]
pub(crate) fn note_body(units: &[Unit], here: Here, s: &Stmt, least: &mut Option<Fault>)
    ensures { least.new
        ≡ checked least.old (each (node_tests units.now here) (stmt_nodes s.now)) }
{
    match s.level() {
        StmtNode::Bare(_) => {}
        StmtNode::Valued(_, e) => note_expr(units, here, e, least),
        StmtNode::Assign(_, target, value) => {
            note_expr(units, here, target, least);
            note_expr(units, here, value, least);
        }
        StmtNode::Print(_, values) => note_exprs(units, here, values, least),
        StmtNode::Block(all) => note_stmts(units, here, all, least),
        StmtNode::If(branches, otherwise) => {
            note_branches(units, here, branches, least);
            note_body(units, here, otherwise, least);
        }
        StmtNode::While(e, body) | StmtNode::For(_, e, body) => {
            note_expr(units, here, e, least);
            note_body(units, here, body, least);
        }
        StmtNode::Switch(_, e, cases, otherwise) => {
            note_expr(units, here, e, least);
            note_cases(units, here, cases, least);
            note_body(units, here, otherwise, least);
        }
    }
}
