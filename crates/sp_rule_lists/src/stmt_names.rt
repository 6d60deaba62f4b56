// Names in expressions and statements: those that name nothing, and locals whose name an open block has already.
ghost use Rattle.std.specs.Prelude.{◌≡◌};
ghost use Rattle.sp_rules.specs.Least.{checked};
ghost use Rattle.sp_typed.specs.Exprs.{exprs};
ghost use Rattle.sp_typed.specs.Stmts.{stmts, branch_row, case_row};
ghost use Rattle.sp_rule_lists.specs.Names.{leaf_names, expr_names, exprs_names, bare_names, valued_names, stmt_names, stmts_names, branches_names, cases_names};

use sp_rules::{Fault, Rule, note_at};
use sp_typed::{BareOp, Expr, ExprLevel, LeafOp, Stmt, StmtNode, ValuedOp};

fn note_leaf(owner: u32, op: &LeafOp, least: &mut Option<Fault>)
    ensures { least.new ≡ checked least.old (leaf_names owner op.now) }
{
    if let LeafOp::Nothing(name) = op {
        note_at(true, owner, Rule::UnknownName, *name, least);
    }
}

#[cycle(names)]
pub(crate) fn note_exprs_names(owner: u32, parts: &[Expr], least: &mut Option<Fault>)
    ensures { least.new ≡ checked least.old (exprs_names owner (exprs parts.now)) }
{
    for e in parts {
        note_expr_names(owner, e, least);
    }
}

/// Notes the names in an expression that name nothing.
#[cycle(names)]
#[tactic(auto, using(crate::proofs::Checked::checked_more))]
pub(crate) fn note_expr_names(owner: u32, e: &Expr, least: &mut Option<Fault>)
    ensures { least.new ≡ checked least.old (expr_names owner e.now) }
{
    match e.level() {
        ExprLevel::Leaf(head) => note_leaf(owner, &head.op, least),
        ExprLevel::One(_, a) => note_expr_names(owner, a, least),
        ExprLevel::Two(_, a, b) => {
            note_expr_names(owner, a, least);
            note_expr_names(owner, b, least);
        }
        ExprLevel::Three(_, a, b, c) => {
            note_expr_names(owner, a, least);
            note_expr_names(owner, b, least);
            note_expr_names(owner, c, least);
        }
        ExprLevel::Many(_, parts) => note_exprs_names(owner, parts, least),
    }
}

fn note_bare(owner: u32, op: &BareOp, least: &mut Option<Fault>)
    ensures { least.new ≡ checked least.old (bare_names owner op.now) }
{
    if let BareOp::Local(local) = op {
        note_at(local.taken, owner, Rule::NameTwice, local.name, least);
    }
}

fn note_valued(owner: u32, op: &ValuedOp, least: &mut Option<Fault>)
    ensures { least.new ≡ checked least.old (valued_names owner op.now) }
{
    if let ValuedOp::Local(local) = op {
        note_at(local.taken, owner, Rule::NameTwice, local.name, least);
    }
}

#[cycle(stmts)]
fn note_stmts_names(owner: u32, all: &[Stmt], least: &mut Option<Fault>)
    ensures { least.new ≡ checked least.old (stmts_names owner (stmts all.now)) }
{
    for stmt in all {
        note_stmt_names(owner, stmt, least);
    }
}

#[cycle(stmts)]
fn note_branches_names(owner: u32, branches: &[(Expr, Stmt)], least: &mut Option<Fault>)
    ensures { least.new ≡ checked least.old (branches_names owner (branch_row branches.now)) }
{
    for branch in branches {
        note_expr_names(owner, &branch.0, least);
        note_stmt_names(owner, &branch.1, least);
    }
}

#[cycle(stmts)]
fn note_cases_names(owner: u32, cases: &[(Vec<Expr>, Stmt)], least: &mut Option<Fault>)
    ensures { least.new ≡ checked least.old (cases_names owner (case_row cases.now)) }
{
    for case in cases {
        note_exprs_names(owner, &case.0, least);
        note_stmt_names(owner, &case.1, least);
    }
}

/// Notes the names in a statement that name nothing, and its locals whose name an open block has already.
#[cycle(stmts)]
#[tactic(auto, using(crate::proofs::Checked::checked_more))]
pub(crate) fn note_stmt_names(owner: u32, s: &Stmt, least: &mut Option<Fault>)
    ensures { least.new ≡ checked least.old (stmt_names owner s.now) }
{
    match s.level() {
        StmtNode::Bare(head) => note_bare(owner, &head.op, least),
        StmtNode::Valued(head, e) => {
            note_valued(owner, &head.op, least);
            note_expr_names(owner, e, least);
        }
        StmtNode::Assign(_, target, value) => {
            note_expr_names(owner, target, least);
            note_expr_names(owner, value, least);
        }
        StmtNode::Print(_, values) => note_exprs_names(owner, values, least),
        StmtNode::Block(all) => note_stmts_names(owner, all, least),
        StmtNode::If(branches, otherwise) => {
            note_branches_names(owner, branches, least);
            note_stmt_names(owner, otherwise, least);
        }
        StmtNode::While(e, body) => {
            note_expr_names(owner, e, least);
            note_stmt_names(owner, body, least);
        }
        StmtNode::For(head, e, body) => {
            note_at(head.taken, owner, Rule::NameTwice, head.name, least);
            note_expr_names(owner, e, least);
            note_stmt_names(owner, body, least);
        }
        StmtNode::Switch(_, e, cases, otherwise) => {
            note_expr_names(owner, e, least);
            note_cases_names(owner, cases, least);
            note_stmt_names(owner, otherwise, least);
        }
    }
}
