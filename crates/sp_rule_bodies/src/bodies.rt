// Sweeps over the statements of a body, and over the nodes of its expressions.
ghost use Rattle.std.specs.Prelude.{◌≡◌, ◌&&◌, not, OnOk};
ghost use Rattle.sp_rules.specs.Least.{better, checked};
ghost use Rattle.sp_typed.specs.Stmts.{stmts, branch_row, case_row};
ghost use Rattle.sp_typed.specs.StmtNodes.{stmt_nodes, stmts_nodes, branches_nodes, cases_nodes, stmts_in, stmts_in_all, stmts_in_branches, stmts_in_cases};
ghost use Rattle.sp_rule_bodies.specs.Known.{Known};
ghost use Rattle.sp_rules.specs.Faults.{at};
ghost use Rattle.sp_rule_bodies.specs.Sweeps.{swept_nodes, swept_stmts, swept_body, end_tests};

use crate::ends::ends_well;
use crate::facts::Facts;
use crate::stmts::note_one_stmt;
use crate::sweep::{note_expr, note_exprs};
use sp_base::{NoMemory, Span};
use sp_rules::{Fault, Rule, note_at};
use sp_typed::{Expr, Stmt, StmtNode};
use sp_types::Type;
use std::alloc::Global;

#[cycle(inside)]
#[tactic(auto, using(crate::proofs::Swept::stmts_more))]
fn note_all<F: Facts>(
    facts: &F,
    wanted: &Option<Type>,
    owner: u32,
    all: &[Stmt],
    least: &mut Option<Fault>,
) -> Result<(), NoMemory>
    ensures { OnOk result (least.new
        ≡ swept_stmts (F.known facts.now) wanted.now owner least.old (stmts_in_all
        (stmts all.now))) }
{
    for stmt in all {
        note_inside(facts, wanted, owner, stmt, least)?;
    }
    Ok(())
}

#[cycle(inside)]
#[tactic(auto, using(crate::proofs::Swept::stmts_more))]
fn note_in_branches<F: Facts>(
    facts: &F,
    wanted: &Option<Type>,
    owner: u32,
    branches: &[(Expr, Stmt)],
    least: &mut Option<Fault>,
) -> Result<(), NoMemory>
    ensures { OnOk result (least.new
        ≡ swept_stmts (F.known facts.now) wanted.now owner least.old (stmts_in_branches
        (branch_row branches.now))) }
{
    for branch in branches {
        note_inside(facts, wanted, owner, &branch.1, least)?;
    }
    Ok(())
}

#[cycle(inside)]
#[tactic(auto, using(crate::proofs::Swept::stmts_more))]
fn note_in_cases<F: Facts>(
    facts: &F,
    wanted: &Option<Type>,
    owner: u32,
    cases: &[(Vec<Expr>, Stmt)],
    least: &mut Option<Fault>,
) -> Result<(), NoMemory>
    ensures { OnOk result (least.new
        ≡ swept_stmts (F.known facts.now) wanted.now owner least.old (stmts_in_cases
        (case_row cases.now))) }
{
    for case in cases {
        note_inside(facts, wanted, owner, &case.1, least)?;
    }
    Ok(())
}

/// Notes what is wrong at a statement and at all statements in it, apart from their expressions.
#[cycle(inside)]
#[tactic(auto, using(crate::proofs::Swept::stmts_more))]
fn note_inside<F: Facts>(
    facts: &F,
    wanted: &Option<Type>,
    owner: u32,
    s: &Stmt,
    least: &mut Option<Fault>,
) -> Result<(), NoMemory>
    ensures { OnOk result (least.new
        ≡ swept_stmts (F.known facts.now) wanted.now owner least.old (stmts_in s.now)) }
{
    note_one_stmt(facts, wanted, owner, s, least)?;
    match s.level() {
        StmtNode::Bare(_) | StmtNode::Valued(..) | StmtNode::Assign(..) | StmtNode::Print(..) => {
            Ok(())
        }
        StmtNode::Block(all) => note_all(facts, wanted, owner, all, least),
        StmtNode::If(branches, otherwise) => {
            note_in_branches(facts, wanted, owner, branches, least)?;
            note_inside(facts, wanted, owner, otherwise, least)
        }
        StmtNode::While(_, body) | StmtNode::For(_, _, body) => {
            note_inside(facts, wanted, owner, body, least)
        }
        StmtNode::Switch(_, _, cases, otherwise) => {
            note_in_cases(facts, wanted, owner, cases, least)?;
            note_inside(facts, wanted, owner, otherwise, least)
        }
    }
}

#[cycle(nodes)]
#[tactic(auto, using(crate::proofs::Swept::nodes_more))]
fn note_all_nodes<F: Facts>(
    alloc: Global,
    facts: &F,
    owner: u32,
    all: &[Stmt],
    least: &mut Option<Fault>,
) -> Result<(), NoMemory>
    ensures { OnOk result (least.new
        ≡ swept_nodes (F.known facts.now) owner least.old (stmts_nodes (stmts all.now))) }
{
    for stmt in all {
        note_nodes(alloc, facts, owner, stmt, least)?;
    }
    Ok(())
}

#[cycle(nodes)]
#[tactic(auto, using(crate::proofs::Swept::nodes_more))]
fn note_branch_nodes<F: Facts>(
    alloc: Global,
    facts: &F,
    owner: u32,
    branches: &[(Expr, Stmt)],
    least: &mut Option<Fault>,
) -> Result<(), NoMemory>
    ensures { OnOk result (least.new
        ≡ swept_nodes (F.known facts.now) owner least.old (branches_nodes
        (branch_row branches.now))) }
{
    for branch in branches {
        note_expr(alloc, facts, owner, &branch.0, least)?;
        note_nodes(alloc, facts, owner, &branch.1, least)?;
    }
    Ok(())
}

#[cycle(nodes)]
#[tactic(auto, using(crate::proofs::Swept::nodes_more))]
fn note_case_nodes<F: Facts>(
    alloc: Global,
    facts: &F,
    owner: u32,
    cases: &[(Vec<Expr>, Stmt)],
    least: &mut Option<Fault>,
) -> Result<(), NoMemory>
    ensures { OnOk result (least.new
        ≡ swept_nodes (F.known facts.now) owner least.old (cases_nodes (case_row cases.now))) }
{
    for case in cases {
        note_exprs(alloc, facts, owner, &case.0, least)?;
        note_nodes(alloc, facts, owner, &case.1, least)?;
    }
    Ok(())
}

/// Notes what is wrong at all nodes of the expressions of a statement.
#[cycle(nodes)]
#[tactic(auto, using(crate::proofs::Swept::nodes_more))]
fn note_nodes<F: Facts>(
    alloc: Global,
    facts: &F,
    owner: u32,
    s: &Stmt,
    least: &mut Option<Fault>,
) -> Result<(), NoMemory>
    ensures { OnOk result (least.new
        ≡ swept_nodes (F.known facts.now) owner least.old (stmt_nodes s.now)) }
{
    match s.level() {
        StmtNode::Bare(_) => Ok(()),
        StmtNode::Valued(_, e) => note_expr(alloc, facts, owner, e, least),
        StmtNode::Assign(_, target, value) => {
            note_expr(alloc, facts, owner, target, least)?;
            note_expr(alloc, facts, owner, value, least)
        }
        StmtNode::Print(_, values) => note_exprs(alloc, facts, owner, values, least),
        StmtNode::Block(all) => note_all_nodes(alloc, facts, owner, all, least),
        StmtNode::If(branches, otherwise) => {
            note_branch_nodes(alloc, facts, owner, branches, least)?;
            note_nodes(alloc, facts, owner, otherwise, least)
        }
        StmtNode::While(e, body) | StmtNode::For(_, e, body) => {
            note_expr(alloc, facts, owner, e, least)?;
            note_nodes(alloc, facts, owner, body, least)
        }
        StmtNode::Switch(_, e, cases, otherwise) => {
            note_expr(alloc, facts, owner, e, least)?;
            note_case_nodes(alloc, facts, owner, cases, least)?;
            note_nodes(alloc, facts, owner, otherwise, least)
        }
    }
}

/// Notes what is wrong in a body: at its statements, and at all nodes of their expressions. `wanted` is the type of the
/// result, where there is one. Time and calls are those of the body's size and height.
#[tactic(auto, using(crate::proofs::Swept::checked_more))]
pub fn note_body<F: Facts>(
    alloc: Global,
    facts: &F,
    wanted: &Option<Type>,
    owner: u32,
    body: &Stmt,
    least: &mut Option<Fault>,
) -> Result<(), NoMemory>
    ensures { OnOk result (least.new
        ≡ swept_body (F.known facts.now) wanted.now owner least.old body.now) }
{
    note_inside(facts, wanted, owner, body, least)?;
    note_nodes(alloc, facts, owner, body, least)
}

/// Notes a function with a result whose body may end without one, on the slice of its name.
pub fn note_end(
    wanted: &Option<Type>,
    owner: u32,
    name: Span,
    body: &Stmt,
    least: &mut Option<Fault>,
)
    ensures { least.new ≡ checked least.old (end_tests wanted.now owner name body.now) }
{
    let open = wanted.is_some() && !ends_well(body);
    note_at(open, owner, Rule::MissingReturn, name, least);
}
