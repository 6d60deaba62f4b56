// Bodies that can't run past their end.
ghost use Rattle.std.specs.Prelude.{◌≡◌};
ghost use Rattle.sp_typed.specs.Stmts.{stmts, branch_row, case_row};
ghost use Rattle.sp_rule_bodies.specs.Ends.{is_return, leaves, ends_well, last_ends_well, branches_end_well, cases_end_well};

use sp_typed::{BareOp, Expr, Stmt, StmtNode, ValuedOp};

fn is_return(op: &BareOp) -> bool
    ensures { result ≡ is_return op.now }
{
    matches!(op, BareOp::Return)
}

fn leaves(op: &ValuedOp) -> bool
    ensures { result ≡ leaves op.now }
{
    matches!(op, ValuedOp::Return | ValuedOp::Throw)
}

#[cycle(ends)]
#[tactic(auto, using(crate::proofs::Lasts::told_false))]
fn last_ends_well(all: &[Stmt]) -> bool
    ensures { result ≡ last_ends_well (stmts all.now) }
{
    let mut last = false;
    for stmt in all {
        last = ends_well(stmt);
    }
    last
}

#[cycle(ends)]
fn branches_end_well(branches: &[(Expr, Stmt)]) -> bool
    ensures { result ≡ branches_end_well (branch_row branches.now) }
{
    for branch in branches {
        if !ends_well(&branch.1) {
            return false;
        }
    }
    true
}

#[cycle(ends)]
fn cases_end_well(cases: &[(Vec<Expr>, Stmt)]) -> bool
    ensures { result ≡ cases_end_well (case_row cases.now) }
{
    for case in cases {
        if !ends_well(&case.1) {
            return false;
        }
    }
    true
}

/// Whether a body can't run past its end: its last statement is a `return` or a `throw`, or a block, an `if` with an `else` or
/// a `switch` with a `default` of which all parts end so.
#[cycle(ends)]
pub fn ends_well(body: &Stmt) -> bool
    ensures { result ≡ ends_well body.now }
{
    match body.level() {
        StmtNode::Bare(head) => is_return(&head.op),
        StmtNode::Valued(head, _) => leaves(&head.op),
        StmtNode::Assign(..) | StmtNode::Print(..) => false,
        StmtNode::Block(all) => last_ends_well(all),
        StmtNode::If(branches, otherwise) => branches_end_well(branches) && ends_well(otherwise),
        StmtNode::While(..) | StmtNode::For(..) => false,
        StmtNode::Switch(_, _, cases, otherwise) => {
            cases_end_well(cases) && ends_well(otherwise)
        }
    }
}
