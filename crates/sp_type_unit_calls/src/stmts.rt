// Calls in statements.
ghost use Rattle.std.specs.Prelude.{◌≡◌};
ghost use Rattle.sp_typed.specs.Stmts.{stmts, branch_row, case_row};
ghost use Rattle.sp_type_unit_calls.specs.StmtCalls.{stmt_calls, stmts_call, branches_call, cases_call};

use crate::exprs::{expr_calls, exprs_call};
use sp_typed::{Expr, Stmt, StmtNode, UnitMethod};

#[cycle(stmts)]
fn stmts_call(method: UnitMethod, all: &[Stmt]) -> bool
    ensures { result ≡ stmts_call method (stmts all.now) }
{
    for stmt in all {
        if stmt_calls(method, stmt) {
            return true;
        }
    }
    false
}

#[cycle(stmts)]
fn branches_call(method: UnitMethod, branches: &[(Expr, Stmt)]) -> bool
    ensures { result ≡ branches_call method (branch_row branches.now) }
{
    for branch in branches {
        if expr_calls(method, &branch.0) || stmt_calls(method, &branch.1) {
            return true;
        }
    }
    false
}

#[cycle(stmts)]
fn cases_call(method: UnitMethod, cases: &[(Vec<Expr>, Stmt)]) -> bool
    ensures { result ≡ cases_call method (case_row cases.now) }
{
    for case in cases {
        if exprs_call(method, &case.0) || stmt_calls(method, &case.1) {
            return true;
        }
    }
    false
}

/// Whether a statement calls the method.
#[cycle(stmts)]
pub(crate) fn stmt_calls(method: UnitMethod, s: &Stmt) -> bool
    ensures { result ≡ stmt_calls method s.now }
{
    match s.level() {
        StmtNode::Bare(_) => false,
        StmtNode::Valued(_, e) => expr_calls(method, e),
        StmtNode::Assign(_, target, value) => {
            expr_calls(method, target) || expr_calls(method, value)
        }
        StmtNode::Print(_, values) => exprs_call(method, values),
        StmtNode::Block(all) => stmts_call(method, all),
        StmtNode::If(branches, otherwise) => {
            branches_call(method, branches) || stmt_calls(method, otherwise)
        }
        StmtNode::While(e, body) => expr_calls(method, e) || stmt_calls(method, body),
        StmtNode::For(_, e, body) => expr_calls(method, e) || stmt_calls(method, body),
        StmtNode::Switch(_, e, cases, otherwise) => {
            expr_calls(method, e) || (cases_call(method, cases) || stmt_calls(method, otherwise))
        }
    }
}
