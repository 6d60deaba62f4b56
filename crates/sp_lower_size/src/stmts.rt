// Sizes of statements.
ghost use Rattle.std.specs.Prelude.{◌≡◌, IfOk};
ghost use Rattle.sp_typed.specs.Stmts.{stmts, branch_row, case_row};
ghost use Rattle.sp_code_programs.specs.units.Sizes.{stmt_size, stmts_size, branches_size, cases_size};
ghost use Rattle.sp_lower_expr.specs.Around.{layout_in};

use crate::changes::assign_size;
use crate::forms::{for_size, part_size, while_size};
use crate::nodes::{expr_size, exprs_size};
use crate::plain::{bare_size, valued_size, values_size};
use sp_base::NoMemory;
use sp_lower_expr::{Around, sum};
use sp_typed::{Expr, Stmt, StmtNode};

/// How many instructions statements have, one behind another.
#[cycle(stmts)]
pub fn stmts_size(around: &Around<'_>, all: &[Stmt]) -> Result<u32, NoMemory>
    ensures { IfOk result (λ n. n ≡ stmts_size (layout_in around.now) (stmts all.now)) }
{
    let mut total = 0;
    for stmt in all {
        total = sum(total, stmt_size(around, stmt)?)?;
    }
    Ok(total)
}

/// How many instructions the branches of an `if` have.
#[cycle(stmts)]
pub fn branches_size(around: &Around<'_>, branches: &[(Expr, Stmt)]) -> Result<u32, NoMemory>
    ensures { IfOk result (λ n. n ≡ branches_size (layout_in around.now) (branch_row
        branches.now)) }
{
    let mut total = 0;
    for branch in branches {
        let test = expr_size(around, &branch.0)?;
        let body = stmt_size(around, &branch.1)?;
        total = sum(total, part_size(test, body)?)?;
    }
    Ok(total)
}

/// How many instructions the cases of a `switch` have.
#[cycle(stmts)]
pub fn cases_size(around: &Around<'_>, cases: &[(Vec<Expr>, Stmt)]) -> Result<u32, NoMemory>
    ensures { IfOk result (λ n. n ≡ cases_size (layout_in around.now) (case_row cases.now)) }
{
    let mut total = 0;
    for case in cases {
        let tests = values_size(around, &case.0)?;
        let body = stmt_size(around, &case.1)?;
        total = sum(total, part_size(tests, body)?)?;
    }
    Ok(total)
}

/// How many instructions a statement has.
#[cycle(stmts)]
pub fn stmt_size(around: &Around<'_>, stmt: &Stmt) -> Result<u32, NoMemory>
    ensures { IfOk result (λ n. n ≡ stmt_size (layout_in around.now) stmt.now) }
{
    match stmt.level() {
        StmtNode::Bare(head) => Ok(bare_size(&head.op)),
        StmtNode::Valued(head, e) => valued_size(around, &head.op, e),
        StmtNode::Assign(head, target, value) => assign_size(around, head, target, value),
        StmtNode::Print(_, values) => sum(exprs_size(around, values)?, 1),
        StmtNode::Block(all) => stmts_size(around, all),
        StmtNode::If(branches, otherwise) => {
            let first = branches_size(around, branches)?;
            sum(first, stmt_size(around, otherwise)?)
        }
        StmtNode::While(e, body) => {
            let test = expr_size(around, e)?;
            while_size(test, stmt_size(around, body)?)
        }
        StmtNode::For(_, e, body) => {
            let sequence = expr_size(around, e)?;
            for_size(sequence, stmt_size(around, body)?)
        }
        StmtNode::Switch(_, e, cases, otherwise) => {
            let subject = expr_size(around, e)?;
            let tests = cases_size(around, cases)?;
            let rest = sum(tests, stmt_size(around, otherwise)?)?;
            sum(subject, sum(1, rest)?)
        }
    }
}
