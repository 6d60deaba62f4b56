// The code of statements.
ghost use Rattle.std.specs.Prelude.{OnOk};
ghost use Rattle.sp_typed.specs.Exprs.{exprs};
ghost use Rattle.sp_typed.specs.Stmts.{stmts, branch_row, case_row, branch, while_loop, for_loop, switch, no_branches, more_branches, no_cases, more_cases};
ghost use Rattle.sp_lower_expr.specs.Literals.{LiteralsFit, AllLiteralsFit};
ghost use Rattle.sp_lower_stmt.specs.Literals.{StmtLiteralsFit, StmtsLiteralsFit, BranchesLiteralsFit, CasesLiteralsFit};
ghost use Rattle.sp_lower_stmt.specs.Added.{AddsStmt, AddsLoop, AddsStmts, AddsBranches, AddsCases, AddsChosen};

use crate::loops::{each, each_end, sequence, test};
use crate::plain::{assign, bare, print, taken, valued};
use crate::values::values;
use crate::ways::Ways;
use sp_base::NoMemory;
use sp_code::Instr;
use sp_emit::Emitter;
use sp_lower_expr::{Around, sum};
use sp_lower_size::{branches_size, cases_size, stmt_size, values_size};
use sp_typed::{Expr, For, Stmt, StmtNode};

/// `while ( e ) s`
#[cycle(stmt)]
fn while_loop(out: &mut Emitter, around: &Around<'_>, e: &Expr, body: &Stmt) -> Result<(), NoMemory>
    requires e { LiteralsFit e.now }
    requires body { StmtLiteralsFit body.now }
    ensures { OnOk result (AddsLoop around.now out.old out.new (while_loop e.now body.now)) }
{
    let again = out.address()?;
    let size = stmt_size(around, body)?;
    test(out, around, e)?;
    let at_test = out.address()?;
    let leave = sum(sum(at_test, size)?, 3)?;
    out.emit_last(Instr::JumpNot(leave))?;
    out.emit(Instr::Turn)?;
    stmt(out, around, Ways { leave, again }, body)?;
    out.emit(Instr::Jump(again))
}

/// `for ( x in e ) s`
#[cycle(stmt)]
fn for_loop(
    out: &mut Emitter,
    around: &Around<'_>,
    head: &For,
    e: &Expr,
    body: &Stmt,
) -> Result<(), NoMemory>
    requires e { LiteralsFit e.now }
    requires body { StmtLiteralsFit body.now }
    ensures { OnOk result (AddsLoop around.now out.old out.new (for_loop head.now e.now
        body.now)) }
{
    let size = stmt_size(around, body)?;
    sequence(out, around, e)?;
    let again = out.address()?;
    let leave = sum(sum(again, size)?, 3)?;
    each(out, around, head, leave)?;
    stmt(out, around, Ways { leave, again }, body)?;
    each_end(out, again)
}

/// A branch of an `if`, which leads behind the whole at its end.
#[cycle(stmt)]
fn arm(
    out: &mut Emitter,
    around: &Around<'_>,
    ways: Ways,
    behind: u32,
    e: &Expr,
    body: &Stmt,
) -> Result<(), NoMemory>
    requires e { LiteralsFit e.now }
    requires body { StmtLiteralsFit body.now }
    ensures { OnOk result (AddsBranches around.now out.old out.new ways behind (more_branches
        e.now body.now no_branches)) }
{
    let size = stmt_size(around, body)?;
    test(out, around, e)?;
    let at_test = out.address()?;
    let next = sum(sum(at_test, size)?, 2)?;
    out.emit_last(Instr::JumpNot(next))?;
    stmt(out, around, ways, body)?;
    out.emit(Instr::Jump(behind))
}

/// The branches of an `if`.
#[cycle(stmt)]
fn branches(
    out: &mut Emitter,
    around: &Around<'_>,
    ways: Ways,
    behind: u32,
    row: &[(Expr, Stmt)],
) -> Result<(), NoMemory>
    requires { BranchesLiteralsFit (branch_row row.now) }
    ensures { OnOk result (AddsBranches around.now out.old out.new ways behind (branch_row
        row.now)) }
{
    for part in row {
        arm(out, around, ways, behind, &part.0, &part.1)?;
    }
    Ok(())
}

/// `if ( e ) s else if ( e ) s else s`
#[cycle(stmt)]
fn choice(
    out: &mut Emitter,
    around: &Around<'_>,
    ways: Ways,
    row: &[(Expr, Stmt)],
    otherwise: &Stmt,
) -> Result<(), NoMemory>
    requires row { BranchesLiteralsFit (branch_row row.now) }
    requires otherwise { StmtLiteralsFit otherwise.now }
    ensures { OnOk result (AddsStmt around.now out.old out.new ways (branch (branch_row row.now)
        otherwise.now)) }
{
    let begin = out.address()?;
    let size = sum(branches_size(around, row)?, stmt_size(around, otherwise)?)?;
    let behind = sum(begin, size)?;
    branches(out, around, ways, behind, row)?;
    stmt(out, around, ways, otherwise)
}

/// A case of a `switch` whose subject stands in a local. It leads to the end of the whole at its own.
#[cycle(stmt)]
fn case(
    out: &mut Emitter,
    around: &Around<'_>,
    ways: Ways,
    end: u32,
    local: u32,
    tests: &[Expr],
    body: &Stmt,
) -> Result<(), NoMemory>
    requires tests { AllLiteralsFit (exprs tests.now) }
    requires body { StmtLiteralsFit body.now }
    ensures { OnOk result (AddsCases around.now out.old out.new ways end local (more_cases
        (exprs tests.now) body.now no_cases)) }
{
    let size = stmt_size(around, body)?;
    let begin = out.address()?;
    let at_body = sum(sum(begin, values_size(around, tests)?)?, 1)?;
    let next = sum(sum(at_body, size)?, 1)?;
    values(out, around, local, at_body, tests)?;
    out.emit(Instr::Jump(next))?;
    stmt(out, around, ways, body)?;
    out.emit(Instr::Jump(end))
}

/// The cases of a `switch`.
#[cycle(stmt)]
fn cases(
    out: &mut Emitter,
    around: &Around<'_>,
    ways: Ways,
    end: u32,
    local: u32,
    row: &[(Vec<Expr>, Stmt)],
) -> Result<(), NoMemory>
    requires { CasesLiteralsFit (case_row row.now) }
    ensures { OnOk result (AddsCases around.now out.old out.new ways end local (case_row
        row.now)) }
{
    for part in row {
        case(out, around, ways, end, local, &part.0, &part.1)?;
    }
    Ok(())
}

/// The cases of a `switch` whose subject stands in a local, and its `default`.
#[cycle(stmt)]
fn chosen(
    out: &mut Emitter,
    around: &Around<'_>,
    ways: Ways,
    local: u32,
    row: &[(Vec<Expr>, Stmt)],
    otherwise: &Stmt,
) -> Result<(), NoMemory>
    requires row { CasesLiteralsFit (case_row row.now) }
    requires otherwise { StmtLiteralsFit otherwise.now }
    ensures { OnOk result (AddsChosen around.now out.old out.new ways local (case_row row.now)
        otherwise.now) }
{
    let begin = out.address()?;
    let size = sum(cases_size(around, row)?, stmt_size(around, otherwise)?)?;
    let end = sum(begin, size)?;
    cases(out, around, ways, end, local, row)?;
    stmt(out, around, ways, otherwise)
}

/// `switch ( e ) { case e, e: s default: s }`
#[cycle(stmt)]
fn switch(
    out: &mut Emitter,
    around: &Around<'_>,
    ways: Ways,
    slot: u32,
    e: &Expr,
    row: &[(Vec<Expr>, Stmt)],
    otherwise: &Stmt,
) -> Result<(), NoMemory>
    requires e { LiteralsFit e.now }
    requires row { CasesLiteralsFit (case_row row.now) }
    requires otherwise { StmtLiteralsFit otherwise.now }
    ensures { OnOk result (AddsStmt around.now out.old out.new ways (switch slot e.now (case_row
        row.now) otherwise.now)) }
{
    let local = sum(around.places.first, slot)?;
    taken(out, around, e, Instr::Store(local))?;
    chosen(out, around, ways, local, row, otherwise)
}

/// Statements, one after another.
#[cycle(stmt)]
fn block(out: &mut Emitter, around: &Around<'_>, ways: Ways, row: &[Stmt]) -> Result<(), NoMemory>
    requires { StmtsLiteralsFit (stmts row.now) }
    ensures { OnOk result (AddsStmts around.now out.old out.new ways (stmts row.now)) }
{
    for part in row {
        stmt(out, around, ways, part)?;
    }
    Ok(())
}

/// Appends the code of a statement, whose literals their types have room for, to what was emitted. A break and a continue that
/// stand in no loop of its own lead these ways. At an error what was emitted is of no use any more.
#[cycle(stmt)]
pub fn stmt(out: &mut Emitter, around: &Around<'_>, ways: Ways, s: &Stmt) -> Result<(), NoMemory>
    requires { StmtLiteralsFit s.now }
    ensures { OnOk result (AddsStmt around.now out.old out.new ways s.now) }
{
    match s.level() {
        StmtNode::Bare(head) => bare(out, around, ways, &head.op),
        StmtNode::Valued(head, e) => valued(out, around, &head.op, e),
        StmtNode::Assign(head, target, value) => assign(out, around, head, target, value),
        StmtNode::Print(_, values) => print(out, around, values),
        StmtNode::Block(row) => block(out, around, ways, row),
        StmtNode::If(row, otherwise) => choice(out, around, ways, row, otherwise),
        StmtNode::While(e, body) => while_loop(out, around, e, body),
        StmtNode::For(head, e, body) => for_loop(out, around, head, e, body),
        StmtNode::Switch(slot, e, row, otherwise) => {
            switch(out, around, ways, *slot, e, row, otherwise)
        }
    }
}
