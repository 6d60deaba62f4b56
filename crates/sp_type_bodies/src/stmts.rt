// Statements in which statements stand, and bodies.
ghost use Rattle.std.specs.Prelude.{◌≡◌, false, true, IfOk, OnOk};
ghost use Rattle.sp_ast.specs.Trees.{trees};
ghost use Rattle.sp_ast.specs.Views.{optional_tree};
ghost use Rattle.sp_ast.specs.StmtViews.{stmt_tree};
ghost use Rattle.sp_type_context.specs.Contexts.{Around};
ghost use Rattle.sp_type_stmts.specs.Statements.{typed_stmt, typed_stmts, typed_branch, typed_branches, typed_case, typed_cases, typed_body};
ghost use Rattle.sp_type_bodies.specs.inside.Forms.{block_tree, if_tree, while_tree, for_tree, switch_tree, has_stmts, plain_case, plain_cases};

use crate::others::{all_taken, assert_in, made, nothing, print_in, switch_of};
use sp_ast::{
    BlockKind, BranchKind, CaseKind, ExprKind, Members, NameKind, Ref, StmtKind, StmtView,
};
use sp_base::{NoMemory, Span, or_drop};
use sp_type_context::Context;
use sp_type_operands::seen;
use sp_type_stmts::{
    Body, Scope, add_in, assign_in, bare_at, delete_in, element_type, local_in, loop_head,
    return_in, value_in, valued_in, values_in,
};
use sp_typed::{BareOp, Expr, Stmt, StmtNode, ValuedOp};
use sp_types::Type;
use std::alloc::Global;

/// Statements one behind another.
#[cycle(stmt)]
fn stmts_typed<C: Context>(
    alloc: Global,
    body: &Body,
    context: &C,
    in_loop: bool,
    scope: &mut Scope,
    list: &Members<'_, StmtKind>,
) -> Result<Vec<Stmt>, NoMemory>
    ensures stmts { IfOk result (λ r. r.items ≡ (typed_stmts body.now (C.around context.now) in_loop
        scope.old (trees list.now)).0) }
    ensures scope { OnOk result (scope.new ≡ (typed_stmts body.now (C.around context.now) in_loop
        scope.old (trees list.now)).1) }
{
    let mut all = Vec::with_capacity(alloc, list.len())?;
    for stmt in list.again() {
        all.push(typed_stmt(alloc, body, context, in_loop, scope, &stmt)?)?;
    }
    Ok(all)
}

/// `{ .. }`
#[cycle(stmt)]
fn block_typed<C: Context>(
    alloc: Global,
    body: &Body,
    context: &C,
    in_loop: bool,
    scope: &mut Scope,
    block: &Ref<'_, BlockKind>,
) -> Result<Stmt, NoMemory>
    ensures stmt { IfOk result (λ s. s ≡ (typed_stmt body.now (C.around context.now) in_loop
        scope.old (block_tree block.now)).0) }
    ensures scope { OnOk result (scope.new ≡ (typed_stmt body.now (C.around context.now) in_loop
        scope.old (block_tree block.now)).1) }
{
    let mark = scope.mark();
    let list = stmts_typed(alloc, body, context, in_loop, scope, &block.statements())?;
    scope.close(mark);
    made(StmtNode::Block(list))
}

/// What is done where no condition holds, or no case has the value.
#[cycle(stmt)]
fn otherwise_typed<C: Context>(
    alloc: Global,
    body: &Body,
    context: &C,
    in_loop: bool,
    scope: &mut Scope,
    stmt: &Option<Ref<'_, StmtKind>>,
) -> Result<Stmt, NoMemory>
    ensures stmt { IfOk result (λ s. s ≡ (typed_stmt body.now (C.around context.now) in_loop
        scope.old (optional_tree stmt.now)).0) }
    ensures scope { OnOk result (scope.new ≡ (typed_stmt body.now (C.around context.now) in_loop
        scope.old (optional_tree stmt.now)).1) }
{
    match stmt {
        Some(stmt) => typed_stmt(alloc, body, context, in_loop, scope, stmt),
        None => nothing(alloc),
    }
}

/// A condition with its statement.
#[cycle(stmt)]
fn branch_typed<C: Context>(
    alloc: Global,
    body: &Body,
    context: &C,
    in_loop: bool,
    scope: &mut Scope,
    branch: &Ref<'_, BranchKind>,
) -> Result<(Expr, Stmt), NoMemory>
    ensures branch { IfOk result (λ r. r ≡ (typed_branch body.now (C.around context.now) in_loop
        scope.old branch.now).0) }
    ensures scope { OnOk result (scope.new ≡ (typed_branch body.now (C.around context.now) in_loop
        scope.old branch.now).1) }
{
    let view = branch.view();
    let mark = scope.mark();
    let condition = value_in(alloc, context, scope, &view.condition)?;
    let stmt = or_drop!(typed_stmt(alloc, body, context, in_loop, scope, &view.body); condition);
    scope.close(mark);
    Ok((condition, stmt))
}

/// The conditions of an `if` with their statements.
#[cycle(stmt)]
fn branches_typed<C: Context>(
    alloc: Global,
    body: &Body,
    context: &C,
    in_loop: bool,
    scope: &mut Scope,
    list: &Members<'_, BranchKind>,
) -> Result<Vec<(Expr, Stmt)>, NoMemory>
    ensures branches { IfOk result (λ r. r.items ≡ (typed_branches body.now (C.around context.now)
        in_loop scope.old (trees list.now)).0) }
    ensures scope { OnOk result (scope.new ≡ (typed_branches body.now (C.around context.now) in_loop
        scope.old (trees list.now)).1) }
{
    let mut all = Vec::with_capacity(alloc, list.len())?;
    for branch in list.again() {
        all.push(branch_typed(alloc, body, context, in_loop, scope, &branch)?)?;
    }
    Ok(all)
}

/// `if (c) s else if (d) t else u`
#[cycle(stmt)]
fn if_typed<C: Context>(
    alloc: Global,
    body: &Body,
    context: &C,
    in_loop: bool,
    scope: &mut Scope,
    branches: &Members<'_, BranchKind>,
    otherwise: &Option<Ref<'_, StmtKind>>,
) -> Result<Stmt, NoMemory>
    ensures stmt { IfOk result (λ s. s ≡ (typed_stmt body.now (C.around context.now) in_loop
        scope.old (if_tree branches.now otherwise.now)).0) }
    ensures scope { OnOk result (scope.new ≡ (typed_stmt body.now (C.around context.now) in_loop
        scope.old (if_tree branches.now otherwise.now)).1) }
{
    let mark = scope.mark();
    let list = branches_typed(alloc, body, context, in_loop, scope, branches)?;
    let other = or_drop!(
        otherwise_typed(alloc, body, context, in_loop, scope, otherwise);
        list
    );
    scope.close(mark);
    let boxed = or_drop!(Box::new(alloc, other); list);
    made(StmtNode::If(list, boxed))
}

/// `while (c) s`
#[cycle(stmt)]
fn while_typed<C: Context>(
    alloc: Global,
    body: &Body,
    context: &C,
    scope: &mut Scope,
    condition: &Ref<'_, ExprKind>,
    inner: &Ref<'_, StmtKind>,
) -> Result<Stmt, NoMemory>
    ensures stmt { IfOk result (λ s. s ≡ (typed_stmt body.now (C.around context.now) true scope.old
        (while_tree condition.now inner.now)).0) }
    ensures scope { OnOk result (scope.new ≡ (typed_stmt body.now (C.around context.now) true
        scope.old (while_tree condition.now inner.now)).1) }
{
    let mark = scope.mark();
    let condition = value_in(alloc, context, scope, condition)?;
    let inner = or_drop!(typed_stmt(alloc, body, context, true, scope, inner); condition);
    scope.close(mark);
    let boxed = or_drop!(Box::new(alloc, inner); condition);
    made(StmtNode::While(condition, boxed))
}

/// `for (x in e) s`
#[cycle(stmt)]
fn for_typed<C: Context>(
    alloc: Global,
    body: &Body,
    context: &C,
    scope: &mut Scope,
    name: &Ref<'_, NameKind>,
    sequence: &Ref<'_, ExprKind>,
    inner: &Ref<'_, StmtKind>,
) -> Result<Stmt, NoMemory>
    ensures stmt { IfOk result (λ s. s ≡ (typed_stmt body.now (C.around context.now) true scope.old
        (for_tree name.now sequence.now inner.now)).0) }
    ensures scope { OnOk result (scope.new ≡ (typed_stmt body.now (C.around context.now) true
        scope.old (for_tree name.now sequence.now inner.now)).1) }
{
    let mark = scope.mark();
    let sequence = value_in(alloc, context, scope, sequence)?;
    let of = or_drop!(seen(&sequence); sequence);
    let ty = element_type(alloc, &of);
    drop(of);
    let ty = or_drop!(ty; sequence);
    let head = or_drop!(loop_head(alloc, scope, name, ty); sequence);
    let stmt = or_drop!(typed_stmt(alloc, body, context, true, scope, inner); head, sequence);
    scope.close(mark);
    let boxed = or_drop!(Box::new(alloc, stmt); head, sequence);
    made(StmtNode::For(head, sequence, boxed))
}

/// `case a, b: s`
#[cycle(stmt)]
fn case_typed<C: Context>(
    alloc: Global,
    body: &Body,
    context: &C,
    in_loop: bool,
    subject: &Type,
    scope: &mut Scope,
    case: &Ref<'_, CaseKind>,
) -> Result<(Vec<Expr>, Stmt), NoMemory>
    ensures case { IfOk result (λ r. plain_case r ≡ (typed_case body.now (C.around context.now)
        in_loop subject.now scope.old case.now).0) }
    ensures scope { OnOk result (scope.new ≡ (typed_case body.now (C.around context.now) in_loop
        subject.now scope.old case.now).1) }
{
    let view = case.view();
    let before = scope.mark();
    let values = values_in(alloc, context, scope, &view.values)?;
    let values = all_taken(alloc, subject, values)?;
    let stmt = or_drop!(typed_stmt(alloc, body, context, in_loop, scope, &view.body); values);
    scope.close(before);
    Ok((values, stmt))
}

/// The cases of a switch over a subject of this type.
#[cycle(stmt)]
fn cases_typed<C: Context>(
    alloc: Global,
    body: &Body,
    context: &C,
    in_loop: bool,
    subject: &Type,
    scope: &mut Scope,
    list: &Members<'_, CaseKind>,
) -> Result<Vec<(Vec<Expr>, Stmt)>, NoMemory>
    ensures cases { IfOk result (λ r. plain_cases r.items ≡ (typed_cases body.now (C.around
        context.now) in_loop subject.now scope.old (trees list.now)).0) }
    ensures scope { OnOk result (scope.new ≡ (typed_cases body.now (C.around context.now) in_loop
        subject.now scope.old (trees list.now)).1) }
{
    let mut all = Vec::with_capacity(alloc, list.len())?;
    for case in list.again() {
        all.push(case_typed(alloc, body, context, in_loop, subject, scope, &case)?)?;
    }
    Ok(all)
}

/// `switch (e) { case a: s default: t }`
#[cycle(stmt)]
fn switch_typed<C: Context>(
    alloc: Global,
    body: &Body,
    context: &C,
    in_loop: bool,
    scope: &mut Scope,
    subject: &Ref<'_, ExprKind>,
    cases: &Members<'_, CaseKind>,
    otherwise: &Option<Ref<'_, StmtKind>>,
) -> Result<Stmt, NoMemory>
    ensures stmt { IfOk result (λ s. s ≡ (typed_stmt body.now (C.around context.now) in_loop
        scope.old (switch_tree subject.now cases.now otherwise.now)).0) }
    ensures scope { OnOk result (scope.new ≡ (typed_stmt body.now (C.around context.now) in_loop
        scope.old (switch_tree subject.now cases.now otherwise.now)).1) }
{
    let mark = scope.mark();
    let subject = value_in(alloc, context, scope, subject)?;
    let ty = or_drop!(seen(&subject); subject);
    let copy = or_drop!(ty.copy(); subject, ty);
    let slot = or_drop!(scope.take_slot(copy); subject, ty);
    let list = cases_typed(alloc, body, context, in_loop, &ty, scope, cases);
    drop(ty);
    let list = or_drop!(list; subject);
    let other = or_drop!(
        otherwise_typed(alloc, body, context, in_loop, scope, otherwise);
        subject,
        list
    );
    scope.close(mark);
    switch_of(alloc, slot, subject, list, other)
}

/// The typed statement of an alternative in which no statement stands.
fn plain_typed<C: Context>(
    alloc: Global,
    body: &Body,
    context: &C,
    in_loop: bool,
    scope: &mut Scope,
    span: Span,
    view: StmtView<'_>,
) -> Result<Stmt, NoMemory>
    requires { has_stmts view ≡ false }
    ensures stmt { IfOk result (λ s. s ≡ (typed_stmt body.now (C.around context.now) in_loop
        scope.old (stmt_tree span view.entry)).0) }
    ensures scope { OnOk result (scope.new ≡ (typed_stmt body.now (C.around context.now) in_loop
        scope.old (stmt_tree span view.entry)).1) }
{
    match view {
        StmtView::Local { name, type_, value } => {
            local_in(alloc, context, scope, span, &name, &type_, &value)
        }
        StmtView::Return(value) => return_in(alloc, body, context, scope, span, &value),
        StmtView::Break => bare_at(span, BareOp::Break(in_loop)),
        StmtView::Continue => bare_at(span, BareOp::Continue(in_loop)),
        StmtView::Stop => bare_at(span, BareOp::Stop(body.in_foreach)),
        StmtView::Confirm => bare_at(span, BareOp::Confirm(body.sees_unit)),
        StmtView::Reject => bare_at(span, BareOp::Reject(body.sees_unit)),
        StmtView::Print(values) => print_in(alloc, context, scope, span, &values),
        StmtView::Throw(value) => {
            valued_in(alloc, context, scope, span, ValuedOp::Throw, &value)
        }
        StmtView::Assert { condition, message } => {
            assert_in(alloc, context, scope, span, &condition, &message)
        }
        StmtView::Add(target) => add_in(alloc, context, scope, span, &target),
        StmtView::Delete(target) => delete_in(alloc, context, scope, span, &target),
        StmtView::Expr(value) => valued_in(alloc, context, scope, span, ValuedOp::Expr, &value),
        StmtView::Assign {
            operator,
            target,
            value,
        } => assign_in(alloc, context, scope, operator, &target, &value),
        _ => unreachable!(),
    }
}

/// The typed statement that a tree is. `in_loop` says whether it is in a loop of its body.
#[cycle(stmt)]
pub fn typed_stmt<C: Context>(
    alloc: Global,
    body: &Body,
    context: &C,
    in_loop: bool,
    scope: &mut Scope,
    tree: &Ref<'_, StmtKind>,
) -> Result<Stmt, NoMemory>
    ensures stmt { IfOk result (λ s. s ≡ (typed_stmt body.now (C.around context.now) in_loop
        scope.old tree.now).0) }
    ensures scope { OnOk result (scope.new ≡ (typed_stmt body.now (C.around context.now) in_loop
        scope.old tree.now).1) }
{
    match tree.view() {
        StmtView::Block(block) => block_typed(alloc, body, context, in_loop, scope, &block),
        StmtView::If {
            branches,
            otherwise,
        } => if_typed(alloc, body, context, in_loop, scope, &branches, &otherwise),
        StmtView::While {
            condition,
            body: inner,
        } => while_typed(alloc, body, context, scope, &condition, &inner),
        StmtView::For {
            name,
            sequence,
            body: inner,
        } => for_typed(alloc, body, context, scope, &name, &sequence, &inner),
        StmtView::Switch {
            subject,
            cases,
            otherwise,
        } => switch_typed(
            alloc, body, context, in_loop, scope, &subject, &cases, &otherwise,
        ),
        view => plain_typed(alloc, body, context, in_loop, scope, tree.span(), view),
    }
}

/// The typed body that a block is, and the types of all its slots. It has these slots from the first, of its hidden arguments.
pub fn typed_body<C: Context>(
    alloc: Global,
    body: &Body,
    context: &C,
    slots: Vec<Type>,
    tree: &Ref<'_, BlockKind>,
) -> Result<(Stmt, Vec<Type>), NoMemory>
    ensures stmt { IfOk result (λ r. r.0 ≡ (typed_body body.now (C.around context.now) slots.items
        tree.now).0) }
    ensures slots { IfOk result (λ r. r.1.items ≡ (typed_body body.now (C.around context.now)
        slots.items tree.now).1) }
{
    let mut scope = Scope::new(alloc, slots);
    let list = stmts_typed(alloc, body, context, false, &mut scope, &tree.statements())?;
    let stmt = or_drop!(Stmt::new(StmtNode::Block(list)); scope);
    Ok((stmt, scope.into_slots()))
}
