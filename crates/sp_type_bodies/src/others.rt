// Parts of statements in which no statement stands.
ghost use Rattle.std.specs.Prelude.{◌≡◌, map, IfOk, OnOk};
ghost use Rattle.sp_ast.specs.Trees.{trees};
ghost use Rattle.sp_ast.specs.Views.{optional_tree};
ghost use Rattle.sp_typed.specs.Exprs.{exprs};
ghost use Rattle.sp_typed.specs.Stmts.{block, no_stmts, print, switch, case_row};
ghost use Rattle.sp_typed.specs.StmtViews.{stmt_of};
ghost use Rattle.sp_typed.specs.declared.stmt_words.ValuedOp.TheVariants as valued_is;
ghost use Rattle.sp_type_context.specs.Contexts.{Around};
ghost use Rattle.sp_type_operands.specs.Literals.{taken};
ghost use Rattle.sp_type_stmts.specs.Values.{values_in};
ghost use Rattle.sp_type_stmts.specs.Statements.{valued_in, text_in};

use sp_ast::{ExprKind, Members, Ref, StringKind};
use sp_base::{NoMemory, Span, or_drop};
use sp_type_context::Context;
use sp_type_operands::taken;
use sp_type_stmts::{Scope, text_in, valued_in, values_in};
use sp_typed::{Expr, Stmt, StmtNode, ValuedOp};
use sp_types::Type;
use std::alloc::Global;

/// A statement of this first level. One that would be too high is want of memory.
pub(crate) fn made(node: StmtNode) -> Result<Stmt, NoMemory>
    ensures { IfOk result (λ s. s ≡ stmt_of node) }
{
    Ok(Stmt::new(node)?)
}

/// A block without statements.
pub(crate) fn nothing(alloc: Global) -> Result<Stmt, NoMemory>
    ensures { IfOk result (λ s. s ≡ block no_stmts) }
{
    made(StmtNode::Block(Vec::new(alloc)))
}

/// A `switch`, with the slot in which its subject is kept.
pub(crate) fn switch_of(
    alloc: Global,
    slot: u32,
    subject: Expr,
    cases: Vec<(Vec<Expr>, Stmt)>,
    otherwise: Stmt,
) -> Result<Stmt, NoMemory>
    ensures { IfOk result (λ s. s ≡ switch slot subject (case_row cases.items) otherwise) }
{
    let otherwise = or_drop!(Box::new(alloc, otherwise); subject, cases);
    made(StmtNode::Switch(slot, subject, cases, otherwise))
}

/// The values of a case: literals take the type of the subject.
pub(crate) fn all_taken(
    alloc: Global,
    subject: &Type,
    list: Vec<Expr>,
) -> Result<Vec<Expr>, NoMemory>
    ensures { IfOk result (λ r. r.items ≡ map (taken subject.now) list.items) }
{
    let mut all = or_drop!(Vec::with_capacity(alloc, list.len()); list);
    for e in list {
        all.push(taken(subject, e))?;
    }
    Ok(all)
}

/// `print a, b;`
pub(crate) fn print_in<C: Context>(
    alloc: Global,
    context: &C,
    scope: &mut Scope,
    span: Span,
    values: &Members<'_, ExprKind>,
) -> Result<Stmt, NoMemory>
    ensures stmt { IfOk result (λ s. s ≡ print span (exprs (values_in (C.around context.now)
        scope.old (trees values.now)).0)) }
    ensures scope { OnOk result (scope.new ≡ (values_in (C.around context.now) scope.old
        (trees values.now)).1) }
{
    let all = values_in(alloc, context, scope, values)?;
    made(StmtNode::Print(span, all))
}

/// `assert e : "text";`
pub(crate) fn assert_in<C: Context>(
    alloc: Global,
    context: &C,
    scope: &mut Scope,
    span: Span,
    condition: &Ref<'_, ExprKind>,
    message: &Option<Ref<'_, StringKind>>,
) -> Result<Stmt, NoMemory>
    ensures stmt { IfOk result (λ s. s ≡ (valued_in (C.around context.now) scope.old span
        (valued_is.Assert (text_in (optional_tree message.now))) condition.now).0) }
    ensures scope { OnOk result (scope.new ≡ (valued_in (C.around context.now) scope.old span
        (valued_is.Assert (text_in (optional_tree message.now))) condition.now).1) }
{
    let text = text_in(alloc, message)?;
    valued_in(
        alloc,
        context,
        scope,
        span,
        ValuedOp::Assert(text),
        condition,
    )
}
