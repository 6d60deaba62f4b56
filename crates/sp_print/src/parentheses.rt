// Which expressions stand in parentheses.
ghost use Rattle.std.specs.Prelude.{◌≡◌, ◌||◌, nat_lt, if◌then◌else◌};
ghost use Rattle.sp_ast.specs.Trees.{in_row};
ghost use Rattle.sp_print.specs.Canonical.{is_absent, is_empty_row, level_of, operation_level, least, is_dividend, divides_behind, is_regex, divides, needs_parentheses};

use crate::layouts::Place;
use sp_ast::{ExprForm, ExprKind, ExprView, Form, Level, Members, Ref, TreeRef};
use sp_lex::TokenKind;
use sp_words::BinaryOp;

/// Whether it is a part that is left out.
pub(crate) fn is_absent(tree: &TreeRef<'_>) -> bool
    ensures { result ≡ is_absent tree.now }
{
    match tree.level() {
        Level::Absent => true,
        Level::Row(_) | Level::Of(..) => false,
    }
}

/// Whether it is a row without members.
pub(crate) fn is_empty_row(tree: &TreeRef<'_>) -> bool
    ensures { result ≡ is_empty_row tree.now }
{
    match tree.level() {
        Level::Row(parts) => parts.is_empty(),
        Level::Absent | Level::Of(..) => false,
    }
}

/// How tightly an expression binds: operators by their level, a prefix by 13, `new` without arguments by 14, and all else
/// by 15.
fn expr_level(expr: &Ref<'_, ExprKind>) -> u8
    ensures { result ≡ level_of expr.now }
{
    match expr.view() {
        ExprView::Choice { .. } => 1,
        ExprView::Binary(operator, ..) => operator.level(),
        ExprView::Unary(..) => 13,
        ExprView::New(_, arguments) => new_level(&arguments),
        _ => 15,
    }
}

/// How tightly `new` with these arguments binds.
fn new_level(arguments: &Members<'_, ExprKind>) -> u8
    ensures { result ≡ (if is_empty_row (in_row arguments.now) then 14 else 15) }
{
    if arguments.is_empty() { 14 } else { 15 }
}

/// How tightly a tree binds: an expression by what it is, and all else by 15.
fn level_of(tree: &TreeRef<'_>) -> u8
    ensures { result ≡ level_of tree.now }
{
    match tree.level() {
        Level::Of(Form::Expr(_), ..) => expr_level(&Ref::new(tree.again())),
        _ => 15,
    }
}

fn operation_level(form: &Form) -> u8
    ensures { result ≡ operation_level form.now }
{
    match form {
        Form::Expr(ExprForm::Binary(operator)) => operator.level(),
        _ => 1,
    }
}

/// How tightly what stands at a place must bind, or else stand in parentheses.
pub(crate) fn least(form: &Form, place: Place) -> u8
    ensures { result ≡ least form.now place }
{
    match place {
        Place::Anywhere => 1,
        Place::Condition => 2,
        Place::Sized => 8,
        Place::Operand => 13,
        Place::Object => 14,
        Place::Callee => 15,
        Place::Left => operation_level(form),
        Place::Right => operation_level(form) + 1,
    }
}

/// Whether a `/` stands behind the place.
pub(crate) fn is_dividend(form: &Form, place: Place) -> bool
    ensures { result ≡ is_dividend form.now place }
{
    match (form, place) {
        (Form::Expr(ExprForm::Binary(BinaryOp::Divide)), Place::Left) => true,
        _ => false,
    }
}

/// Whether a `/` behind a tree is read as a division, by the last token of it.
fn divides_behind(tree: &TreeRef<'_>) -> bool
    ensures { result ≡ divides_behind tree.now }
{
    match tree.level() {
        Level::Of(Form::Expr(_), ..) => last_divides(&Ref::new(tree.again())),
        _ => true,
    }
}

/// Whether a `/` behind an expression is read as a division, by the last token of it.
#[cycle(divides)]
fn last_divides(expr: &Ref<'_, ExprKind>) -> bool
    ensures { result ≡ divides_behind expr.now }
{
    match expr.view() {
        ExprView::Itself | ExprView::True | ExprView::False | ExprView::Regex(_) => false,
        ExprView::Member(_, name) => name.text() != "skip",
        ExprView::Unary(_, operand) => closes(&operand, 13),
        ExprView::Binary(operator, _, right) => closes(&right, operator.level() + 1),
        _ => true,
    }
}

/// Whether a `/` behind an operand is read as a division: it stands in parentheses, or is itself such.
#[cycle(divides)]
fn closes(operand: &Ref<'_, ExprKind>, tight: u8) -> bool
    ensures { result ≡ (nat_lt (level_of operand.now) tight || divides_behind operand.now) }
{
    if expr_level(operand) < tight {
        return true;
    }
    last_divides(operand)
}

fn is_regex(tree: &TreeRef<'_>) -> bool
    ensures { result ≡ is_regex tree.now }
{
    match tree.level() {
        Level::Of(form, ..) => matches!(form, Form::Expr(ExprForm::Regex(_))),
        Level::Absent | Level::Row(_) => false,
    }
}

/// Whether a `/` would divide behind the word before.
fn divides(before: Option<TokenKind>) -> bool
    ensures { result ≡ divides before }
{
    match before {
        Some(kind) => kind.ends_operand(),
        None => false,
    }
}

/// Whether a tree needs parentheses: where it binds less tightly than its place asks for, where a `/` behind it would
/// else begin a regular expression, and where its own `/` would else divide.
pub(crate) fn needs_parentheses(
    tight: u8,
    dividend: bool,
    tree: &TreeRef<'_>,
    before: Option<TokenKind>,
) -> bool
    ensures { result ≡ needs_parentheses tight dividend tree.now before }
{
    level_of(tree) < tight
        || (dividend && !divides_behind(tree))
        || (is_regex(tree) && divides(before))
}
