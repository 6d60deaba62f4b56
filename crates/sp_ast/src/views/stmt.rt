// Views of statements, and of what stands in them.
ghost use Rattle.std.specs.Prelude.{◌≡◌, true};
ghost use Rattle.sp_base.specs.declared.places.Span.{Span};
ghost use Rattle.sp_ast.specs.Trees.{span_of, tree, trees};
ghost use Rattle.sp_ast.specs.Slots.{slots, fill};
ghost use Rattle.sp_ast.specs.StmtViews.{stmt_tree, branch_tree, case_tree};
ghost use Rattle.sp_ast.specs.declared.forms.Form.TheVariants as form_is;

use super::members::{one, three, two};
use crate::forms::{Form, StmtForm};
use crate::kinds::{BlockKind, BranchKind, CaseKind, NameKind, StringKind};
use crate::lent::Parts;
use crate::refs::{Members, Ref};
use crate::whole::{ExprKind, StmtKind, TypeKind};
use sp_words::AssignOp;

/// A statement.
#[derive(Drop)]
pub enum StmtView<'a> {
    /// `{ .. }`
    Block(Ref<'a, BlockKind>),
    /// `local x: T = e;`
    Local {
        name: Ref<'a, NameKind>,
        type_: Option<Ref<'a, TypeKind>>,
        value: Option<Ref<'a, ExprKind>>,
    },
    /// `if (c) s else if (d) t else u`
    If {
        branches: Members<'a, BranchKind>,
        /// What is done where no condition holds.
        otherwise: Option<Ref<'a, StmtKind>>,
    },
    /// `while (c) s`
    While {
        condition: Ref<'a, ExprKind>,
        body: Ref<'a, StmtKind>,
    },
    /// `for (x in e) s`
    For {
        name: Ref<'a, NameKind>,
        sequence: Ref<'a, ExprKind>,
        body: Ref<'a, StmtKind>,
    },
    /// `switch (e) { case a: s default: t }`
    Switch {
        subject: Ref<'a, ExprKind>,
        cases: Members<'a, CaseKind>,
        /// What is done where no case has the value.
        otherwise: Option<Ref<'a, StmtKind>>,
    },
    /// `return;`, `return e;`
    Return(Option<Ref<'a, ExprKind>>),
    /// `break;`
    Break,
    /// `continue;`
    Continue,
    /// `stop;`
    Stop,
    /// `confirm;`
    Confirm,
    /// `reject;`
    Reject,
    /// `print a, b;`
    Print(Members<'a, ExprKind>),
    /// `throw e;`
    Throw(Ref<'a, ExprKind>),
    /// `assert e : "text";`
    Assert {
        condition: Ref<'a, ExprKind>,
        message: Option<Ref<'a, StringKind>>,
    },
    /// `add e;`
    Add(Ref<'a, ExprKind>),
    /// `delete e;`
    Delete(Ref<'a, ExprKind>),
    /// `e;`
    Expr(Ref<'a, ExprKind>),
    /// `a = b;`, `a += b;`, `a -= b;`
    Assign {
        operator: AssignOp,
        target: Ref<'a, ExprKind>,
        value: Ref<'a, ExprKind>,
    },
}

/// A condition of an `if`, and what is done where it is the first that holds.
#[derive(Drop)]
pub struct BranchView<'a> {
    pub condition: Ref<'a, ExprKind>,
    pub body: Ref<'a, StmtKind>,
}

/// `case a, b: s`
#[derive(Drop)]
pub struct CaseView<'a> {
    pub values: Members<'a, ExprKind>,
    pub body: Ref<'a, StmtKind>,
}

impl<'a> Ref<'a, StmtKind> {
    /// What the statement is, and its parts.
    pub fn view(&self) -> StmtView<'a>
        ensures { stmt_tree (span_of self.now) result ≡ self.now }
    {
        let (form, parts) = self.alternative();
        match form {
            Form::Stmt(form) => stmt_view(*form, &parts),
            _ => unreachable!(),
        }
    }
}

/// A statement of this alternative with these parts.
#[tactic(auto, using(crate::proofs::Several::no_parts))]
fn stmt_view<'a>(form: StmtForm, parts: &Parts<'a>) -> StmtView<'a>
    requires { fill (slots (form_is.Stmt form)) (trees parts.now) ≡ true }
    ensures { (span : Span) → stmt_tree span result ≡ tree (form_is.Stmt form) span parts.now }
{
    match form {
        StmtForm::Block => StmtView::Block(one(parts)),
        StmtForm::Local => {
            let (name, type_, value) = three(parts);
            StmtView::Local { name, type_, value }
        }
        StmtForm::If => {
            let (branches, otherwise) = two(parts);
            StmtView::If {
                branches,
                otherwise,
            }
        }
        StmtForm::While => {
            let (condition, body) = two(parts);
            StmtView::While { condition, body }
        }
        StmtForm::For => {
            let (name, sequence, body) = three(parts);
            StmtView::For {
                name,
                sequence,
                body,
            }
        }
        StmtForm::Switch => {
            let (subject, cases, otherwise) = three(parts);
            StmtView::Switch {
                subject,
                cases,
                otherwise,
            }
        }
        StmtForm::Return => StmtView::Return(one(parts)),
        StmtForm::Break => StmtView::Break,
        StmtForm::Continue => StmtView::Continue,
        StmtForm::Stop => StmtView::Stop,
        StmtForm::Confirm => StmtView::Confirm,
        StmtForm::Reject => StmtView::Reject,
        StmtForm::Print => StmtView::Print(Members::new(parts.again())),
        StmtForm::Throw => StmtView::Throw(one(parts)),
        StmtForm::Assert => {
            let (condition, message) = two(parts);
            StmtView::Assert { condition, message }
        }
        StmtForm::Add => StmtView::Add(one(parts)),
        StmtForm::Delete => StmtView::Delete(one(parts)),
        StmtForm::Expr => StmtView::Expr(one(parts)),
        StmtForm::Assign(operator) => {
            let (target, value) = two(parts);
            StmtView::Assign {
                operator,
                target,
                value,
            }
        }
    }
}

impl<'a> Ref<'a, BlockKind> {
    /// The statements in braces.
    pub fn statements(&self) -> Members<'a, StmtKind>
        ensures { self.now ≡ tree form_is.Block (span_of self.now) result }
    {
        let (form, parts) = self.alternative();
        match form {
            Form::Block => Members::new(parts),
            _ => unreachable!(),
        }
    }
}

impl<'a> Ref<'a, BranchKind> {
    /// Its members, by their names.
    pub fn view(&self) -> BranchView<'a>
        ensures { branch_tree (span_of self.now) result ≡ self.now }
    {
        let (form, parts) = self.alternative();
        match form {
            Form::Branch => {
                let (condition, body) = two(&parts);
                BranchView { condition, body }
            }
            _ => unreachable!(),
        }
    }
}

impl<'a> Ref<'a, CaseKind> {
    /// Its members, by their names.
    pub fn view(&self) -> CaseView<'a>
        ensures { case_tree (span_of self.now) result ≡ self.now }
    {
        let (form, parts) = self.alternative();
        match form {
            Form::Case => {
                let (values, body) = two(&parts);
                CaseView { values, body }
            }
            _ => unreachable!(),
        }
    }
}
