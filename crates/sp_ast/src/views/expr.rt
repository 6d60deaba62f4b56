// Views of expressions.
ghost use Rattle.std.specs.Prelude.{◌≡◌, ◌∷◌, [], true};
ghost use Rattle.sp_ast.specs.Trees.{span_of, tree, trees};
ghost use Rattle.sp_ast.specs.Slots.{slots, fill};
ghost use Rattle.sp_ast.specs.ExprViews.{expr_tree, pair_tree};
ghost use Rattle.sp_base.specs.declared.places.Span.{Span};
ghost use Rattle.sp_ast.specs.declared.forms.Form.TheVariants as form_is;

use super::members::{one, three, two};
use crate::forms::{ExprForm, Form};
use crate::kinds::{NameKind, NumberKind, PairKind, PathKind};
use crate::lent::Parts;
use crate::refs::{Members, Ref};
use crate::whole::{ExprKind, TypeKind};
use sp_words::{BinaryOp, IntWord, UnaryOp};

/// An expression.
#[derive(Drop)]
pub enum ExprView<'a> {
    /// `a`, `M::a`
    Path(Ref<'a, PathKind>),
    /// `self`
    Itself,
    /// `$$`
    Current,
    /// `True`
    True,
    /// `False`
    False,
    /// A number.
    Number(u64),
    /// A text in quotes, its escapes decoded.
    String(&'a str),
    /// Bytes in quotes behind a `b`, their escapes decoded.
    Bytes(&'a [u8]),
    /// What stands between the slashes of a regular expression, as it is written.
    Regex(&'a str),
    /// `(a, b)`
    Tuple(Members<'a, ExprKind>),
    /// `[a, b]`
    Vector(Members<'a, ExprKind>),
    /// `set(a, b)`
    Set(Members<'a, ExprKind>),
    /// `map(k: v)`
    Map(Members<'a, PairKind>),
    /// `vector<T>()`
    EmptyVector(Ref<'a, TypeKind>),
    /// `set<T>()`
    EmptySet(Ref<'a, TypeKind>),
    /// `map<K, V>()`
    EmptyMap {
        key: Ref<'a, TypeKind>,
        value: Ref<'a, TypeKind>,
    },
    /// `uint8(1)`
    TypedNumber(IntWord, Ref<'a, NumberKind>),
    /// `cast<T>(e)`
    Cast(Ref<'a, TypeKind>, Ref<'a, ExprKind>),
    /// `new U`, `new U(a)`: the unit and the arguments.
    New(Ref<'a, PathKind>, Members<'a, ExprKind>),
    /// `|e|`
    Size(Ref<'a, ExprKind>),
    /// `c ? a : b`
    Choice {
        condition: Ref<'a, ExprKind>,
        if_true: Ref<'a, ExprKind>,
        if_false: Ref<'a, ExprKind>,
    },
    /// `e.name`
    Member(Ref<'a, ExprKind>, Ref<'a, NameKind>),
    /// `e?.name`
    SetMember(Ref<'a, ExprKind>, Ref<'a, NameKind>),
    /// `e[i]`
    Index {
        object: Ref<'a, ExprKind>,
        index: Ref<'a, ExprKind>,
    },
    /// `f(a, b)`: the callee and the arguments.
    Call(Ref<'a, ExprKind>, Members<'a, ExprKind>),
    /// `! e`, `- e`, `~ e`
    Unary(UnaryOp, Ref<'a, ExprKind>),
    /// `a + b` and the like: the left operand, and the right one.
    Binary(BinaryOp, Ref<'a, ExprKind>, Ref<'a, ExprKind>),
}

impl<'a> Ref<'a, ExprKind> {
    /// What the expression is, and its parts.
    pub fn view(&self) -> ExprView<'a>
        ensures { expr_tree (span_of self.now) result ≡ self.now }
    {
        let (form, parts) = self.alternative();
        match form {
            Form::Expr(form) => expr_view(form, &parts),
            _ => unreachable!(),
        }
    }
}

/// `k: v` in a map.
#[derive(Drop)]
pub struct PairView<'a> {
    pub key: Ref<'a, ExprKind>,
    pub value: Ref<'a, ExprKind>,
}

impl<'a> Ref<'a, PairKind> {
    /// Its members, by their names.
    pub fn view(&self) -> PairView<'a>
        ensures { pair_tree (span_of self.now) result ≡ self.now }
    {
        let (form, parts) = self.alternative();
        match form {
            Form::Pair => {
                let (key, value) = two(&parts);
                PairView { key, value }
            }
            _ => unreachable!(),
        }
    }
}

/// An expression of this alternative with these parts.
#[tactic(auto, using(crate::proofs::Several::no_parts))]
fn expr_view<'a>(form: &'a ExprForm, parts: &Parts<'a>) -> ExprView<'a>
    requires { fill (slots (form_is.Expr form.now)) (trees parts.now) ≡ true }
    ensures { (span : Span) → expr_tree span result ≡ tree (form_is.Expr form.now) span parts.now }
{
    match form {
        ExprForm::Path => ExprView::Path(one(parts)),
        ExprForm::Itself => ExprView::Itself,
        ExprForm::Current => ExprView::Current,
        ExprForm::True => ExprView::True,
        ExprForm::False => ExprView::False,
        ExprForm::Number(n) => ExprView::Number(*n),
        ExprForm::String(text) => ExprView::String(text.as_str()),
        ExprForm::Bytes(bytes) => ExprView::Bytes(bytes.as_slice()),
        ExprForm::Regex(text) => ExprView::Regex(text.as_str()),
        ExprForm::Tuple => ExprView::Tuple(Members::new(parts.again())),
        ExprForm::Vector => ExprView::Vector(Members::new(parts.again())),
        ExprForm::Set => ExprView::Set(Members::new(parts.again())),
        ExprForm::Map => ExprView::Map(Members::new(parts.again())),
        ExprForm::EmptyVector => ExprView::EmptyVector(one(parts)),
        ExprForm::EmptySet => ExprView::EmptySet(one(parts)),
        ExprForm::EmptyMap => {
            let (key, value) = two(parts);
            ExprView::EmptyMap { key, value }
        }
        ExprForm::TypedNumber(word) => ExprView::TypedNumber(*word, one(parts)),
        ExprForm::Cast => {
            let (target, operand) = two(parts);
            ExprView::Cast(target, operand)
        }
        ExprForm::New => {
            let (unit, arguments) = two(parts);
            ExprView::New(unit, arguments)
        }
        ExprForm::Size => ExprView::Size(one(parts)),
        ExprForm::Choice => {
            let (condition, if_true, if_false) = three(parts);
            ExprView::Choice {
                condition,
                if_true,
                if_false,
            }
        }
        ExprForm::Member => {
            let (object, name) = two(parts);
            ExprView::Member(object, name)
        }
        ExprForm::SetMember => {
            let (object, name) = two(parts);
            ExprView::SetMember(object, name)
        }
        ExprForm::Index => {
            let (object, index) = two(parts);
            ExprView::Index { object, index }
        }
        ExprForm::Call => {
            let (callee, arguments) = two(parts);
            ExprView::Call(callee, arguments)
        }
        ExprForm::Unary(operator) => ExprView::Unary(*operator, one(parts)),
        ExprForm::Binary(operator) => {
            let (left, right) = two(parts);
            ExprView::Binary(*operator, left, right)
        }
    }
}
