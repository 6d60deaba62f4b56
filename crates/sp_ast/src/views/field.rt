// Views of fields, and of what stands in them.
ghost use Rattle.std.specs.Prelude.{◌≡◌, ◌∷◌, [], true};
ghost use Rattle.sp_base.specs.declared.places.Span.{Span};
ghost use Rattle.sp_ast.specs.Trees.{span_of, tree, trees};
ghost use Rattle.sp_ast.specs.Slots.{slots, fill};
ghost use Rattle.sp_ast.specs.Views.{optional_tree};
ghost use Rattle.sp_ast.specs.FieldViews.{field_tree, base_tree, attribute_tree};
ghost use Rattle.sp_ast.specs.declared.forms.Form.TheVariants as form_is;

use super::members::{one, seven, three, two};
use crate::forms::{BaseForm, Form};
use crate::kinds::{
    AttributeKind, BaseKind, CountKind, FieldKind, HookBodyKind, NameKind, NumberKind, PathKind,
};
use crate::lent::Parts;
use crate::refs::{Members, Ref};
use crate::whole::{ExprKind, TypeKind};
use sp_words::{AttributeName, IntWord};

/// A field.
#[derive(Drop)]
pub struct FieldView<'a> {
    pub name: Option<Ref<'a, NameKind>>,
    /// What it reads.
    pub base: Ref<'a, BaseKind>,
    /// `[n]`, `[]`: how often it reads that.
    pub counts: Members<'a, CountKind>,
    pub attributes: Members<'a, AttributeKind>,
    /// `if (e)`
    pub condition: Option<Ref<'a, ExprKind>>,
    /// `-> e`
    pub sink: Option<Ref<'a, ExprKind>>,
    /// What is done when it is read.
    pub hooks: Members<'a, HookBodyKind>,
}

/// What a field or an element reads.
#[derive(Drop)]
pub enum BaseView<'a> {
    /// A type.
    Type(Ref<'a, TypeKind>),
    /// `U(a, b)`
    Unit {
        path: Ref<'a, PathKind>,
        arguments: Members<'a, ExprKind>,
    },
    /// `( base [n] attributes )`
    Group {
        base: Ref<'a, BaseKind>,
        counts: Members<'a, CountKind>,
        attributes: Members<'a, AttributeKind>,
    },
    /// `b"text"`, its escapes decoded.
    Bytes(&'a [u8]),
    /// What stands between the slashes of a regular expression, as it is written.
    Regex(&'a str),
    /// `uint8(1)`
    Number(IntWord, Ref<'a, NumberKind>),
}

/// An attribute of a field or an element.
#[derive(Drop)]
pub struct AttributeView<'a> {
    pub name: AttributeName,
    pub value: Option<Ref<'a, ExprKind>>,
}

impl<'a> Ref<'a, FieldKind> {
    /// Its members, by their names.
    pub fn view(&self) -> FieldView<'a>
        ensures { field_tree (span_of self.now) result ≡ self.now }
    {
        let (form, parts) = self.alternative();
        match form {
            Form::Field => {
                let ((name, base, counts), (attributes, condition, sink, hooks)) = seven(&parts);
                FieldView {
                    name,
                    base,
                    counts,
                    attributes,
                    condition,
                    sink,
                    hooks,
                }
            }
            _ => unreachable!(),
        }
    }
}

impl<'a> Ref<'a, BaseKind> {
    /// What is read, and its parts.
    pub fn view(&self) -> BaseView<'a>
        ensures { base_tree (span_of self.now) result ≡ self.now }
    {
        let (form, parts) = self.alternative();
        match form {
            Form::Base(form) => base_view(form, &parts),
            _ => unreachable!(),
        }
    }
}

/// A base of this alternative with these parts.
#[tactic(auto, using(crate::proofs::Several::no_parts))]
fn base_view<'a>(form: &'a BaseForm, parts: &Parts<'a>) -> BaseView<'a>
    requires { fill (slots (form_is.Base form.now)) (trees parts.now) ≡ true }
    ensures { (span : Span) → base_tree span result ≡ tree (form_is.Base form.now) span parts.now }
{
    match form {
        BaseForm::Type => BaseView::Type(one(parts)),
        BaseForm::Unit => {
            let (path, arguments) = two(parts);
            BaseView::Unit { path, arguments }
        }
        BaseForm::Group => {
            let (base, counts, attributes) = three(parts);
            BaseView::Group {
                base,
                counts,
                attributes,
            }
        }
        BaseForm::Bytes(bytes) => BaseView::Bytes(bytes.as_slice()),
        BaseForm::Regex(text) => BaseView::Regex(text.as_str()),
        BaseForm::Number(word) => BaseView::Number(*word, one(parts)),
    }
}

impl<'a> Ref<'a, CountKind> {
    /// How often, unless the input tells.
    pub fn number(&self) -> Option<Ref<'a, ExprKind>>
        ensures { self.now ≡ tree form_is.Count (span_of self.now) (optional_tree result ∷ []) }
    {
        let (form, parts) = self.alternative();
        match form {
            Form::Count => one(&parts),
            _ => unreachable!(),
        }
    }
}

impl<'a> Ref<'a, AttributeKind> {
    /// Its members, by their names.
    pub fn view(&self) -> AttributeView<'a>
        ensures { attribute_tree (span_of self.now) result ≡ self.now }
    {
        let (form, parts) = self.alternative();
        match form {
            Form::Attribute(name) => AttributeView {
                name: *name,
                value: one(&parts),
            },
            _ => unreachable!(),
        }
    }
}
