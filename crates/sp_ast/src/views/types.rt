// Views of types, and of what stands in them.
ghost use Rattle.std.specs.Prelude.{◌≡◌, true};
ghost use Rattle.sp_base.specs.declared.places.Span.{Span};
ghost use Rattle.sp_ast.specs.Trees.{span_of, tree, trees};
ghost use Rattle.sp_ast.specs.Slots.{slots, fill};
ghost use Rattle.sp_ast.specs.TypeViews.{type_tree, label_tree, range_tree, parameter_tree};
ghost use Rattle.sp_ast.specs.declared.forms.Form.TheVariants as form_is;

use super::members::{one, three, two};
use crate::forms::{Form, TypeForm};
use crate::kinds::{LabelKind, NameKind, NumberKind, ParameterKind, PathKind, RangeKind, UnitKind};
use crate::lent::Parts;
use crate::refs::{Members, Ref};
use crate::whole::{ExprKind, TypeKind};
use sp_words::IntWord;

/// A type.
#[derive(Drop)]
pub enum TypeView<'a> {
    /// `T`, `M::T`
    Path(Ref<'a, PathKind>),
    /// `bool`
    Bool,
    /// `bytes`
    Bytes,
    /// `string`
    String,
    /// `void`
    Void,
    /// `uint8` and the like.
    Int(IntWord),
    /// `tuple<A, B>`
    Tuple(Members<'a, TypeKind>),
    /// `vector<T>`
    Vector(Ref<'a, TypeKind>),
    /// `set<T>`
    Set(Ref<'a, TypeKind>),
    /// `map<K, V>`
    Map {
        key: Ref<'a, TypeKind>,
        value: Ref<'a, TypeKind>,
    },
    /// `enum { A, B = 2 }`
    Enum(Members<'a, LabelKind>),
    /// `bitfield(8) { a: 0..3; }`
    Bitfield {
        width: Ref<'a, NumberKind>,
        ranges: Members<'a, RangeKind>,
    },
    /// `unit { .. }`
    Unit(Ref<'a, UnitKind>),
}

/// `A`, `B = 2` in an enumeration.
#[derive(Drop)]
pub struct LabelView<'a> {
    pub name: Ref<'a, NameKind>,
    pub value: Option<Ref<'a, ExprKind>>,
}

/// `a: 0;`, `a: 0..3;` in a bitfield.
#[derive(Drop)]
pub struct RangeView<'a> {
    pub name: Ref<'a, NameKind>,
    /// The first bit.
    pub first: Ref<'a, NumberKind>,
    /// The last bit, unless it is the first.
    pub last: Option<Ref<'a, NumberKind>>,
}

/// `x: T`, `inout x: T`
#[derive(Drop)]
pub struct ParameterView<'a> {
    /// Whether `inout` stands before it.
    pub inout: bool,
    pub name: Ref<'a, NameKind>,
    pub type_: Ref<'a, TypeKind>,
}

impl<'a> Ref<'a, TypeKind> {
    /// What the type is, and its parts.
    pub fn view(&self) -> TypeView<'a>
        ensures { type_tree (span_of self.now) result ≡ self.now }
    {
        let (form, parts) = self.alternative();
        match form {
            Form::Type(form) => type_view(*form, &parts),
            _ => unreachable!(),
        }
    }
}

/// A type of this alternative with these parts.
#[tactic(auto, using(crate::proofs::Several::no_parts))]
fn type_view<'a>(form: TypeForm, parts: &Parts<'a>) -> TypeView<'a>
    requires { fill (slots (form_is.Type form)) (trees parts.now) ≡ true }
    ensures { (span : Span) → type_tree span result ≡ tree (form_is.Type form) span parts.now }
{
    match form {
        TypeForm::Path => TypeView::Path(one(parts)),
        TypeForm::Bool => TypeView::Bool,
        TypeForm::Bytes => TypeView::Bytes,
        TypeForm::String => TypeView::String,
        TypeForm::Void => TypeView::Void,
        TypeForm::Int(word) => TypeView::Int(word),
        TypeForm::Tuple => TypeView::Tuple(Members::new(parts.again())),
        TypeForm::Vector => TypeView::Vector(one(parts)),
        TypeForm::Set => TypeView::Set(one(parts)),
        TypeForm::Map => {
            let (key, value) = two(parts);
            TypeView::Map { key, value }
        }
        TypeForm::Enum => TypeView::Enum(Members::new(parts.again())),
        TypeForm::Bitfield => {
            let (width, ranges) = two(parts);
            TypeView::Bitfield { width, ranges }
        }
        TypeForm::Unit => TypeView::Unit(one(parts)),
    }
}

impl<'a> Ref<'a, LabelKind> {
    /// Its members, by their names.
    pub fn view(&self) -> LabelView<'a>
        ensures { label_tree (span_of self.now) result ≡ self.now }
    {
        let (form, parts) = self.alternative();
        match form {
            Form::Label => {
                let (name, value) = two(&parts);
                LabelView { name, value }
            }
            _ => unreachable!(),
        }
    }
}

impl<'a> Ref<'a, RangeKind> {
    /// Its members, by their names.
    pub fn view(&self) -> RangeView<'a>
        ensures { range_tree (span_of self.now) result ≡ self.now }
    {
        let (form, parts) = self.alternative();
        match form {
            Form::Bits => {
                let (name, first, last) = three(&parts);
                RangeView { name, first, last }
            }
            _ => unreachable!(),
        }
    }
}

impl<'a> Ref<'a, ParameterKind> {
    /// Its members, by their names.
    pub fn view(&self) -> ParameterView<'a>
        ensures { parameter_tree (span_of self.now) result ≡ self.now }
    {
        let (form, parts) = self.alternative();
        match form {
            Form::Parameter { inout } => {
                let (name, type_) = two(&parts);
                ParameterView {
                    inout: *inout,
                    name,
                    type_,
                }
            }
            _ => unreachable!(),
        }
    }
}
