// Views of units, and of what stands in them.
ghost use Rattle.std.specs.Prelude.{◌≡◌, true};
ghost use Rattle.sp_base.specs.declared.places.Span.{Span};
ghost use Rattle.sp_ast.specs.Trees.{span_of, tree, trees};
ghost use Rattle.sp_ast.specs.Slots.{slots, fill};
ghost use Rattle.sp_ast.specs.UnitViews.{unit_tree, item_tree, target_tree, part_tree, arm_tree, guard_tree, body_tree, hook_tree, hook_body_tree};
ghost use Rattle.sp_ast.specs.declared.forms.Form.TheVariants as form_is;

use super::members::{one, three, two};
use crate::forms::{BodyForm, Form, GuardForm, ItemForm, PartForm, TargetForm};
use crate::kinds::{
    ArmKind, BlockKind, BodyKind, FieldKind, GuardKind, HookBodyKind, HookKind, ItemKind, NameKind,
    ParameterKind, PartKind, PathKind, StringKind, TargetKind, UnitKind,
};
use crate::lent::Parts;
use crate::refs::{Members, Ref};
use crate::whole::{ExprKind, TypeKind};
use sp_words::HookName;

/// `unit (..) { .. }`
#[derive(Drop)]
pub struct UnitView<'a> {
    pub parameters: Members<'a, ParameterKind>,
    pub items: Members<'a, ItemKind>,
}

/// An item of a unit.
#[derive(Drop)]
pub enum ItemView<'a> {
    /// `%filter;`
    Filter,
    /// `%byte-order = path;`
    ByteOrder(Ref<'a, PathKind>),
    /// `%mime-type = "text";`
    MimeType(Ref<'a, StringKind>),
    /// `%description = "text";`
    Description(Ref<'a, StringKind>),
    /// `var x: T = e;`
    Variable {
        name: Ref<'a, NameKind>,
        type_: Ref<'a, TypeKind>,
        value: Option<Ref<'a, ExprKind>>,
    },
    /// `sink s;`
    Sink(Ref<'a, NameKind>),
    /// `on field { .. }`, `on %init { .. }`
    On {
        target: Ref<'a, TargetKind>,
        hook: Ref<'a, HookKind>,
    },
    /// A part that takes input.
    Part(Ref<'a, PartKind>),
}

/// What a hook in a unit hangs on.
#[derive(Drop)]
pub enum TargetView<'a> {
    /// A field, variable or sink by its name.
    Name(&'a str),
    /// A hook that each unit has, as `%init`.
    Hook(HookName),
}

/// A part of a unit that takes input.
#[derive(Drop)]
pub enum PartView<'a> {
    /// A field.
    Field(Ref<'a, FieldKind>),
    /// `switch (e) { .. }`
    Switch {
        /// What is compared, unless look-ahead chooses.
        subject: Option<Ref<'a, ExprKind>>,
        arms: Members<'a, ArmKind>,
    },
}

/// An arm of a switch in a unit.
#[derive(Drop)]
pub struct ArmView<'a> {
    /// When it is taken.
    pub guard: Ref<'a, GuardKind>,
    /// What it reads.
    pub body: Ref<'a, BodyKind>,
}

/// When an arm is taken.
#[derive(Drop)]
pub enum GuardView<'a> {
    /// `*`: where no other arm is.
    Otherwise,
    /// At one of these values.
    Values(Members<'a, ExprKind>),
    /// Where the input goes on with a token of this arm.
    LookAhead,
}

/// What an arm reads.
#[derive(Drop)]
pub enum BodyView<'a> {
    /// `;`
    Nothing,
    /// One part.
    One(Ref<'a, PartKind>),
    /// Parts in braces.
    Many(Members<'a, PartKind>),
}

/// A hook: its parameters, and what it does.
#[derive(Drop)]
pub struct HookView<'a> {
    pub parameters: Members<'a, ParameterKind>,
    pub body: Ref<'a, HookBodyKind>,
}

/// What a hook does.
#[derive(Drop)]
pub struct HookBodyView<'a> {
    /// Whether `foreach` stands before it.
    pub each: bool,
    pub priority: Option<Ref<'a, ExprKind>>,
    pub block: Ref<'a, BlockKind>,
}

impl<'a> Ref<'a, UnitKind> {
    /// Its members, by their names.
    pub fn view(&self) -> UnitView<'a>
        ensures { unit_tree (span_of self.now) result ≡ self.now }
    {
        let (form, parts) = self.alternative();
        match form {
            Form::Unit => {
                let (parameters, items) = two(&parts);
                UnitView { parameters, items }
            }
            _ => unreachable!(),
        }
    }
}

impl<'a> Ref<'a, ItemKind> {
    /// What the item is, and its parts.
    pub fn view(&self) -> ItemView<'a>
        ensures { item_tree (span_of self.now) result ≡ self.now }
    {
        let (form, parts) = self.alternative();
        match form {
            Form::Item(form) => item_view(*form, &parts),
            _ => unreachable!(),
        }
    }
}

/// An item of this alternative with these parts.
#[tactic(auto, using(crate::proofs::Several::no_parts))]
fn item_view<'a>(form: ItemForm, parts: &Parts<'a>) -> ItemView<'a>
    requires { fill (slots (form_is.Item form)) (trees parts.now) ≡ true }
    ensures { (span : Span) → item_tree span result ≡ tree (form_is.Item form) span parts.now }
{
    match form {
        ItemForm::Filter => ItemView::Filter,
        ItemForm::ByteOrder => ItemView::ByteOrder(one(parts)),
        ItemForm::MimeType => ItemView::MimeType(one(parts)),
        ItemForm::Description => ItemView::Description(one(parts)),
        ItemForm::Variable => {
            let (name, type_, value) = three(parts);
            ItemView::Variable { name, type_, value }
        }
        ItemForm::Sink => ItemView::Sink(one(parts)),
        ItemForm::On => {
            let (target, hook) = two(parts);
            ItemView::On { target, hook }
        }
        ItemForm::Part => ItemView::Part(one(parts)),
    }
}

impl<'a> Ref<'a, TargetKind> {
    /// What the hook hangs on.
    pub fn view(&self) -> TargetView<'a>
        ensures { target_tree (span_of self.now) result ≡ self.now }
    {
        let (form, parts) = self.alternative();
        match form {
            Form::Target(form) => target_view(form, &parts),
            _ => unreachable!(),
        }
    }
}

/// A target of this alternative, which has no parts.
#[tactic(auto, using(crate::proofs::Several::no_parts))]
fn target_view<'a>(form: &'a TargetForm, parts: &Parts<'a>) -> TargetView<'a>
    requires { fill (slots (form_is.Target form.now)) (trees parts.now) ≡ true }
    ensures { (span : Span) → target_tree span result
        ≡ tree (form_is.Target form.now) span parts.now }
{
    match form {
        TargetForm::Name(text) => TargetView::Name(text.as_str()),
        TargetForm::Hook(name) => TargetView::Hook(*name),
    }
}

impl<'a> Ref<'a, PartKind> {
    /// What the part is, and its parts.
    pub fn view(&self) -> PartView<'a>
        ensures { part_tree (span_of self.now) result ≡ self.now }
    {
        let (form, parts) = self.alternative();
        match form {
            Form::Part(form) => part_view(*form, &parts),
            _ => unreachable!(),
        }
    }
}

/// A part of this alternative with these parts.
fn part_view<'a>(form: PartForm, parts: &Parts<'a>) -> PartView<'a>
    requires { fill (slots (form_is.Part form)) (trees parts.now) ≡ true }
    ensures { (span : Span) → part_tree span result ≡ tree (form_is.Part form) span parts.now }
{
    match form {
        PartForm::Field => PartView::Field(one(parts)),
        PartForm::Switch => {
            let (subject, arms) = two(parts);
            PartView::Switch { subject, arms }
        }
    }
}

impl<'a> Ref<'a, ArmKind> {
    /// Its members, by their names.
    pub fn view(&self) -> ArmView<'a>
        ensures { arm_tree (span_of self.now) result ≡ self.now }
    {
        let (form, parts) = self.alternative();
        match form {
            Form::Arm => {
                let (guard, body) = two(&parts);
                ArmView { guard, body }
            }
            _ => unreachable!(),
        }
    }
}

impl<'a> Ref<'a, GuardKind> {
    /// When the arm is taken.
    pub fn view(&self) -> GuardView<'a>
        ensures { guard_tree (span_of self.now) result ≡ self.now }
    {
        let (form, parts) = self.alternative();
        match form {
            Form::Guard(form) => guard_view(*form, &parts),
            _ => unreachable!(),
        }
    }
}

/// A guard of this alternative with these parts.
#[tactic(auto, using(crate::proofs::Several::no_parts))]
fn guard_view<'a>(form: GuardForm, parts: &Parts<'a>) -> GuardView<'a>
    requires { fill (slots (form_is.Guard form)) (trees parts.now) ≡ true }
    ensures { (span : Span) → guard_tree span result ≡ tree (form_is.Guard form) span parts.now }
{
    match form {
        GuardForm::Otherwise => GuardView::Otherwise,
        GuardForm::Values => GuardView::Values(Members::new(parts.again())),
        GuardForm::LookAhead => GuardView::LookAhead,
    }
}

impl<'a> Ref<'a, BodyKind> {
    /// What the arm reads.
    pub fn view(&self) -> BodyView<'a>
        ensures { body_tree (span_of self.now) result ≡ self.now }
    {
        let (form, parts) = self.alternative();
        match form {
            Form::Body(form) => body_view(*form, &parts),
            _ => unreachable!(),
        }
    }
}

/// A body of this alternative with these parts.
#[tactic(auto, using(crate::proofs::Several::no_parts))]
fn body_view<'a>(form: BodyForm, parts: &Parts<'a>) -> BodyView<'a>
    requires { fill (slots (form_is.Body form)) (trees parts.now) ≡ true }
    ensures { (span : Span) → body_tree span result ≡ tree (form_is.Body form) span parts.now }
{
    match form {
        BodyForm::Nothing => BodyView::Nothing,
        BodyForm::One => BodyView::One(one(parts)),
        BodyForm::Many => BodyView::Many(Members::new(parts.again())),
    }
}

impl<'a> Ref<'a, HookKind> {
    /// Its members, by their names.
    pub fn view(&self) -> HookView<'a>
        ensures { hook_tree (span_of self.now) result ≡ self.now }
    {
        let (form, parts) = self.alternative();
        match form {
            Form::Hook => {
                let (parameters, body) = two(&parts);
                HookView { parameters, body }
            }
            _ => unreachable!(),
        }
    }
}

impl<'a> Ref<'a, HookBodyKind> {
    /// Its members, by their names.
    pub fn view(&self) -> HookBodyView<'a>
        ensures { hook_body_tree (span_of self.now) result ≡ self.now }
    {
        let (form, parts) = self.alternative();
        match form {
            Form::HookBody { each } => {
                let (priority, block) = two(&parts);
                HookBodyView {
                    each: *each,
                    priority,
                    block,
                }
            }
            _ => unreachable!(),
        }
    }
}
