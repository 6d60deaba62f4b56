// Views of declarations and modules.
ghost use Rattle.std.specs.Prelude.{◌≡◌, true};
ghost use Rattle.sp_base.specs.declared.places.Span.{Span};
ghost use Rattle.sp_ast.specs.Trees.{span_of, tree, trees};
ghost use Rattle.sp_ast.specs.Slots.{slots, fill};
ghost use Rattle.sp_ast.specs.DeclViews.{decl_tree, module_tree};
ghost use Rattle.sp_ast.specs.declared.forms.Form.TheVariants as form_is;

use super::members::{four, one, three, two};
use crate::forms::{DeclForm, Form};
use crate::kinds::{
    BlockKind, DeclKind, HookKind, HookNameKind, NameKind, ParameterKind, PathKind, StringKind,
};
use crate::lent::Parts;
use crate::refs::{Members, Ref};
use crate::whole::{ExprKind, ModuleKind, TypeKind};

/// A declaration.
#[derive(Drop)]
pub enum DeclView<'a> {
    /// `import M;`
    Import(Ref<'a, NameKind>),
    /// `%byte-order = path;`
    ByteOrder(Ref<'a, PathKind>),
    /// `%spicy-version = "text";`
    Version(Ref<'a, StringKind>),
    /// `on U::field { .. }`, `on M::U::%init { .. }`
    On {
        path: Ref<'a, PathKind>,
        /// Which hook of the unit that the path names, unless the path names what it hangs on.
        hook_name: Option<Ref<'a, HookNameKind>>,
        hook: Ref<'a, HookKind>,
    },
    /// `type T = ..;`
    Type {
        public: bool,
        name: Ref<'a, NameKind>,
        type_: Ref<'a, TypeKind>,
    },
    /// `const C: T = e;`
    Const {
        public: bool,
        name: Ref<'a, NameKind>,
        type_: Option<Ref<'a, TypeKind>>,
        value: Ref<'a, ExprKind>,
    },
    /// `function f(x: T): U { .. }`
    Function {
        public: bool,
        name: Ref<'a, NameKind>,
        parameters: Members<'a, ParameterKind>,
        /// What it returns, unless that is nothing.
        returns: Option<Ref<'a, TypeKind>>,
        body: Ref<'a, BlockKind>,
    },
}

/// A module.
#[derive(Drop)]
pub struct ModuleView<'a> {
    pub name: Ref<'a, NameKind>,
    pub declarations: Members<'a, DeclKind>,
}

impl<'a> Ref<'a, DeclKind> {
    /// What is declared, and its parts.
    pub fn view(&self) -> DeclView<'a>
        ensures { decl_tree (span_of self.now) result ≡ self.now }
    {
        let (form, parts) = self.alternative();
        match form {
            Form::Decl(form) => decl_view(*form, &parts),
            _ => unreachable!(),
        }
    }
}

/// A declaration of this alternative with these parts.
fn decl_view<'a>(form: DeclForm, parts: &Parts<'a>) -> DeclView<'a>
    requires { fill (slots (form_is.Decl form)) (trees parts.now) ≡ true }
    ensures { (span : Span) → decl_tree span result ≡ tree (form_is.Decl form) span parts.now }
{
    match form {
        DeclForm::Import => DeclView::Import(one(parts)),
        DeclForm::ByteOrder => DeclView::ByteOrder(one(parts)),
        DeclForm::Version => DeclView::Version(one(parts)),
        DeclForm::On => {
            let (path, hook_name, hook) = three(parts);
            DeclView::On {
                path,
                hook_name,
                hook,
            }
        }
        DeclForm::Type { public } => {
            let (name, type_) = two(parts);
            DeclView::Type {
                public,
                name,
                type_,
            }
        }
        DeclForm::Const { public } => {
            let (name, type_, value) = three(parts);
            DeclView::Const {
                public,
                name,
                type_,
                value,
            }
        }
        DeclForm::Function { public } => {
            let (name, parameters, returns, body) = four(parts);
            DeclView::Function {
                public,
                name,
                parameters,
                returns,
                body,
            }
        }
    }
}

impl<'a> Ref<'a, ModuleKind> {
    /// Its members, by their names.
    pub fn view(&self) -> ModuleView<'a>
        ensures { module_tree (span_of self.now) result ≡ self.now }
    {
        let (form, parts) = self.alternative();
        match form {
            Form::Module => {
                let (name, declarations) = two(&parts);
                ModuleView { name, declarations }
            }
            _ => unreachable!(),
        }
    }
}
