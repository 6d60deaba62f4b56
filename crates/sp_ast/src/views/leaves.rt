// Views of names, texts, numbers and paths.
ghost use Rattle.std.specs.Prelude.{◌≡◌, []};
ghost use Rattle.sp_ast.specs.Trees.{span_of, tree};
ghost use Rattle.sp_ast.specs.declared.forms.Form.TheVariants as form_is;

use crate::forms::Form;
use crate::kinds::{HookNameKind, NameKind, NumberKind, PathKind, StringKind};
use crate::refs::{Members, Ref};
use sp_words::HookName;

impl<'a> Ref<'a, NameKind> {
    /// How the name is written.
    #[tactic(auto, using(crate::proofs::Several::no_parts))]
    pub fn text(&self) -> &'a str
        ensures { self.now ≡ tree (form_is.Name result.now) (span_of self.now) [] }
    {
        let (form, _) = self.alternative();
        match form {
            Form::Name(text) => text.as_str(),
            _ => unreachable!(),
        }
    }
}

impl<'a> Ref<'a, StringKind> {
    /// What stands between the quotes, its escapes decoded.
    #[tactic(auto, using(crate::proofs::Several::no_parts))]
    pub fn text(&self) -> &'a str
        ensures { self.now ≡ tree (form_is.String result.now) (span_of self.now) [] }
    {
        let (form, _) = self.alternative();
        match form {
            Form::String(text) => text.as_str(),
            _ => unreachable!(),
        }
    }
}

impl<'a> Ref<'a, NumberKind> {
    /// The number.
    #[tactic(auto, using(crate::proofs::Several::no_parts))]
    pub fn value(&self) -> u64
        ensures { self.now ≡ tree (form_is.Number result) (span_of self.now) [] }
    {
        let (form, _) = self.alternative();
        match form {
            Form::Number(n) => *n,
            _ => unreachable!(),
        }
    }
}

impl<'a> Ref<'a, HookNameKind> {
    /// Which hook it names.
    #[tactic(auto, using(crate::proofs::Several::no_parts))]
    pub fn name(&self) -> HookName
        ensures { self.now ≡ tree (form_is.HookName result) (span_of self.now) [] }
    {
        let (form, _) = self.alternative();
        match form {
            Form::HookName(name) => *name,
            _ => unreachable!(),
        }
    }
}

impl<'a> Ref<'a, PathKind> {
    /// The names that `::` joins.
    pub fn names(&self) -> Members<'a, NameKind>
        ensures { self.now ≡ tree form_is.Path (span_of self.now) result }
    {
        let (form, parts) = self.alternative();
        match form {
            Form::Path => Members::new(parts),
            _ => unreachable!(),
        }
    }
}
