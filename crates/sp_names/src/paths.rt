// What paths mean.
ghost use Rattle.std.specs.Prelude.{◌≡◌, Some};
ghost use Rattle.sp_solver.specs.Told.{told};
ghost use Rattle.sp_names.specs.Names.{enum_type, enum_of, own_enum, label_of, behind, in_scope, in_own, declared, visible, means, names_of, path_means};

use crate::names::Names;
use crate::sort::{Meaning, Scope};
use sp_ast::{Members, NameKind, PathKind, Ref};
use sp_types::{Level, Type, Word};

/// The number of the enum that a declaration is, through aliases, where these answers are known.
pub(crate) fn enum_at(known: &[Option<Type>], declaration: u32) -> Option<u32>
    ensures { result ≡ enum_type (told known.now declaration) }
{
    match known.get(declaration as usize) {
        Some(Some(found)) => match found.level() {
            Level::Word(Word::Enum(number)) => Some(number),
            _ => None,
        },
        _ => None,
    }
}

/// The number of the enum that something is.
fn enum_of(known: &[Option<Type>], meaning: Meaning) -> Option<u32>
    ensures { result ≡ enum_of (told known.now) meaning }
{
    match meaning {
        Meaning::Declaration(declaration) => enum_at(known, declaration),
        Meaning::LibraryEnum(number) => Some(number),
        _ => None,
    }
}

fn own_enum(known: &[Option<Type>], own: Option<u32>) -> Option<u32>
    ensures { result ≡ own_enum (told known.now) own }
{
    match own {
        Some(declaration) => enum_at(known, declaration),
        None => None,
    }
}

impl<'a> Names<'a> {
    /// The label of an enum.
    fn label_of(&self, owner: u32, name: &str) -> Option<Meaning>
        ensures { result ≡ label_of self.now (Some owner) name.now }
    {
        match self.label(owner, name) {
            Some(label) => Some(Meaning::Label { owner, label }),
            None => None,
        }
    }

    /// What names mean behind the second name of a path: only a label can follow, and nothing behind that.
    fn behind(
        &self,
        known: &[Option<Type>],
        meaning: Option<Meaning>,
        names: Members<'_, NameKind>,
    ) -> Meaning
        ensures { result ≡ behind self.now (told known.now) 1 meaning (names_of names.entry) }
    {
        let Some(found) = meaning else {
            return Meaning::Nothing(1);
        };
        let Some((name, others)) = names.split_first() else {
            return found;
        };
        let Some(owner) = enum_of(known, found) else {
            return Meaning::Nothing(2);
        };
        let Some(label) = self.label(owner, name.text()) else {
            return Meaning::Nothing(2);
        };
        if others.is_empty() {
            Meaning::Label { owner, label }
        } else {
            Meaning::Nothing(3)
        }
    }

    /// `A::x` and longer, where A is no own enum.
    fn in_scope(
        &self,
        known: &[Option<Type>],
        own: Option<u32>,
        scope: Option<Scope>,
        name: &str,
        others: Members<'_, NameKind>,
    ) -> Meaning
        ensures { result ≡ in_scope self.now (told known.now) own scope name.now
            (names_of others.entry) }
    {
        match (own, scope) {
            (_, Some(scope)) => self.behind(known, self.named_in(scope, name), others),
            (Some(_), None) => Meaning::Nothing(1),
            (None, None) => Meaning::Nothing(0),
        }
    }

    /// What a path of two names or more means.
    fn qualified(
        &self,
        known: &[Option<Type>],
        owner: u32,
        first: &str,
        second: &str,
        others: Members<'_, NameKind>,
    ) -> Meaning
        ensures { result ≡ in_own self.now (told known.now)
            (own_enum (told known.now) (declared self.now owner first.now))
            (declared self.now owner first.now) (visible self.now owner first.now)
            second.now (names_of others.entry) }
    {
        let own = self.declared(owner, first);
        match own_enum(known, own) {
            Some(number) => self.behind(known, self.label_of(number, second), others),
            None => self.in_scope(known, own, self.visible(owner, first), second, others),
        }
    }

    fn names_mean(
        &self,
        known: &[Option<Type>],
        owner: u32,
        names: Members<'_, NameKind>,
    ) -> Meaning
        ensures { result ≡ means self.now (told known.now) owner (names_of names.entry) }
    {
        let Some((first, others)) = names.split_first() else {
            return Meaning::Nothing(0);
        };
        let Some((second, others)) = others.split_first() else {
            return match self.declared(owner, first.text()) {
                Some(declaration) => Meaning::Declaration(declaration),
                None => Meaning::Nothing(0),
            };
        };
        self.qualified(known, owner, first.text(), second.text(), others)
    }

    /// What a path means in a module, where `known` has the types of type declarations by their numbers.
    pub fn means(&self, known: &[Option<Type>], owner: u32, path: &Ref<'_, PathKind>) -> Meaning
        ensures { result ≡ path_means self.now (told known.now) owner path.now }
    {
        self.names_mean(known, owner, path.names())
    }
}
