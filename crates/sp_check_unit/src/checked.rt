// What a list of modules is in which no rule is broken.
ghost use Rattle.std.specs.Prelude.{◌≡◌, ◌<◌, IsTrue, Some, None, IfSome, length};
ghost use Rattle.sp_rules.specs.Least.{IsLeast};
ghost use Rattle.sp_type_answers.specs.NameRules.{IsTyped};
ghost use Rattle.sp_unbuilt.specs.First.{IsFirst};
ghost use Rattle.sp_unbuilt.specs.Places.{IsUnbuilt};
ghost use Rattle.sp_unbuilt.specs.Unbuilt.{first_unbuilt};
ghost use Rattle.sp_type_answers.specs.Rules.{Breaks};
ghost use Rattle.sp_check_unit.specs.Parsers.{have_numbers};
ghost use Rattle.sp_choose.specs.Choices.{chosen};
ghost use Rattle.sp_choose.specs.Laws.{IsChoice};

use sp_ast::Module;
use sp_base::Diag;
use sp_choose::chosen;
use sp_typed_units::{Typed, Unit};
use sp_unbuilt::{Texts, unbuilt};

/// A list of modules in which no rule is broken, and what is typed of it.
#[derive(Drop)]
pub struct Checked<'a> {
    pub(crate) modules: &'a [Module],
    pub(crate) typed: Typed,
    ghost is: { ∥ IsTyped modules.now typed ∥₁ },
    ghost whole: { IsLeast (Breaks modules.now) None },
    ghost numbered: { IsTrue (have_numbers typed.units) },
}

/// Whether there are so few units that each has a number.
pub(crate) fn have_numbers(units: &[Unit]) -> bool
    ensures { result ≡ have_numbers units.now }
{
    units.len() <= u32::MAX as usize
}

/// The number of a unit that stands at a place.
fn number_at(units: &[Unit], place: Option<usize>) -> Option<u32>
    requires few { IsTrue (have_numbers units.now) }
    requires inside { IfSome place (λ n. n < length units.now) }
    ensures { result ≡ place }
{
    match place {
        Some(n) => Some(n as u32),
        None => None,
    }
}

impl<'a> Checked<'a> {
    /// The modules, in the order of the list.
    pub fn modules(&self) -> &'a [Module]
        ensures same { result.now ≡ self.now.modules.now }
        ensures whole { IsLeast (Breaks result.now) None }
    {
        self.modules
    }

    /// What is typed of the list.
    pub fn typed(&self) -> &Typed
        ensures same { result.now ≡ self.now.typed }
        ensures is { ∥ IsTyped self.now.modules.now result.now ∥₁ }
    {
        &self.typed
    }

    /// What is typed of the list, moved.
    pub fn into_typed(self) -> Typed
        ensures { result ≡ self.entry.typed }
    {
        self.typed
    }

    /// The first construct of the list, by module and place, that isn't built yet, with the kind `OutOfProfile`; none exactly where
    /// all is built. `texts` has the texts from which the modules were read, since a tree doesn't know where the word `if` or the
    /// arrow of a field stands. Takes no memory.
    pub fn unbuilt<T: Texts>(&self, texts: &T) -> Option<Diag>
        ensures exact { result ≡ first_unbuilt (T.texts texts.now) self.now.modules.now self.now.typed }
        ensures first { IsFirst (IsUnbuilt (T.texts texts.now) self.now.modules.now self.now.typed) result }
    {
        unbuilt(texts, self.modules, &self.typed)
    }

    /// The number of the parser of a path, as `M::U`: a public unit without parameters that is no filter. Takes no memory.
    pub fn parser(&self, path: &str) -> Option<u32>
        ensures exact { result ≡ chosen (Some path.now) self.now.typed.units }
        ensures choice { IsChoice (Some path.now) self.now.typed.units result }
    {
        let units = self.typed.units.as_slice();
        number_at(units, chosen(Some(path), units))
    }

    /// The number of the only parser, where there is exactly one. Takes no memory.
    pub fn only_parser(&self) -> Option<u32>
        ensures exact { result ≡ chosen None self.now.typed.units }
        ensures choice { IsChoice None self.now.typed.units result }
    {
        let units = self.typed.units.as_slice();
        number_at(units, chosen(None, units))
    }
}
