// The first construct of a list of modules that isn't built.
ghost use Rattle.std.specs.Prelude.{◌≡◌, ℕ, List};
ghost use Rattle.sp_unbuilt.specs.First.{noted, IsFirst};
ghost use Rattle.sp_unbuilt.specs.Places.{IsUnbuilt};
ghost use Rattle.sp_unbuilt.specs.Unbuilt.{tests_from, first_unbuilt};

use crate::kinds::note_units;
use crate::laws::first_of_unbuilt;
use crate::next::saturated;
use crate::trees::note_tree;
use sp_ast::Module;
use sp_base::Diag;
use sp_typed_units::Typed;

/// The texts of the modules of a list.
pub trait Texts {
    /// The text of the module with a number.
    ghost texts: { Self → ℕ → List ℕ };

    /// The text of the module with a number, from 0. Takes no memory.
    fn text(&self, number: u32) -> &[u8]
        ensures { result.now ≡ texts self.now number };
}

fn note_modules<T: Texts>(texts: &T, modules: &[Module], first: &mut Option<Diag>)
    ensures { first.new ≡ noted first.old (tests_from (T.texts texts.now) 0 modules.now) }
{
    for m in 0..modules.len() {
        let number = saturated(m);
        note_tree(texts.text(number), number, &modules[m].lend(), first);
    }
}

/// The first of all that is noted.
#[tactic(auto, using(crate::proofs::Noting::noted_more))]
fn first_in<T: Texts>(texts: &T, modules: &[Module], typed: &Typed) -> Option<Diag>
    ensures { result ≡ first_unbuilt (T.texts texts.now) modules.now typed.now }
{
    let mut first = None;
    note_modules(texts, modules, &mut first);
    note_units(typed.units.as_slice(), &mut first);
    first
}

/// The first construct of a list of modules, by module and place, that is written in it and isn't built yet, on a slice of text
/// that begins at its first token, with the kind `OutOfProfile`; none exactly where all is built. `texts` has the texts from which
/// the modules were read, and `typed` what is typed of them. It takes no memory; its time is that of the modules' size, and its
/// calls stand as high as their trees.
pub fn unbuilt<T: Texts>(texts: &T, modules: &[Module], typed: &Typed) -> Option<Diag>
    ensures exact { result ≡ first_unbuilt (T.texts texts.now) modules.now typed.now }
    ensures first { IsFirst (IsUnbuilt (T.texts texts.now) modules.now typed.now) result }
{
    first_of_unbuilt();
    first_in(texts, modules, typed)
}
