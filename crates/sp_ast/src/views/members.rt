// The parts of a tree by what its alternative asks for.
ghost use Rattle.std.specs.Prelude.{◌≡◌, ◌∷◌, [], true};
ghost use Rattle.sp_ast.specs.Trees.{Tree, in_row, trees};
ghost use Rattle.sp_ast.specs.Groups.{fits};
ghost use Rattle.sp_ast.specs.Slots.{fill};
ghost use Rattle.sp_ast.specs.Views.{optional_tree, first_fits};
ghost use Rattle.sp_ast.specs.declared.groups.Sort.{Sort};
ghost use Rattle.sp_ast.specs.declared.groups.Sort.TheVariants as sort_is;
ghost use Rattle.sp_ast.specs.declared.groups.Slot.TheVariants as slot_is;

use crate::lent::{Level, Parts, TreeRef};
use crate::refs::{Members, Ref};
use crate::whole::Kind;

/// What a part of a tree is read as.
pub(crate) trait Member<'a> {
    /// what may stand there
    ghost sort: { Sort };

    /// the tree that stands there
    ghost stands: { Self → Tree };

    /// The part.
    fn read(tree: TreeRef<'a>) -> Self
        requires { fits sort tree ≡ true }
        ensures { stands result ≡ tree.entry };
}

impl<'a, K: Kind> Member<'a> for Ref<'a, K> {
    ghost sort = { sort_is.One K.group };

    ghost stands = { λ t. t };

    fn read(tree: TreeRef<'a>) -> Ref<'a, K> {
        Ref::new(tree)
    }
}

impl<'a, K: Kind> Member<'a> for Option<Ref<'a, K>> {
    ghost sort = { sort_is.Optional K.group };

    ghost stands = { optional_tree };

    fn read(tree: TreeRef<'a>) -> Option<Ref<'a, K>> {
        match tree.level() {
            Level::Absent => None,
            Level::Row(_) | Level::Of(..) => Some(Ref::new(tree)),
        }
    }
}

impl<'a, K: Kind> Member<'a> for Members<'a, K> {
    ghost sort = { sort_is.Rows K.group };

    ghost stands = { in_row };

    fn read(tree: TreeRef<'a>) -> Members<'a, K> {
        match tree.level() {
            Level::Row(parts) => Members::new(parts),
            Level::Absent | Level::Of(..) => unreachable!(),
        }
    }
}

/// The first part, and those behind it.
fn first<'a, A: Member<'a>>(parts: &Parts<'a>) -> (A, Parts<'a>)
    requires { first_fits A.sort parts.now ≡ true }
    ensures { parts.now ≡ A.stands result.0 ∷ result.1 }
{
    match parts.split_first() {
        Some((part, others)) => (A::read(part), others),
        None => unreachable!(),
    }
}

/// The only part.
#[tactic(auto, using(crate::proofs::Several::first_part, crate::proofs::Several::other_parts, crate::proofs::Several::no_parts))]
pub(crate) fn one<'a, A: Member<'a>>(parts: &Parts<'a>) -> A
    requires { fill (slot_is.Part A.sort ∷ []) (trees parts.now) ≡ true }
    ensures { parts.now ≡ A.stands result ∷ [] }
{
    let (a, _) = first(parts);
    a
}

/// The two parts.
#[tactic(auto, using(crate::proofs::Several::first_part))]
pub(crate) fn two<'a, A: Member<'a>, B: Member<'a>>(parts: &Parts<'a>) -> (A, B)
    requires { fill (slot_is.Part A.sort ∷ slot_is.Part B.sort ∷ []) (trees parts.now) ≡ true }
    ensures { parts.now ≡ A.stands result.0 ∷ B.stands result.1 ∷ [] }
{
    let (a, others) = first(parts);
    (a, one(&others))
}

/// The three parts.
#[tactic(auto, using(crate::proofs::Several::first_part))]
pub(crate) fn three<'a, A: Member<'a>, B: Member<'a>, C: Member<'a>>(parts: &Parts<'a>) -> (A, B, C)
    requires { fill (slot_is.Part A.sort ∷ slot_is.Part B.sort ∷ slot_is.Part C.sort ∷ [])
        (trees parts.now) ≡ true }
    ensures { parts.now ≡ A.stands result.0 ∷ B.stands result.1 ∷ C.stands result.2 ∷ [] }
{
    let (a, others) = first(parts);
    let (b, c) = two(&others);
    (a, b, c)
}

/// The four parts.
#[tactic(auto, using(crate::proofs::Several::first_part))]
pub(crate) fn four<'a, A: Member<'a>, B: Member<'a>, C: Member<'a>, D: Member<'a>>(
    parts: &Parts<'a>,
) -> (A, B, C, D)
    requires { fill (slot_is.Part A.sort ∷ slot_is.Part B.sort ∷ slot_is.Part C.sort
        ∷ slot_is.Part D.sort ∷ []) (trees parts.now) ≡ true }
    ensures { parts.now ≡ A.stands result.0 ∷ B.stands result.1 ∷ C.stands result.2
        ∷ D.stands result.3 ∷ [] }
{
    let (a, others) = first(parts);
    let (b, c, d) = three(&others);
    (a, b, c, d)
}

/// The seven parts: three and four.
#[tactic(auto, using(crate::proofs::Several::first_part))]
pub(crate) fn seven<'a, A, B, C, D, E, F, G>(parts: &Parts<'a>) -> ((A, B, C), (D, E, F, G))
where
    A: Member<'a>,
    B: Member<'a>,
    C: Member<'a>,
    D: Member<'a>,
    E: Member<'a>,
    F: Member<'a>,
    G: Member<'a>,
    requires { fill (slot_is.Part A.sort ∷ slot_is.Part B.sort ∷ slot_is.Part C.sort
        ∷ slot_is.Part D.sort ∷ slot_is.Part E.sort ∷ slot_is.Part F.sort
        ∷ slot_is.Part G.sort ∷ [])
        (trees parts.now) ≡ true }
    ensures { parts.now ≡ A.stands result.0.0 ∷ B.stands result.0.1 ∷ C.stands result.0.2
        ∷ D.stands result.1.0 ∷ E.stands result.1.1 ∷ F.stands result.1.2
        ∷ G.stands result.1.3 ∷ [] }
{
    let (a, behind_a) = first(parts);
    let (b, behind_b) = first(&behind_a);
    let (c, behind_c) = first(&behind_b);
    ((a, b, c), four(&behind_c))
}
