// Types: words, and what is made of types. A copy shares the parts.
ghost use Rattle.std.specs.Prelude.{◌≡◌, ◌≤◌, ◌<◌, IfSome, IfNone};
ghost use Rattle.std.specs.List.{list_all};
ghost use Rattle.sp_types.specs.Types.{tys, all_written, is_known, is_plain, most_written};

use crate::words::{Maker, Word};
use sp_base::{NoMemory, ResourceError};
use std::alloc::Global;
use std::marker::Model;
use std::rc::Rc;

/// The most parts of a type that is written out, itself among them: aliases can build towers of types by name, and
/// whatever is compared, printed or dropped has to stay short.
pub const MOST_WRITTEN: u16 = 4096;

/// A type of at most [`MOST_WRITTEN`] parts. Clauses see the type.
#[cycle(ty)]
#[derive(Drop)]
pub struct Type {
    node: Node,
    /// How many parts it has where it is written out.
    size: u16,
    /// Whether nothing in it is unknown.
    whole: bool,
    /// Whether it is plain.
    simple: bool,
}

/// One level of a type.
#[cycle(ty)]
#[derive(Drop)]
pub(crate) enum Node {
    Word(Word),
    Made(Maker, Rc<Vec<Type>>),
}

/// One level of a type, with its parts lent.
#[derive(Clone, Copy)]
pub enum Level<'a> {
    Word(Word),
    /// The members of a tuple, the element of a vector or a set, the key and the value of a map.
    Made(Maker, &'a [Type]),
}

impl Model for Type {
    ghost use Rattle.std.specs.Prelude.{◌≡◌, ◌≤◌};
    ghost use Rattle.std.specs.Coded.{codes};
    ghost use Rattle.sp_types.specs.Types.{Ty};
    ghost use Rattle.sp_types.specs.inside.Codes.{ty_size, coded_ty};

    ghost Value = { Ty };

    ghost coded = { coded_ty (Prim.hlevel codes) (Prim.hlevel codes) };

    ghost use Rattle.sp_types.specs.Views.{ty_of};
    ghost use Rattle.sp_types.specs.Types.{written, is_known, is_plain, most_written};

    ghost view = { λ t. ty_of t.node };

    ghost invariant = { λ t. (t.size ≡ written (ty_of t.node)) × (t.size ≤ most_written)
        × (t.whole ≡ is_known (ty_of t.node)) × (t.simple ≡ is_plain (ty_of t.node)) };

    ghost size = { ty_size };

    ghost use Rattle.std.proofs.Common.{arith};
    ghost use Rattle.sp_types.specs.inside.Falls.{deep-Node-le};

    ghost size_decreases = { λ t h. Prim.omega (arith, deep-Node-le t.node) };
}

/// How many parts types have that are written out, unless they are more than a type may have.
fn all_written(parts: &[Type]) -> Option<u16>
    ensures some { IfSome result (λ n. (n ≡ all_written (tys parts.now)) × (n < most_written)) }
    ensures none { IfNone result (most_written ≤ all_written (tys parts.now)) }
{
    let mut total: u16 = 0;
    for part in parts {
        total += part.written();
        if total >= MOST_WRITTEN {
            return None;
        }
    }
    Some(total)
}

fn are_known(parts: &[Type]) -> bool
    ensures { result ≡ list_all is_known parts.now }
{
    parts.iter().all(|part| part.is_known())
}

fn are_plain(parts: &[Type]) -> bool
    ensures { result ≡ list_all is_plain parts.now }
{
    parts.iter().all(|part| part.is_plain())
}

impl Type {
    ghost use Rattle.std.specs.Prelude.{◌≡◌, ◌≤◌, ◌<◌, ◌↔◌, IfOk, IsErrOf};
    ghost use Rattle.sp_base.specs.declared.resources.ResourceError.TheVariants.{LimitExceeded};
    ghost use Rattle.sp_types.specs.Types.{word, made, tys, written, is_known, is_plain, most_written};
    ghost use Rattle.sp_types.specs.Levels.{level_ty};

    /// A type without parts. Takes no memory.
    pub fn word(w: Word) -> Type
        ensures { result ≡ word w }
    {
        Type {
            node: Node::Word(w),
            size: 1,
            whole: w.is_known(),
            simple: w.is_plain(),
        }
    }

    /// A type made of types, unless it would have more than [`MOST_WRITTEN`] parts, which exceeds the limit.
    #[tactic(auto, using(crate::proofs::Lists::all_known, crate::proofs::Lists::all_plain))]
    pub fn made(alloc: Global, maker: Maker, parts: Vec<Type>) -> Result<Type, ResourceError>
        ensures made { IfOk result (λ t. t ≡ made maker (tys parts.items)) }
        ensures limit { IsErrOf result LimitExceeded
            ↔ (most_written < written (made maker (tys parts.items))) }
    {
        let Some(written) = all_written(&parts) else {
            drop(parts);
            return Err(ResourceError::LimitExceeded);
        };
        let whole = are_known(&parts);
        let simple = are_plain(&parts);
        Ok(Type {
            node: Node::Made(maker, Rc::new(alloc, parts)?),
            size: written + 1,
            whole,
            simple,
        })
    }

    /// The same type; its parts are shared.
    pub fn copy(&self) -> Result<Type, NoMemory>
        ensures { IfOk result (λ t. t ≡ self.now) }
    {
        let node = match &self.node {
            Node::Word(w) => Node::Word(*w),
            Node::Made(maker, parts) => Node::Made(*maker, parts.clone()?),
        };
        Ok(Type {
            node,
            size: self.size,
            whole: self.whole,
            simple: self.simple,
        })
    }

    /// Its first level. It copies nothing.
    pub fn level(&self) -> Level<'_>
        ensures { level_ty result ≡ self.now }
    {
        match &self.node {
            Node::Word(w) => Level::Word(*w),
            Node::Made(maker, parts) => Level::Made(*maker, parts.as_slice()),
        }
    }

    /// How many parts it has where it is written out, itself among them.
    pub fn written(&self) -> u16
        ensures exact { result ≡ written self.now }
        ensures most { result ≤ most_written }
    {
        self.size
    }

    /// Whether nothing in it is unknown. It looks at no part.
    pub fn is_known(&self) -> bool
        ensures { result ≡ is_known self.now }
    {
        self.whole
    }

    /// Whether its values can be compared, kept in variables and told: it is no unit, sink, iterator, regular expression
    /// or void, and has none inside. It looks at no part.
    pub fn is_plain(&self) -> bool
        ensures { result ≡ is_plain self.now }
    {
        self.simple
    }
}
