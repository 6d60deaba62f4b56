// The types that are written, and which declarations they name.
ghost use Rattle.std.specs.Prelude.{◌≡◌, IfOk};
ghost use Rattle.sp_ast.specs.Trees.{trees};
ghost use Rattle.sp_types.specs.Types.{tys, made, none, more};
ghost use Rattle.sp_types.specs.declared.words.Maker.TheVariants as maker_is;
ghost use Rattle.sp_solver.specs.Told.{told};
ghost use Rattle.sp_names.specs.Types.{or_unknown, meaning_type, bitfield_word, whole_type, kept_type, type_in, types_in};
ghost use Rattle.sp_types.specs.Integers.{int_word};

use crate::names::Names;
use crate::sort::Meaning;
use sp_ast::{Members, Ref, TypeKind, TypeView};
use sp_base::{NoMemory, or_drop};
use sp_types::{Maker, Type, Word, int_word};
use std::alloc::Global;

/// The type of a declaration; `Unknown` where it has no answer.
fn known_type(known: &[Option<Type>], declaration: u32) -> Result<Type, NoMemory>
    ensures { IfOk result (λ t. t ≡ or_unknown (told known.now declaration)) }
{
    match known.get(declaration as usize) {
        Some(Some(found)) => found.copy(),
        _ => Ok(Type::word(Word::Unknown)),
    }
}

/// The type that a path to this meaning is.
pub(crate) fn meaning_type(known: &[Option<Type>], meaning: Meaning) -> Result<Type, NoMemory>
    ensures { IfOk result (λ t. t ≡ meaning_type (told known.now) meaning) }
{
    match meaning {
        Meaning::Declaration(declaration) => known_type(known, declaration),
        Meaning::LibraryEnum(number) => Ok(Type::word(Word::Enum(number))),
        Meaning::Decoder => Ok(Type::word(Word::Decoder)),
        Meaning::Label { .. } | Meaning::Nothing(_) => Ok(Type::word(Word::Unknown)),
    }
}

fn bitfield_type(number: Option<u32>) -> Type
    ensures { result ≡ bitfield_word number }
{
    match number {
        Some(number) => Type::word(Word::Bitfield(number)),
        None => Type::word(Word::Unknown),
    }
}

fn made_of_one(alloc: Global, maker: Maker, part: Type) -> Result<Type, NoMemory>
    ensures { IfOk result (λ t. t ≡ made maker (more part none)) }
{
    let mut parts = Vec::with_capacity(alloc, 1)?;
    parts.push(part)?;
    Ok(Type::made(alloc, maker, parts)?)
}

fn made_of_two(alloc: Global, maker: Maker, first: Type, second: Type) -> Result<Type, NoMemory>
    ensures { IfOk result (λ t. t ≡ made maker (more first (more second none))) }
{
    let mut parts = Vec::with_capacity(alloc, 2)?;
    parts.push(first)?;
    parts.push(second)?;
    Ok(Type::made(alloc, maker, parts)?)
}

/// A type, if it may stand inside another one.
fn kept_type(t: Type) -> Type
    ensures { result ≡ kept_type t }
{
    if t.is_known() && t.is_plain() {
        t
    } else {
        Type::word(Word::Unknown)
    }
}

fn vector_of(alloc: Global, part: Type) -> Result<Type, NoMemory>
    ensures { IfOk result (λ t. t ≡ whole_type maker_is.Vector (more part none)) }
{
    Ok(kept_type(made_of_one(alloc, Maker::Vector, part)?))
}

fn set_of(alloc: Global, part: Type) -> Result<Type, NoMemory>
    ensures { IfOk result (λ t. t ≡ whole_type maker_is.Set (more part none)) }
{
    if part.is_known() && part.is_key() {
        made_of_one(alloc, Maker::Set, part)
    } else {
        drop(part);
        Ok(Type::word(Word::Unknown))
    }
}

fn map_of(alloc: Global, key: Type, value: Type) -> Result<Type, NoMemory>
    ensures { IfOk result (λ t. t ≡ whole_type maker_is.Map (more key (more value none))) }
{
    if key.is_known() && value.is_known() && key.is_key() && value.is_plain() {
        made_of_two(alloc, Maker::Map, key, value)
    } else {
        drop(key);
        drop(value);
        Ok(Type::word(Word::Unknown))
    }
}

impl<'a> Names<'a> {
    /// The type that a tree of a type is in a module, where `known` has the types of type declarations by their numbers. A
    /// unit or an enum that is not the whole type of a declaration is unknown, and so is what names no type, and what holds a
    /// type that is unknown or can't stand in it. A type of more parts than a type may have is answered as want of memory.
    #[cycle(type_in)]
    pub fn type_in(
        &self,
        alloc: Global,
        known: &[Option<Type>],
        owner: u32,
        tree: &Ref<'_, TypeKind>,
    ) -> Result<Type, NoMemory>
        ensures { IfOk result (λ t. t ≡ type_in self.now (told known.now) owner tree.now) }
    {
        match tree.view() {
            TypeView::Path(path) => meaning_type(known, self.means(known, owner, &path)),
            TypeView::Bool => Ok(Type::word(Word::Bool)),
            TypeView::Bytes => Ok(Type::word(Word::Bytes)),
            TypeView::String => Ok(Type::word(Word::String)),
            TypeView::Void => Ok(Type::word(Word::Void)),
            TypeView::Int(word) => Ok(Type::word(int_word(word))),
            TypeView::Tuple(members) => {
                let parts = self.types_in(alloc, known, owner, members)?;
                Ok(kept_type(Type::made(alloc, Maker::Tuple, parts)?))
            }
            TypeView::Vector(element) => {
                let part = self.type_in(alloc, known, owner, &element)?;
                vector_of(alloc, part)
            }
            TypeView::Set(element) => {
                let part = self.type_in(alloc, known, owner, &element)?;
                set_of(alloc, part)
            }
            TypeView::Map { key, value } => {
                let key = self.type_in(alloc, known, owner, &key)?;
                let value = or_drop!(self.type_in(alloc, known, owner, &value); key);
                map_of(alloc, key, value)
            }
            TypeView::Bitfield { .. } => {
                Ok(bitfield_type(self.bitfield_number(owner, tree.span().from)))
            }
            TypeView::Enum(_) | TypeView::Unit(_) => Ok(Type::word(Word::Unknown)),
        }
    }

    #[cycle(type_in)]
    fn types_in(
        &self,
        alloc: Global,
        known: &[Option<Type>],
        owner: u32,
        members: Members<'_, TypeKind>,
    ) -> Result<Vec<Type>, NoMemory>
        ensures { IfOk result (λ v. tys v.items
            ≡ types_in self.now (told known.now) owner (trees members.entry)) }
    {
        let mut parts = Vec::new(alloc);
        for member in members {
            parts.push(self.type_in(alloc, known, owner, &member)?)?;
        }
        Ok(parts)
    }
}
