// What hooks see of the fields on which they hang.
ghost use Rattle.std.specs.Prelude.{◌≡◌, ◌&&◌, ℕ, true, false, [], List, None, Some, if◌then◌else◌, map, option_copied, IfOk, OnOk};
ghost use Rattle.sp_types.specs.Types.{Ty};
ghost use Rattle.sp_type_modules.specs.Taken.{differ};
ghost use Rattle.sp_type_hook_order.specs.Keys.{are_same};
ghost use Rattle.sp_type_hooks.specs.Fields.{hangs, earlier, if_marked, added, holder_types, holds_container, site_mark, first_stored, elements_of, one_of, seen_of};
ghost use Rattle.sp_type_hooks.specs.inside.Tables.{has_mark, type_told, is_another, elements_told, Tells};

use crate::field::{FieldType, holder_types, holds_container};
use crate::marks::{Mark, Marks, asked, site_mark};
use indexmap::IndexMap;
use sp_base::{NoMemory, or_drop};
use sp_type_context::Context;
use sp_type_fields::Constants;
use sp_type_hook_order::HookKey;
use sp_type_hook_rows::Site;
use sp_type_modules::{Tables, differ};
use sp_types::Type;
use std::alloc::Global;

/// Types by the marks of fields.
#[derive(Drop)]
pub(crate) struct TypeTable {
    pub(crate) of: IndexMap<Mark, Type>,
}

impl TypeTable {
    fn new(alloc: Global) -> TypeTable
        ensures { (x : ℕ × ℕ × ℕ) → type_told result x ≡ None }
    {
        TypeTable {
            of: IndexMap::new(alloc),
        }
    }

    fn get(&self, mark: Mark) -> Option<&Type>
        ensures { option_copied result ≡ type_told self.now mark }
    {
        self.of.get(&mark)
    }

    /// Puts a type, unless another one of its mark stands there.
    fn put(&mut self, mark: Mark, ty: Type) -> Result<(), NoMemory>
        ensures { OnOk result ((x : ℕ × ℕ × ℕ) → type_told self.new x
            ≡ earlier (type_told self.old x) (if are_same mark x then Some ty else None)) }
    {
        if self.of.contains_key(&mark) {
            drop(ty);
            return Ok(());
        }
        drop(self.of.insert(mark, ty)?);
        Ok(())
    }
}

/// What hooks see of the fields on which they hang.
#[derive(Drop)]
pub struct FieldTypes {
    /// What fields store.
    pub(crate) stored: TypeTable,
    /// What an element is of the first field that has brackets.
    pub(crate) elements: TypeTable,
    /// Where another one has elements of another type.
    pub(crate) mixed: Marks,
}

/// Whether the type that stands at a mark is another one, where both are known.
fn is_another(table: &TypeTable, mark: Mark, ty: &Type) -> bool
    ensures { result ≡ is_another (type_told table.now mark) ty.now }
{
    match table.get(mark) {
        Some(first) => differ(first, ty),
        None => false,
    }
}

/// A mark, if the type that stands at it is another one than this.
fn another_at(table: &TypeTable, mark: Mark, ty: &Type) -> Option<Mark>
    ensures { (x : ℕ × ℕ × ℕ) → hangs x result
        ≡ (is_another (type_told table.now mark) ty.now && are_same x mark) }
{
    if is_another(table, mark, ty) {
        Some(mark)
    } else {
        None
    }
}

/// The mark of a field with brackets, if one stands at a place of hooks.
fn container_mark(site: &Site<'_>, mark: Mark) -> Option<Mark>
    ensures { (x : ℕ × ℕ × ℕ) → hangs x result ≡ (holds_container site.now.holder && are_same x mark) }
{
    if holds_container(site) {
        Some(mark)
    } else {
        None
    }
}

/// Notes the types of a field on which hooks hang.
fn put_field<C: Context, V: Constants>(
    alloc: Global,
    table: &mut FieldTypes,
    contexts: &[C],
    constants: &V,
    site: &Site<'_>,
    mark: Mark,
) -> Result<(), NoMemory>
    ensures stored { OnOk result ((x : ℕ × ℕ × ℕ) → type_told table.new.stored x
        ≡ earlier (type_told table.old.stored x) (if are_same mark x
        then Some (holder_types (map C.around contexts.now) (V.values constants.now)
        site.now.unit site.now.holder).stored else None)) }
    ensures elements { OnOk result ((x : ℕ × ℕ × ℕ) (ts : List Ty) → elements_told table.new x ts
        ≡ elements_told table.old x (added (holds_container site.now.holder && are_same x mark)
        (holder_types (map C.around contexts.now) (V.values constants.now) site.now.unit
        site.now.holder).element ts)) }
{
    let types = holder_types(alloc, contexts, constants, site)?;
    let FieldType { stored, element } = types;
    or_drop!(table.stored.put(mark, stored); element);
    table.put_element(container_mark(site, mark), element)?;
    Ok(())
}

/// Notes the types of a field, if hooks hang on it.
#[tactic(auto, using(crate::proofs::Marked::unasked, crate::proofs::Marked::nothing_behind, crate::proofs::Marked::no_element, crate::proofs::Marked::no_mark))]
fn note<C: Context, V: Constants>(
    alloc: Global,
    table: &mut FieldTypes,
    wanted: &Marks,
    contexts: &[C],
    constants: &V,
    site: &Site<'_>,
    mark: Option<Mark>,
) -> Result<(), NoMemory>
    ensures stored { OnOk result ((x : ℕ × ℕ × ℕ) → has_mark wanted.now x ≡ true
        → type_told table.new.stored x ≡ earlier (type_told table.old.stored x) (if_marked x mark
        (holder_types (map C.around contexts.now) (V.values constants.now) site.now.unit
        site.now.holder).stored)) }
    ensures elements { OnOk result ((x : ℕ × ℕ × ℕ) (ts : List Ty) → has_mark wanted.now x ≡ true
        → elements_told table.new x ts ≡ elements_told table.old x
        (added (holds_container site.now.holder && hangs x mark)
        (holder_types (map C.around contexts.now) (V.values constants.now) site.now.unit
        site.now.holder).element ts)) }
{
    match mark {
        Some(mark) => {
            if wanted.has(mark) {
                put_field(alloc, table, contexts, constants, site, mark)
            } else {
                Ok(())
            }
        }
        None => Ok(()),
    }
}

/// What hooks see of the fields on which they hang, where these are the fields on which some do.
fn gathered<C: Context, V: Constants>(
    alloc: Global,
    tables: &Tables<'_>,
    sites: &[Site<'_>],
    wanted: &Marks,
    contexts: &[C],
    constants: &V,
) -> Result<FieldTypes, NoMemory>
    ensures stored { IfOk result (λ t. (x : ℕ × ℕ × ℕ) → has_mark wanted.now x ≡ true
        → type_told t.stored x ≡ first_stored tables.now.0 (map C.around contexts.now)
        (V.values constants.now) x sites.now) }
    ensures elements { IfOk result (λ t. (x : ℕ × ℕ × ℕ) → has_mark wanted.now x ≡ true
        → elements_told t x [] ≡ one_of (elements_of tables.now.0 (map C.around contexts.now)
        (V.values constants.now) x sites.now)) }
{
    let mut types = FieldTypes::empty(alloc);
    for i in 0..sites.len() {
        let site = &sites[i];
        let mark = site_mark(tables, site)?;
        note(alloc, &mut types, wanted, contexts, constants, site, mark)?;
    }
    Ok(types)
}

impl FieldTypes {
    #[tactic(auto, using(crate::proofs::Marked::fresh))]
    fn empty(alloc: Global) -> FieldTypes
        ensures stored { (x : ℕ × ℕ × ℕ) → type_told result.stored x ≡ None }
        ensures elements { (x : ℕ × ℕ × ℕ) (ts : List Ty) → elements_told result x ts ≡ one_of ts }
    {
        FieldTypes {
            stored: TypeTable::new(alloc),
            elements: TypeTable::new(alloc),
            mixed: Marks::new(alloc),
        }
    }

    /// Notes what an element is of a field of a mark.
    #[tactic(auto, using(crate::proofs::Marked::one_element))]
    fn put_at(&mut self, mark: Mark, ty: Type) -> Result<(), NoMemory>
        ensures stored { OnOk result ((x : ℕ × ℕ × ℕ) → type_told self.new.stored x
            ≡ type_told self.old.stored x) }
        ensures elements { OnOk result ((x : ℕ × ℕ × ℕ) (ts : List Ty) → elements_told self.new x ts
            ≡ elements_told self.old x (added (are_same x mark) ty ts)) }
    {
        let another = another_at(&self.elements, mark, &ty);
        self.mixed.add(another)?;
        self.elements.put(mark, ty)?;
        Ok(())
    }

    /// Notes what an element is of a field, if it has brackets.
    fn put_element(&mut self, mark: Option<Mark>, ty: Type) -> Result<(), NoMemory>
        ensures stored { OnOk result ((x : ℕ × ℕ × ℕ) → type_told self.new.stored x
            ≡ type_told self.old.stored x) }
        ensures elements { OnOk result ((x : ℕ × ℕ × ℕ) (ts : List Ty) → elements_told self.new x ts
            ≡ elements_told self.old x (added (hangs x mark) ty ts)) }
    {
        match mark {
            Some(mark) => self.put_at(mark, ty),
            None => {
                drop(ty);
                Ok(())
            }
        }
    }

    /// What the hooks of these keys see of the fields on which they hang. `contexts` are what stands round the expressions of
    /// each unit, by its number, with `self`, parameters and members. Only fields on which hooks hang are typed, so it takes
    /// time that grows with their text, and with how many fields and hooks there are.
    pub fn new<C: Context, V: Constants>(
        alloc: Global,
        tables: &Tables<'_>,
        sites: &[Site<'_>],
        keys: &[Option<HookKey>],
        contexts: &[C],
        constants: &V,
    ) -> Result<FieldTypes, NoMemory>
        ensures { IfOk result (Tells keys.now (seen_of tables.now.0 (map C.around contexts.now)
            (V.values constants.now) sites.now)) }
    {
        let wanted = asked(alloc, keys)?;
        let types = gathered(alloc, tables, sites, &wanted, contexts, constants);
        drop(wanted);
        types
    }

    /// What the first field of a mark stores.
    pub(crate) fn stored(&self, mark: Mark) -> Option<&Type>
        ensures { option_copied result ≡ type_told self.now.stored mark }
    {
        self.stored.get(mark)
    }

    /// What an element is of the fields of a mark that have brackets, if it is one type.
    #[tactic(auto, using(crate::proofs::Marked::alone, crate::proofs::Marked::mixed_none))]
    pub(crate) fn element(&self, mark: Mark) -> Option<&Type>
        ensures { option_copied result ≡ elements_told self.now mark [] }
    {
        if self.mixed.has(mark) {
            return None;
        }
        self.elements.get(mark)
    }
}
