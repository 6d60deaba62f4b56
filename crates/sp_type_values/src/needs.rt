// What the value of each depends on.
ghost use Rattle.std.specs.Prelude.{◌≡◌, ◌++◌, length, slice_get, IfOk, OnOk};
ghost use Rattle.sp_ast.specs.Trees.{trees};
ghost use Rattle.sp_solver.specs.Told.{told};
ghost use Rattle.sp_names.specs.Declarations.{sort_at};
ghost use Rattle.sp_names.specs.Names.{path_means};
ghost use Rattle.sp_names.specs.Tables.{Each};
ghost use Rattle.sp_names.specs.Types.{one_or_none};
ghost use Rattle.sp_type_values.specs.Valued.{valued, declaration_needs, meaning_needs, needs_in, needs_among, needs_of, needs};
ghost use Rattle.sp_type_values.specs.inside.Places.{AreNeeds};

use crate::row::ValueRow;
use crate::valued::Valued;
use sp_ast::{Form, Level, Parts, PathKind, Ref, TreeRef};
use sp_base::{NoMemory, or_drop};
use sp_names::{DeclSort, Meaning};
use std::alloc::Global;

/// Puts a place on the list, if there is one.
fn put(list: &mut Vec<usize>, place: Option<usize>) -> Result<(), NoMemory>
    ensures { OnOk result (list.new.items ≡ list.old.items ++ one_or_none place) }
{
    if let Some(place) = place {
        list.push(place)?;
    }
    Ok(())
}

impl<'a> ValueRow<'a> {
    /// Puts what a declaration is on the list, where it is a constant.
    fn add_declaration(&self, list: &mut Vec<usize>, declaration: u32) -> Result<(), NoMemory>
        ensures { OnOk result (list.new.items ≡ list.old.items ++ declaration_needs self.now.0
            (told self.now.1) declaration (sort_at self.now.0 declaration)) }
    {
        let names = self.tables().names();
        match names.sort(declaration) {
            DeclSort::Constant => put(list, self.constant_place(names.number(declaration))),
            _ => Ok(()),
        }
    }

    fn add_meaning(&self, list: &mut Vec<usize>, meaning: Meaning) -> Result<(), NoMemory>
        ensures { OnOk result (list.new.items ≡ list.old.items
            ++ meaning_needs self.now.0 (told self.now.1) meaning) }
    {
        match meaning {
            Meaning::Declaration(declaration) => self.add_declaration(list, declaration),
            Meaning::Label { owner, label } => put(list, self.label_place(owner, label)),
            _ => Ok(()),
        }
    }

    fn add_path(
        &self,
        list: &mut Vec<usize>,
        owner: u32,
        path: &Ref<'_, PathKind>,
    ) -> Result<(), NoMemory>
        ensures { OnOk result (list.new.items ≡ list.old.items ++ meaning_needs self.now.0
            (told self.now.1) (path_means self.now.0 (told self.now.1) owner path.now)) }
    {
        let tables = self.tables();
        self.add_meaning(list, tables.names().means(tables.known(), owner, path))
    }

    /// Puts all that is named by paths in a tree on the list.
    #[cycle(add)]
    fn add_needs(
        &self,
        list: &mut Vec<usize>,
        owner: u32,
        tree: &TreeRef<'_>,
    ) -> Result<(), NoMemory>
        ensures { OnOk result (list.new.items ≡ list.old.items
            ++ needs_in self.now.0 (told self.now.1) owner tree.now) }
    {
        match tree.level() {
            Level::Absent => Ok(()),
            Level::Row(parts) => self.add_among(list, owner, parts),
            Level::Of(Form::Path, ..) => self.add_path(list, owner, &Ref::new(tree.again())),
            Level::Of(Form::Type(_), ..) => Ok(()),
            Level::Of(_, _, parts) => self.add_among(list, owner, parts),
        }
    }

    #[cycle(add)]
    fn add_among(&self, list: &mut Vec<usize>, owner: u32, parts: Parts<'_>) -> Result<(), NoMemory>
        ensures { OnOk result (list.new.items ≡ list.old.items
            ++ needs_among self.now.0 (told self.now.1) owner (trees parts.entry)) }
    {
        for tree in parts {
            self.add_needs(list, owner, &tree)?;
        }
        Ok(())
    }

    /// What one depends on, which stands at a place.
    fn needs_of(
        &self,
        alloc: Global,
        place: usize,
        row: &Valued<'_>,
    ) -> Result<Vec<usize>, NoMemory>
        ensures { IfOk result (λ v. v.items
            ≡ needs_of self.now.0 (told self.now.1) place (Some row.now)) }
    {
        let mut list = Vec::new(alloc);
        match row {
            Valued::Constant { owner, value, .. } => {
                self.add_needs(&mut list, *owner, &value.lend())?;
            }
            Valued::Numbered { owner, number, .. } => {
                self.add_needs(&mut list, *owner, &number.lend())?;
            }
            Valued::First(_) => {}
            Valued::Next(_) => {
                list.push(place.saturating_sub(1))?;
            }
        }
        Ok(list)
    }

    /// What each depends on.
    pub(crate) fn all_needs(&self, alloc: Global) -> Result<Vec<Vec<usize>>, NoMemory>
        ensures all { IfOk result (λ v. length v.items
            ≡ length (valued self.now.0 (told self.now.1))) }
        ensures each { IfOk result (λ v. Each (AreNeeds self.now.0 (told self.now.1)) v.items) }
    {
        let rows = self.rows();
        let mut all = Vec::new(alloc);
        for place in 0..rows.len() {
            let own = or_drop!(self.needs_of(alloc, place, &rows[place]); all);
            or_drop!(all.push(own); all);
        }
        Ok(all)
    }
}
