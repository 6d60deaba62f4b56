// The enums of the typed list, under the answers that are settled.
ghost use Rattle.std.specs.Prelude.{◌≡◌, ◌++◌, Some, IfOk, OnOk};
ghost use Rattle.sp_ast.specs.Trees.{span_of};
ghost use Rattle.sp_solver.specs.Told.{told};
ghost use Rattle.sp_names.specs.Declarations.{name_of, module_name, type_tree_of, all_of};
ghost use Rattle.sp_names.specs.declared.sort.DeclSort.TheVariants as sort_is;
ghost use Rattle.sp_names.specs.Names.{declaration_of, enum_labels};
ghost use Rattle.sp_type_values.specs.TypedRows.{declared_name_tree, number_in, shown_number, or_past, number_expr, own_number, number_at, declared_label, labels_of_enum, declared_enum, own_enums, typed_enums};

use crate::known::Known;
use crate::library::{library_enums, name_in_module};
use sp_ast::{DeclView, ExprKind, LabelKind, Members, Ref, is_present};
use sp_base::{NoMemory, Span, Text, or_drop};
use sp_names::{Declaration, LIBRARY_ENUMS, RowTree, RowView, labels_of};
use sp_type_constants::Outcome;
use sp_typed::Expr;
use sp_typed_units::{Enum, Label, LabelNumber, Row};
use sp_value::{Level, Value};
use std::alloc::Global;

/// The number that a value of an enum is.
fn number_in(value: &Value) -> LabelNumber
    ensures { result ≡ number_in value.now }
{
    match value.level() {
        Level::Enum(_, number) => LabelNumber::Number(number),
        _ => LabelNumber::Unknown,
    }
}

/// The number of a label.
fn shown_number(found: &Outcome) -> LabelNumber
    ensures { result ≡ shown_number found.now }
{
    match found {
        Outcome::Value(value) => number_in(value),
        Outcome::Regex(_) => LabelNumber::Unknown,
        Outcome::NotConstant => LabelNumber::NotConstant,
        Outcome::Error => LabelNumber::NotConstant,
        Outcome::Unknown => LabelNumber::Unknown,
    }
}

/// The number of a label without one, behind another. There is none behind the greatest.
fn or_past(before: LabelNumber, number: LabelNumber) -> LabelNumber
    ensures { result ≡ or_past before number }
{
    match (before, number) {
        (LabelNumber::Number(_), LabelNumber::Unknown) => LabelNumber::Past,
        _ => number,
    }
}

/// The name that is declared.
fn declared_name<'a>(tree: &RowTree<'a>) -> &'a str
    ensures { result.now ≡ name_of (declared_name_tree tree.now) }
{
    match tree.view() {
        RowView::Declared(DeclView::Type { name, .. })
        | RowView::Declared(DeclView::Const { name, .. }) => name.text(),
        _ => "",
    }
}

/// Where the name stands that is declared.
fn declared_span(tree: &RowTree<'_>) -> Span
    ensures { result ≡ span_of (declared_name_tree tree.now) }
{
    match tree.view() {
        RowView::Declared(DeclView::Type { name, .. })
        | RowView::Declared(DeclView::Const { name, .. }) => name.span(),
        _ => Span { from: 0, to: 0 },
    }
}

impl<'a> Known<'a> {
    /// The number of a label of an enum of the list.
    fn own_number(&self, owner: u32, place: u32) -> Result<LabelNumber, NoMemory>
        ensures { IfOk result (λ n. n ≡ own_number self.now.row.now.0 (told self.now.row.now.1)
            (told self.now.answers.now) owner place) }
    {
        let found = sp_type_constants::Constants::label(self, owner, place)?;
        let number = shown_number(found.outcome());
        drop(found);
        Ok(number)
    }

    /// The number of a label, which may be written.
    fn number_at(
        &self,
        owner: u32,
        place: u32,
        written: &Option<Ref<'_, ExprKind>>,
    ) -> Result<LabelNumber, NoMemory>
        ensures { IfOk result (λ n. n ≡ number_at self.now.row.now.0 (told self.now.row.now.1)
            (told self.now.answers.now) owner place written.now) }
    {
        let number = self.own_number(owner, place)?;
        if written.is_some() || place == 0 {
            return Ok(number);
        }
        Ok(or_past(self.own_number(owner, place - 1)?, number))
    }

    /// What is written behind the `=` of a label.
    fn number_expr(
        &self,
        alloc: Global,
        home: u32,
        written: &Option<Ref<'_, ExprKind>>,
    ) -> Result<Option<Expr>, NoMemory>
        ensures { IfOk result (λ e. e ≡ number_expr self.now.row.now.0 (told self.now.row.now.1)
            (told self.now.answers.now) home written.now) }
    {
        match written {
            Some(number) => Ok(Some(self.label_expr(alloc, home, number)?)),
            None => Ok(None),
        }
    }

    /// The label of a place in an enum.
    fn declared_label(
        &self,
        alloc: Global,
        owner: u32,
        home: u32,
        place: u32,
        label: &Ref<'_, LabelKind>,
    ) -> Result<Label, NoMemory>
        ensures { IfOk result (λ l. l ≡ declared_label self.now.row.now.0
            (told self.now.row.now.1) (told self.now.answers.now) owner home place label.now) }
    {
        let view = label.view();
        is_present(&view.value);
        let name = Text::new(alloc, view.name.text())?;
        let span = view.name.span();
        let expr = or_drop!(self.number_expr(alloc, home, &view.value); name);
        let number = or_drop!(self.number_at(owner, place, &view.value); name, expr);
        Ok(Label {
            name,
            span,
            expr,
            number,
        })
    }

    /// The labels of an enum.
    fn labels_of_enum(
        &self,
        alloc: Global,
        owner: u32,
        home: u32,
        labels: Members<'_, LabelKind>,
    ) -> Result<Vec<Label>, NoMemory>
        ensures { IfOk result (λ v. v.items ≡ labels_of_enum self.now.row.now.0
            (told self.now.row.now.1) (told self.now.answers.now) owner home 0 labels.entry) }
    {
        let mut list = Vec::new(alloc);
        let mut place: u32 = 0;
        for label in labels {
            let declared = or_drop!(
                self.declared_label(alloc, owner, home, place, &label);
                list
            );
            or_drop!(list.push(declared); list);
            place = or_drop!(place.checked_add(1).ok_or(NoMemory); list);
        }
        Ok(list)
    }

    /// The labels of a declaration of an enum.
    fn labels_declared(
        &self,
        alloc: Global,
        owner: u32,
        row: &Declaration<'_>,
    ) -> Result<Vec<Label>, NoMemory>
        ensures { IfOk result (λ v. v.items ≡ labels_of_enum self.now.row.now.0
            (told self.now.row.now.1) (told self.now.answers.now) owner row.now.«module» 0
            (enum_labels (type_tree_of row.now.tree))) }
    {
        match labels_of(&row.tree) {
            Some(labels) => self.labels_of_enum(alloc, owner, row.module, labels),
            None => Ok(Vec::new(alloc)),
        }
    }

    /// The enum of a number, which is declared.
    fn declared_enum(
        &self,
        alloc: Global,
        owner: u32,
        row: &Declaration<'_>,
    ) -> Result<Enum, NoMemory>
        ensures { IfOk result (λ e. e ≡ declared_enum self.now.row.now.0
            (told self.now.row.now.1) (told self.now.answers.now) owner (Some row.now)) }
    {
        let home = self.row.tables().names().module_name(row.module);
        let path = name_in_module(alloc, home, declared_name(&row.tree))?;
        let span = declared_span(&row.tree);
        let labels = or_drop!(self.labels_declared(alloc, owner, row); path);
        Ok(Enum {
            path,
            module: row.module,
            span,
            labels: Row::from_vec(labels),
        })
    }

    /// The enum of a number and of the declaration of another.
    fn enum_at(&self, alloc: Global, owner: u32, declaration: u32) -> Result<Enum, NoMemory>
        ensures { IfOk result (λ e. e ≡ declared_enum self.now.row.now.0
            (told self.now.row.now.1) (told self.now.answers.now) owner
            (declaration_of self.now.row.now.0 (Some declaration))) }
    {
        match self.row.tables().names().rows().get(declaration as usize) {
            Some(row) => self.declared_enum(alloc, owner, row),
            None => Ok(Enum {
                path: Text::new(alloc, "")?,
                module: 0,
                span: Span { from: 0, to: 0 },
                labels: Row::new(alloc),
            }),
        }
    }

    /// Puts the enums of the list behind those of the library.
    fn add_enums(&self, alloc: Global, list: &mut Vec<Enum>) -> Result<(), NoMemory>
        ensures { OnOk result (list.new.items ≡ list.old.items ++ own_enums
            self.now.row.now.0 (told self.now.row.now.1) (told self.now.answers.now) 4
            (all_of sort_is.Enum self.now.row.now.0)) }
    {
        let numbers = self.row.tables().names().enums();
        let mut owner = LIBRARY_ENUMS;
        for declaration in numbers {
            list.push(self.enum_at(alloc, owner, *declaration)?)?;
            owner = owner.checked_add(1).ok_or(NoMemory)?;
        }
        Ok(())
    }

    /// All enums by their numbers: those of the library, and behind them those of the list.
    pub fn enums(&self, alloc: Global) -> Result<Vec<Enum>, NoMemory>
        ensures { IfOk result (λ v. v.items ≡ typed_enums self.now.row.now.0
            (told self.now.row.now.1) (told self.now.answers.now)) }
    {
        let mut list = library_enums(alloc)?;
        or_drop!(self.add_enums(alloc, &mut list); list);
        Ok(list)
    }
}
