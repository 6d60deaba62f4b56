// The constants of the typed list, under the answers that are settled.
ghost use Rattle.std.specs.Prelude.{◌≡◌, ◌++◌, IfOk, OnOk};
ghost use Rattle.sp_solver.specs.Told.{told};
ghost use Rattle.sp_names.specs.Declarations.{sort_of};
ghost use Rattle.sp_type_values.specs.Valued.{written_type};
ghost use Rattle.sp_type_values.specs.Answers.{constant_type, constant_value, constant_expr};
ghost use Rattle.sp_type_values.specs.TypedRows.{shown_value, maybe_written, constant_row, declared_constant, next_constant, if_declared, typed_constants};

use crate::known::{Known, value_at};
use crate::tell::written_type;
use sp_ast::{DeclView, ExprKind, Ref, TypeKind, is_present};
use sp_base::{NoMemory, Span, or_drop};
use sp_names::{Declaration, RowView};
use sp_type_constants::Outcome;
use sp_type_context::Place;
use sp_type_modules::written_in;
use sp_typed::Written;
use sp_typed_units::{Constant, ConstantValue};
use std::alloc::Global;

/// What a constant is where it is used in no expression.
fn shown_value(found: Outcome) -> ConstantValue
    ensures { result ≡ shown_value found }
{
    match found {
        Outcome::Value(value) => ConstantValue::Value(value),
        Outcome::Regex(text) => ConstantValue::Regex(text),
        Outcome::NotConstant => ConstantValue::NotConstant,
        Outcome::Error => ConstantValue::NotConstant,
        Outcome::Unknown => ConstantValue::Unknown,
    }
}

impl<'a> Known<'a> {
    /// The type that is written, as it is written.
    fn maybe_written(
        &self,
        alloc: Global,
        owner: u32,
        part: &Option<Ref<'_, TypeKind>>,
    ) -> Result<Option<Written>, NoMemory>
        ensures { IfOk result (λ w. w ≡ maybe_written self.now.row.now.0
            (told self.now.row.now.1) (told self.now.answers.now) owner part.now) }
    {
        let names = self.row.tables().names();
        let known = self.row.tables().known();
        match part {
            Some(tree) => Ok(Some(written_in(alloc, names, known, owner, Place::Value, tree)?)),
            None => Ok(None),
        }
    }

    /// The constant of a number, as it is declared.
    fn constant_row(
        &self,
        alloc: Global,
        number: u32,
        owner: u32,
        span: Span,
        part: &Option<Ref<'_, TypeKind>>,
        value: &Ref<'_, ExprKind>,
    ) -> Result<Constant, NoMemory>
        ensures { IfOk result (λ c. c ≡ constant_row self.now.row.now.0 (told self.now.row.now.1)
            (told self.now.answers.now) number owner span part.now value.now) }
    {
        let tables = self.row.tables();
        let written = self.maybe_written(alloc, owner, part)?;
        let to = written_type(alloc, tables.names(), tables.known(), owner, part)?;
        let ty = or_drop!(sp_type_modules::Constants::constant_type(self, number); to);
        let found = or_drop!(
            value_at(self.answers, self.row.constant_place(number));
            to, ty
        );
        let expr = self.constant_expr(alloc, owner, &to, value);
        drop(to);
        let expr = or_drop!(expr; ty, found);
        Ok(Constant {
            module: owner,
            span,
            ty,
            written,
            expr,
            value: shown_value(found.into_outcome()),
        })
    }

    /// Puts a declaration on the list if it is a constant, and tells the number of the next.
    fn add_constant(
        &self,
        alloc: Global,
        list: &mut Vec<Constant>,
        number: u32,
        row: &Declaration<'_>,
    ) -> Result<u32, NoMemory>
        ensures added { OnOk result (list.new.items ≡ list.old.items ++ if_declared
            self.now.row.now.0 (told self.now.row.now.1) (told self.now.answers.now) number
            row.now (sort_of row.now.tree)) }
        ensures next { IfOk result (λ n. n ≡ next_constant self.now.row.now.0
            (told self.now.row.now.1) (told self.now.answers.now) number
            (sort_of row.now.tree)) }
    {
        match row.tree.view() {
            RowView::Declared(
                DeclView::Const {
                    name,
                    type_,
                    value,
                    ..
                },
            ) => {
                is_present(&type_);
                let span = name.span();
                list.push(self.constant_row(alloc, number, row.module, span, &type_, &value)?)?;
                number.checked_add(1).ok_or(NoMemory)
            }
            _ => Ok(number),
        }
    }

    /// All constants of the list, by their numbers.
    pub fn constants(&self, alloc: Global) -> Result<Vec<Constant>, NoMemory>
        ensures { IfOk result (λ v. v.items ≡ typed_constants self.now.row.now.0
            (told self.now.row.now.1) (told self.now.answers.now)) }
    {
        let rows = self.row.tables().names().rows();
        let mut list = Vec::new(alloc);
        let mut number: u32 = 0;
        for row in rows {
            number = or_drop!(self.add_constant(alloc, &mut list, number, row); list);
        }
        Ok(list)
    }
}
