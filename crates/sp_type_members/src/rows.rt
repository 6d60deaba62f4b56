// The members of all units of a list of modules, in one row.
ghost use Rattle.std.specs.Prelude.{◌≡◌, ◌++◌, List, Option, Some, length, option_copied, slice_get, IfOk, OnOk};
ghost use Rattle.sp_names.specs.declared.sort.DeclSort.TheVariants as sort_is;
ghost use Rattle.sp_names.specs.Declarations.{type_tree_of};
ghost use Rattle.sp_type_modules.specs.Members.{unit_in};
ghost use Rattle.sp_type_modules.specs.Sources.{unit_sources, asked, questions_of, questions, units, firsts_before};
ghost use Rattle.sp_type_members.specs.inside.Tables.{AreRows};

use crate::tables::{SourceTable, source_table};
use sp_base::NoMemory;
use sp_name_tables::number;
use sp_names::{Declaration, Names};
use sp_type_modules::{Question, Source, declaration_at, unit_in};
use std::alloc::Global;
use std::marker::Model;

/// Adds the members of a unit, each as a question.
#[tactic(auto, using(crate::proofs::Places::asked_step))]
fn add_asked<'a>(
    unit: u32,
    sources: Vec<Source<'a>>,
    all: &mut Vec<Question<'a>>,
) -> Result<(), NoMemory>
    ensures { OnOk result (all.new.items ≡ all.old.items ++ asked unit sources.entry.items) }
{
    for source in sources {
        all.push(Question { unit, source })?;
    }
    Ok(())
}

/// Adds the members of the unit that a declaration declares.
fn add_declared<'a>(
    alloc: Global,
    unit: u32,
    declaration: &Declaration<'a>,
    all: &mut Vec<Question<'a>>,
) -> Result<(), NoMemory>
    ensures { OnOk result (all.new.items ≡ all.old.items
        ++ asked unit (unit_sources (unit_in (type_tree_of declaration.now.tree)))) }
{
    match unit_in(&declaration.tree) {
        Some(tree) => {
            let table = source_table(alloc, &tree)?;
            let SourceTable { names, sources } = table;
            drop(names);
            add_asked(unit, sources, all)
        }
        None => Ok(()),
    }
}

/// Adds the members of the unit of a number.
fn add_unit<'a>(
    alloc: Global,
    names: &Names<'a>,
    unit: u32,
    all: &mut Vec<Question<'a>>,
) -> Result<(), NoMemory>
    ensures { OnOk result (all.new.items ≡ all.old.items ++ questions_of names.now unit) }
{
    match declaration_at(names, names.units(), unit as usize) {
        Some(declaration) => add_declared(alloc, unit, declaration, all),
        None => Ok(()),
    }
}

/// The members of all units of a list of modules, in one row: unit after unit, and in each the first of each name. Clauses see
/// the list.
#[derive(Drop)]
pub struct MemberRows<'a> {
    pub(crate) names: &'a Names<'a>,
    pub(crate) begins: Vec<u32>,
    pub(crate) questions: Vec<Question<'a>>,
}

impl<'a> Model for MemberRows<'a> {
    ghost use Rattle.std.specs.Prelude.{List};
    ghost use Rattle.std.specs.Coded.{codes, coded_list};
    ghost use Rattle.sp_ast.specs.Trees.{Tree as Data};
    ghost use Rattle.sp_ast.specs.inside.TreeCodes.{coded_tree};
    ghost use Rattle.sp_type_members.specs.inside.Tables.{AreRows};

    ghost Value = { List Data };

    ghost coded = { coded_list (coded_tree (Prim.hlevel codes)) };

    ghost view = { λ t. t.names.now };

    ghost invariant = { λ t. AreRows t.names.now t.begins.items t.questions.items };
}

impl<'a> MemberRows<'a> {
    /// The members of all units of a list of modules.
    pub fn new(alloc: Global, names: &'a Names<'a>) -> Result<MemberRows<'a>, NoMemory>
        ensures { IfOk result (λ r. r ≡ names.now) }
    {
        let mut begins = Vec::new(alloc);
        let mut questions = Vec::new(alloc);
        for n in 0..names.units().len() {
            begins.push(number(questions.len())?)?;
            add_unit(alloc, names, number(n)?, &mut questions)?;
        }
        Ok(MemberRows {
            names,
            begins,
            questions,
        })
    }

    /// How many members there are.
    pub fn count(&self) -> usize
        ensures { result ≡ length (questions self.now) }
    {
        self.questions.len()
    }

    /// Where the members of a unit begin.
    pub(crate) fn first(&self, unit: u32) -> Option<u32>
        ensures { result ≡ slice_get (firsts_before self.now (units self.now)) unit }
    {
        self.begins.get(unit as usize).copied()
    }

    /// The member of a number.
    pub(crate) fn question(&self, number: usize) -> Option<&Question<'a>>
        ensures { option_copied result ≡ slice_get (questions self.now) number }
    {
        self.questions.get(number)
    }
}
