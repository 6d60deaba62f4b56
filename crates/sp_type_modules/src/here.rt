// What stands round the expressions of a module.
ghost use Rattle.std.specs.Prelude.{◌≡◌, ◌++◌, ℕ, Option, Some, slice_get, IfOk, OnOk};
ghost use Rattle.sp_types.specs.Types.{Ty};
ghost use Rattle.sp_typed.specs.Exprs.{Expr as Data};
ghost use Rattle.sp_typed.specs.declared.words.LeafOp.TheVariants as leaf_is;
ghost use Rattle.sp_names.specs.Declarations.{sort_at};
ghost use Rattle.sp_type_operands.specs.Operands.{unknown};
ghost use Rattle.sp_type_context.specs.Typing.{leaf_at};
ghost use Rattle.sp_solver.specs.Told.{told};
ghost use Rattle.sp_type_modules.specs.Arounds.{stored_by, type_leaf, declared_at, meaning_at, means_value, slice_of, path_at, member_of, new_takes, target_of, left_out_by};

use crate::tables::Tables;
use crate::written::{name_span, type_at, written_in};
use sp_ast::{PathKind, Ref, TypeKind};
use sp_base::{NoMemory, Span};
use sp_names::{DeclSort, Meaning};
use sp_type_context::{Callable, Context, Member, Place, leaf_at};
use sp_type_methods::{fill_method, method_of, method_takes, sink_method_takes, unit_method_takes};
use sp_typed::{Expr, LeafOp, ManyOp, NewOf, Standing, Written};
use sp_types::{Level, Type, Word};
use std::alloc::Global;

/// What tells the types of constants, and the numbers of constant expressions.
pub trait Constants {
    ghost constant_type: { Self → ℕ → Ty };

    ghost number: { Self → Data → Option ℕ };

    /// The type of the constant of a number; `Unknown` while it isn't known.
    fn constant_type(&self, constant: u32) -> Result<Type, NoMemory>
        ensures { IfOk result (λ t. t ≡ constant_type self.now constant) };

    /// The number that an expression is, where it is constant and has one.
    fn number(&self, alloc: Global, e: &Expr) -> Result<Option<u32>, NoMemory>
        ensures { IfOk result (λ n. n ≡ number self.now e.now) };
}

/// What stands round the expressions of a module, where no body, unit or hook adds anything.
#[derive(Drop)]
pub struct Here<'a, K> {
    pub tables: &'a Tables<'a>,
    /// The types of what is stored in the members of all units, in one row.
    pub stored: &'a [Option<Type>],
    pub constants: &'a K,
    /// The number of the module.
    pub owner: u32,
}

/// What is no value.
fn word_at(span: Span, op: LeafOp) -> Expr
    ensures { result ≡ leaf_at span unknown op }
{
    leaf_at(span, Type::word(Word::Unknown), op)
}

/// The name of a type. What is made of types takes no arguments, as void takes none, and stands as that.
fn found_leaf(found: &Type) -> LeafOp
    ensures { result ≡ type_leaf (Some found.now) }
{
    match found.level() {
        Level::Word(Word::Decoder) => LeafOp::Decoder,
        Level::Word(word) => LeafOp::TypeName(word),
        Level::Made(..) => LeafOp::TypeName(Word::Void),
    }
}

/// The name of a declaration of a type.
fn type_leaf(known: &[Option<Type>], declaration: u32) -> LeafOp
    ensures { result ≡ type_leaf (told known.now declaration) }
{
    match known.get(declaration as usize) {
        Some(Some(found)) => found_leaf(found),
        _ => LeafOp::TypeName(Word::Unknown),
    }
}

fn constant_at<K: Constants>(constants: &K, span: Span, number: u32) -> Result<Expr, NoMemory>
    ensures { IfOk result (λ e. e ≡ leaf_at span (K.constant_type constants.now number)
        (leaf_is.Constant number)) }
{
    let ty = constants.constant_type(number)?;
    Ok(leaf_at(span, ty, LeafOp::Constant(number)))
}

/// The path to a declaration.
fn declared_at<K: Constants>(
    tables: &Tables<'_>,
    constants: &K,
    span: Span,
    declaration: u32,
) -> Result<Expr, NoMemory>
    ensures { IfOk result (λ e. e ≡ declared_at tables.now.0 (told tables.now.1)
        (K.constant_type constants.now) span declaration (sort_at tables.now.0 declaration)) }
{
    let names = tables.names();
    match names.sort(declaration) {
        DeclSort::Constant => constant_at(constants, span, names.number(declaration)),
        DeclSort::Function => Ok(word_at(span, LeafOp::Function(names.number(declaration)))),
        _ => Ok(word_at(span, type_leaf(tables.known(), declaration))),
    }
}

/// Whether what a path means is a value.
fn means_value(tables: &Tables<'_>, meaning: Meaning) -> bool
    ensures { result ≡ means_value tables.now.0 meaning }
{
    match meaning {
        Meaning::Declaration(declaration) => {
            matches!(tables.names().sort(declaration), DeclSort::Constant)
        }
        Meaning::Label { .. } => true,
        _ => false,
    }
}

/// Where a path stands, by what it means: parentheses round it are part of a value alone.
fn slice_of(tables: &Tables<'_>, span: Span, path: &Ref<'_, PathKind>, meaning: Meaning) -> Span
    ensures { result ≡ slice_of tables.now.0 span path.now meaning }
{
    if means_value(tables, meaning) {
        span
    } else {
        path.span()
    }
}

fn meaning_at<K: Constants>(
    tables: &Tables<'_>,
    constants: &K,
    span: Span,
    path: &Ref<'_, PathKind>,
    meaning: Meaning,
) -> Result<Expr, NoMemory>
    ensures { IfOk result (λ e. e ≡ meaning_at tables.now.0 (told tables.now.1)
        (K.constant_type constants.now) span path.now meaning) }
{
    match meaning {
        Meaning::Declaration(declaration) => declared_at(tables, constants, span, declaration),
        Meaning::LibraryEnum(number) => { Ok(word_at(span, LeafOp::TypeName(Word::Enum(number)))) }
        Meaning::Label { owner, label } => Ok(leaf_at(
            span,
            Type::word(Word::Enum(owner)),
            LeafOp::Label(owner, label),
        )),
        Meaning::Decoder => Ok(word_at(span, LeafOp::Decoder)),
        Meaning::Nothing(place) => Ok(word_at(span, LeafOp::Nothing(name_span(path, place)))),
    }
}

fn path_at<K: Constants>(
    tables: &Tables<'_>,
    constants: &K,
    owner: u32,
    span: Span,
    path: &Ref<'_, PathKind>,
) -> Result<Expr, NoMemory>
    ensures { IfOk result (λ e. e ≡ path_at tables.now.0 (told tables.now.1)
        (K.constant_type constants.now) owner span path.now) }
{
    let meaning = tables.names().means(tables.known(), owner, path);
    let span = slice_of(tables, span, path, meaning);
    meaning_at(tables, constants, span, path, meaning)
}

fn member_of(
    tables: &Tables<'_>,
    stored: &[Option<Type>],
    of: &Type,
    name: &str,
) -> Result<Option<Member>, NoMemory>
    ensures { IfOk result (λ m. m ≡ member_of tables.now.0
        (stored_by tables.now.0 (told stored.now)) of.now name.now) }
{
    match of.level() {
        Level::Word(Word::Unit(number)) => tables.unit_member(stored, number, name),
        Level::Word(Word::Bitfield(number)) => tables.bit_member(number, name),
        _ => Ok(None),
    }
}

fn new_target(tables: &Tables<'_>, of: NewOf, number: usize) -> Result<Option<Type>, NoMemory>
    ensures { IfOk result (λ t. t ≡ slice_get (new_takes tables.now.0 (told tables.now.1) of)
        number) }
{
    match of {
        NewOf::Unit(unit) => tables.unit_takes(unit, number),
        NewOf::Decoder => Ok(None),
    }
}

fn target_of(
    tables: &Tables<'_>,
    op: &ManyOp,
    receiver: &Type,
    number: usize,
) -> Result<Option<Type>, NoMemory>
    ensures { IfOk result (λ t. t ≡ target_of tables.now.0 (told tables.now.1) op.now
        receiver.now number) }
{
    match *op {
        ManyOp::Call(function) => tables.function_takes(function, number),
        ManyOp::New(of, _) => new_target(tables, of, number),
        ManyOp::Method(method, _) => method_takes(method, receiver, number),
        ManyOp::OfUnit(method, _) => Ok(unit_method_takes(method, number)),
        ManyOp::OfSink(method) => Ok(sink_method_takes(method, number)),
        _ => Ok(None),
    }
}

fn fill_by(op: &ManyOp, span: Span, given: usize, parts: &mut Vec<Expr>) -> Result<(), NoMemory>
    ensures { OnOk result (parts.new.items ≡ parts.old.items ++ left_out_by op.now span given) }
{
    match *op {
        ManyOp::Method(method, _) => fill_method(method, span, given, parts),
        _ => Ok(()),
    }
}

impl<'a, K: Constants> Context for Here<'a, K> {
    ghost use Rattle.sp_type_modules.specs.Holds.{around_here};

    ghost around = { around_here K.constant_type K.number };

    fn path(&self, alloc: Global, span: Span, path: &Ref<'_, PathKind>) -> Result<Expr, NoMemory> {
        path_at(self.tables, self.constants, self.owner, span, path)
    }

    fn named(&self, alloc: Global, span: Span, path: &Ref<'_, PathKind>) -> Result<Expr, NoMemory> {
        path_at(self.tables, self.constants, self.owner, span, path)
    }

    fn itself(&self, span: Span) -> Result<Expr, NoMemory> {
        Ok(word_at(span, LeafOp::Itself(Standing::Unmeant)))
    }

    fn current(&self, span: Span) -> Result<Expr, NoMemory> {
        Ok(word_at(span, LeafOp::Current(Standing::Unmeant)))
    }

    fn type_in(
        &self,
        alloc: Global,
        place: Place,
        tree: &Ref<'_, TypeKind>,
    ) -> Result<Type, NoMemory> {
        let tables = self.tables;
        type_at(
            alloc,
            tables.names(),
            tables.known(),
            self.owner,
            place,
            tree,
        )
    }

    fn written(
        &self,
        alloc: Global,
        place: Place,
        tree: &Ref<'_, TypeKind>,
    ) -> Result<Written, NoMemory> {
        let tables = self.tables;
        written_in(
            alloc,
            tables.names(),
            tables.known(),
            self.owner,
            place,
            tree,
        )
    }

    fn member(&self, of: &Type, name: &str) -> Result<Option<Member>, NoMemory> {
        member_of(self.tables, self.stored, of, name)
    }

    fn method(
        &self,
        alloc: Global,
        of: &Type,
        name: &str,
        span: Span,
        arguments: &[Type],
    ) -> Result<Option<Callable>, NoMemory> {
        method_of(alloc, of, name, span, arguments)
    }

    fn target(
        &self,
        op: &ManyOp,
        receiver: &Type,
        number: usize,
    ) -> Result<Option<Type>, NoMemory> {
        target_of(self.tables, op, receiver, number)
    }

    fn fill(
        &self,
        op: &ManyOp,
        span: Span,
        given: usize,
        parts: &mut Vec<Expr>,
    ) -> Result<(), NoMemory> {
        fill_by(op, span, given, parts)
    }

    fn result(&self, function: u32) -> Result<Type, NoMemory> {
        self.tables.function_gives(function)
    }

    fn item(&self, alloc: Global, index: &Expr) -> Result<Option<u32>, NoMemory> {
        self.constants.number(alloc, index)
    }
}
