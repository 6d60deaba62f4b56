// What is known of the members of units, in what stands round an expression.
ghost use Rattle.std.specs.Prelude.{◌≡◌, ◌++◌, IfOk, OnOk};
ghost use Rattle.sp_solver.specs.Told.{told};
ghost use Rattle.sp_type_modules.specs.Arounds.{stored_by, member_of};
ghost use Rattle.sp_type_members.specs.Opens.{with_members};

use sp_ast::{PathKind, Ref, TypeKind};
use sp_base::{NoMemory, Span};
use sp_type_context::{Callable, Context, Member, Place};
use sp_type_modules::Tables;
use sp_typed::{Expr, ManyOp, Written};
use sp_types::{Level, Type, Word};
use std::alloc::Global;

/// What stands round an expression, where so much is known of the members of units, in one row.
#[derive(Drop)]
pub struct WithMembers<'a, C: Context> {
    context: &'a C,
    tables: &'a Tables<'a>,
    known: &'a [Option<Type>],
}

impl<'a, C: Context> WithMembers<'a, C> {
    /// What stands round an expression, where so much is known of the members of units, in one row.
    pub fn new(
        context: &'a C,
        tables: &'a Tables<'a>,
        known: &'a [Option<Type>],
    ) -> WithMembers<'a, C>
        ensures context { result.context.now ≡ context.now }
        ensures tables { result.tables.now ≡ tables.now }
        ensures known { result.known.now ≡ known.now }
    {
        WithMembers {
            context,
            tables,
            known,
        }
    }
}

/// The member of a name that values of a type have.
fn member_of(
    tables: &Tables<'_>,
    known: &[Option<Type>],
    of: &Type,
    name: &str,
) -> Result<Option<Member>, NoMemory>
    ensures { IfOk result (λ m. m ≡ member_of tables.now.0
        (stored_by tables.now.0 (told known.now)) of.now name.now) }
{
    match of.level() {
        Level::Word(Word::Unit(number)) => tables.unit_member(known, number, name),
        Level::Word(Word::Bitfield(number)) => tables.bit_member(number, name),
        _ => Ok(None),
    }
}

impl<'a, C: Context> Context for WithMembers<'a, C> {
    ghost around = { λ w. with_members w.tables.now.0 (told w.known.now) (C.around w.context.now) };

    fn path(&self, alloc: Global, span: Span, path: &Ref<'_, PathKind>) -> Result<Expr, NoMemory> {
        self.context.path(alloc, span, path)
    }

    fn named(&self, alloc: Global, span: Span, path: &Ref<'_, PathKind>) -> Result<Expr, NoMemory> {
        self.context.named(alloc, span, path)
    }

    fn itself(&self, span: Span) -> Result<Expr, NoMemory> {
        self.context.itself(span)
    }

    fn current(&self, span: Span) -> Result<Expr, NoMemory> {
        self.context.current(span)
    }

    fn type_in(
        &self,
        alloc: Global,
        place: Place,
        tree: &Ref<'_, TypeKind>,
    ) -> Result<Type, NoMemory> {
        self.context.type_in(alloc, place, tree)
    }

    fn written(
        &self,
        alloc: Global,
        place: Place,
        tree: &Ref<'_, TypeKind>,
    ) -> Result<Written, NoMemory> {
        self.context.written(alloc, place, tree)
    }

    fn member(&self, of: &Type, name: &str) -> Result<Option<Member>, NoMemory> {
        member_of(self.tables, self.known, of, name)
    }

    fn method(
        &self,
        alloc: Global,
        of: &Type,
        name: &str,
        span: Span,
        arguments: &[Type],
    ) -> Result<Option<Callable>, NoMemory> {
        self.context.method(alloc, of, name, span, arguments)
    }

    fn target(
        &self,
        op: &ManyOp,
        receiver: &Type,
        number: usize,
    ) -> Result<Option<Type>, NoMemory> {
        self.context.target(op, receiver, number)
    }

    fn fill(
        &self,
        op: &ManyOp,
        span: Span,
        given: usize,
        parts: &mut Vec<Expr>,
    ) -> Result<(), NoMemory> {
        self.context.fill(op, span, given, parts)
    }

    fn result(&self, function: u32) -> Result<Type, NoMemory> {
        self.context.result(function)
    }

    fn item(&self, alloc: Global, index: &Expr) -> Result<Option<u32>, NoMemory> {
        self.context.item(alloc, index)
    }
}
