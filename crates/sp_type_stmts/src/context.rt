// What stands round an expression in a body that has locals.
ghost use Rattle.std.specs.Prelude.{◌≡◌, option_copied, IfOk};
ghost use Rattle.sp_type_stmts.specs.Visible.{found_maybe, local_or, with_locals};
ghost use Rattle.sp_type_context.specs.Names.{single_name};
ghost use Rattle.sp_type_stmts.specs.inside.Tables.{known};

use crate::locals::{Known, Locals};
use sp_ast::{PathKind, Ref, TypeKind};
use sp_base::{NoMemory, Span};
use sp_type_context::{Callable, Context, Member, Place, single_name};
use sp_typed::{Expr, Leaf, LeafOp, ManyOp, Written};
use sp_types::Type;
use std::alloc::Global;

/// What stands round an expression in a body: its locals, and what is outside of it.
#[derive(Drop)]
pub struct WithLocals<'a, C: Context> {
    pub outside: &'a C,
    pub locals: &'a Locals,
}

impl<'a, C: Context> WithLocals<'a, C> {
    /// The local that a path is, if it is one.
    fn known(&self, path: &Ref<'_, PathKind>) -> Result<Option<Known>, NoMemory>
        ensures { IfOk result (λ k. k
            ≡ known (found_maybe (single_name path.now) self.now.locals.now)) }
    {
        match single_name(path) {
            Some(name) => self.locals.find(name),
            None => Ok(None),
        }
    }
}

impl<'a, C: Context> Context for WithLocals<'a, C> {
    ghost around = { λ w. with_locals w.locals.now (C.around w.outside.now) };

    fn path(&self, alloc: Global, span: Span, path: &Ref<'_, PathKind>) -> Result<Expr, NoMemory> {
        match self.known(path)? {
            Some(known) => Ok(Expr::leaf(Leaf {
                span,
                ty: known.ty,
                op: LeafOp::Local(known.slot),
            })),
            None => self.outside.path(alloc, span, path),
        }
    }

    fn named(&self, alloc: Global, span: Span, path: &Ref<'_, PathKind>) -> Result<Expr, NoMemory> {
        self.outside.named(alloc, span, path)
    }

    fn itself(&self, span: Span) -> Result<Expr, NoMemory> {
        self.outside.itself(span)
    }

    fn current(&self, span: Span) -> Result<Expr, NoMemory> {
        self.outside.current(span)
    }

    fn type_in(
        &self,
        alloc: Global,
        place: Place,
        tree: &Ref<'_, TypeKind>,
    ) -> Result<Type, NoMemory> {
        self.outside.type_in(alloc, place, tree)
    }

    fn written(
        &self,
        alloc: Global,
        place: Place,
        tree: &Ref<'_, TypeKind>,
    ) -> Result<Written, NoMemory> {
        self.outside.written(alloc, place, tree)
    }

    fn member(&self, of: &Type, name: &str) -> Result<Option<Member>, NoMemory> {
        self.outside.member(of, name)
    }

    fn method(
        &self,
        alloc: Global,
        of: &Type,
        name: &str,
        span: Span,
        arguments: &[Type],
    ) -> Result<Option<Callable>, NoMemory> {
        self.outside.method(alloc, of, name, span, arguments)
    }

    fn target(
        &self,
        op: &ManyOp,
        receiver: &Type,
        number: usize,
    ) -> Result<Option<Type>, NoMemory> {
        self.outside.target(op, receiver, number)
    }

    fn fill(
        &self,
        op: &ManyOp,
        span: Span,
        given: usize,
        parts: &mut Vec<Expr>,
    ) -> Result<(), NoMemory> {
        self.outside.fill(op, span, given, parts)
    }

    fn result(&self, function: u32) -> Result<Type, NoMemory> {
        self.outside.result(function)
    }

    fn item(&self, alloc: Global, index: &Expr) -> Result<Option<u32>, NoMemory> {
        self.outside.item(alloc, index)
    }
}
