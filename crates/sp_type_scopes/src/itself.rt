// `self` of a type, in what stands round an expression.
ghost use Rattle.std.specs.Prelude.{◌≡◌, ◌++◌, IfOk, OnOk};
ghost use Rattle.sp_type_scopes.specs.Decorators.{with_self};

use sp_ast::{PathKind, Ref, TypeKind};
use sp_base::{NoMemory, Span};
use sp_type_context::{Callable, Context, Member, Place};
use sp_typed::{Expr, Leaf, LeafOp, ManyOp, Standing, Written};
use sp_types::Type;
use std::alloc::Global;

/// What stands round an expression, with `self` of a type.
#[derive(Drop)]
pub struct WithSelf<'a, C: Context> {
    context: &'a C,
    ty: &'a Type,
    standing: Standing,
}

impl<'a, C: Context> WithSelf<'a, C> {
    /// What stands round an expression, with `self` of this type.
    pub fn new(context: &'a C, ty: &'a Type, standing: Standing) -> WithSelf<'a, C>
        ensures context { result.context.now ≡ context.now }
        ensures ty { result.ty.now ≡ ty.now }
        ensures standing { result.standing ≡ standing }
    {
        WithSelf {
            context,
            ty,
            standing,
        }
    }
}

impl<'a, C: Context> Context for WithSelf<'a, C> {
    ghost around = { λ w. with_self w.ty.now w.standing (C.around w.context.now) };

    fn path(&self, alloc: Global, span: Span, path: &Ref<'_, PathKind>) -> Result<Expr, NoMemory> {
        self.context.path(alloc, span, path)
    }

    fn named(&self, alloc: Global, span: Span, path: &Ref<'_, PathKind>) -> Result<Expr, NoMemory> {
        self.context.named(alloc, span, path)
    }

    fn itself(&self, span: Span) -> Result<Expr, NoMemory> {
        Ok(Expr::leaf(Leaf {
            span,
            ty: self.ty.copy()?,
            op: LeafOp::Itself(self.standing),
        }))
    }

    fn current(&self, span: Span) -> Result<Expr, NoMemory> {
        self.context.current(span)
    }

    fn type_in(
        &self,
        alloc: Global,
        place: Place,
        tree: &Ref<'_, TypeKind>,
    ) -> Result<Type, NoMemory> {
        self.context.type_in(alloc, place, tree)
    }

    fn written(
        &self,
        alloc: Global,
        place: Place,
        tree: &Ref<'_, TypeKind>,
    ) -> Result<Written, NoMemory> {
        self.context.written(alloc, place, tree)
    }

    fn member(&self, of: &Type, name: &str) -> Result<Option<Member>, NoMemory> {
        self.context.member(of, name)
    }

    fn method(
        &self,
        alloc: Global,
        of: &Type,
        name: &str,
        span: Span,
        arguments: &[Type],
    ) -> Result<Option<Callable>, NoMemory> {
        self.context.method(alloc, of, name, span, arguments)
    }

    fn target(
        &self,
        op: &ManyOp,
        receiver: &Type,
        number: usize,
    ) -> Result<Option<Type>, NoMemory> {
        self.context.target(op, receiver, number)
    }

    fn fill(
        &self,
        op: &ManyOp,
        span: Span,
        given: usize,
        parts: &mut Vec<Expr>,
    ) -> Result<(), NoMemory> {
        self.context.fill(op, span, given, parts)
    }

    fn result(&self, function: u32) -> Result<Type, NoMemory> {
        self.context.result(function)
    }

    fn item(&self, alloc: Global, index: &Expr) -> Result<Option<u32>, NoMemory> {
        self.context.item(alloc, index)
    }
}
