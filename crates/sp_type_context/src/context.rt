// What stands round an expression: what names, types and members mean there.
ghost use Rattle.std.specs.Prelude.{◌≡◌, ◌++◌, IfOk, OnOk};
ghost use Rattle.sp_type_context.specs.Contexts.{Around};

use crate::places::Place;
use sp_ast::{PathKind, Ref, TypeKind};
use sp_base::{NoMemory, Span};
use sp_typed::{Expr, ManyOp, OneOp, Written};
use sp_types::Type;
use std::alloc::Global;

/// A member of a value: what it is, and its type.
#[derive(Drop)]
pub struct Member {
    pub op: OneOp,
    pub ty: Type,
}

/// A method of a value: what it is, and the type of what it gives.
#[derive(Drop)]
pub struct Callable {
    pub op: ManyOp,
    pub ty: Type,
}

/// What stands round an expression.
pub trait Context {
    ghost around: { Self → Around };

    /// What a path is, on the slice on which it stands: a leaf.
    fn path(&self, alloc: Global, span: Span, path: &Ref<'_, PathKind>) -> Result<Expr, NoMemory>
        ensures { IfOk result (λ e. e ≡ (around self.now).path span path.now) };

    /// The same where no local and no parameter is seen.
    fn named(&self, alloc: Global, span: Span, path: &Ref<'_, PathKind>) -> Result<Expr, NoMemory>
        ensures { IfOk result (λ e. e ≡ (around self.now).named span path.now) };

    /// `self`, on the slice on which it stands.
    fn itself(&self, span: Span) -> Result<Expr, NoMemory>
        ensures { IfOk result (λ e. e ≡ (around self.now).itself span) };

    /// `$$`, on the slice on which it stands.
    fn current(&self, span: Span) -> Result<Expr, NoMemory>
        ensures { IfOk result (λ e. e ≡ (around self.now).current span) };

    /// The type of what is declared with a type that is written at a place; `Unknown` where it can't stand there.
    fn type_in(
        &self,
        alloc: Global,
        place: Place,
        tree: &Ref<'_, TypeKind>,
    ) -> Result<Type, NoMemory>
        ensures { IfOk result (λ t. t ≡ (around self.now).type_in place tree.now) };

    /// What is wrong with a type that is written at a place.
    fn written(
        &self,
        alloc: Global,
        place: Place,
        tree: &Ref<'_, TypeKind>,
    ) -> Result<Written, NoMemory>
        ensures { IfOk result (λ w. w ≡ (around self.now).written place tree.now) };

    /// The member of a name that values of a type have.
    fn member(&self, of: &Type, name: &str) -> Result<Option<Member>, NoMemory>
        ensures { IfOk result (λ m. m ≡ (around self.now).member of.now name.now) };

    /// The method of a name that values of a type have, for arguments of these types, where the name stands on this slice.
    fn method(
        &self,
        alloc: Global,
        of: &Type,
        name: &str,
        span: Span,
        arguments: &[Type],
    ) -> Result<Option<Callable>, NoMemory>
        ensures { IfOk result (λ m. m ≡ (around self.now).method of.now name.now span
            arguments.now) };

    /// The type to which an argument goes, by its number from 0, where the receiver has this type.
    fn target(&self, op: &ManyOp, receiver: &Type, number: usize) -> Result<Option<Type>, NoMemory>
        ensures { IfOk result (λ t. t ≡ (around self.now).target op.now receiver.now number) };

    /// Appends what stands for arguments that were left out, where so many were given.
    fn fill(
        &self,
        op: &ManyOp,
        span: Span,
        given: usize,
        parts: &mut Vec<Expr>,
    ) -> Result<(), NoMemory>
        ensures { OnOk result (parts.new.items
            ≡ parts.old.items ++ (around self.now).left_out op.now span given) };

    /// The type of what a function gives.
    fn result(&self, function: u32) -> Result<Type, NoMemory>
        ensures { IfOk result (λ t. t ≡ (around self.now).result function) };

    /// The number of a member of a tuple, where an index is constant and has one.
    fn item(&self, alloc: Global, index: &Expr) -> Result<Option<u32>, NoMemory>
        ensures { IfOk result (λ n. n ≡ (around self.now).item index.now) };
}
