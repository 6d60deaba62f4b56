// Parameters, and what stands round an expression that sees them.
ghost use Rattle.std.specs.Prelude.{◌≡◌, ◌∷◌, ◌++◌, option_copied, slice_get, IfOk, OnOk};
ghost use Rattle.sp_ast.specs.Trees.{trees};
ghost use Rattle.sp_type_context.specs.Names.{single_name};
ghost use Rattle.sp_type_scopes.specs.Parameters.{parameter_of, parameters_in, standing_of, numbered_maybe, parameter_at, parameter_leaf, or_outside, with_parameters};

use crate::numbers::numbers_of;
use sp_ast::{Members, NameKind, ParameterKind, PathKind, Ref, TypeKind};
use sp_base::{NoMemory, Span, Text, or_drop};
use sp_name_tables::{NameTable, look_up, sum};
use sp_type_context::{Callable, Context, Member, Place, parameter_place, single_name};
use sp_typed::{Expr, Leaf, LeafOp, ManyOp, Standing, Written};
use sp_typed_units::Parameter;
use sp_types::Type;
use std::alloc::Global;
use std::marker::Model;

/// A parameter of a name and a written type.
fn parameter_of<C: Context>(
    alloc: Global,
    context: &C,
    inout: bool,
    name: &Ref<'_, NameKind>,
    tree: &Ref<'_, TypeKind>,
) -> Result<Parameter, NoMemory>
    ensures { IfOk result (λ p. p ≡ parameter_of (C.around context.now) inout name.now tree.now) }
{
    let text = Text::new(alloc, name.text())?;
    let span = name.span();
    let place = parameter_place(inout);
    let written = or_drop!(context.written(alloc, place, tree); text);
    let ty = or_drop!(context.type_in(alloc, place, tree); text);
    Ok(Parameter {
        name: text,
        span,
        written,
        ty,
        inout,
    })
}

/// The parameters of a row, in the order of the text, in what stands round them.
pub fn parameters_in<C: Context>(
    alloc: Global,
    context: &C,
    list: Members<'_, ParameterKind>,
) -> Result<Vec<Parameter>, NoMemory>
    ensures { IfOk result (λ v. v.items
        ≡ parameters_in (C.around context.now) (trees list.entry)) }
{
    let mut all = Vec::new(alloc);
    for parameter in list {
        let view = parameter.view();
        all.push(parameter_of(alloc, context, view.inout, &view.name, &view.type_)?)?;
    }
    Ok(all)
}

/// The parameters of a function, a unit or a hook, to be found by their names. Clauses see the row of them. A look-up takes about
/// the same time however many there are.
#[derive(Drop)]
pub struct Parameters<'a> {
    all: &'a [Parameter],
    numbers: NameTable,
}

impl<'a> Model for Parameters<'a> {
    ghost use Rattle.std.specs.Prelude.{List};
    ghost use Rattle.std.specs.Coded.{codes, coded_list};
    ghost use Rattle.sp_types.specs.contracts.types.Type as type_row;
    ghost use Rattle.sp_typed_units.specs.declared.declarations.Parameter.{Parameter as Data};
    ghost use Rattle.sp_type_scopes.specs.inside.Tables.{AreNumbered};
    ghost use Rattle.sp_name_tables.specs.Tables.{told_by};

    ghost Value = { List Data };

    ghost coded = { coded_list (Prim.hlevel (codes, type_row.the_row.coded)) };

    ghost view = { λ s. s.all.now };

    ghost invariant = { λ s. AreNumbered s.all.now (told_by s.numbers) };
}

impl<'a> Parameters<'a> {
    ghost use Rattle.std.specs.Prelude.{◌≡◌, slice_get, option_copied, IfOk};
    ghost use Rattle.sp_type_scopes.specs.Parameters.{numbered};

    /// The parameters of a row.
    pub fn new(alloc: Global, all: &'a [Parameter]) -> Result<Parameters<'a>, NoMemory>
        ensures { IfOk result (λ p. p ≡ all.now) }
    {
        let numbers = numbers_of(alloc, all)?;
        Ok(Parameters { all, numbers })
    }

    /// The number of the first of a name.
    fn number(&self, name: &str) -> Option<u32>
        ensures { result ≡ numbered name.now 0 self.now }
    {
        look_up(&self.numbers, name)
    }

    /// The one of a number.
    fn get(&self, number: u32) -> Option<&Parameter>
        ensures { option_copied result ≡ slice_get self.now number }
    {
        self.all.get(number as usize)
    }
}

/// The number of the parameter that a path is, if it is one.
fn number_of(parameters: &Parameters<'_>, path: &Ref<'_, PathKind>) -> Option<u32>
    ensures { result ≡ numbered_maybe (single_name path.now) parameters.now }
{
    match single_name(path) {
        Some(name) => parameters.number(name),
        None => None,
    }
}

/// How a parameter of a type stands in a body.
fn standing_of(hides: bool, ty: &Type) -> Standing
    ensures { result ≡ standing_of hides ty.now }
{
    if hides && !ty.is_plain() {
        Standing::Hidden
    } else {
        Standing::Meant
    }
}

/// The parameter of a number in its row, as a body sees it in which the first has another one.
fn parameter_at(
    parameters: &Parameters<'_>,
    first: u32,
    hides: bool,
    span: Span,
    number: u32,
) -> Result<Option<Expr>, NoMemory>
    ensures { IfOk result (λ e. e
        ≡ parameter_at span first hides number (slice_get parameters.now number)) }
{
    match parameters.get(number) {
        Some(parameter) => {
            let ty = parameter.ty.copy()?;
            let place = or_drop!(sum(first, number); ty);
            Ok(Some(Expr::leaf(Leaf {
                span,
                ty,
                op: LeafOp::Parameter(place, standing_of(hides, &parameter.ty)),
            })))
        }
        None => Ok(None),
    }
}

/// What stands round an expression, with parameters that it sees by their names.
#[derive(Drop)]
pub struct WithParameters<'a, C: Context> {
    outside: &'a C,
    parameters: &'a Parameters<'a>,
    first: u32,
    hides: bool,
}

impl<'a, C: Context> WithParameters<'a, C> {
    /// What stands round an expression, with these parameters. The first of them has the number `first` in its body, and where
    /// `hides` is set, those that aren't plain are hidden.
    pub fn new(
        outside: &'a C,
        parameters: &'a Parameters<'a>,
        first: u32,
        hides: bool,
    ) -> WithParameters<'a, C>
        ensures outside { result.outside.now ≡ outside.now }
        ensures parameters { result.parameters.now ≡ parameters.now }
        ensures first { result.first ≡ first }
        ensures hides { result.hides ≡ hides }
    {
        WithParameters {
            outside,
            parameters,
            first,
            hides,
        }
    }

    /// The parameter that a path is, if it is one.
    fn parameter(&self, span: Span, path: &Ref<'_, PathKind>) -> Result<Option<Expr>, NoMemory>
        ensures { IfOk result (λ e. e
            ≡ parameter_leaf span self.now.first self.now.hides self.now.parameters.now
            (numbered_maybe (single_name path.now) self.now.parameters.now)) }
    {
        match number_of(self.parameters, path) {
            Some(number) => parameter_at(self.parameters, self.first, self.hides, span, number),
            None => Ok(None),
        }
    }
}

impl<'a, C: Context> Context for WithParameters<'a, C> {
    ghost around = { λ w. with_parameters w.first w.hides w.parameters.now (C.around w.outside.now) };

    fn path(&self, alloc: Global, span: Span, path: &Ref<'_, PathKind>) -> Result<Expr, NoMemory> {
        match self.parameter(span, path)? {
            Some(parameter) => Ok(parameter),
            None => self.outside.path(alloc, span, path),
        }
    }

    fn named(&self, alloc: Global, span: Span, path: &Ref<'_, PathKind>) -> Result<Expr, NoMemory> {
        self.outside.named(alloc, span, path)
    }

    fn itself(&self, span: Span) -> Result<Expr, NoMemory> {
        self.outside.itself(span)
    }

    fn current(&self, span: Span) -> Result<Expr, NoMemory> {
        self.outside.current(span)
    }

    fn type_in(
        &self,
        alloc: Global,
        place: Place,
        tree: &Ref<'_, TypeKind>,
    ) -> Result<Type, NoMemory> {
        self.outside.type_in(alloc, place, tree)
    }

    fn written(
        &self,
        alloc: Global,
        place: Place,
        tree: &Ref<'_, TypeKind>,
    ) -> Result<Written, NoMemory> {
        self.outside.written(alloc, place, tree)
    }

    fn member(&self, of: &Type, name: &str) -> Result<Option<Member>, NoMemory> {
        self.outside.member(of, name)
    }

    fn method(
        &self,
        alloc: Global,
        of: &Type,
        name: &str,
        span: Span,
        arguments: &[Type],
    ) -> Result<Option<Callable>, NoMemory> {
        self.outside.method(alloc, of, name, span, arguments)
    }

    fn target(
        &self,
        op: &ManyOp,
        receiver: &Type,
        number: usize,
    ) -> Result<Option<Type>, NoMemory> {
        self.outside.target(op, receiver, number)
    }

    fn fill(
        &self,
        op: &ManyOp,
        span: Span,
        given: usize,
        parts: &mut Vec<Expr>,
    ) -> Result<(), NoMemory> {
        self.outside.fill(op, span, given, parts)
    }

    fn result(&self, function: u32) -> Result<Type, NoMemory> {
        self.outside.result(function)
    }

    fn item(&self, alloc: Global, index: &Expr) -> Result<Option<u32>, NoMemory> {
        self.outside.item(alloc, index)
    }
}
