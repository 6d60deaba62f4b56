// Functions: their heads and bodies.
ghost use Rattle.std.specs.Prelude.{◌≡◌, IfOk};
ghost use Rattle.sp_ast.specs.Trees.{span_of};
ghost use Rattle.sp_ast.specs.Views.{optional_tree};
ghost use Rattle.sp_type_context.specs.declared.places.Place.TheVariants.{Value};
ghost use Rattle.sp_type_context.specs.Typing.{name_of};
ghost use Rattle.sp_type_stmts.specs.Statements.{written_type, written_of};
ghost use Rattle.sp_type_functions.specs.Functions.{or_void, function_body, no_function, function_of};
ghost use Rattle.sp_type_context.specs.Names.{path_of};

use sp_ast::{BlockKind, DeclKind, DeclView, NameKind, Ref, TypeKind};
use sp_base::{NoMemory, Span, Text, or_drop};
use sp_type_bodies::typed_body;
use sp_type_context::{Context, Place, path_of};
use sp_type_scopes::{Parameters, WithParameters, parameters_in};
use sp_type_stmts::{Body, written_of, written_type};
use sp_typed::{Stmt, StmtNode, Written};
use sp_typed_units::{Function, Parameter, Row};
use sp_types::{Type, Word};
use std::alloc::Global;

fn or_void(written: Option<Type>) -> Type
    ensures { result ≡ or_void written }
{
    match written {
        Some(ty) => ty,
        None => Type::word(Word::Void),
    }
}

/// The typed body of a function, and the types of its slots.
fn function_body<C: Context>(
    alloc: Global,
    context: &C,
    parameters: &[Parameter],
    returns: &Option<Ref<'_, TypeKind>>,
    tree: &Ref<'_, BlockKind>,
) -> Result<(Stmt, Vec<Type>), NoMemory>
    ensures body { IfOk result (λ r. r.0 ≡ (function_body (C.around context.now) parameters.now
        (optional_tree returns.now) tree.now).0) }
    ensures slots { IfOk result (λ r. r.1.items ≡ (function_body (C.around context.now)
        parameters.now (optional_tree returns.now) tree.now).1) }
{
    let seen = Parameters::new(alloc, parameters)?;
    let inside = WithParameters::new(context, &seen, 0, false);
    let result = or_drop!(written_type(alloc, context, Place::Value, returns); seen);
    let body = Body {
        result,
        in_foreach: false,
        sees_unit: false,
    };
    let typed = typed_body(alloc, &body, &inside, Vec::new(alloc), tree);
    drop(body);
    drop(seen);
    typed
}

/// What the head of a function says, apart from its parameters.
#[derive(Drop)]
pub(crate) struct Head {
    pub(crate) path: Text,
    pub(crate) span: Span,
    pub(crate) result: Type,
    pub(crate) written: Option<Written>,
}

fn head_of<C: Context>(
    alloc: Global,
    context: &C,
    owner: &str,
    name: &Ref<'_, NameKind>,
    returns: &Option<Ref<'_, TypeKind>>,
) -> Result<Head, NoMemory>
    ensures path { IfOk result (λ h. h.path ≡ path_of owner.now (name_of name.now)) }
    ensures span { IfOk result (λ h. h.span ≡ span_of name.now) }
    ensures gives { IfOk result (λ h. h.result
        ≡ or_void (written_type (C.around context.now) Value (optional_tree returns.now))) }
    ensures written { IfOk result (λ h. h.written
        ≡ written_of (C.around context.now) Value (optional_tree returns.now)) }
{
    let written = written_of(alloc, context, Place::Value, returns)?;
    let result = or_void(written_type(alloc, context, Place::Value, returns)?);
    let path = or_drop!(path_of(alloc, owner, name.text()); result);
    Ok(Head {
        path,
        span: name.span(),
        result,
        written,
    })
}

/// What is no function.
pub fn no_function(alloc: Global, module: u32) -> Result<Function, NoMemory>
    ensures { IfOk result (λ f. f ≡ no_function «module») }
{
    let path = Text::new(alloc, "")?;
    let body = or_drop!(Stmt::new(StmtNode::Block(Vec::new(alloc))); path);
    Ok(Function {
        path,
        module,
        span: Span { from: 0, to: 0 },
        parameters: Row::new(alloc),
        result: Type::word(Word::Unknown),
        written: None,
        slots: Row::new(alloc),
        body,
    })
}

/// The function that a tree declares, in what stands round it in its module: its name behind that of the module, its parameters,
/// its result, and its body, which sees the parameters. Of another tree it is a function without a name.
pub fn function_of<C: Context>(
    alloc: Global,
    context: &C,
    owner: &str,
    module: u32,
    tree: &Ref<'_, DeclKind>,
) -> Result<Function, NoMemory>
    ensures { IfOk result (λ f. f
        ≡ function_of (C.around context.now) owner.now «module» tree.now) }
{
    match tree.view() {
        DeclView::Function {
            name,
            parameters,
            returns,
            body,
            ..
        } => {
            let head = head_of(alloc, context, owner, &name, &returns)?;
            let own = or_drop!(parameters_in(alloc, context, parameters); head);
            let inside = function_body(alloc, context, &own, &returns, &body);
            let (body, slots) = or_drop!(inside; head, own);
            Ok(Function {
                path: head.path,
                module,
                span: head.span,
                parameters: Row::from_vec(own),
                result: head.result,
                written: head.written,
                slots: Row::from_vec(slots),
                body,
            })
        }
        _ => no_function(alloc, module),
    }
}
