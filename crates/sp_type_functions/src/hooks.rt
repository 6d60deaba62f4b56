// Hooks: their parameters, their priorities and their bodies.
ghost use Rattle.std.specs.Prelude.{◌≡◌, [], IfOk};
ghost use Rattle.sp_type_functions.specs.Events.{is_of_sink, is_of_elements, fits};
ghost use Rattle.sp_type_functions.specs.Hooks.{self_type, self_standing, current_type, current_standing, hook_around, hook_body, priority_around, priority_in, rank_of, hook_with, hook_of_body, hook_behind, hook_on};
ghost use Rattle.sp_type_stmts.specs.Statements.{typed_body};

use crate::events::{fits, is_of_elements, is_of_sink};
use crate::ranks::Ranks;
use crate::site::Site;
use sp_ast::{BlockKind, ExprKind, HookBodyKind, HookKind, Ref, is_present};
use sp_base::{NoMemory, or_drop};
use sp_numbers::Width;
use sp_type_bodies::typed_body;
use sp_type_context::Context;
use sp_type_exprs::typed;
use sp_type_operands::taken;
use sp_type_scopes::{Parameters, WithCurrent, WithParameters, WithSelf, parameters_in};
use sp_type_stmts::Body;
use sp_typed::{Expr, Standing, Stmt};
use sp_typed_units::{Hook, HookOf, Parameter, Rare, Row};
use sp_types::{Type, Word};
use std::alloc::Global;

/// The type of `self`.
fn self_type(of: HookOf) -> Type
    ensures { result ≡ self_type of }
{
    match of {
        HookOf::Nothing => Type::word(Word::Unknown),
        HookOf::Unit(unit, _)
        | HookOf::Field(unit, _)
        | HookOf::Elements(unit, _)
        | HookOf::Anonymous(unit)
        | HookOf::AnonymousElements(unit) => Type::word(Word::Unit(unit)),
    }
}

fn self_standing(of: HookOf) -> Standing
    ensures { result ≡ self_standing of }
{
    if is_of_sink(of) {
        Standing::Hidden
    } else {
        Standing::Meant
    }
}

/// The type of `$$`.
fn current_type(of: HookOf, current: &Type) -> Result<Type, NoMemory>
    ensures { IfOk result (λ t. t ≡ current_type of current.now) }
{
    match of {
        HookOf::Nothing | HookOf::Unit(..) => Ok(Type::word(Word::Unknown)),
        _ => current.copy(),
    }
}

fn current_standing(of: HookOf) -> Standing
    ensures { result ≡ current_standing of }
{
    match of {
        HookOf::Unit(..) => Standing::Unmeant,
        _ => Standing::Meant,
    }
}

/// What a body of a hook is to its statements.
fn hook_body(of: HookOf) -> Body
    ensures { result ≡ hook_body of }
{
    Body {
        result: None,
        in_foreach: is_of_elements(of),
        sees_unit: !is_of_sink(of),
    }
}

/// The priority, a literal of which is a signed integer.
fn priority_in<C: Context>(
    alloc: Global,
    context: &C,
    priority: &Option<Ref<'_, ExprKind>>,
) -> Result<Option<Expr>, NoMemory>
    ensures { IfOk result (λ e. e ≡ priority_in (C.around context.now) priority.now) }
{
    match priority {
        Some(tree) => {
            let e = typed(alloc, context, tree)?;
            let to = Type::word(Word::Int(Width::W64));
            let e = taken(&to, e);
            drop(to);
            Ok(Some(e))
        }
        None => Ok(None),
    }
}

/// The number that a priority is, where it is one; 0 without one.
fn rank_of<R: Ranks>(
    alloc: Global,
    ranks: &R,
    priority: &Option<Expr>,
) -> Result<Option<i64>, NoMemory>
    ensures { IfOk result (λ n. n ≡ rank_of (R.ranks ranks.now) priority.now) }
{
    match priority {
        Some(e) => ranks.rank(alloc, e),
        None => Ok(Some(0)),
    }
}

/// What is typed of a hook where its parameters are seen: its priority and the number that this is, its body, and the types of
/// its slots.
#[derive(Drop)]
pub(crate) struct Inside {
    pub(crate) priority: Rare<Expr>,
    pub(crate) rank: Option<i64>,
    pub(crate) body: Stmt,
    pub(crate) slots: Vec<Type>,
}

/// The priority and the body of a hook, each in what stands round it.
fn inside_of<P: Context, C: Context, R: Ranks>(
    alloc: Global,
    outside: &P,
    inside: &C,
    ranks: &R,
    of: HookOf,
    priority: &Option<Ref<'_, ExprKind>>,
    tree: &Ref<'_, BlockKind>,
) -> Result<Inside, NoMemory>
    ensures priority { IfOk result (λ r. r.priority
        ≡ priority_in (P.around outside.now) priority.now) }
    ensures rank { IfOk result (λ r. r.rank
        ≡ rank_of (R.ranks ranks.now) (priority_in (P.around outside.now) priority.now)) }
    ensures body { IfOk result (λ r. r.body
        ≡ (typed_body (hook_body of) (C.around inside.now) [] tree.now).0) }
    ensures slots { IfOk result (λ r. r.slots.items
        ≡ (typed_body (hook_body of) (C.around inside.now) [] tree.now).1) }
{
    let priority = priority_in(alloc, outside, priority)?;
    let rank = or_drop!(rank_of(alloc, ranks, &priority); priority);
    let of_body = hook_body(of);
    let found = typed_body(alloc, &of_body, inside, Vec::new(alloc), tree);
    drop(of_body);
    let (body, slots) = or_drop!(found; priority);
    let priority = or_drop!(Rare::new(alloc, priority); body, slots);
    Ok(Inside {
        priority,
        rank,
        body,
        slots,
    })
}

/// The priority and the body of a hook, where it sees its own parameters and those of its unit.
fn hook_inside<C: Context, R: Ranks>(
    alloc: Global,
    context: &C,
    ranks: &R,
    site: &Site,
    units: &Parameters<'_>,
    own: &[Parameter],
    priority: &Option<Ref<'_, ExprKind>>,
    tree: &Ref<'_, BlockKind>,
) -> Result<Inside, NoMemory>
    ensures priority { IfOk result (λ r. r.priority
        ≡ priority_in (priority_around site.now.of units.now own.now (C.around context.now))
        priority.now) }
    ensures rank { IfOk result (λ r. r.rank ≡ rank_of (R.ranks ranks.now)
        (priority_in (priority_around site.now.of units.now own.now (C.around context.now))
        priority.now)) }
    ensures body { IfOk result (λ r. r.body ≡ (typed_body (hook_body site.now.of)
        (hook_around site.now.of site.now.current units.now own.now (C.around context.now)) []
        tree.now).0) }
    ensures slots { IfOk result (λ r. r.slots.items ≡ (typed_body (hook_body site.now.of)
        (hook_around site.now.of site.now.current units.now own.now (C.around context.now)) []
        tree.now).1) }
{
    let of = site.of;
    let first = u32::try_from(own.len()).map_err(|_| NoMemory)?;
    let itself = self_type(of);
    let current = or_drop!(current_type(of, &site.current); itself);
    let seen = or_drop!(Parameters::new(alloc, own); itself, current);
    let unit = WithParameters::new(context, units, first, is_of_sink(of));
    let outside = WithParameters::new(&unit, &seen, 0, false);
    let with_self = WithSelf::new(&unit, &itself, self_standing(of));
    let with_current = WithCurrent::new(&with_self, &current, current_standing(of));
    let around = WithParameters::new(&with_current, &seen, 0, false);
    let inside = inside_of(alloc, &outside, &around, ranks, of, priority, tree);
    drop(seen);
    drop(current);
    drop(itself);
    inside
}

fn hook_with(site: &Site, each: bool, own: Vec<Parameter>, inside: Inside) -> Hook
    ensures { result ≡ hook_with site.now each own.items inside.priority inside.rank
        (inside.body, inside.slots.items) }
{
    let fits = fits(site.of, each, site.container, &own);
    Hook {
        module: site.module,
        span: site.span,
        of: site.of,
        fits,
        parameters: Row::from_vec(own),
        priority: inside.priority,
        rank: inside.rank,
        slots: Row::from_vec(inside.slots),
        body: inside.body,
    }
}

/// The hook that a tree is with these parameters of its own.
fn hook_of_body<C: Context, R: Ranks>(
    alloc: Global,
    context: &C,
    ranks: &R,
    site: &Site,
    units: &Parameters<'_>,
    own: Vec<Parameter>,
    tree: &Ref<'_, HookBodyKind>,
) -> Result<Hook, NoMemory>
    ensures { IfOk result (λ h. h ≡ hook_of_body (C.around context.now) (R.ranks ranks.now)
        site.now units.now own.items tree.now) }
{
    let view = tree.view();
    is_present(&view.priority);
    let inside = hook_inside(
        alloc,
        context,
        ranks,
        site,
        units,
        &own,
        &view.priority,
        &view.block,
    );
    let inside = or_drop!(inside; own);
    Ok(hook_with(site, view.each, own, inside))
}

/// The hook that is written behind a field, in what stands round it in its module. `units` are the parameters of the unit of
/// which it is.
pub fn hook_behind<C: Context, R: Ranks>(
    alloc: Global,
    context: &C,
    ranks: &R,
    site: &Site,
    units: &Parameters<'_>,
    tree: &Ref<'_, HookBodyKind>,
) -> Result<Hook, NoMemory>
    ensures { IfOk result (λ h. h ≡ hook_behind (C.around context.now) (R.ranks ranks.now)
        site.now units.now tree.now) }
{
    hook_of_body(alloc, context, ranks, site, units, Vec::new(alloc), tree)
}

/// The hook that is written with `on`, in what stands round it in its module. `units` are the parameters of the unit of which it
/// is; a hook of nothing has none.
pub fn hook_on<C: Context, R: Ranks>(
    alloc: Global,
    context: &C,
    ranks: &R,
    site: &Site,
    units: &Parameters<'_>,
    tree: &Ref<'_, HookKind>,
) -> Result<Hook, NoMemory>
    ensures { IfOk result (λ h. h ≡ hook_on (C.around context.now) (R.ranks ranks.now) site.now
        units.now tree.now) }
{
    let view = tree.view();
    let own = parameters_in(alloc, context, view.parameters)?;
    hook_of_body(alloc, context, ranks, site, units, own, &view.body)
}
