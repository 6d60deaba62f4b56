// Parts of units: fields and switches.
ghost use Rattle.std.specs.Prelude.{◌≡◌, map, IfOk, List};
ghost use Rattle.sp_ast.specs.Trees.{Tree, trees};
ghost use Rattle.sp_typed_units.specs.Parts.{field, arms};
ghost use Rattle.sp_type_operands.specs.Literals.{taken, seen};
ghost use Rattle.sp_type_fields.specs.Attributes.{maybe_typed};
ghost use Rattle.sp_type_fields.specs.Parts.{Fields, field_place, member_number, is_taken, field_with, field_of, settled_to, arm_of, field_in, part_of, parts_of, body_of, arms_of};

use crate::attributes::stored_by;
use crate::constants::Constants;
use crate::optional::{maybe_typed, rarely_typed};
use crate::readings::{Read, counted_read};
use sp_ast::{
    ArmKind, AttributeKind, BodyKind, BodyView, ExprKind, FieldKind, FieldView, GuardKind,
    GuardView, Members, NameKind, PartKind, PartView, Ref, is_present,
};
use sp_base::{NoMemory, Span, or_drop};
use sp_type_context::Context;
use sp_type_exprs::typed_all;
use sp_type_operands::{seen, taken};
use sp_typed::Expr;
use sp_typed_units::{Arm, Field, Numbers, Part, PartNode, Rare, Row};
use sp_types::Type;
use std::alloc::Global;

/// What a unit knows of its fields.
pub trait FieldTable {
    ghost fields: { Self → Fields };

    /// The number of the member of a name, among those of the unit.
    fn number(&self, name: &str) -> u32
        ensures { result ≡ (fields self.now).number name.now };

    /// Whether the unit has the name of the field at this place already.
    fn taken(&self, at: Span) -> bool
        ensures { result ≡ (fields self.now).taken at };

    /// The numbers of the hooks of the field at this place, in the order in which they run.
    fn hooks(&self, at: Span) -> Result<Numbers, NoMemory>
        ensures { IfOk result (λ r. r ≡ (fields self.now).hooks at) };
}

fn field_place(span: Span, name: &Option<Ref<'_, NameKind>>) -> Span
    ensures { result ≡ field_place span name.now }
{
    match name {
        Some(name) => name.span(),
        None => Span {
            from: span.from,
            to: span.from,
        },
    }
}

fn member_number<F: FieldTable>(table: &F, name: &Option<Ref<'_, NameKind>>) -> Option<u32>
    ensures { result ≡ member_number (F.fields table.now) name.now }
{
    match name {
        Some(name) => Some(table.number(name.text())),
        None => None,
    }
}

fn is_taken<F: FieldTable>(table: &F, name: &Option<Ref<'_, NameKind>>) -> bool
    ensures { result ≡ is_taken (F.fields table.now) name.now }
{
    match name {
        Some(name) => table.taken(name.span()),
        None => false,
    }
}

/// What stands round a field: its condition, its sink and its hooks.
#[derive(Drop)]
struct Guards {
    condition: Rare<Expr>,
    sink: Rare<Expr>,
    hooks: Numbers,
}

fn guards_of<C: Context, F: FieldTable>(
    alloc: Global,
    context: &C,
    table: &F,
    place: Span,
    view: &FieldView<'_>,
) -> Result<Guards, NoMemory>
    ensures condition { IfOk result (λ x. x.condition
        ≡ maybe_typed (C.around context.now) view.now.condition) }
    ensures sink { IfOk result (λ x. x.sink ≡ maybe_typed (C.around context.now) view.now.sink) }
    ensures hooks { IfOk result (λ x. x.hooks ≡ (F.fields table.now).hooks place) }
{
    let condition = rarely_typed(alloc, context, &view.condition)?;
    let sink = or_drop!(rarely_typed(alloc, context, &view.sink); condition);
    let hooks = or_drop!(table.hooks(place); condition, sink);
    Ok(Guards {
        condition,
        sink,
        hooks,
    })
}

/// A field that is read so.
fn field_of<C: Context, V: Constants, F: FieldTable>(
    alloc: Global,
    context: &C,
    constants: &V,
    table: &F,
    span: Span,
    view: &FieldView<'_>,
    read: Read,
) -> Result<Field, NoMemory>
    ensures { IfOk result (λ x. x ≡ field_of (C.around context.now) (V.values constants.now)
        (F.fields table.now) span view.now.name read (trees view.now.attributes)
        view.now.condition view.now.sink) }
{
    let place = field_place(span, &view.name);
    let guards = or_drop!(guards_of(alloc, context, table, place, view); read);
    let Read { spec, ty, kind } = read;
    let stored = or_drop!(
        stored_by(alloc, context, constants, kind, ty, true, &view.attributes);
        guards, spec
    );
    Ok(Field {
        span: place,
        member: member_number(table, &view.name),
        taken: is_taken(table, &view.name),
        ty: stored.ty,
        spec,
        attributes: Row::from_vec(stored.attributes),
        condition: guards.condition,
        sink: guards.sink,
        hooks: guards.hooks,
    })
}

/// A field.
fn field_typed<C: Context, V: Constants, F: FieldTable>(
    alloc: Global,
    context: &C,
    constants: &V,
    table: &F,
    tree: &Ref<'_, FieldKind>,
) -> Result<Field, NoMemory>
    ensures { IfOk result (λ x. field x ≡ field_in (C.around context.now) (V.values constants.now)
        (F.fields table.now) tree.now) }
{
    let view = tree.view();
    is_present(&view.name);
    is_present(&view.condition);
    is_present(&view.sink);
    let read = counted_read(alloc, context, constants, &view.base, &view.counts)?;
    field_of(alloc, context, constants, table, tree.span(), &view, read)
}

fn all_taken(alloc: Global, to: &Type, list: Vec<Expr>) -> Result<Vec<Expr>, NoMemory>
    ensures { IfOk result (λ r. r.items ≡ map (taken to.now) list.items) }
{
    let mut all = Vec::with_capacity(alloc, list.len())?;
    for e in list {
        all.push(taken(to, e))?;
    }
    Ok(all)
}

/// Values of an arm: literals take the type of what is compared with them.
fn settled_to(alloc: Global, subject: &Option<Expr>, list: Vec<Expr>) -> Result<Vec<Expr>, NoMemory>
    ensures { IfOk result (λ r. r.items ≡ settled_to subject.now list.items) }
{
    match subject {
        Some(e) => {
            let to = or_drop!(seen(e); list);
            let all = all_taken(alloc, &to, list);
            drop(to);
            all
        }
        None => Ok(list),
    }
}

fn arm_of<C: Context>(
    alloc: Global,
    context: &C,
    subject: &Option<Expr>,
    guard: &Ref<'_, GuardKind>,
) -> Result<Arm, NoMemory>
    ensures { IfOk result (λ a. a ≡ arm_of (C.around context.now) subject.now guard.now) }
{
    let span = guard.span();
    match guard.view() {
        GuardView::Otherwise => Ok(Arm {
            span,
            values: Row::new(alloc),
            otherwise: true,
        }),
        GuardView::Values(values) => {
            let list = settled_to(alloc, subject, typed_all(alloc, context, &values)?)?;
            Ok(Arm {
                span,
                values: Row::from_vec(list),
                otherwise: false,
            })
        }
        GuardView::LookAhead => Ok(Arm {
            span,
            values: Row::new(alloc),
            otherwise: false,
        }),
    }
}

/// The typed parts that trees are.
#[cycle(part)]
pub fn parts_of<C: Context, V: Constants, F: FieldTable>(
    alloc: Global,
    context: &C,
    constants: &V,
    table: &F,
    list: &Members<'_, PartKind>,
) -> Result<Vec<Part>, NoMemory>
    ensures { IfOk result (λ r. r.items ≡ parts_of (C.around context.now)
        (V.values constants.now) (F.fields table.now) (trees list.now)) }
{
    let mut all = Vec::with_capacity(alloc, list.len())?;
    for part in list.again() {
        let typed = or_drop!(part_of(alloc, context, constants, table, &part); all);
        or_drop!(all.push(typed); all);
    }
    Ok(all)
}

/// What an arm reads.
#[cycle(part)]
fn body_of<C: Context, V: Constants, F: FieldTable>(
    alloc: Global,
    context: &C,
    constants: &V,
    table: &F,
    body: &Ref<'_, BodyKind>,
) -> Result<Vec<Part>, NoMemory>
    ensures { IfOk result (λ r. r.items ≡ body_of (C.around context.now)
        (V.values constants.now) (F.fields table.now) body.now) }
{
    match body.view() {
        BodyView::Nothing => Ok(Vec::new(alloc)),
        BodyView::One(part) => {
            let mut all = Vec::with_capacity(alloc, 1)?;
            let only = or_drop!(part_of(alloc, context, constants, table, &part); all);
            or_drop!(all.push(only); all);
            Ok(all)
        }
        BodyView::Many(list) => parts_of(alloc, context, constants, table, &list),
    }
}

/// The arms of a switch, with what they read.
#[cycle(part)]
fn arms_of<C: Context, V: Constants, F: FieldTable>(
    alloc: Global,
    context: &C,
    constants: &V,
    table: &F,
    subject: &Option<Expr>,
    list: &Members<'_, ArmKind>,
) -> Result<Vec<(Arm, Vec<Part>)>, NoMemory>
    ensures { IfOk result (λ r. arms r.items ≡ arms_of (C.around context.now)
        (V.values constants.now) (F.fields table.now) subject.now (trees list.now)) }
{
    let mut all = Vec::with_capacity(alloc, list.len())?;
    for arm in list.again() {
        let arm = arm.view();
        let head = arm_of(alloc, context, subject, &arm.guard)?;
        let body = body_of(alloc, context, constants, table, &arm.body)?;
        all.push((head, body))?;
    }
    Ok(all)
}

/// The typed part that a tree is.
#[cycle(part)]
pub fn part_of<C: Context, V: Constants, F: FieldTable>(
    alloc: Global,
    context: &C,
    constants: &V,
    table: &F,
    part: &Ref<'_, PartKind>,
) -> Result<Part, NoMemory>
    ensures { IfOk result (λ p. p ≡ part_of (C.around context.now) (V.values constants.now)
        (F.fields table.now) part.now) }
{
    let span = part.span();
    match part.view() {
        PartView::Field(field) => {
            let node = field_typed(alloc, context, constants, table, &field)?;
            Ok(Part::new(PartNode::Field(node)))
        }
        PartView::Switch { subject, arms } => {
            is_present(&subject);
            let subject = maybe_typed(alloc, context, &subject)?;
            let rows = or_drop!(
                arms_of(alloc, context, constants, table, &subject, &arms);
                subject
            );
            Ok(Part::new(PartNode::Switch(span, subject, rows)))
        }
    }
}
