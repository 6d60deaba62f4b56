// The typed expression of a tree.
ghost use Rattle.std.specs.Prelude.{◌≡◌, ◌∷◌, [], ◌||◌, if◌then◌else◌, false, IfOk, IfSome, IfNone};
ghost use Rattle.sp_ast.specs.Trees.{trees, tree, in_row, span_of};
ghost use Rattle.sp_ast.specs.ExprViews.{expr_tree};
ghost use Rattle.sp_ast.specs.declared.forms.Form.TheVariants as form_is;
ghost use Rattle.sp_ast.specs.declared.forms.ExprForm.TheVariants as expr_is;
ghost use Rattle.sp_type_context.specs.Contexts.{Around};
ghost use Rattle.sp_types.specs.Types.{word, is_known};
ghost use Rattle.sp_types.specs.declared.words.Maker.TheVariants.{Map};
ghost use Rattle.sp_types.specs.declared.words.Word.TheVariants as word_is;
ghost use Rattle.sp_typed.specs.declared.words.LeafOp.TheVariants as leaf_is;
ghost use Rattle.sp_typed.specs.declared.words.LeafOp.TheVariants.{Empty};
ghost use Rattle.sp_typed.specs.declared.words.OneOp.TheVariants.{Cast};
ghost use Rattle.sp_type_operands.specs.Operands.{unknown};
ghost use Rattle.sp_type_context.specs.declared.places.Place.TheVariants.{Whole, Key, Value};
ghost use Rattle.sp_type_exprs.specs.Alternatives.{has_list, has_operands};
ghost use Rattle.sp_type_context.specs.Typing.{typed, typed_all, pairs_typed, is_member, leaf_at, one_at, empty_type, both_written, cast_type, led, row_at, choice_at, new_at};

use crate::calls::{call_at, indexed, method_at, new_at};
use crate::nodes::{
    binary_at, both_written, cast_type, choice_at, member_of, one_at, set_member_of, unary_at,
};
use crate::rows::{led, map_at, row_at, tuple_at};
use sp_ast::{ExprKind, ExprView, Members, NameKind, PairKind, PathKind, Ref, TypeKind};
use sp_base::{ByteList, NoMemory, Span, Text, or_drop};
use sp_numbers::Width;
use sp_type_context::{Context, Place, leaf_at};
use sp_type_operands::{made_of_one, made_of_two};
use sp_typed::{Expr, LeafOp, ManyOp, OneOp};
use sp_types::{Maker, Type, Word, int_word};
use sp_words::BinaryOp;
use std::alloc::Global;

/// The typed expressions of trees.
#[cycle(typed)]
pub fn typed_all<C: Context>(
    alloc: Global,
    context: &C,
    members: &Members<'_, ExprKind>,
) -> Result<Vec<Expr>, NoMemory>
    ensures { IfOk result (λ r. r.items ≡ typed_all (C.around context.now) (trees members.now)) }
{
    let mut all = Vec::new(alloc);
    for tree in members.again() {
        all.push(typed(alloc, context, &tree)?)?;
    }
    Ok(all)
}

/// The typed keys and values of pairs.
#[cycle(typed)]
fn pairs_typed<C: Context>(
    alloc: Global,
    context: &C,
    pairs: &Members<'_, PairKind>,
) -> Result<Vec<(Expr, Expr)>, NoMemory>
    ensures { IfOk result (λ r. r.items ≡ pairs_typed (C.around context.now) (trees pairs.now)) }
{
    let mut all = Vec::new(alloc);
    for pair in pairs.again() {
        let pair = pair.view();
        let both = or_drop!(both_typed(alloc, context, &pair.key, &pair.value); all);
        or_drop!(all.push(both); all);
    }
    Ok(all)
}

/// The object and the name, where an expression is a member of something.
fn member_parts<'a>(e: &Ref<'a, ExprKind>) -> Option<(Ref<'a, ExprKind>, Ref<'a, NameKind>)>
    ensures some { IfSome result (λ p. tree (form_is.Expr expr_is.Member) (span_of e.now)
        (p.0 ∷ p.1 ∷ []) ≡ e.now) }
    ensures none { IfNone result (is_member e.now ≡ false) }
{
    match e.view() {
        ExprView::Member(object, name) => Some((object, name)),
        _ => None,
    }
}

/// `self.f(a)` where the callee is a member, and any other call.
#[cycle(typed)]
fn call_typed<C: Context>(
    alloc: Global,
    context: &C,
    span: Span,
    callee: &Ref<'_, ExprKind>,
    arguments: &Members<'_, ExprKind>,
) -> Result<Expr, NoMemory>
    ensures { IfOk result (λ e. e ≡ typed (C.around context.now)
        (tree (form_is.Expr expr_is.Call) span (callee.now ∷ in_row arguments.now ∷ []))) }
{
    match member_parts(callee) {
        Some((object, name)) => {
            let object = typed(alloc, context, &object)?;
            let list = or_drop!(typed_all(alloc, context, arguments); object);
            method_at(alloc, context, span, callee.span(), &name, object, list)
        }
        None => {
            let called = typed(alloc, context, callee)?;
            let list = or_drop!(typed_all(alloc, context, arguments); called);
            call_at(alloc, context, span, called, list)
        }
    }
}

/// A vector or a set of these expressions, literals among which take the type of the first that is none.
fn led_row(
    alloc: Global,
    span: Span,
    maker: Maker,
    op: ManyOp,
    list: Vec<Expr>,
) -> Result<Expr, NoMemory>
    ensures { IfOk result (λ e. e ≡ row_at span maker op (led list.items)) }
{
    let list = led(alloc, list)?;
    row_at(alloc, span, maker, op, list)
}

/// A literal text.
fn text_at(alloc: Global, span: Span, text: &str) -> Result<Expr, NoMemory>
    ensures { IfOk result (λ e. e ≡ leaf_at span (word word_is.String) (leaf_is.Text text.now)) }
{
    let op = LeafOp::Text(Text::new(alloc, text)?);
    Ok(leaf_at(span, Type::word(Word::String), op))
}

/// Literal bytes.
fn bytes_at(alloc: Global, span: Span, bytes: &[u8]) -> Result<Expr, NoMemory>
    ensures { IfOk result (λ e. e ≡ leaf_at span (word word_is.Bytes) (leaf_is.Bytes bytes.now)) }
{
    let op = LeafOp::Bytes(ByteList::from_slice(alloc, bytes)?);
    Ok(leaf_at(span, Type::word(Word::Bytes), op))
}

/// A literal regular expression.
fn regex_at(alloc: Global, span: Span, text: &str) -> Result<Expr, NoMemory>
    ensures { IfOk result (λ e. e ≡ leaf_at span (word word_is.Regex) (leaf_is.Regex text.now)) }
{
    let op = LeafOp::Regex(Text::new(alloc, text)?);
    Ok(leaf_at(span, Type::word(Word::Regex), op))
}

/// A type, if nothing in it is unknown.
fn known_type(t: Type) -> Type
    ensures { result ≡ if is_known t then t else unknown }
{
    if t.is_known() {
        t
    } else {
        Type::word(Word::Unknown)
    }
}

/// An empty vector or set of a type that is written, which stands at this place.
fn empty_row<C: Context>(
    alloc: Global,
    context: &C,
    span: Span,
    maker: Maker,
    place: Place,
    element: &Ref<'_, TypeKind>,
) -> Result<Expr, NoMemory>
    ensures { IfOk result (λ e. e ≡ leaf_at span (empty_type maker ((C.around context.now).type_in
        place element.now ∷ [])) (Empty ((C.around context.now).written place element.now))) }
{
    let written = context.written(alloc, place, element)?;
    let ty = made_of_one(alloc, maker, context.type_in(alloc, place, element)?)?;
    Ok(leaf_at(span, known_type(ty), LeafOp::Empty(written)))
}

/// An empty map of types that are written.
fn empty_map<C: Context>(
    alloc: Global,
    context: &C,
    span: Span,
    key: &Ref<'_, TypeKind>,
    value: &Ref<'_, TypeKind>,
) -> Result<Expr, NoMemory>
    ensures { IfOk result (λ e. e ≡ leaf_at span (empty_type Map ((C.around context.now).type_in
        Key key.now ∷ (C.around context.now).type_in Value value.now ∷ [])) (Empty (both_written
        ((C.around context.now).written Key key.now)
        ((C.around context.now).written Value value.now)))) }
{
    let written = both_written(
        context.written(alloc, Place::Key, key)?,
        context.written(alloc, Place::Value, value)?,
    );
    let key_type = context.type_in(alloc, Place::Key, key)?;
    let value_type = or_drop!(context.type_in(alloc, Place::Value, value); key_type);
    let ty = made_of_two(alloc, Maker::Map, key_type, value_type)?;
    Ok(leaf_at(span, known_type(ty), LeafOp::Empty(written)))
}

/// `cast<T>(e)`.
fn cast_of<C: Context>(
    alloc: Global,
    context: &C,
    span: Span,
    to: &Ref<'_, TypeKind>,
    operand: Expr,
) -> Result<Expr, NoMemory>
    ensures { IfOk result (λ e. e ≡ one_at span (cast_type ((C.around context.now).type_in Whole
        to.now)) (Cast ((C.around context.now).written Whole to.now)) operand) }
{
    let written = or_drop!(context.written(alloc, Place::Whole, to); operand);
    let ty = cast_type(or_drop!(context.type_in(alloc, Place::Whole, to); operand));
    one_at(alloc, span, ty, OneOp::Cast(written), operand)
}

/// `new path(a)`.
fn new_of<C: Context>(
    alloc: Global,
    context: &C,
    span: Span,
    path: &Ref<'_, PathKind>,
    list: Vec<Expr>,
) -> Result<Expr, NoMemory>
    ensures { IfOk result (λ e. e ≡ new_at (C.around context.now) span (span_of path.now)
        ((C.around context.now).named (span_of path.now) path.now) list.items) }
{
    let at = path.span();
    let callee = or_drop!(context.named(alloc, at, path); list);
    new_at(alloc, context, span, at, callee, list)
}

/// Two typed expressions.
#[cycle(typed)]
fn both_typed<C: Context>(
    alloc: Global,
    context: &C,
    first: &Ref<'_, ExprKind>,
    second: &Ref<'_, ExprKind>,
) -> Result<(Expr, Expr), NoMemory>
    ensures first { IfOk result (λ r. r.0 ≡ typed (C.around context.now) first.now) }
    ensures second { IfOk result (λ r. r.1 ≡ typed (C.around context.now) second.now) }
{
    let first = typed(alloc, context, first)?;
    let second = or_drop!(typed(alloc, context, second); first);
    Ok((first, second))
}

/// `c ? a : b`.
#[cycle(typed)]
fn choice_typed<C: Context>(
    alloc: Global,
    context: &C,
    span: Span,
    condition: &Ref<'_, ExprKind>,
    if_true: &Ref<'_, ExprKind>,
    if_false: &Ref<'_, ExprKind>,
) -> Result<Expr, NoMemory>
    ensures { IfOk result (λ e. e ≡ choice_at span (typed (C.around context.now) condition.now)
        (typed (C.around context.now) if_true.now) (typed (C.around context.now) if_false.now)) }
{
    let c = typed(alloc, context, condition)?;
    let (a, b) = or_drop!(both_typed(alloc, context, if_true, if_false); c);
    choice_at(alloc, span, c, a, b)
}

/// The typed expression of an alternative in which no expression stands.
fn plain_typed<C: Context>(
    alloc: Global,
    context: &C,
    span: Span,
    view: ExprView<'_>,
) -> Result<Expr, NoMemory>
    requires { has_list view || has_operands view ≡ false }
    ensures { IfOk result (λ e. e ≡ typed (C.around context.now) (expr_tree span view.entry)) }
{
    match view {
        ExprView::Path(path) => context.path(alloc, span, &path),
        ExprView::Itself => context.itself(span),
        ExprView::Current => context.current(span),
        ExprView::True => Ok(leaf_at(span, Type::word(Word::Bool), LeafOp::True)),
        ExprView::False => Ok(leaf_at(span, Type::word(Word::Bool), LeafOp::False)),
        ExprView::Number(n) => {
            let ty = Type::word(Word::Uint(Width::W64));
            Ok(leaf_at(span, ty, LeafOp::Number(n)))
        }
        ExprView::String(text) => text_at(alloc, span, text),
        ExprView::Bytes(bytes) => bytes_at(alloc, span, bytes),
        ExprView::Regex(text) => regex_at(alloc, span, text),
        ExprView::EmptyVector(element) => {
            empty_row(alloc, context, span, Maker::Vector, Place::Value, &element)
        }
        ExprView::EmptySet(element) => {
            empty_row(alloc, context, span, Maker::Set, Place::Key, &element)
        }
        ExprView::EmptyMap { key, value } => empty_map(alloc, context, span, &key, &value),
        ExprView::TypedNumber(word, number) => {
            let ty = Type::word(int_word(word));
            Ok(leaf_at(span, ty, LeafOp::TypedNumber(number.value())))
        }
        _ => unreachable!(),
    }
}

/// The typed expression of an alternative in which no list of expressions stands.
#[cycle(typed)]
fn operation_typed<C: Context>(
    alloc: Global,
    context: &C,
    span: Span,
    view: ExprView<'_>,
) -> Result<Expr, NoMemory>
    requires { has_list view ≡ false }
    ensures { IfOk result (λ e. e ≡ typed (C.around context.now) (expr_tree span view.entry)) }
{
    match view {
        ExprView::Cast(to, operand) => {
            let operand = typed(alloc, context, &operand)?;
            cast_of(alloc, context, span, &to, operand)
        }
        ExprView::Size(operand) => {
            let operand = typed(alloc, context, &operand)?;
            let ty = Type::word(Word::Uint(Width::W64));
            one_at(alloc, span, ty, OneOp::Size, operand)
        }
        ExprView::Choice {
            condition,
            if_true,
            if_false,
        } => choice_typed(alloc, context, span, &condition, &if_true, &if_false),
        ExprView::Member(object, name) => {
            let object = typed(alloc, context, &object)?;
            member_of(alloc, context, span, &name, object)
        }
        ExprView::SetMember(object, name) => {
            let object = typed(alloc, context, &object)?;
            set_member_of(alloc, context, span, &name, object)
        }
        ExprView::Index { object, index } => {
            let (object, index) = both_typed(alloc, context, &object, &index)?;
            indexed(alloc, context, span, object, index)
        }
        ExprView::Unary(op, operand) => {
            let operand = typed(alloc, context, &operand)?;
            unary_at(alloc, span, op, operand)
        }
        ExprView::Binary(op, left, right) => {
            let (left, right) = both_typed(alloc, context, &left, &right)?;
            binary_at(alloc, span, op, left, right)
        }
        view => plain_typed(alloc, context, span, view),
    }
}

/// The typed expression that a tree is, in what stands round it.
#[cycle(typed)]
pub fn typed<C: Context>(
    alloc: Global,
    context: &C,
    tree: &Ref<'_, ExprKind>,
) -> Result<Expr, NoMemory>
    ensures { IfOk result (λ e. e ≡ typed (C.around context.now) tree.now) }
{
    let span = tree.span();
    match tree.view() {
        ExprView::Tuple(members) => tuple_at(alloc, span, typed_all(alloc, context, &members)?),
        ExprView::Vector(members) => {
            let list = typed_all(alloc, context, &members)?;
            led_row(alloc, span, Maker::Vector, ManyOp::Vector, list)
        }
        ExprView::Set(members) => {
            let list = typed_all(alloc, context, &members)?;
            led_row(alloc, span, Maker::Set, ManyOp::Set, list)
        }
        ExprView::Map(pairs) => {
            let pairs = pairs_typed(alloc, context, &pairs)?;
            map_at(alloc, span, pairs)
        }
        ExprView::New(path, arguments) => {
            let list = typed_all(alloc, context, &arguments)?;
            new_of(alloc, context, span, &path, list)
        }
        ExprView::Call(callee, arguments) => call_typed(alloc, context, span, &callee, &arguments),
        view => operation_typed(alloc, context, span, view),
    }
}
