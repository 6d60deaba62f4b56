// The rules at one node of an expression: where filters stand, and what a sink hook and a `new` may use.
ghost use Rattle.std.specs.Prelude.{◌≡◌, ◌&&◌, not};
ghost use Rattle.sp_rules.specs.Least.{checked};
ghost use Rattle.sp_typed.specs.Exprs.{exprs};
ghost use Rattle.sp_rule_units.specs.Filters.{is_filter, connects_filter, is_hidden, leaf_tests, plain_tests, itself_leaf, is_itself, starts_filter, filter_op, other_op, is_new_filter, is_new_other, connected_filter_tests, connected_tests, may_connect, may_forward, unit_call_tests, sink_call_tests, many_tests, node_tests};

use crate::here::Here;
use sp_base::Span;
use sp_rules::{Fault, Rule, note_at};
use sp_typed::{
    Expr, ExprLevel, Leaf, LeafOp, Many, ManyOp, NewOf, SinkMethod, Standing, UnitMethod,
};
use sp_typed_units::Unit;

/// Whether the unit of a number has `%filter`.
#[tactic(auto, using(crate::proofs::Units::filter_at, crate::proofs::Units::no_filter))]
pub(crate) fn is_filter(units: &[Unit], n: u32) -> bool
    ensures { result ≡ is_filter units.now n }
{
    match units.get(n as usize) {
        Some(unit) => unit.filter,
        None => false,
    }
}

/// Whether the unit of a number calls `connect_filter`.
#[tactic(auto, using(crate::proofs::Units::connects_at, crate::proofs::Units::connects_none))]
pub(crate) fn connects_filter(units: &[Unit], n: u32) -> bool
    ensures { result ≡ connects_filter units.now n }
{
    match units.get(n as usize) {
        Some(unit) => unit.connects_filter,
        None => false,
    }
}

fn is_hidden(standing: Standing) -> bool
    ensures { result ≡ is_hidden standing }
{
    matches!(standing, Standing::Hidden)
}

fn note_leaf(owner: u32, head: &Leaf, least: &mut Option<Fault>)
    ensures { least.new ≡ checked least.old (leaf_tests owner head.now.span head.now.op) }
{
    match &head.op {
        LeafOp::Itself(standing) | LeafOp::Parameter(_, standing) => {
            let hidden = is_hidden(*standing);
            note_at(hidden, owner, Rule::HookSeesState, head.span, least);
        }
        _ => {}
    }
}

fn note_plain(owner: u32, arguments: &[Expr], least: &mut Option<Fault>)
    ensures { least.new ≡ checked least.old (plain_tests owner (exprs arguments.now)) }
{
    for e in arguments {
        let plain = e.ty().is_plain();
        note_at(!plain, owner, Rule::HookSeesState, e.span(), least);
    }
}

fn is_itself(e: &Expr) -> bool
    ensures { result ≡ is_itself e.now }
{
    match e.level() {
        ExprLevel::Leaf(head) => matches!(&head.op, LeafOp::Itself(_)),
        _ => false,
    }
}

/// Whether what is started is a filter.
fn starts_filter(units: &[Unit], of: NewOf) -> bool
    ensures { result ≡ starts_filter units.now of }
{
    match of {
        NewOf::Unit(n) => is_filter(units, n),
        NewOf::Decoder => true,
    }
}

fn filter_op(units: &[Unit], op: ManyOp) -> bool
    ensures { result ≡ filter_op units.now op }
{
    match op {
        ManyOp::New(of, _) => starts_filter(units, of),
        _ => false,
    }
}

fn other_op(units: &[Unit], op: ManyOp) -> bool
    ensures { result ≡ other_op units.now op }
{
    match op {
        ManyOp::New(of, _) => !starts_filter(units, of),
        _ => false,
    }
}

fn is_new_filter(units: &[Unit], e: &Expr) -> bool
    ensures { result ≡ is_new_filter units.now e.now }
{
    match e.level() {
        ExprLevel::Many(head, _) => filter_op(units, head.op),
        _ => false,
    }
}

fn is_new_other(units: &[Unit], e: &Expr) -> bool
    ensures { result ≡ is_new_other units.now e.now }
{
    match e.level() {
        ExprLevel::Many(head, _) => other_op(units, head.op),
        _ => false,
    }
}

fn note_connected_filter(units: &[Unit], owner: u32, arguments: &[Expr], least: &mut Option<Fault>)
    ensures { least.new
        ≡ checked least.old (connected_filter_tests units.now owner (exprs arguments.now)) }
{
    if let Some(e) = arguments.first() {
        let other = is_new_other(units, e);
        note_at(other, owner, Rule::FilterPlace, e.span(), least);
    }
}

fn note_connected(units: &[Unit], owner: u32, arguments: &[Expr], least: &mut Option<Fault>)
    ensures { least.new
        ≡ checked least.old (connected_tests units.now owner (exprs arguments.now)) }
{
    if let Some(e) = arguments.first() {
        let filter = is_new_filter(units, e);
        note_at(filter, owner, Rule::FilterPlace, e.span(), least);
    }
}

fn may_connect(here: Here, e: &Expr) -> bool
    ensures { result ≡ may_connect here e.now }
{
    is_itself(e) && here.init && !here.filter
}

fn may_forward(here: Here, e: &Expr) -> bool
    ensures { result ≡ may_forward here e.now }
{
    is_itself(e) && here.filter
}

fn note_unit_call(
    units: &[Unit],
    here: Here,
    span: Span,
    method: UnitMethod,
    parts: &[Expr],
    least: &mut Option<Fault>,
)
    ensures { least.new
        ≡ checked least.old (unit_call_tests units.now here span method (exprs parts.now)) }
{
    if let Some((e, arguments)) = parts.split_first() {
        match method {
            UnitMethod::ConnectFilter => {
                let may = may_connect(here, e);
                note_at(!may, here.owner, Rule::FilterPlace, span, least);
                note_connected_filter(units, here.owner, arguments, least);
            }
            UnitMethod::Forward | UnitMethod::ForwardEod => {
                let may = may_forward(here, e);
                note_at(!may, here.owner, Rule::FilterPlace, span, least);
            }
            UnitMethod::Offset | UnitMethod::Input | UnitMethod::SetInput | UnitMethod::Backtrack =>
                {}
        }
    }
}

fn note_sink_call(
    units: &[Unit],
    here: Here,
    method: SinkMethod,
    parts: &[Expr],
    least: &mut Option<Fault>,
)
    ensures { least.new
        ≡ checked least.old (sink_call_tests units.now here method (exprs parts.now)) }
{
    if let Some((_, arguments)) = parts.split_first() {
        if let SinkMethod::Connect = method {
            note_connected(units, here.owner, arguments, least);
        }
    }
}

fn note_many(units: &[Unit], here: Here, head: &Many, parts: &[Expr], least: &mut Option<Fault>)
    ensures { least.new ≡ checked least.old (many_tests units.now here head.now.span head.now.op
        (exprs parts.now)) }
{
    match head.op {
        ManyOp::New(..) => note_plain(here.owner, parts, least),
        ManyOp::OfUnit(method, _) => {
            note_unit_call(units, here, head.span, method, parts, least);
        }
        ManyOp::OfSink(method) => note_sink_call(units, here, method, parts, least),
        _ => {}
    }
}

/// Notes what is wrong at a node of an expression, apart from the nodes in it.
pub(crate) fn note_node(units: &[Unit], here: Here, e: &Expr, least: &mut Option<Fault>)
    ensures { least.new ≡ checked least.old (node_tests units.now here e.now) }
{
    match e.level() {
        ExprLevel::Leaf(head) => note_leaf(here.owner, head, least),
        ExprLevel::Many(head, parts) => note_many(units, here, head, parts, least),
        _ => {}
    }
}
