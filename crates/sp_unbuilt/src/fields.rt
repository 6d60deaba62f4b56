// What stands in fields and isn't built yet: conditions, sinks, and hooks for each element.
ghost use Rattle.std.specs.Prelude.{◌≡◌, ◌≤◌, ◌+◌, ◌^◌, length};
ghost use Rattle.sp_ast.specs.Trees.{trees};
ghost use Rattle.sp_unbuilt.specs.First.{noted};
ghost use Rattle.sp_unbuilt.specs.Constructs.{last_end, read_end, word_tests, condition_end, tail_tests, each_tests, field_tests};

use crate::first::note_at;
use crate::hooks::is_each;
use crate::next::{next_token, next_two};
use sp_ast::{
    AttributeKind, BaseKind, CountKind, ExprKind, FieldKind, HookBodyKind, Kind, Members, Ref,
    is_present,
};
use sp_base::Diag;

/// Where the last of some trees ends, or else a place.
fn last_end<K: Kind>(place: u32, row: &Members<'_, K>) -> u32
    ensures { result ≡ last_end place (trees row.now) }
{
    let mut end = place;
    for tree in row.again() {
        end = tree.span().to;
    }
    end
}

/// Where the base of a field ends with its counts and its attributes.
fn read_end(
    base: &Ref<'_, BaseKind>,
    counts: &Members<'_, CountKind>,
    attributes: &Members<'_, AttributeKind>,
) -> u32
    ensures { result ≡ read_end base.now (trees counts.now) (trees attributes.now) }
{
    last_end(last_end(base.span().to, counts), attributes)
}

/// Notes a part behind a token of two bytes, which is the next one from a place on.
fn note_word(
    text: &[u8],
    owner: u32,
    from: usize,
    part: &Option<Ref<'_, ExprKind>>,
    first: &mut Option<Diag>,
)
    requires { from ≤ length text.now + 2 ^ 33 }
    ensures { first.new ≡ noted first.old (word_tests text.now owner from part.now) }
{
    match part {
        Some(_) => note_at(true, owner, next_two(text, from), first),
        None => {}
    }
}

/// The end of a condition, behind its closing parenthesis, where there is one.
fn condition_end(text: &[u8], from: usize, condition: &Option<Ref<'_, ExprKind>>) -> usize
    requires { from ≤ length text.now + 2 ^ 33 }
    ensures is { result ≡ condition_end text.now from condition.now }
    ensures within { result ≤ length text.now + 2 ^ 33 }
{
    match condition {
        Some(e) => next_token(text, e.span().to as usize) + 1,
        None => from,
    }
}

/// Notes the condition and the sink of a field whose base, counts and attributes end at a place.
#[tactic(auto, using(crate::proofs::Noting::noted_more))]
fn note_tail(
    text: &[u8],
    owner: u32,
    end: u32,
    condition: &Option<Ref<'_, ExprKind>>,
    sink: &Option<Ref<'_, ExprKind>>,
    first: &mut Option<Diag>,
)
    ensures { first.new ≡ noted first.old (tail_tests text.now owner end condition.now sink.now) }
{
    let from = end as usize;
    note_word(text, owner, from, condition, first);
    let behind = condition_end(text, from, condition);
    note_word(text, owner, behind, sink, first);
}

/// Notes the hooks of a field for each element.
fn note_each(owner: u32, hooks: &Members<'_, HookBodyKind>, first: &mut Option<Diag>)
    ensures { first.new ≡ noted first.old (each_tests owner (trees hooks.now)) }
{
    for body in hooks.again() {
        note_at(is_each(&body), owner, body.span(), first);
    }
}

/// Notes what stands in a field and isn't built. What it reads is asked of what is typed of it.
#[tactic(auto, using(crate::proofs::Noting::noted_more))]
pub(crate) fn note_field(
    text: &[u8],
    owner: u32,
    field: &Ref<'_, FieldKind>,
    first: &mut Option<Diag>,
)
    ensures { first.new ≡ noted first.old (field_tests text.now owner field.now) }
{
    let view = field.view();
    is_present(&view.condition);
    is_present(&view.sink);
    let end = read_end(&view.base, &view.counts, &view.attributes);
    note_tail(text, owner, end, &view.condition, &view.sink, first);
    note_each(owner, &view.hooks, first);
}
