// What the rules of the actions do on the stack.
ghost use Rattle.std.specs.Prelude.{◌≡◌, ◌≤◌, ◌∷◌, [], ℕ, List, Option, None, drop, suc, true, length, IfOk, IfSome, IfNone, OnOk};
ghost use Rattle.sp_ast.specs.Trees.{Tree, tree, trees};
ghost use Rattle.sp_ast.specs.Slots.{slots, fill, an};
ghost use Rattle.sp_ast.specs.declared.forms.Form.TheVariants as form_is;
ghost use Rattle.sp_words.specs.declared.words.IntWord.TheVariants as integer_is;
ghost use Rattle.sp_words.specs.declared.words.AttributeName.TheVariants as attribute_is;
ghost use Rattle.sp_build.specs.Items.{built};
ghost use Rattle.sp_build.specs.Building.{Stack, stretch_from, close_with, done_by, acted};
ghost use Rattle.sp_build.specs.inside.Popping.{IsStep};
ghost use Rattle.sp_build.specs.inside.RuleParts.{HasNoParts, HasParts};
ghost use Rattle.sp_build.specs.inside.RuleViews.{leaf_view, rule_view, worded_form};
ghost use Rattle.sp_build.specs.Rules.{gathers, closing, closing_integer, closing_attribute, encloses, joining, wraps, takes};
ghost use Rattle.sp_build.specs.Stacks.{last_trees, AreTrees, AreClosed, IsOpen};

use crate::finding::{first_span, fits_on_top, nodes, parts};
use crate::rules::{Leaf, Rule, Worded, rule_of};
use crate::stack::TreeStack;
use crate::tokens::{attribute_of, end_before, form_of, integer_of, stretch, token_at};
use sp_ast::{BaseForm, ExprForm, Form, Group, Slot, Sort, TypeForm, slots};
use sp_base::{NoMemory, Span};
use sp_grammar::Action;
use sp_lex::{Token, Tokens};
use sp_words::{AttributeName, IntWord};
use std::alloc::Global;

/// How many of the last trees are the parts since a tree began, and the place where it began.
fn closed(stack: &TreeStack, slots: &[Slot]) -> Option<(usize, u32)>
    ensures found { IfSome result (λ x. AreClosed x.0 x.1 slots.now stack.now) }
    ensures last { IfSome result (λ x. AreTrees x.0 stack.now) }
    ensures none { IfNone result ((go : ℕ → List Tree → Stack → Option Stack)
        → close_with slots.now stack.now go ≡ None) }
{
    let count = parts(stack, slots)?;
    let place = stack.begun_under(count)?;
    Some((count, place))
}

/// A tree in place of its parts, the last trees, and of the place where it began.
fn close(stack: &mut TreeStack, count: usize, form: Form, span: Span) -> Result<(), NoMemory>
    requires last { AreTrees count stack.old }
    requires opens { IsOpen (drop count stack.old) }
    requires fill { fill (slots form) (trees (last_trees count stack.old)) ≡ true }
    ensures { OnOk result (stack.new
        ≡ built (tree form span (last_trees count stack.old)) ∷ drop (suc count) stack.old) }
{
    stack.join(count, form, span)?;
    stack.end();
    Ok(())
}

/// The token as a tree.
fn takes(
    alloc: Global,
    tokens: &Tokens,
    from: usize,
    at: u32,
    what: Leaf,
    stack: &mut TreeStack,
) -> Result<bool, NoMemory>
    requires from { from ≤ length tokens.now.list }
    requires parts { HasNoParts (leaf_view what) }
    ensures { IfOk result (λ yes. IsStep yes (done_by (takes (leaf_view what)) tokens.now.text
        (drop from tokens.now.list) at stack.old) stack.new) }
{
    let rest = &tokens.as_slice()[from..];
    let place = at as usize;
    if place < rest.len() {
        let span = rest[place].span;
        let Some(form) = form_of(alloc, tokens, from + place, what)? else {
            return Ok(false);
        };
        stack.join(0, form, span)?;
        Ok(true)
    } else {
        let Leaf::Always(form) = what else {
            drop(what);
            return Ok(false);
        };
        stack.join(0, form, Span { from: 0, to: 0 })?;
        Ok(true)
    }
}

fn gathers(stack: &mut TreeStack) -> Result<bool, NoMemory>
    ensures { IfOk result (λ yes. IsStep yes (done_by gathers [] [] 0 stack.old) stack.new) }
{
    let count = nodes(stack);
    let Some(_) = stack.begun_under(count) else {
        return Ok(false);
    };
    stack.join_row(count)?;
    stack.end();
    Ok(true)
}

fn closes(rest: &[Token], at: u32, form: Form, stack: &mut TreeStack) -> Result<bool, NoMemory>
    ensures { IfOk result (λ yes. IsStep yes (done_by (closing form) [] rest.now at stack.old)
        stack.new) }
{
    let Some((count, place)) = closed(stack, slots(&form)) else {
        drop(form);
        return Ok(false);
    };
    close(
        stack,
        count,
        form,
        stretch(rest, place as usize, at as usize),
    )?;
    Ok(true)
}

/// The alternative that is built by an integer type.
fn worded_form(worded: Worded, word: IntWord) -> Form
    ensures { result ≡ worded_form worded word }
{
    match worded {
        Worded::TypedNumber => Form::Expr(ExprForm::TypedNumber(word)),
        Worded::NumberBase => Form::Base(BaseForm::Number(word)),
        Worded::IntType => Form::Type(TypeForm::Int(word)),
    }
}

/// The parts of what is built by an integer type.
fn worded_slots(worded: Worded) -> &'static [Slot]
    ensures { result.now ≡ slots (worded_form worded integer_is.Uint8) }
{
    let form = worded_form(worded, IntWord::Uint8);
    let found = slots(&form);
    drop(form);
    found
}

fn closes_integer(
    rest: &[Token],
    at: u32,
    worded: Worded,
    stack: &mut TreeStack,
) -> Result<bool, NoMemory>
    ensures { IfOk result (λ yes. IsStep yes (done_by (closing_integer (worded_form worded)) []
        rest.now at stack.old) stack.new) }
{
    let Some((count, place)) = closed(stack, worded_slots(worded)) else {
        return Ok(false);
    };
    let Some(word) = integer_of(token_at(rest, place as usize).kind) else {
        return Ok(false);
    };
    let form = worded_form(worded, word);
    close(
        stack,
        count,
        form,
        stretch(rest, place as usize, at as usize),
    )?;
    Ok(true)
}

/// The parts of an attribute.
fn attribute_slots() -> &'static [Slot]
    ensures { result.now ≡ slots (form_is.Attribute attribute_is.Size) }
{
    let form = Form::Attribute(AttributeName::Size);
    let found = slots(&form);
    drop(form);
    found
}

fn closes_attribute(rest: &[Token], at: u32, stack: &mut TreeStack) -> Result<bool, NoMemory>
    ensures { IfOk result (λ yes. IsStep yes (done_by
        (closing_attribute (λ name. form_is.Attribute name)) [] rest.now at stack.old) stack.new) }
{
    let Some((count, place)) = closed(stack, attribute_slots()) else {
        return Ok(false);
    };
    let Some(name) = attribute_of(token_at(rest, place as usize).kind) else {
        return Ok(false);
    };
    let form = Form::Attribute(name);
    close(
        stack,
        count,
        form,
        stretch(rest, place as usize, at as usize),
    )?;
    Ok(true)
}

fn encloses(rest: &[Token], at: u32, stack: &mut TreeStack) -> Result<bool, NoMemory>
    ensures { IfOk result (λ yes. IsStep yes (done_by encloses [] rest.now at stack.old)
        stack.new) }
{
    if !fits_on_top(stack, Sort::One(Group::Expressions)) {
        return Ok(false);
    }
    let Some(place) = stack.begun_under(1) else {
        return Ok(false);
    };
    stack.respan(stretch(rest, place as usize, at as usize));
    stack.end();
    Ok(true)
}

/// The text from where the last trees, so many, begin, up to a place.
fn stretch_from(rest: &[Token], stack: &TreeStack, count: usize, at: u32) -> Span
    requires { AreTrees count stack.now }
    ensures { result ≡ stretch_from rest.now (last_trees count stack.now) at }
{
    Span {
        from: first_span(stack, count).from,
        to: end_before(rest, at as usize),
    }
}

fn joins(rest: &[Token], at: u32, form: Form, stack: &mut TreeStack) -> Result<bool, NoMemory>
    ensures { IfOk result (λ yes. IsStep yes (done_by (joining form) [] rest.now at stack.old)
        stack.new) }
{
    let Some(count) = parts(stack, slots(&form)) else {
        drop(form);
        return Ok(false);
    };
    let span = stretch_from(rest, stack, count, at);
    stack.join(count, form, span)?;
    Ok(true)
}

fn wraps(group: Group, form: Form, stack: &mut TreeStack) -> Result<bool, NoMemory>
    requires parts { slots form ≡ an group ∷ [] }
    ensures { IfOk result (λ yes. IsStep yes (done_by (wraps group form) [] [] 0 stack.old)
        stack.new) }
{
    if !fits_on_top(stack, Sort::One(group)) {
        drop(form);
        return Ok(false);
    }
    let span = first_span(stack, 1);
    stack.join(1, form, span)?;
    Ok(true)
}

/// What a rule does at a place.
fn step_by(
    alloc: Global,
    tokens: &Tokens,
    from: usize,
    at: u32,
    rule: Rule,
    stack: &mut TreeStack,
) -> Result<bool, NoMemory>
    requires from { from ≤ length tokens.now.list }
    requires parts { HasParts (rule_view rule) }
    ensures { IfOk result (λ yes. IsStep yes
        (done_by (rule_view rule) tokens.now.text (drop from tokens.now.list) at stack.old)
        stack.new) }
{
    let rest = &tokens.as_slice()[from..];
    match rule {
        Rule::Begins => {
            stack.begin(at)?;
            Ok(true)
        }
        Rule::LeavesOut => {
            stack.leave_out()?;
            Ok(true)
        }
        Rule::Takes(leaf) => takes(alloc, tokens, from, at, leaf, stack),
        Rule::Gathers => gathers(stack),
        Rule::Closes(form) => closes(rest, at, form, stack),
        Rule::ClosesInteger(worded) => closes_integer(rest, at, worded, stack),
        Rule::ClosesAttribute => closes_attribute(rest, at, stack),
        Rule::Encloses => encloses(rest, at, stack),
        Rule::Joins(form) => joins(rest, at, form, stack),
        Rule::Wraps(group, form) => wraps(group, form, stack),
    }
}

/// What an action does at a place. The tokens from `from` on are those of the text that is built, and the place is counted
/// from there. It answers false where the action finds not what it wants.
pub(crate) fn step(
    alloc: Global,
    tokens: &Tokens,
    from: usize,
    at: u32,
    action: Action,
    stack: &mut TreeStack,
) -> Result<bool, NoMemory>
    requires { from ≤ length tokens.now.list }
    ensures { IfOk result (λ yes. IsStep yes
        (acted action tokens.now.text (drop from tokens.now.list) at stack.old) stack.new) }
{
    step_by(alloc, tokens, from, at, rule_of(action), stack)
}
