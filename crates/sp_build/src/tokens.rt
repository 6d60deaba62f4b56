// Trees of single tokens, and the stretches of text on which trees stand. The tokens are those from the text's first on.
ghost use Rattle.std.specs.Prelude.{◌≡◌, ◌<◌, ◌+◌, ◌≤◌, ℕ, List, length, drop, option_map, IfOk};
ghost use Rattle.sp_ast.specs.declared.forms.Form.{Form};
ghost use Rattle.sp_lex.specs.Readings.{bytes_of};
ghost use Rattle.sp_literals.specs.Values.{kind_at, bytes_at};
ghost use Rattle.sp_build.specs.Building.{token_of, end_before, stretch, leaf};
ghost use Rattle.sp_build.specs.Rules.{by_name, by_string, by_bytes, by_regex, by_number, by_hook_name};
ghost use Rattle.sp_build.specs.inside.RuleViews.{leaf_view};
ghost use Rattle.sp_build.specs.Tokens.{form_of, integer_of, attribute_of};

use crate::rules::Leaf;
use sp_ast::{BaseForm, ExprForm, Form, TargetForm, TypeForm};
use sp_base::{ByteList, NoMemory, Span, Text};
use sp_lex::{Absent, Token, TokenKind, Tokens};
use sp_literals::{bytes_value, name_text, number_value, regex_text, string_value};
use sp_words::{AttributeName, HookName, IntWord, Punctuation};
use std::alloc::Global;

/// The token before which so many stand; behind the last one a `;` at no place.
pub(crate) fn token_at(rest: &[Token], at: usize) -> Token
    ensures { result ≡ token_of rest.now at }
{
    match rest.get(at) {
        Some(token) => *token,
        None => Token {
            kind: TokenKind::Punctuation(Punctuation::Semicolon),
            span: Span { from: 0, to: 0 },
        },
    }
}

/// Where the token before a place ends.
pub(crate) fn end_before(rest: &[Token], at: usize) -> u32
    ensures { result ≡ end_before rest.now at }
{
    if at == 0 {
        0
    } else {
        token_at(rest, at - 1).span.to
    }
}

/// The text from a token up to a place.
pub(crate) fn stretch(rest: &[Token], from: usize, at: usize) -> Span
    ensures { result ≡ stretch rest.now from at }
{
    Span {
        from: token_at(rest, from).span.from,
        to: end_before(rest, at),
    }
}

/// The integer type that a token is the word of.
pub(crate) fn integer_of(kind: TokenKind) -> Option<IntWord>
    ensures { result ≡ integer_of kind }
{
    match kind {
        TokenKind::Integer(word) => Some(word),
        _ => None,
    }
}

/// The attribute of a field that a token is.
pub(crate) fn attribute_of(kind: TokenKind) -> Option<AttributeName>
    ensures { result ≡ attribute_of kind }
{
    match kind {
        TokenKind::Attribute(name) => Some(name),
        _ => None,
    }
}

fn hook_name_of(kind: TokenKind) -> Option<HookName>
    ensures { (form : HookName → Form) (bytes : List ℕ)
        → option_map form result ≡ form_of (by_hook_name form) kind bytes }
{
    match kind {
        TokenKind::Hook(hook) => Some(hook),
        _ => None,
    }
}

fn name_of(alloc: Global, tokens: &Tokens, at: usize) -> Result<Option<Text>, NoMemory>
    requires { at < length tokens.now.list }
    ensures { IfOk result (λ o. (form : List ℕ → Form)
        → option_map form o ≡ form_of (by_name form) (kind_at tokens.now at)
        (bytes_at tokens.now at)) }
{
    let kind = tokens.as_slice()[at].kind;
    match kind {
        TokenKind::Id | TokenKind::Absent(Absent::Skip) => Ok(Some(name_text(alloc, tokens, at)?)),
        _ => Ok(None),
    }
}

fn string_of(alloc: Global, tokens: &Tokens, at: usize) -> Result<Option<Text>, NoMemory>
    requires { at < length tokens.now.list }
    ensures { IfOk result (λ o. (form : List ℕ → Form)
        → option_map form o ≡ form_of (by_string form) (kind_at tokens.now at)
        (bytes_at tokens.now at)) }
{
    let kind = tokens.as_slice()[at].kind;
    match kind {
        TokenKind::String => Ok(Some(string_value(alloc, tokens, at)?)),
        _ => Ok(None),
    }
}

fn bytes_of(alloc: Global, tokens: &Tokens, at: usize) -> Result<Option<ByteList>, NoMemory>
    requires { at < length tokens.now.list }
    ensures { IfOk result (λ o. (form : List ℕ → Form)
        → option_map form o ≡ form_of (by_bytes form) (kind_at tokens.now at)
        (bytes_at tokens.now at)) }
{
    let kind = tokens.as_slice()[at].kind;
    match kind {
        TokenKind::Bytes => Ok(Some(bytes_value(alloc, tokens, at)?)),
        _ => Ok(None),
    }
}

fn regex_of(alloc: Global, tokens: &Tokens, at: usize) -> Result<Option<Text>, NoMemory>
    requires { at < length tokens.now.list }
    ensures { IfOk result (λ o. (form : List ℕ → Form)
        → option_map form o ≡ form_of (by_regex form) (kind_at tokens.now at)
        (bytes_at tokens.now at)) }
{
    let kind = tokens.as_slice()[at].kind;
    match kind {
        TokenKind::Regex => Ok(Some(regex_text(alloc, tokens, at)?)),
        _ => Ok(None),
    }
}

fn number_of(tokens: &Tokens, at: usize) -> Option<u64>
    requires { at < length tokens.now.list }
    ensures { (form : ℕ → Form) → option_map form result ≡ form_of (by_number form)
        (kind_at tokens.now at) (bytes_at tokens.now at) }
{
    let kind = tokens.as_slice()[at].kind;
    match kind {
        TokenKind::Number => Some(number_value(tokens, at)),
        _ => None,
    }
}

/// The alternative that a token is of.
pub(crate) fn form_of(
    alloc: Global,
    tokens: &Tokens,
    at: usize,
    leaf: Leaf,
) -> Result<Option<Form>, NoMemory>
    requires { at < length tokens.now.list }
    ensures { IfOk result (λ o. o ≡ form_of (leaf_view leaf) (kind_at tokens.now at)
        (bytes_at tokens.now at)) }
{
    let kind = tokens.as_slice()[at].kind;
    match leaf {
        Leaf::Always(form) => Ok(Some(form)),
        Leaf::Name => Ok(name_of(alloc, tokens, at)?.map(|x| Form::Name(x))),
        Leaf::NameTarget => {
            Ok(name_of(alloc, tokens, at)?.map(|x| Form::Target(TargetForm::Name(x))))
        }
        Leaf::String => Ok(string_of(alloc, tokens, at)?.map(|x| Form::String(x))),
        Leaf::StringExpr => {
            Ok(string_of(alloc, tokens, at)?.map(|x| Form::Expr(ExprForm::String(x))))
        }
        Leaf::BytesExpr => {
            Ok(bytes_of(alloc, tokens, at)?.map(|x| Form::Expr(ExprForm::Bytes(x))))
        }
        Leaf::BytesBase => {
            Ok(bytes_of(alloc, tokens, at)?.map(|x| Form::Base(BaseForm::Bytes(x))))
        }
        Leaf::RegexExpr => {
            Ok(regex_of(alloc, tokens, at)?.map(|x| Form::Expr(ExprForm::Regex(x))))
        }
        Leaf::RegexBase => {
            Ok(regex_of(alloc, tokens, at)?.map(|x| Form::Base(BaseForm::Regex(x))))
        }
        Leaf::Number => Ok(number_of(tokens, at).map(|n| Form::Number(n))),
        Leaf::NumberExpr => Ok(number_of(tokens, at).map(|n| Form::Expr(ExprForm::Number(n)))),
        Leaf::IntType => Ok(integer_of(kind).map(|word| Form::Type(TypeForm::Int(word)))),
        Leaf::HookName => Ok(hook_name_of(kind).map(|hook| Form::HookName(hook))),
        Leaf::HookTarget => Ok(hook_name_of(kind).map(|hook| Form::Target(TargetForm::Hook(hook)))),
    }
}
