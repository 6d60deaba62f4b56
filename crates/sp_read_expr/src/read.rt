// Reading of trees.
ghost use Rattle.std.specs.Prelude.{◌≤◌, length, IfOk, IfErr};
ghost use Rattle.sp_lex.specs.Faults.{OnDiag};
ghost use Rattle.sp_grammar.specs.declared.language.Start.TheVariants as start;
ghost use Rattle.sp_phrases.specs.Runs.{IsRefused};
ghost use Rattle.sp_read_expr.specs.Reading.{IsTreeRead};

use sp_ast::{BoundedTree, Expr, Stmt, TypeTree};
use sp_build::{Builder, every_phrase_is_built};
use sp_grammar::Start;
use sp_lex::{ReadFault, Tokens};
use sp_phrases::read_from;
use std::alloc::Global;

/// Reads the longest run of tokens from `at` on that begins some text of this kind. Where the run is such a text, the
/// answer is its tree and the place behind it, in tokens. Where it is none, the refusal is at the next token, or at the
/// end of the text: M30 where that token is a word out of profile, and else M3.
pub fn read_tree(
    alloc: Global,
    tokens: &Tokens,
    start: Start,
    at: u32,
) -> Result<(BoundedTree, u32), ReadFault>
    requires { at ≤ length tokens.now.list }
    ensures read { IfOk result (λ x. IsTreeRead start tokens.now at x.0 x.1) }
    ensures inside { IfErr result (OnDiag (λ span _. span.from ≤ length tokens.now.text)) }
    ensures refused { IfErr result (OnDiag (λ span kind. IsRefused start tokens.now.list at
        (length tokens.now.text) span kind)) }
{
    every_phrase_is_built();
    let mut builder = Builder::new(alloc, tokens, at as usize);
    let to = read_from(alloc, tokens, start, at, &mut builder)?;
    Ok((builder.into_tree(), to))
}

/// Reads an expression: the longest run of tokens from `t[at]` on that begins one. Where the run is an expression, the
/// answer is its tree and the place behind it, in tokens; otherwise the refusal is at the next token, or at the end of the
/// text: M30 where that token is a word out of profile, and else M3.
pub fn read_expr(alloc: Global, t: &Tokens, at: u32) -> Result<(Expr, u32), ReadFault>
    requires { at ≤ length t.now.list }
    ensures read { IfOk result (λ x. IsTreeRead start.Expr t.now at x.0 x.1) }
    ensures inside { IfErr result (OnDiag (λ span _. span.from ≤ length t.now.text)) }
    ensures refused { IfErr result (OnDiag (λ span kind. IsRefused start.Expr t.now.list at
        (length t.now.text) span kind)) }
{
    let (tree, to) = read_tree(alloc, t, Start::Expr, at)?;
    Ok((Expr::new(tree), to))
}

/// Reads a statement, as [`read_expr`] reads an expression. An `else` belongs to the nearest `if`.
pub fn read_stmt(alloc: Global, t: &Tokens, at: u32) -> Result<(Stmt, u32), ReadFault>
    requires { at ≤ length t.now.list }
    ensures read { IfOk result (λ x. IsTreeRead start.Stmt t.now at x.0 x.1) }
    ensures inside { IfErr result (OnDiag (λ span _. span.from ≤ length t.now.text)) }
    ensures refused { IfErr result (OnDiag (λ span kind. IsRefused start.Stmt t.now.list at
        (length t.now.text) span kind)) }
{
    let (tree, to) = read_tree(alloc, t, Start::Stmt, at)?;
    Ok((Stmt::new(tree), to))
}

/// Reads a type, as [`read_expr`] reads an expression. A `>>` closes two lists of types.
pub fn read_type(alloc: Global, t: &Tokens, at: u32) -> Result<(TypeTree, u32), ReadFault>
    requires { at ≤ length t.now.list }
    ensures read { IfOk result (λ x. IsTreeRead start.Type t.now at x.0 x.1) }
    ensures inside { IfErr result (OnDiag (λ span _. span.from ≤ length t.now.text)) }
    ensures refused { IfErr result (OnDiag (λ span kind. IsRefused start.Type t.now.list at
        (length t.now.text) span kind)) }
{
    let (tree, to) = read_tree(alloc, t, Start::Type, at)?;
    Ok((TypeTree::new(tree), to))
}
