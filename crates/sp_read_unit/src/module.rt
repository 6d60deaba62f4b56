// Reading of a module.
ghost use Rattle.std.specs.Prelude.{◌≡◌, ◌≤◌, length, OnOk, IfOk, IfErr};
ghost use Rattle.sp_lex.specs.Faults.{OnDiag};
ghost use Rattle.sp_lex.specs.declared.tokens.ReadFault.TheVariants as fault_is;
ghost use Rattle.sp_phrases.specs.Runs.{unexpected};
ghost use Rattle.sp_read_unit.specs.Modules.{IsModuleText, IsModuleTree, IsModuleRefused};

use sp_ast::Module;
use sp_grammar::Start;
use sp_lex::{ReadFault, Token, Tokens};
use sp_phrases::unexpected;
use sp_read_expr::read_tree;
use std::alloc::Global;

/// The refusal of a token that is left over.
fn left_over(token: Token) -> ReadFault
    ensures { result ≡ fault_is.Diag token.span (unexpected token.kind) }
{
    ReadFault::Diag(token.span, unexpected(token.kind))
}

/// Reads a module: all tokens together. Where they are no module's text, the refusal is at the first token with which no
/// module's text goes on, or at the end of the source, where the tokens end too early: M30 where that token is a word out
/// of profile, and else M3.
pub fn read_module(alloc: Global, t: &Tokens) -> Result<Module, ReadFault>
    ensures module { OnOk result (IsModuleText t.now.list) }
    ensures tree { IfOk result (λ m. IsModuleTree t.now m) }
    ensures inside { IfErr result (OnDiag (λ span _. span.from ≤ length t.now.text)) }
    ensures refused { IfErr result (OnDiag (IsModuleRefused t.now.list (length t.now.text))) }
{
    t.are_of_their_text();
    let read = read_tree(alloc, t, Start::Module, 0)?;
    let to = read.1 as usize;
    if to < t.len() {
        return Err(left_over(t.as_slice()[to]));
    }
    Ok(Module::new(read.0))
}
