// Views of the trees of modules: what is looked at, ` :: ` and the text of a module. The answer is what the view tells: its
// alternative and its members by their names, each with the slice of the text on which it stands; a part that is left out is
// `-`, and parts in a row stand in brackets. Looked at is the first of its kind: the first declaration, its type, unit or block,
// the first item there, and so on.
use crate::texts::put;
use crate::{declarations, expressions, statements, types, units};
use sp_ast::{DeclKind, Module, Ref};
use sp_lex::{ReadFault, lex};
use sp_read_unit::read_module;
use std::alloc::{AllocError, Global};

/// What the view of the thing tells, or `nothing` where there is none.
fn look(
    alloc: Global,
    text: &str,
    what: &str,
    decl: &Ref<'_, DeclKind>,
    got: &mut String,
) -> Result<(), AllocError> {
    match what {
        "decl" => declarations::declaration(text, decl, got),
        "parameter" => declarations::parameter(text, decl, got),
        "type" => types::look(alloc, text, decl, got),
        "value" => expressions::look(alloc, text, decl, got),
        "stmt" => statements::look(text, decl, got),
        _ => units::look(alloc, text, what, decl, got),
    }
}

/// What the view of the thing tells in the first declaration of a module.
fn look_in(
    alloc: Global,
    text: &str,
    what: &str,
    module: &Module,
    got: &mut String,
) -> Result<(), AllocError> {
    let view = module.root().view();
    match view.declarations.get(0) {
        Some(decl) => look(alloc, text, what, &decl, got),
        None => got.push_str("nothing"),
    }
}

/// The module of a text.
fn module_of(alloc: Global, text: &str) -> Result<Module, ReadFault> {
    let tokens = lex(alloc, text.as_bytes())?;
    let module = read_module(alloc, &tokens);
    drop(tokens);
    module
}

pub fn answer(alloc: Global, question: &str, got: &mut String) -> Result<(), AllocError> {
    let Some((what, text)) = question.split_once(" :: ") else {
        return Ok(());
    };
    match module_of(alloc, text) {
        Ok(module) => {
            let said = look_in(alloc, text, what, &module, got);
            drop(module);
            said
        }
        Err(ReadFault::Diag(span, kind)) => {
            let number = kind.number();
            let from = span.from;
            put(got, format!(in alloc; "M{number} {from}"))
        }
        Err(ReadFault::NoMemory) => Err(AllocError),
    }
}
