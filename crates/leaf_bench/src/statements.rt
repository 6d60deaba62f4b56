//! The statements of a text, one behind the other: their trees are made, or no more than their actions, which are counted.
use crate::token_sets::put;
use sp_base::NoMemory;
use sp_grammar::Start;
use sp_lex::{ReadFault, Tokens, lex};
use sp_parser::Sink;
use sp_phrases::read_from;
use sp_read_expr::read_stmt;
use std::alloc::{AllocError, Global};

/// How many tokens, statements and actions there are.
#[derive(Clone, Copy)]
struct Counts {
    tokens: usize,
    statements: u64,
    actions: u64,
}

/// How many actions were passed.
#[derive(Drop)]
struct ActionCount {
    actions: u64,
}

impl Sink for ActionCount {
    ghost became = { λ _ _ _. Unit {0} };

    fn pass(&mut self, _action: u8, _at: u32) -> Result<(), NoMemory> {
        self.actions = self.actions.saturating_add(1);
        Ok(())
    }

    fn clear(&mut self) {
        self.actions = 0;
    }
}

/// Counts the statements and their actions.
fn count_actions(alloc: Global, tokens: &Tokens) -> Result<Counts, ReadFault> {
    let mut statements: u64 = 0;
    let mut actions: u64 = 0;
    let mut at: u32 = 0;
    for _ in 0..tokens.len() {
        if at as usize >= tokens.len() {
            break;
        }
        let mut passed = ActionCount { actions: 0 };
        at = read_from(alloc, tokens, Start::Stmt, at, &mut passed)?;
        statements = statements.saturating_add(1);
        actions = actions.saturating_add(passed.actions);
    }
    Ok(Counts {
        tokens: tokens.len(),
        statements,
        actions,
    })
}

/// Counts the statements, of each of which the tree is made.
fn count_trees(alloc: Global, tokens: &Tokens) -> Result<Counts, ReadFault> {
    let mut statements: u64 = 0;
    let mut at: u32 = 0;
    for _ in 0..tokens.len() {
        if at as usize >= tokens.len() {
            break;
        }
        let (tree, to) = read_stmt(alloc, tokens, at)?;
        drop(tree);
        statements = statements.saturating_add(1);
        at = to;
    }
    Ok(Counts {
        tokens: tokens.len(),
        statements,
        actions: 0,
    })
}

fn count(alloc: Global, source: &[u8], trees: bool) -> Result<Counts, ReadFault> {
    let tokens = lex(alloc, source)?;
    let counts = if trees {
        count_trees(alloc, &tokens)
    } else {
        count_actions(alloc, &tokens)
    };
    drop(tokens);
    counts
}

pub fn work(alloc: Global, input: &[u8], trees: bool, said: &mut String) -> Result<(), AllocError> {
    match count(alloc, input, trees) {
        Ok(counts) => {
            let tokens = counts.tokens;
            let statements = counts.statements;
            let actions = counts.actions;
            put(
                said,
                format!(in alloc; "{tokens} tokens, {statements} statements, {actions} actions\n"),
            )
        }
        Err(ReadFault::Diag(span, kind)) => {
            let from = span.from;
            let number = kind.number();
            let name = kind.name();
            put(said, format!(in alloc; "byte {from}: M{number} {name}\n"))
        }
        Err(ReadFault::NoMemory) => said.push_str("out of memory\n"),
    }
}
