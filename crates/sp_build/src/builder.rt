// The tree of a text, built while the actions of its derivation are passed.
ghost use Rattle.std.specs.Prelude.{◌≡◌, ◌≤◌, ◌∷◌, [], length, Some, OnOk};
ghost use Rattle.sp_ast.specs.Trees.{Tree as Data};
ghost use Rattle.sp_parser.specs.Grammar.{action_at};
ghost use Rattle.sp_build.specs.Items.{built};
ghost use Rattle.sp_build.specs.inside.Popping.{IsStep};
ghost use Rattle.sp_build.specs.Progress.{progress, stepped, while_found};

use crate::stack::TreeStack;
use crate::steps::step;
use sp_ast::BoundedTree;
use sp_base::NoMemory;
use sp_grammar::action_of;
use sp_lex::Tokens;
use sp_parser::Sink;
use std::alloc::Global;
use std::marker::Model;

/// Builds the tree of a text at the actions of its derivation, each as it is passed. Clauses see the text, the place of its
/// first token, and the stack of what was built, or nothing where an action found not what it wants.
#[derive(Drop)]
pub struct Builder<'a> {
    alloc: Global,
    tokens: &'a Tokens,
    from: usize,
    stack: TreeStack,
    /// Whether each action found what it wants.
    found: bool,
}

impl<'a> Model for Builder<'a> {
    ghost use Rattle.std.specs.Prelude.{◌≤◌, length};
    ghost use Rattle.std.specs.Coded.{codes};
    ghost use Rattle.sp_ast.specs.inside.TreeCodes.{coded_tree};
    ghost use Rattle.sp_build.specs.Progress.{Progress, while_found, coded_progress};

    ghost Value = { Progress };

    ghost coded = { coded_progress (Prim.hlevel codes) (coded_tree (Prim.hlevel codes)) };

    ghost view = { λ b. record {
      lexed = b.tokens.now;
      from = b.from;
      stack = while_found b.found b.stack;
    } };

    ghost invariant = { λ b. b.from ≤ length b.tokens.now.list };
}

impl<'a> Builder<'a> {
    /// Nothing is built. The tokens from `from` on are those of the text, and the places of the actions are counted from
    /// there. Takes no memory.
    pub fn new(alloc: Global, tokens: &'a Tokens, from: usize) -> Builder<'a>
        requires from { from ≤ length tokens.now.list }
        ensures { result ≡ progress tokens.now from [] }
    {
        Builder {
            alloc,
            tokens,
            from,
            stack: TreeStack::new(alloc),
            found: true,
        }
    }

    /// The last tree.
    pub fn into_tree(self) -> BoundedTree
        ensures { (t : Data) → self.entry.stack ≡ Some (built t ∷ []) → result ≡ t }
    {
        self.stack.into_tree()
    }

    /// What an action does. After one that finds not what it wants, none does anything.
    fn act(&mut self, action: u8, at: u32) -> Result<(), NoMemory>
        ensures { OnOk result (self.new ≡ stepped (action_at action at) self.old) }
    {
        if self.found {
            self.found = match action_of(action) {
                Some(action) => step(
                    self.alloc,
                    self.tokens,
                    self.from,
                    at,
                    action,
                    &mut self.stack,
                )?,
                None => false,
            };
        }
        Ok(())
    }
}

impl<'a> Sink for Builder<'a> {
    ghost became = { λ first now actions. now ≡ progress first.lexed first.from actions };

    fn pass(&mut self, action: u8, at: u32) -> Result<(), NoMemory> {
        self.act(action, at)
    }

    fn clear(&mut self) {
        self.stack = TreeStack::new(self.alloc);
        self.found = true;
    }
}
