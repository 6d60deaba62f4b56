// What takes the actions of a derivation.
ghost use Rattle.std.specs.Prelude.{◌≡◌, ◌++◌, ◌∷◌, List, [], OnOk};
ghost use Rattle.sp_parser.specs.declared.symbol.ActionAt.{ActionAt};
ghost use Rattle.sp_parser.specs.Grammar.{action_at};
ghost use Rattle.sp_parser.specs.Sinks.{Passes};

use crate::symbol::ActionAt;
use sp_base::NoMemory;

/// What takes the actions of a derivation, each as it is passed: a list of them, or what is made of them.
pub trait Sink {
    // What a sink, to which nothing had been passed, has become by these actions.
    ghost became: { Self → Self → List ActionAt → Type 0 };

    /// Takes an action, before which so many tokens stand.
    fn pass(&mut self, action: u8, at: u32) -> Result<(), NoMemory>
        ensures { OnOk result (Passes became self.old self.new (action_at action at ∷ [])) };

    /// Forgets the actions that it took.
    fn clear(&mut self)
        ensures { (first : Self) (τ : List ActionAt) → became first self.old τ
            → became first self.new [] };
}

/// A list of the actions, the last behind.
impl Sink for Vec<ActionAt> {
    ghost became = { λ _ now τ. now.items ≡ τ };

    fn pass(&mut self, action: u8, at: u32) -> Result<(), NoMemory> {
        self.push(ActionAt { action, at })?;
        Ok(())
    }

    fn clear(&mut self) {
        self.truncate(0);
    }
}
