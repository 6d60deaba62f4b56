// The tokens that are parsed.
ghost use Rattle.std.specs.Prelude.{◌≡◌, ℕ, ◌-◌, ◌<◌, ◌≤◌, List, length, take, drop};
ghost use Rattle.std.proofs.Common.{get_or};
ghost use Rattle.sp_parser.specs.Grammar.{AreKinds};

/// Tokens, seen as the list of their kinds. The parser asks for the kind of a token where it needs it, so nothing is made
/// of the tokens before.
pub trait Kinds: Copy {
    ghost kinds: { Self → List ℕ };

    /// How many tokens there are.
    fn count(&self) -> usize
        ensures { result ≡ length (kinds self.now) };

    /// The kind of the token at a place.
    fn kind(&self, at: usize) -> u8
        requires { at < length (kinds self.now) }
        ensures { result ≡ get_or (kinds self.now) at 0 };

    /// The tokens from one place up to another.
    fn part(&self, from: usize, to: usize) -> Self
        requires order { from ≤ to }
        requires within { to ≤ length (kinds self.now) }
        ensures { kinds result ≡ take (to - from) (drop from (kinds self.now)) };

    ghost are_kinds: { (tokens : Self) → AreKinds (kinds tokens) };
}
