// Tokens as the parser sees them.
ghost use Rattle.sp_phrases.specs.Kinds.{numbers_of};
ghost use Rattle.sp_phrases.specs.TokenKinds.{tokens_are_kinds};

use crate::terminals::token_number;
use sp_lex::Token;
use sp_parser::Kinds;

/// Tokens by the numbers of their kinds in the table. A number is told where it is asked for.
#[derive(Clone, Copy)]
pub(crate) struct Numbered<'a> {
    pub(crate) tokens: &'a [Token],
}

impl<'a> Kinds for Numbered<'a> {
    ghost kinds = { λ numbered. numbers_of numbered.tokens.now };

    fn count(&self) -> usize {
        self.tokens.len()
    }

    fn kind(&self, at: usize) -> u8 {
        token_number(self.tokens[at])
    }

    fn part(&self, from: usize, to: usize) -> Self {
        Numbered {
            tokens: &self.tokens[from..to],
        }
    }

    ghost are_kinds = { λ numbered. tokens_are_kinds numbered.tokens.now };
}
