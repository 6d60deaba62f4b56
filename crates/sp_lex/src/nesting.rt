// How deep tokens are nested.
ghost use Rattle.std.specs.Prelude.{◌≡◌, ◌≤◌, ◌∷◌, [], OnOk, IfSome, None};
ghost use Rattle.sp_lex.specs.Nesting.{punctuation_role, word_role, role_of, level_in, level, counted, anew, inside, after, outermost, IsBounded};

use crate::kinds::TokenKind;
use sp_base::NoMemory;
use sp_words::{Keyword, Punctuation};
use std::alloc::Global;
use std::marker::Model;

/// What a token does to the level.
#[derive(Clone, Copy, PartialEq, Eq)]
pub(crate) enum Role {
    Plain,
    Counts,
    EndsPart,
    OpensPair,
    OpensBlock,
    ClosesPair,
    ClosesBlock,
}

/// The level at a bracket's beginning, and what was counted in it since its last part ended.
#[derive(Clone, Copy, PartialEq, Eq)]
pub(crate) struct Bracket {
    pub(crate) base: u32,
    pub(crate) count: u32,
}

/// A stack of brackets, seen with the innermost first.
#[derive(Drop)]
pub(crate) struct Brackets {
    items: Vec<Bracket>,
}

impl Model for Brackets {
    ghost use Rattle.std.specs.Prelude.{List, reverse};
    ghost use Rattle.sp_lex.specs.declared.nesting.Bracket.{Bracket};

    ghost Value = { List Bracket };

    ghost view = { λ b. reverse b.items.items };
}

impl Brackets {
    fn new(alloc: Global) -> Brackets
        ensures { result ≡ [] }
    {
        Brackets {
            items: Vec::new(alloc),
        }
    }

    fn push(&mut self, bracket: Bracket) -> Result<(), NoMemory>
        ensures ok { OnOk result (self.new ≡ bracket ∷ self.old) }
    {
        self.items.push(bracket)?;
        Ok(())
    }

    fn pop(&mut self) -> Option<Bracket>
        ensures none { result ≡ None → (self.old ≡ []) × (self.new ≡ []) }
        ensures some { IfSome result (λ bracket. self.old ≡ bracket ∷ self.new) }
    {
        self.items.pop()
    }
}

/// The innermost bracket, and those round it.
#[derive(Drop)]
pub(crate) struct Nesting {
    pub(crate) here: Bracket,
    pub(crate) outer: Brackets,
}

fn punctuation_role(punctuation: Punctuation) -> Role
    ensures { result ≡ punctuation_role punctuation }
{
    match punctuation {
        Punctuation::LeftParen | Punctuation::LeftBracket => Role::OpensPair,
        Punctuation::LeftBrace => Role::OpensBlock,
        Punctuation::RightParen | Punctuation::RightBracket => Role::ClosesPair,
        Punctuation::RightBrace => Role::ClosesBlock,
        Punctuation::Comma | Punctuation::Semicolon => Role::EndsPart,
        Punctuation::Colon => Role::Plain,
        _ => Role::Counts,
    }
}

fn word_role(keyword: Keyword) -> Role
    ensures { result ≡ word_role keyword }
{
    match keyword {
        Keyword::If | Keyword::While | Keyword::For | Keyword::In => Role::Counts,
        _ => Role::Plain,
    }
}

pub(crate) fn role_of(kind: TokenKind) -> Role
    ensures { result ≡ role_of kind }
{
    match kind {
        TokenKind::Punctuation(punctuation) => punctuation_role(punctuation),
        TokenKind::Keyword(keyword) => word_role(keyword),
        _ => Role::Plain,
    }
}

impl Bracket {
    fn level(self) -> u32
        requires { level_in self ≤ 65 }
        ensures { result ≡ level_in self }
    {
        self.base + self.count
    }

    fn counted(self) -> Bracket
        requires { level_in self ≤ 65 }
        ensures { result ≡ counted self }
    {
        Bracket {
            base: self.base,
            count: self.count + 1,
        }
    }

    fn anew(self) -> Bracket
        ensures { result ≡ anew self }
    {
        Bracket {
            base: self.base,
            count: 0,
        }
    }

    fn inside(self) -> Bracket
        requires { level_in self ≤ 65 }
        ensures { result ≡ inside self }
    {
        Bracket {
            base: self.level() + 1,
            count: 0,
        }
    }
}

impl Nesting {
    /// Outside of all brackets. Takes no memory.
    pub(crate) fn outermost(alloc: Global) -> Nesting
        ensures value { result ≡ outermost }
        ensures bounded { IsBounded result }
    {
        Nesting {
            here: Bracket { base: 0, count: 0 },
            outer: Brackets::new(alloc),
        }
    }

    /// The level of a token that does this.
    pub(crate) fn level(&self, role: Role) -> u32
        requires { IsBounded self.now }
        ensures { result ≡ level self.now role }
    {
        match role {
            Role::Counts => self.here.level() + 1,
            _ => self.here.level(),
        }
    }

    /// Goes on behind a token that does this and is not too deep.
    pub(crate) fn pass(&mut self, role: Role) -> Result<(), NoMemory>
        requires bounded { IsBounded self.old }
        requires fits { level self.old role ≤ 64 }
        ensures { OnOk result (self.new ≡ after self.old role) }
    {
        match role {
            Role::Plain => {}
            Role::Counts => self.here = self.here.counted(),
            Role::EndsPart => self.here = self.here.anew(),
            Role::OpensPair => {
                self.outer.push(self.here)?;
                self.here = self.here.inside();
            }
            Role::OpensBlock => {
                self.outer.push(self.here.anew())?;
                self.here = self.here.inside();
            }
            Role::ClosesPair => {
                if let Some(bracket) = self.outer.pop() {
                    self.here = bracket.counted();
                }
            }
            Role::ClosesBlock => {
                let bracket = self.outer.pop().unwrap_or(self.here);
                self.here = bracket.anew();
            }
        }
        Ok(())
    }
}
