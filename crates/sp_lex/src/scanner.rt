// One pass over a text, from token to token, up to its end or to the first fault.
ghost use Rattle.std.specs.Prelude.{◌≡◌, ◌≤◌, ◌<◌, ◌+◌, ◌^◌, length, drop, IfOk, IfErr, OnOk};
ghost use Rattle.std.specs.List.{AllByRecursion};
ghost use Rattle.sp_base.specs.Kinds.{module_kind_number};
ghost use Rattle.sp_base.specs.declared.kinds.MKind.{MKind};
ghost use Rattle.sp_base.specs.declared.places.Span.{Span};
ghost use Rattle.sp_lex.specs.Elements.{element_at};
ghost use Rattle.sp_lex.specs.Faults.{most_bytes, IsTokenFault, IsReadingFault, GoesBefore, OnDiag};
ghost use Rattle.sp_lex.specs.Nesting.{role_of, level, after, outermost, IsBounded};
ghost use Rattle.sp_lex.specs.Readings.{token_at, reading, whole, HasItsText, IsLongest, InOrder};
ghost use Rattle.sp_lex.specs.inside.Scanning.{Scanned};

use crate::elements::{Element, element_at};
use crate::faults::own_fault;
use crate::kinds::TokenKind;
use crate::nesting::{Nesting, role_of};
use crate::tokens::{ReadFault, Token, TokenList};
use sp_base::{MKind, Span};
use std::alloc::Global;

/// The deepest level that a token may have.
const DEEPEST: u32 = 64;

/// How far a text was read.
#[derive(Drop)]
struct Progress {
    at: usize,
    /// Whether a `/` would divide.
    divides: bool,
    nesting: Nesting,
    tokens: TokenList,
}

pub(crate) fn span_of(at: usize, n: usize) -> Span
    requires { at + n < 2 ^ 32 }
    ensures { result ≡ record { from = at; to = at + n } }
{
    Span {
        from: at as u32,
        to: (at + n) as u32,
    }
}

/// Refuses a token with a fault, or goes on behind it.
fn pass(alloc: Global, nesting: &mut Nesting, token: Token, bytes: &[u8]) -> Result<(), ReadFault>
    requires { IsBounded nesting.old }
    ensures right { OnOk result ((m : MKind) → ¬ IsTokenFault bytes.now nesting.old token m) }
    ensures low { OnOk result (level nesting.old (role_of token.kind) ≤ 64) }
    ensures behind { OnOk result (nesting.new ≡ after nesting.old (role_of token.kind)) }
    ensures place { IfErr result (OnDiag (λ span _. span ≡ token.span)) }
    ensures fault { IfErr result (OnDiag (λ _ m. IsTokenFault bytes.now nesting.old token m)) }
    ensures least { IfErr result (OnDiag (λ _ m. (k : MKind)
        → IsTokenFault bytes.now nesting.old token k
        → module_kind_number m ≤ module_kind_number k)) }
{
    if let Some(kind) = own_fault(alloc, token.kind, bytes)? {
        return Err(ReadFault::Diag(token.span, kind));
    }
    let role = role_of(token.kind);
    if nesting.level(role) > DEEPEST {
        return Err(ReadFault::Diag(token.span, MKind::TooDeep));
    }
    nesting.pass(role)?;
    Ok(())
}

impl Progress {
    /// Takes the token that stands at the place.
    fn take(
        &mut self,
        alloc: Global,
        text: &[u8],
        kind: TokenKind,
        n: usize,
    ) -> Result<(), ReadFault>
        requires small { length text.now ≤ most_bytes + 1 }
        requires inside { self.old.at < length text.now }
        requires scanned { Scanned text.now self.old.at self.old.divides self.old.nesting
            self.old.tokens }
        requires stands { element_at self.old.divides (drop self.old.at text.now)
            ≡ Element.Token kind n }
        requires some { 0 < n }
        requires within { self.old.at + n ≤ length text.now }
        ensures scanned { OnOk result (Scanned text.now self.new.at self.new.divides
            self.new.nesting self.new.tokens) }
        ensures goes { OnOk result (self.new.at ≡ self.old.at + n) }
        ensures inside { IfErr result (OnDiag (λ span _. span.from ≤ length text.now)) }
        ensures fault { IfErr result (OnDiag (λ span m. IsReadingFault text.now outermost
            (reading text.now) span m)) }
        ensures least { IfErr result (OnDiag (λ span m. (other : Span) (k : MKind)
            → IsReadingFault text.now outermost (reading text.now) other k
            → GoesBefore span m other k)) }
    {
        let behind = self.at + n;
        let token = Token {
            kind,
            span: span_of(self.at, n),
        };
        pass(alloc, &mut self.nesting, token, &text[self.at..behind])?;
        self.tokens.push(token)?;
        self.divides = kind.ends_operand();
        self.at = behind;
        Ok(())
    }

    /// Takes what stands at the place.
    fn step(&mut self, alloc: Global, text: &[u8]) -> Result<(), ReadFault>
        requires small { length text.now ≤ most_bytes + 1 }
        requires inside { self.old.at < length text.now }
        requires scanned { Scanned text.now self.old.at self.old.divides self.old.nesting
            self.old.tokens }
        ensures scanned { OnOk result (Scanned text.now self.new.at self.new.divides
            self.new.nesting self.new.tokens) }
        ensures goes { OnOk result (self.old.at < self.new.at) }
        ensures inside { IfErr result (OnDiag (λ span _. span.from ≤ length text.now)) }
        ensures fault { IfErr result (OnDiag (λ span m. IsReadingFault text.now outermost
            (reading text.now) span m)) }
        ensures least { IfErr result (OnDiag (λ span m. (other : Span) (k : MKind)
            → IsReadingFault text.now outermost (reading text.now) other k
            → GoesBefore span m other k)) }
    {
        match element_at(self.divides, &text[self.at..]) {
            Element::Blank(n) => {
                self.at += n;
                Ok(())
            }
            Element::Token(kind, n) => self.take(alloc, text, kind, n),
            Element::Bad => Err(ReadFault::Diag(span_of(self.at, 1), MKind::BadToken)),
        }
    }
}

/// The tokens of a text, or its first fault.
pub(crate) fn scan(alloc: Global, text: &[u8]) -> Result<TokenList, ReadFault>
    requires { length text.now ≤ most_bytes + 1 }
    ensures tokens { IfOk result (λ tokens. reading text.now ≡ whole tokens) }
    ensures longest { IfOk result (λ tokens. AllByRecursion (IsLongest text.now) tokens) }
    ensures texts { IfOk result (λ tokens. AllByRecursion (HasItsText text.now) tokens) }
    ensures right { IfOk result (λ tokens. (span : Span) (m : MKind)
        → ¬ IsReadingFault text.now outermost (reading text.now) span m) }
    ensures order { IfOk result (λ tokens. InOrder 0 tokens (length text.now)) }
    ensures inside { IfErr result (OnDiag (λ span _. span.from ≤ length text.now)) }
    ensures fault { IfErr result (OnDiag (λ span m. IsReadingFault text.now outermost
        (reading text.now) span m)) }
    ensures least { IfErr result (OnDiag (λ span m. (other : Span) (k : MKind)
        → IsReadingFault text.now outermost (reading text.now) other k
        → GoesBefore span m other k)) }
{
    let mut progress = Progress {
        at: 0,
        divides: false,
        nesting: Nesting::outermost(alloc),
        tokens: TokenList::new(alloc),
    };
    while progress.at < text.len() {
        progress.step(alloc, text)?;
    }
    Ok(progress.tokens)
}
