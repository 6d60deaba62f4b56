// The tokens of a source, or the least of its faults.
ghost use Rattle.std.specs.Prelude.{◌≡◌, ◌≤◌, ◌<◌, ◌+◌, ◌⊎◌, ◌==◌, length, IfOk, IfErr, OnOk, IfNone, IfSome};
ghost use Rattle.std.specs.List.{position_or_len, AllByRecursion};
ghost use Rattle.std.specs.Str.{IsUtf8};
ghost use Rattle.std.specs.Str.Lossy.{utf8_valid_len};
ghost use Rattle.sp_base.specs.declared.kinds.MKind.{MKind};
ghost use Rattle.sp_base.specs.declared.places.Span.{Span};
ghost use Rattle.sp_lex.specs.Faults.{most_bytes, looked_at, first_bad, IsRight, IsReadingFault, IsTextFault, IsFault, GoesBefore, OnDiag};
ghost use Rattle.sp_lex.specs.Lexed.{IsLexed};
ghost use Rattle.sp_lex.specs.Nesting.{outermost};
ghost use Rattle.sp_lex.specs.Readings.{reading, whole, HasItsText, IsLongest, InOrder};

use crate::scanner::{scan, span_of};
use crate::tokens::{ReadFault, Tokens};
use sp_base::{ByteList, MKind, Span};
use std::alloc::Global;

/// The most bytes that a text may have.
const MOST_BYTES: usize = 1_048_576;

/// What is wrong, and where.
#[derive(Clone, Copy, PartialEq, Eq)]
struct Fault {
    span: Span,
    kind: MKind,
}

/// So much of a text as one byte more than it may have.
fn looked_at(source: &[u8]) -> &[u8]
    ensures value { result.now ≡ looked_at source.now }
    ensures small { length result.now ≤ most_bytes + 1 }
{
    if source.len() > MOST_BYTES {
        &source[..MOST_BYTES + 1]
    } else {
        source
    }
}

/// The bytes before the first ill-formed sequence of UTF-8.
fn valid_len(text: &[u8]) -> usize
    ensures value { result ≡ utf8_valid_len text.now }
    ensures utf8 { length text.now ≤ result → IsUtf8 text.now }
{
    match std::str::from_utf8(text) {
        Ok(_) => text.len(),
        Err(error) => error.valid_up_to(),
    }
}

/// The bytes before the first byte 0.
fn zero_free_len(text: &[u8]) -> usize
    ensures value { result ≡ position_or_len (λ byte. byte == 0) text.now }
    ensures within { result ≤ length text.now }
    ensures no_zero { length text.now ≤ result → AllByRecursion (λ byte. 0 < byte) text.now }
{
    text.iter().take_while(|byte| **byte != 0).count()
}

/// The place of the first byte that is no text, or the length.
fn first_bad(text: &[u8]) -> usize
    ensures value { result ≡ first_bad text.now }
    ensures within { result ≤ length text.now }
    ensures utf8 { length text.now ≤ result → IsUtf8 text.now }
    ensures no_zero { length text.now ≤ result → AllByRecursion (λ byte. 0 < byte) text.now }
{
    valid_len(text).min(zero_free_len(text))
}

/// What is wrong with the text as a whole.
fn text_fault(source: &[u8], seen: &[u8]) -> Option<Fault>
    requires seen { seen.now ≡ looked_at source.now }
    requires small { length seen.now ≤ most_bytes + 1 }
    ensures right { IfNone result ((span : Span) (m : MKind) → ¬ IsTextFault source.now span m) }
    ensures utf8 { IfNone result (IsUtf8 seen.now) }
    ensures no_zero { IfNone result (AllByRecursion (λ byte. 0 < byte) seen.now) }
    ensures inside { IfSome result (λ f. f.span.from ≤ length seen.now) }
    ensures fault { IfSome result (λ f. IsTextFault source.now f.span f.kind) }
    ensures least { IfSome result (λ f. (other : Span) (k : MKind) → IsTextFault source.now other k
        → GoesBefore f.span f.kind other k) }
{
    let bad = first_bad(seen);
    if bad > 0 && source.len() > MOST_BYTES {
        Some(Fault {
            span: span_of(0, 0),
            kind: MKind::TooLarge,
        })
    } else if bad < seen.len() {
        Some(Fault {
            span: span_of(bad, 1),
            kind: MKind::NotText,
        })
    } else {
        None
    }
}

/// The one of two faults that goes before the other.
fn earlier(first: Fault, second: Fault) -> Fault
    ensures one { (result ≡ first) ⊎ (result ≡ second) }
    ensures before_first { GoesBefore result.span result.kind first.span first.kind }
    ensures before_second { GoesBefore result.span result.kind second.span second.kind }
{
    if first.span.from < second.span.from {
        first
    } else if second.span.from < first.span.from {
        second
    } else if first.kind.number() <= second.kind.number() {
        first
    } else {
        second
    }
}

/// The fault of the text, or of one of its tokens if that goes before it.
fn refused(alloc: Global, seen: &[u8], fault: Fault) -> ReadFault
    requires small { length seen.now ≤ most_bytes + 1 }
    requires inside { fault.span.from ≤ length seen.now }
    ensures inside { OnDiag (λ span _. span.from ≤ length seen.now) result }
    ensures one { OnDiag (λ span kind. ((span ≡ fault.span) × (kind ≡ fault.kind))
        ⊎ IsReadingFault seen.now outermost (reading seen.now) span kind) result }
    ensures before_it { OnDiag (λ span kind. GoesBefore span kind fault.span fault.kind) result }
    ensures before_all { OnDiag (λ span kind. (other : Span) (k : MKind)
        → IsReadingFault seen.now outermost (reading seen.now) other k
        → GoesBefore span kind other k) result }
{
    match scan(alloc, seen) {
        Ok(_) => ReadFault::Diag(fault.span, fault.kind),
        Err(ReadFault::Diag(span, kind)) => {
            let least = earlier(fault, Fault { span, kind });
            ReadFault::Diag(least.span, least.kind)
        }
        Err(ReadFault::NoMemory) => ReadFault::NoMemory,
    }
}

/// The text with its tokens, or its first fault.
fn lexed(alloc: Global, text: &[u8]) -> Result<Tokens, ReadFault>
    requires small { length text.now ≤ most_bytes }
    requires utf8 { IsUtf8 text.now }
    requires no_zero { AllByRecursion (λ byte. 0 < byte) text.now }
    ensures text { IfOk result (λ tokens. tokens.text ≡ text.now) }
    ensures lexed { IfOk result (λ tokens. IsLexed text.now tokens.list) }
    ensures right { IfOk result (λ _. (span : Span) (m : MKind)
        → ¬ IsReadingFault text.now outermost (reading text.now) span m) }
    ensures inside { IfErr result (OnDiag (λ span _. span.from ≤ length text.now)) }
    ensures fault { IfErr result (OnDiag (λ span m. IsReadingFault text.now outermost
        (reading text.now) span m)) }
    ensures least { IfErr result (OnDiag (λ span m. (other : Span) (k : MKind)
        → IsReadingFault text.now outermost (reading text.now) other k
        → GoesBefore span m other k)) }
{
    match scan(alloc, text) {
        Ok(list) => Ok(Tokens::new(ByteList::from_slice(alloc, text)?, list)),
        Err(fault) => Err(fault),
    }
}

/// The tokens of a text in order, each the longest at its place, or the least of its faults by place and number:
/// a byte that is no text (M1), a place where no token begins or a literal with a bad escape or without an end
/// (M2), more than 1,048,576 bytes (M4), a number over 2^64 - 1 (M15), a text between slashes that is no regular
/// expression (M17), and a token of a level over 64 (M31).
pub fn lex(alloc: Global, source: &[u8]) -> Result<Tokens, ReadFault>
    ensures text { IfOk result (λ tokens. tokens.text ≡ source.now) }
    // The text is the tokens in this order, with nothing but white space and comments round them.
    ensures tokens { IfOk result (λ tokens. reading source.now ≡ whole tokens.list) }
    ensures longest { IfOk result (λ tokens. AllByRecursion (IsLongest source.now) tokens.list) }
    ensures texts { IfOk result (λ tokens. AllByRecursion (HasItsText source.now) tokens.list) }
    ensures each_right { IfOk result (λ tokens. AllByRecursion (IsRight source.now) tokens.list) }
    ensures order { IfOk result (λ tokens. InOrder 0 tokens.list (length source.now)) }
    ensures right { IfOk result (λ tokens. (span : Span) (kind : MKind)
        → ¬ IsFault source.now span kind) }
    ensures small { OnOk result (length source.now ≤ most_bytes) }
    // A fault is one of the text, and goes before all others.
    ensures inside { IfErr result (OnDiag (λ span _. (span.from ≤ length source.now)
        × (span.from ≤ most_bytes + 1))) }
    ensures fault { IfErr result (OnDiag (λ span kind. IsFault source.now span kind)) }
    ensures least { IfErr result (OnDiag (λ span kind. (other : Span) (other_kind : MKind)
        → IsFault source.now other other_kind → GoesBefore span kind other other_kind)) }
{
    let seen = looked_at(source);
    match text_fault(source, seen) {
        None => lexed(alloc, seen),
        Some(fault) => Err(refused(alloc, seen, fault)),
    }
}
