// A table of productions as flat lists.
ghost use Rattle.std.specs.Prelude.{◌≡◌, ◌+◌, ◌<◌, ◌≤◌, length, IfSome, IfNone, true};
ghost use Rattle.sp_parser.specs.Grammar.{chosen, at_production, productions_of, right, predict, END};
ghost use Rattle.sp_parser.specs.Rows.{productions_from, table_from, rows_fit, table_fits};

use crate::symbol::Symbol;

/// A production: its select set, which is the kinds before which it is taken, the kinds before which another production
/// is preferred to it, each as bits of a number, and where its right side stands among the symbols.
#[derive(Clone, Copy)]
pub struct Row {
    pub select: u128,
    pub avoid: u128,
    pub from: u16,
    pub to: u16,
}

/// Where the productions of a nonterminal stand among the rows.
#[derive(Clone, Copy)]
pub struct Span {
    pub from: u16,
    pub to: u16,
}

/// The right side of the first production that is taken before a kind.
fn choose<'a>(rows: &[Row], symbols: &'a [Symbol], kind: u8) -> Option<&'a [Symbol]>
    requires kind { kind ≤ END }
    requires fit { rows_fit symbols.now rows.now ≡ true }
    ensures none { IfNone result (length rows.now ≤ chosen (productions_from symbols.now rows.now)
        kind) }
    ensures some { IfSome result (λ s.
        (chosen (productions_from symbols.now rows.now) kind < length rows.now)
        × (s.now ≡ (at_production (productions_from symbols.now rows.now)
        (chosen (productions_from symbols.now rows.now) kind)).symbols)) }
{
    for row in rows {
        if (row.select >> kind) & 1 == 1 {
            return Some(&symbols[row.from as usize..row.to as usize]);
        }
    }
    None
}

/// The right side of the production that is predicted for a nonterminal before a token of a kind, if there is one.
pub fn choose_in<'a>(
    spans: &[Span],
    rows: &[Row],
    symbols: &'a [Symbol],
    nonterminal: u8,
    kind: u8,
) -> Option<&'a [Symbol]>
    requires kind { kind ≤ END }
    requires nonterminal { nonterminal < length spans.now }
    requires fit { table_fits spans.now rows.now symbols.now ≡ true }
    ensures none { IfNone result (length (productions_of (table_from spans.now rows.now symbols.now)
        nonterminal) ≤ predict (table_from spans.now rows.now symbols.now) nonterminal kind) }
    ensures some { IfSome result (λ s.
        (predict (table_from spans.now rows.now symbols.now) nonterminal kind < length
        (productions_of (table_from spans.now rows.now symbols.now) nonterminal))
        × (s.now ≡ right (table_from spans.now rows.now symbols.now) nonterminal
        (predict (table_from spans.now rows.now symbols.now) nonterminal kind))) }
{
    let span = spans[nonterminal as usize];
    choose(&rows[span.from as usize..span.to as usize], symbols, kind)
}
