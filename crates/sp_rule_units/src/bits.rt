// The rules at a bitfield.
ghost use Rattle.std.specs.Prelude.{◌≡◌};
ghost use Rattle.sp_rules.specs.Least.{checked};
ghost use Rattle.sp_rule_units.specs.Bits.{is_width, range_tests, ranges_tests, bitfield_tests};

use sp_rules::{Fault, Rule, note_at};
use sp_typed_units::{BitRange, Bitfield};

/// Whether a bitfield may have so many bits.
fn is_width(n: u64) -> bool
    ensures { result ≡ is_width n }
{
    n == 8 || n == 16 || n == 32 || n == 64
}

fn note_range(owner: u32, width: u64, range: &BitRange, least: &mut Option<Fault>)
    ensures { least.new ≡ checked least.old (range_tests owner width range.now) }
{
    let reversed = range.to < range.from;
    note_at(reversed, owner, Rule::BadBitRange, range.to_span, least);
    note_at(
        width <= range.from,
        owner,
        Rule::BadBitRange,
        range.from_span,
        least,
    );
    note_at(
        width <= range.to,
        owner,
        Rule::BadBitRange,
        range.to_span,
        least,
    );
}

#[tactic(auto, using(crate::proofs::Checked::checked_more))]
fn note_ranges(owner: u32, width: u64, ranges: &[BitRange], least: &mut Option<Fault>)
    ensures { least.new ≡ checked least.old (ranges_tests owner width ranges.now) }
{
    for range in ranges {
        note_range(owner, width, range, least);
    }
}

/// Notes what is wrong with the width of a bitfield and with its ranges.
pub fn note_bitfield(bitfield: &Bitfield, least: &mut Option<Fault>)
    ensures { least.new ≡ checked least.old (bitfield_tests bitfield.now) }
{
    let owner = bitfield.module;
    let wrong = !is_width(bitfield.width);
    note_at(wrong, owner, Rule::BadBitRange, bitfield.width_span, least);
    note_ranges(owner, bitfield.width, bitfield.ranges.as_slice(), least);
}
