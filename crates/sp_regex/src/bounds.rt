// Bounds of a repetition, in braces.
ghost use Rattle.std.specs.Prelude.{◌≡◌};
ghost use Rattle.sp_regex.specs.Bounds.{with_digit, greatest_from, bounds_step, digit_step, most_step, close_step, comma_step};

use crate::bytes::decimal_digit;
use crate::tree::Count;

/// How far bounds are read.
#[derive(Clone, Copy)]
pub enum BoundsPlace {
    /// Behind the opening brace.
    Start,
    /// In the least number, of this value so far.
    Least(u8),
    /// Behind the comma, with this least number.
    Comma(u8),
    /// In the greatest number: the least one, and the value so far.
    Most(u8, u8),
}

/// What the next byte of bounds leads to.
#[derive(Clone, Copy)]
pub enum BoundsStep {
    /// More of them have to come.
    Goes(BoundsPlace),
    /// They are these.
    Ends(Count),
    /// No bounds go on so.
    Refused,
}

/// The number with one digit more, if it is at most 255.
fn add_digit(number: u8, digit: u8) -> Option<u8>
    ensures { result ≡ with_digit number digit }
{
    let sum = u16::from(number) * 10 + u16::from(digit);
    if sum <= 255 { Some(sum as u8) } else { None }
}

/// The greatest number up to 255 whose digits begin with those of this one (or are these).
fn greatest(number: u8) -> u8
    ensures { result ≡ greatest_from number }
{
    match number {
        0 | 2 => 255,
        1 => 199,
        3..=25 => if number == 25 { 255 } else { 10 * number + 9 },
        _ => number,
    }
}

/// Reads a further digit, at a place that is no longer at the start.
fn digit_of(place: BoundsPlace, digit: u8) -> BoundsStep
    ensures { result ≡ digit_step place digit }
{
    match place {
        BoundsPlace::Start => BoundsStep::Goes(BoundsPlace::Least(digit)),
        BoundsPlace::Least(least) => match add_digit(least, digit) {
            Some(number) => BoundsStep::Goes(BoundsPlace::Least(number)),
            None => BoundsStep::Refused,
        },
        BoundsPlace::Comma(least) => most(least, Some(digit)),
        BoundsPlace::Most(least, so_far) => most(least, add_digit(so_far, digit)),
    }
}

// The greatest number, if one that is not below the least begins so.
fn most(least: u8, number: Option<u8>) -> BoundsStep
    ensures { result ≡ most_step least number }
{
    match number {
        Some(so_far) if least <= greatest(so_far) => {
            BoundsStep::Goes(BoundsPlace::Most(least, so_far))
        }
        _ => BoundsStep::Refused,
    }
}

// The closing brace.
fn close(place: BoundsPlace) -> BoundsStep
    ensures { result ≡ close_step place }
{
    match place {
        BoundsPlace::Start => BoundsStep::Refused,
        BoundsPlace::Least(least) => BoundsStep::Ends(Count {
            least,
            most: Some(least),
        }),
        BoundsPlace::Comma(least) => BoundsStep::Ends(Count { least, most: None }),
        BoundsPlace::Most(least, most) => {
            if least <= most {
                BoundsStep::Ends(Count {
                    least,
                    most: Some(most),
                })
            } else {
                BoundsStep::Refused
            }
        }
    }
}

// The comma.
fn comma(place: BoundsPlace) -> BoundsStep
    ensures { result ≡ comma_step place }
{
    match place {
        BoundsPlace::Least(least) => BoundsStep::Goes(BoundsPlace::Comma(least)),
        _ => BoundsStep::Refused,
    }
}

impl BoundsPlace {
    /// Reads the next byte.
    pub fn step(self, byte: u8) -> BoundsStep
        ensures { result ≡ bounds_step self byte }
    {
        match byte {
            b'}' => close(self),
            b',' => comma(self),
            _ => match decimal_digit(byte) {
                Some(digit) => digit_of(self, digit),
                None => BoundsStep::Refused,
            },
        }
    }
}
