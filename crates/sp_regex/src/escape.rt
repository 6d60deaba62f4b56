// An escape: a backslash and what follows it.
ghost use Rattle.std.specs.Prelude.{◌≡◌};
ghost use Rattle.sp_regex.specs.Escapes.{escape_step};

use crate::bytes::{Escaped, hex_byte, hex_digit};

/// How far an escape is read.
#[derive(Clone, Copy)]
pub enum EscapePlace {
    /// Behind the backslash.
    Start,
    /// Behind the `x`: two digits have to come.
    Hex,
    /// Behind this first digit.
    Digit(u8),
}

/// What the next byte of an escape leads to.
#[derive(Clone, Copy)]
pub enum EscapeStep {
    /// More of it has to come.
    Goes(EscapePlace),
    /// It is this byte.
    Ends(u8),
    /// No escape goes on so.
    Refused,
}

impl EscapePlace {
    /// Reads the next byte.
    pub fn step(self, byte: u8) -> EscapeStep
        ensures { result ≡ escape_step self byte }
    {
        match self {
            EscapePlace::Start => match Escaped::of(byte) {
                Escaped::Byte(b) => EscapeStep::Ends(b),
                Escaped::Hex => EscapeStep::Goes(EscapePlace::Hex),
                Escaped::Misplaced => EscapeStep::Refused,
            },
            EscapePlace::Hex => match hex_digit(byte) {
                Some(_) => EscapeStep::Goes(EscapePlace::Digit(byte)),
                None => EscapeStep::Refused,
            },
            EscapePlace::Digit(high) => match hex_byte(high, byte) {
                Some(b) => EscapeStep::Ends(b),
                None => EscapeStep::Refused,
            },
        }
    }
}
