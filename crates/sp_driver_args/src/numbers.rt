// Numbers on the command line.
ghost use Rattle.std.specs.Prelude.{◌≡◌, ◌≤◌, ◌^◌, option_map, IfSome};
ghost use Rattle.sp_driver_args.specs.Words.{number_from, number_of, number_in};

/// The number that decimal digits make, if it is at most this.
fn number_from(most: u64, digits: &[u8]) -> Option<u64>
    requires { most ≤ 2 ^ 62 }
    ensures value { result ≡ number_from most 0 digits.now }
    ensures bound { IfSome result (λ n. n ≤ most) }
{
    let mut number: u64 = 0;
    for digit in digits {
        if !digit.is_ascii_digit() {
            return None;
        }
        let value = number as u128 * 10 + (*digit - b'0') as u128;
        if value > most as u128 {
            return None;
        }
        number = value as u64;
    }
    Some(number)
}

/// The number of digits that have no zero in front, if it is at most this.
fn number_of(most: u64, digits: &[u8]) -> Option<u64>
    requires { most ≤ 2 ^ 62 }
    ensures value { result ≡ number_of most digits.now }
    ensures bound { IfSome result (λ n. n ≤ most) }
{
    match digits {
        [] => None,
        [_] => number_from(most, digits),
        [first, ..] => {
            if *first == b'0' {
                None
            } else {
                number_from(most, digits)
            }
        }
    }
}

/// The value of an option as a number of a range, both ends included, or a number where the option isn't there.
pub(crate) fn number_in(least: u64, most: u64, default: u64, value: Option<&str>) -> Option<u64>
    requires most { most ≤ 2 ^ 62 }
    requires least { least ≤ default }
    requires default { default ≤ most }
    ensures value { result ≡ number_in least most default (option_map (λ s. s.now) value.entry) }
    ensures least { IfSome result (λ n. least ≤ n) }
    ensures bound { IfSome result (λ n. n ≤ most) }
{
    let Some(digits) = value else {
        return Some(default);
    };
    let number = number_of(most, digits.as_bytes())?;
    if number < least {
        return None;
    }
    Some(number)
}
