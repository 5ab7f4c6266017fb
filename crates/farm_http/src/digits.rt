//! Numbers in decimal digits.
ghost use Rattle.std.specs.Prelude.{◌≡◌, ◌<◌, ◌≤◌, MatchOption};
ghost use Rattle.std.specs.Char.{is_ascii_digit, digit_value};
ghost use Rattle.std.specs.List.{list_all};
ghost use Rattle.std.specs.Str.Parse.{digits_value};

/// Whether each byte is a digit.
pub fn is_digits(text: &[u8]) -> bool
    ensures { result ≡ list_all is_ascii_digit text.now }
{
    text.iter().all(|byte| byte.is_ascii_digit())
}

/// What a digit stands for.
fn value_of(digit: u8) -> u64
    ensures { result ≡ digit_value digit }
{
    (digit as char).to_digit(36).map_or(36, u64::from)
}

/// The number that digits write, if it is at most this.
pub fn number_within(text: &[u8], most: u32) -> Option<u64>
    ensures { MatchOption result (most < digits_value 10 text.now)
        (λ n. (n ≤ most) × (n ≡ digits_value 10 text.now)) }
{
    let mut number = 0u64;
    for digit in text {
        number = number * 10 + value_of(*digit);
        if number > most as u64 {
            return None;
        }
    }
    Some(number)
}
