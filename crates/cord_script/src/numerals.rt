// Numerals.
ghost use Rattle.std.specs.Prelude.{◌≡◌, ◌≤◌, ◌^◌, pos, neg_ℤ};
ghost use Rattle.cord_script.specs.Tests.{is_digit, numeral_of};
ghost use Rattle.cord_script.specs.inner.Reading.{magnitude_from};

use crate::words::uncons;

/// The magnitude of the least number of 64 bits with sign.
const GREATEST: u64 = 9_223_372_036_854_775_808;

/// Whether a byte is a decimal digit.
pub fn is_digit(c: u8) -> bool
    ensures { result ≡ is_digit c }
{
    c >= b'0' && c <= b'9'
}

// The number that digits write, where it is at most the greatest magnitude.
fn magnitude(digits: &[u8]) -> Option<u64>
    ensures { result ≡ magnitude_from 0 digits.now }
{
    let mut value = 0u64;
    for digit in digits {
        if !is_digit(*digit) {
            return None;
        }
        if value > GREATEST / 10 {
            return None;
        }
        value = 10 * value + u64::from(*digit - b'0');
    }
    if value <= GREATEST { Some(value) } else { None }
}

// The number below zero of a magnitude.
fn negated(value: u64) -> i64
    requires { value ≤ 2 ^ 63 }
    ensures { result ≡ neg_ℤ (pos value) }
{
    if value == GREATEST {
        return i64::MIN;
    }
    -(value as i64)
}

/// The value of a numeral: an optional `-`, then one digit or more, within 64 bits with sign.
pub fn numeral_of(word: &[u8]) -> Option<i64>
    ensures { result ≡ numeral_of word.now }
{
    let (first, digits) = uncons(word)?;
    if first == b'-' {
        if digits.is_empty() {
            return None;
        }
        return Some(negated(magnitude(digits)?));
    }
    let value = magnitude(word)?;
    if value == GREATEST {
        return None;
    }
    Some(value as i64)
}
