// Bytes of a format, read from left to right.
ghost use Rattle.std.specs.Prelude.{◌≡◌, ◌<◌, ◌≤◌, ◌⊎◌, [], ◌∷◌, ◌++◌, All, length, take, drop, IfSome, IfNone};
ghost use Rattle.std.specs.Prelude.{MatchOption, IsTrue, false};
ghost use Rattle.cord_printf.specs.Pieces.{IsDigit, StartsNo, number_of, flags_of};
ghost use Rattle.cord_printf.specs.inner.Reading.{IsOf, AreParts, IsDotted};

use crate::{Flags, MAX_WIDTH};

/// What bytes at the front are counted.
#[derive(Clone, Copy)]
pub enum Class {
    /// `-`, `0`, `+`.
    Mark,
    Digit,
    /// `l`.
    Long,
    /// Any byte but `%`.
    Plain,
}

/// The parts of a conversion after its `%`, each as long as possible.
#[derive(Clone, Copy)]
pub struct Parts<'a> {
    pub marks: &'a [u8],
    pub digits: &'a [u8],
    /// Nothing, or `.` and digits.
    pub point: &'a [u8],
    pub modifier: &'a [u8],
    /// The letter, and what follows the conversion.
    pub rest: &'a [u8],
}

fn is_of(class: Class, byte: u8) -> bool
    ensures yes { IsTrue result → IsOf class byte }
    ensures no { result ≡ false → ¬ IsOf class byte }
{
    match class {
        Class::Mark => byte == b'-' || byte == b'0' || byte == b'+',
        Class::Digit => byte >= b'0' && byte <= b'9',
        Class::Long => byte == b'l',
        Class::Plain => byte != b'%',
    }
}

// How many bytes of the class stand at the front.
fn span_len(class: Class, bytes: &[u8]) -> usize
    ensures within { result ≤ length bytes.now }
    ensures all { All (IsOf class) (take result bytes.now) }
    ensures ends { StartsNo (IsOf class) (drop result bytes.now) }
{
    for (i, byte) in bytes.iter().enumerate() {
        if !is_of(class, *byte) {
            return i;
        }
    }
    bytes.len()
}

/// The bytes of the class at the front, and the others.
pub fn span(class: Class, bytes: &[u8]) -> (&[u8], &[u8])
    ensures whole { bytes.now ≡ result.0.now ++ result.1.now }
    ensures all { All (IsOf class) result.0.now }
    ensures ends { StartsNo (IsOf class) result.1.now }
{
    bytes.split_at(span_len(class, bytes))
}

/// The first byte and the others.
pub fn uncons(bytes: &[u8]) -> Option<(u8, &[u8])>
    ensures { MatchOption result (bytes.now ≡ []) (λ r. bytes.now ≡ r.0 ∷ r.1.now) }
{
    match bytes {
        [] => None,
        [first, rest @ ..] => Some((*first, rest)),
    }
}

// `.` and digits, or nothing, and what follows.
fn point(bytes: &[u8]) -> (&[u8], &[u8])
    ensures { IsDotted bytes.now result.0.now result.1.now }
{
    match bytes {
        [b'.', rest @ ..] => bytes.split_at(1 + span_len(Class::Digit, rest)),
        _ => bytes.split_at(0),
    }
}

/// The parts of what may be a conversion, after its `%`.
pub fn split_parts(bytes: &[u8]) -> Parts<'_>
    ensures { AreParts bytes.now result.marks.now result.digits.now result.point.now result.modifier.now
        result.rest.now }
{
    let (marks, rest) = span(Class::Mark, bytes);
    let (digits, rest) = span(Class::Digit, rest);
    let (point, rest) = point(rest);
    let (modifier, rest) = span(Class::Long, rest);
    Parts {
        marks,
        digits,
        point,
        modifier,
        rest,
    }
}

/// The flags that stand among the marks.
pub fn flags_in(marks: &[u8]) -> Flags
    ensures { result ≡ flags_of marks.now }
{
    Flags {
        left: marks.contains(&b'-'),
        zero: marks.contains(&b'0'),
        plus: marks.contains(&b'+'),
    }
}

/// The value of decimal digits, where it is at most `MAX_WIDTH`.
pub fn number(digits: &[u8]) -> Option<u16>
    requires { All IsDigit digits.now }
    ensures some { IfSome result (λ n. (n ≡ number_of digits.now) × (n ≤ MAX_WIDTH)) }
    ensures none { IfNone result (MAX_WIDTH < number_of digits.now) }
{
    let too_wide = u32::from(MAX_WIDTH) + 1;
    let mut value = 0u32;
    for digit in digits {
        value = (10 * value + u32::from(*digit - b'0')).min(too_wide);
    }
    if value < too_wide {
        Some(value as u16)
    } else {
        None
    }
}
