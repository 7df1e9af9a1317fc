// The digits of numbers.
ghost use Rattle.std.specs.Prelude.{◌≡◌, ◌<◌, length, map};
ghost use Rattle.std.specs.Int.Digits.{digits_of};
ghost use Rattle.cord_printf.specs.PieceText.{base_of, figure};

use crate::Radix;
use itoa::write_digits;
use std::marker::Model;

// Room for the octal digits of 2^64 - 1.
const ROOM: usize = 22;

/// The digits of a number, the most significant first; none for 0. They are counted, and not written yet.
#[derive(Drop)]
pub struct Digits {
    radix: Radix,
    number: u64,
    count: u8,
}

impl Model for Digits {
    ghost use Rattle.std.specs.Prelude.{◌≡◌, List, ℕ, length, map};
    ghost use Rattle.std.specs.Int.Digits.{digits_of};
    ghost use Rattle.cord_printf.specs.PieceText.{base_of, figure};

    ghost Value = { List ℕ };

    ghost view = { λ d. map (figure d.radix) (digits_of (base_of d.radix) d.number) };

    ghost invariant = { λ d. d.count ≡ length (digits_of (base_of d.radix) d.number) };
}

/// Digits as bytes, which take no memory.
#[derive(Drop)]
pub struct ShortText {
    bytes: [u8; ROOM],
    start: usize,
}

impl Model for ShortText {
    ghost use Rattle.std.specs.Prelude.{◌≤◌, List, ℕ, drop};

    ghost Value = { List ℕ };

    ghost view = { λ s. drop s.start s.bytes };

    ghost invariant = { λ s. s.start ≤ 22 };
}

impl Digits {
    /// The digits of a number in a radix.
    #[inline(always)]
    pub fn of(radix: Radix, number: u64) -> Self
        ensures { result ≡ map (figure radix) (digits_of (base_of radix) number) }
    {
        let count = match radix {
            Radix::Decimal => count(Radix::Decimal, number),
            Radix::Octal => count(Radix::Octal, number),
            Radix::LowerHex => count(Radix::LowerHex, number),
            Radix::UpperHex => count(Radix::UpperHex, number),
        };
        Digits {
            radix,
            number,
            count,
        }
    }

    /// How many digits.
    pub fn len(&self) -> u8
        ensures { result ≡ length self.now }
    {
        self.count
    }

    /// The digits, written.
    pub fn text(&self) -> ShortText
        ensures { result ≡ self.now }
    {
        match self.radix {
            Radix::Decimal => decimal(self.number),
            Radix::Octal => in_base(Radix::Octal, self.number),
            Radix::LowerHex => in_base(Radix::LowerHex, self.number),
            Radix::UpperHex => in_base(Radix::UpperHex, self.number),
        }
    }
}

impl ShortText {
    /// The bytes.
    pub fn as_slice(&self) -> &[u8]
        ensures { result.now ≡ self.now }
    {
        &self.bytes[self.start..]
    }
}

#[inline(always)]
fn base(radix: Radix) -> u64
    ensures { result ≡ base_of radix }
{
    match radix {
        Radix::Decimal => 10,
        Radix::Octal => 8,
        Radix::LowerHex | Radix::UpperHex => 16,
    }
}

// The byte that shows a digit.
#[inline(always)]
fn figure_of(radix: Radix, digit: u8) -> u8
    requires { digit < 16 }
    ensures { result ≡ figure radix digit }
{
    if digit < 10 {
        b'0' + digit
    } else if radix == Radix::UpperHex {
        b'A' + (digit - 10)
    } else {
        b'a' + (digit - 10)
    }
}

// How many digits a number has. Where the radix is known, so is the divisor.
#[inline(always)]
fn count(radix: Radix, number: u64) -> u8
    ensures { result ≡ length (digits_of (base_of radix) number) }
{
    let base = base(radix);
    let mut count = 0u8;
    let mut rest = number;
    'digits: while rest > 0 {
        count += 1;
        rest /= base;
    }
    count
}

fn decimal(number: u64) -> ShortText
    ensures { result ≡ map (figure Radix.Decimal) (digits_of 10 number) }
{
    let mut bytes = [0; ROOM];
    if number == 0 {
        return ShortText { bytes, start: ROOM };
    }
    let start = write_digits(number, &mut bytes, ROOM);
    ShortText { bytes, start }
}

// Where the radix is known, so is the divisor.
#[inline(always)]
fn in_base(radix: Radix, number: u64) -> ShortText
    ensures { result ≡ map (figure radix) (digits_of (base_of radix) number) }
{
    let base = base(radix);
    let mut bytes = [0; ROOM];
    let mut start = ROOM;
    let mut rest = number;
    'digits: while rest > 0 {
        start -= 1;
        bytes[start] = figure_of(radix, (rest % base) as u8);
        rest /= base;
    }
    ShortText { bytes, start }
}
