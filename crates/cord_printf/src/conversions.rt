// Conversions: from their parts to pieces.
ghost use Rattle.std.specs.Prelude.{◌≡◌, ◌↔◌, ℕ, Option, ◌∷◌, IfSome, IfNone, IsTrue};
ghost use Rattle.cord_printf.specs.declared.pieces.Piece.{Piece};
ghost use Rattle.cord_printf.specs.Pieces.{IsPoint};
ghost use Rattle.cord_printf.specs.Format.{Converts, BeginsConversion};
ghost use Rattle.cord_printf.specs.inner.Reading.{IsLettered, IsNoLetter, IsAllowedSpelling, IsPointed};

use crate::reading::{Parts, flags_in, number, split_parts, uncons};
use crate::{Flags, Piece, Radix};

// The piece that a letter stands for.
fn piece_of(letter: u8, flags: Flags, width: u16, precision: Option<u16>) -> Option<Piece>
    ensures some { IfSome result (IsLettered letter flags width precision) }
    ensures none { IfNone result (IsNoLetter letter) }
{
    let radix = match letter {
        b'd' | b'i' => {
            return Some(Piece::Signed {
                flags,
                width,
                precision,
            });
        }
        b'u' => Radix::Decimal,
        b'o' => Radix::Octal,
        b'x' => Radix::LowerHex,
        b'X' => Radix::UpperHex,
        b'c' => return Some(Piece::Byte { flags, width }),
        b's' | b'r' => {
            return Some(Piece::Cord {
                flags,
                width,
                precision,
            });
        }
        b'%' => return Some(Piece::Percent),
        _ => return None,
    };
    Some(Piece::Unsigned {
        radix,
        flags,
        width,
        precision,
    })
}

// The piece may be written with these parts.
fn is_allowed(piece: &Piece, parts: &Parts<'_>) -> bool
    ensures { IsTrue result ↔ IsAllowedSpelling piece.now parts.now.marks.now parts.now.digits.now parts.now.point.now
        parts.now.modifier.now }
{
    match piece {
        Piece::Text(_) => false,
        Piece::Signed { .. } => parts.modifier.len() <= 2,
        Piece::Unsigned { flags, .. } => !flags.plus && parts.modifier.len() <= 2,
        Piece::Byte { flags, .. } => {
            !flags.zero && !flags.plus && parts.point.is_empty() && parts.modifier.is_empty()
        }
        Piece::Cord { flags, .. } => !flags.zero && !flags.plus && parts.modifier.is_empty(),
        Piece::Percent => {
            parts.marks.is_empty()
                && parts.digits.is_empty()
                && parts.point.is_empty()
                && parts.modifier.is_empty()
        }
    }
}

// The precision of a point, or `None` where it is too great.
fn precision_in(point: &[u8]) -> Option<Option<u16>>
    requires { IsPointed point.now }
    ensures some { IfSome result (IsPoint point.now) }
    ensures none { IfNone result ((p : Option ℕ) → ¬ IsPoint point.now p) }
{
    match uncons(point) {
        None => Some(None),
        Some((_, digits)) => {
            let precision = number(digits)?;
            Some(Some(precision))
        }
    }
}

/// The conversion whose `%` stands in front of the bytes, and what follows it.
pub fn conversion(bytes: &[u8]) -> Option<(Piece, &[u8])>
    ensures some { IfSome result (λ r. Converts (37 ∷ bytes.now) r.0 r.1.now) }
    ensures none { IfNone result (¬ BeginsConversion (37 ∷ bytes.now)) }
{
    let parts = split_parts(bytes);
    let (letter, rest) = uncons(parts.rest)?;
    let width = number(parts.digits)?;
    let precision = precision_in(parts.point)?;
    let piece = piece_of(letter, flags_in(parts.marks), width, precision)?;
    if is_allowed(&piece, &parts) {
        Some((piece, rest))
    } else {
        None
    }
}
