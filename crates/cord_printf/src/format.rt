// Formats.
ghost use Rattle.std.specs.Prelude.{◌≡◌, ◌≢◌, ◌<◌, List, ℕ, [], ◌∷◌, ◌++◌, length, IfOk, IfErr, IfSome, IfNone};
ghost use Rattle.cord_printf.specs.Pieces.{IsPiece};
ghost use Rattle.cord_printf.specs.Format.{IsFormat, IsBadAt, IsFormatRefusal, BeginsConversion};
ghost use Rattle.cord_printf.specs.inner.Format.{IsBadHere};
ghost use Rattle.cord_printf.specs.declared.pieces.Piece.{Piece};

use crate::conversions::conversion;
use crate::reading::{Class, span, uncons};
use crate::{FormatError, Literal, Piece};
use std::alloc::Global;
use std::marker::Model;

/// A format: its pieces, from left to right.
#[derive(Clone, Drop)]
pub struct Format {
    pieces: Vec<Piece>,
}

impl Model for Format {
    ghost use Rattle.std.specs.Prelude.{List};
    ghost use Rattle.cord_printf.specs.declared.pieces.Piece.{Piece};

    ghost Value = { List Piece };

    ghost view = { λ f. f.pieces.items };
}

impl Format {
    /// Reads a format, after C's printf: texts without `%`, each as long as possible, and conversions.
    ///
    /// A conversion is `%`, flags, a width, a precision, `l` or `ll`, and a letter. `BadFormat` has the offset of the
    /// first `%` that stands after whole pieces and begins no conversion; `NoMemory` says nothing of the format.
    pub fn parse(alloc: Global, bytes: &[u8]) -> Result<Format, FormatError>
        ensures pieces { IfOk result (IsFormat bytes.now) }
        ensures refused { IfErr result (IsFormatRefusal bytes.now) }
    {
        let mut pieces = Vec::new(alloc);
        let mut rest = bytes;
        'pieces: while !rest.is_empty() {
            let (piece, after) = next_piece(alloc, bytes.len() - rest.len(), rest)?;
            if pieces.push(piece).is_err() {
                return Err(FormatError::NoMemory);
            }
            rest = after;
        }
        Ok(Format { pieces })
    }

    /// The offset of the first `%` that stands after whole pieces and begins no conversion, or `None` where the bytes
    /// are a format. So all bytes are a format or have a first bad offset, and `parse` refuses a format only when
    /// out of memory. It takes no memory, and time in proportion to the bytes.
    pub fn bad_offset(bytes: &[u8]) -> Option<usize>
        ensures bad { IfSome result (IsBadAt bytes.now) }
        ensures format { IfNone result ((pieces : List Piece) × IsFormat bytes.now pieces) }
    {
        let mut rest = bytes;
        'pieces: while !rest.is_empty() {
            let Some(after) = past_piece(rest) else {
                return Some(bytes.len() - rest.len());
            };
            rest = after;
        }
        None
    }

    /// The pieces, from left to right.
    pub fn pieces(&self) -> &[Piece]
        ensures { result.now ≡ self.now }
    {
        &self.pieces
    }
}

// What follows the piece at the prefix of the bytes, or `None` where a `%` that begins no conversion stands there.
fn past_piece(bytes: &[u8]) -> Option<&[u8]>
    requires { bytes.now ≢ [] }
    ensures piece { IfSome result (λ after. (p : Piece) × (w : List ℕ) × (bytes.now ≡ w ++ after.now) ×
        IsPiece w p after.now) }
    ensures shorter { IfSome result (λ after. length after.now < length bytes.now) }
    ensures bad { IfNone result (((rest : List ℕ) × (bytes.now ≡ 37 ∷ rest)) × ¬ BeginsConversion bytes.now) }
{
    if let Some((b'%', inner)) = uncons(bytes) {
        let (_, after) = conversion(inner)?;
        return Some(after);
    }
    let (_, after) = span(Class::Plain, bytes);
    Some(after)
}

// The piece at the prefix of the bytes at an offset, and what follows it.
fn next_piece(alloc: Global, offset: usize, bytes: &[u8]) -> Result<(Piece, &[u8]), FormatError>
    requires { bytes.now ≢ [] }
    ensures piece { IfOk result (λ r. (w : List ℕ) × (bytes.now ≡ w ++ r.1.now) × IsPiece w r.0 r.1.now) }
    ensures shorter { IfOk result (λ r. length r.1.now < length bytes.now) }
    ensures refused { IfErr result (IsBadHere bytes.now offset) }
{
    if let Some((b'%', inner)) = uncons(bytes) {
        let Some((piece, after)) = conversion(inner) else {
            return Err(FormatError::BadFormat(offset));
        };
        return Ok((piece, after));
    }
    let (text, after) = span(Class::Plain, bytes);
    match Vec::from_slice(alloc, text) {
        Err(_) => Err(FormatError::NoMemory),
        Ok(text) => Ok((Piece::Text(Literal::of(text)), after)),
    }
}
