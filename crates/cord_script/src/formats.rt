// What the conversions of a format want.
ghost use Rattle.std.specs.Prelude.{◌≡◌, IfOk};
ghost use Rattle.cord_script.specs.Formats.{want_of_kind, wants_of_pieces};

use crate::kinds::{Kind, Want};
use cord_printf::{ArgKind, Piece};
use std::alloc::{AllocError, Global};

// What an argument of a format has to be.
fn want_of_kind(kind: ArgKind) -> Want
    ensures { result ≡ want_of_kind kind }
{
    match kind {
        ArgKind::Number => Want::Number,
        ArgKind::Cord => Want::Operand(Kind::Cord),
    }
}

/// What the conversions of a format want.
pub fn wants_of_pieces(alloc: Global, pieces: &[Piece]) -> Result<Vec<Want>, AllocError>
    ensures wants { IfOk result (λ wants. wants.items ≡ wants_of_pieces pieces.now) }
{
    let mut wants = Vec::new(alloc);
    for piece in pieces {
        let Some(kind) = piece.wants() else { continue };
        wants.push(want_of_kind(kind))?;
    }
    Ok(wants)
}
