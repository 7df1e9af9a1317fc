// The arguments of a print.
ghost use Rattle.std.specs.Prelude.{◌≡◌, ◌↔◌, ◌++◌, IsTrue, IfSome, IfNone, option_map};
ghost use Rattle.cord_printf.specs.Own.{arguments_parts};
ghost use Rattle.cord_printf.specs.inner.Own.{parts_if};
ghost use Rattle.cord_printf.specs.Pieces.{wants};
ghost use Rattle.cord_printf.specs.PieceText.{kind_of, argument_if, others_if};
ghost use Rattle.cord_printf.specs.Printing.{argument_of, arguments_of, AreWanted};

use crate::{ArgKind, Piece};
use cord_core::Cord;

/// An argument of a print.
#[derive(Drop)]
pub enum Arg {
    Num(i64),
    Cord(Cord),
}

// The kind of an argument.
fn kind(arg: &Arg) -> ArgKind
    ensures { result ≡ kind_of (argument_of arg.now) }
{
    match arg {
        Arg::Num(_) => ArgKind::Number,
        Arg::Cord(_) => ArgKind::Cord,
    }
}

/// The argument of a piece, where it takes one, and those that are left.
#[inline(always)]
pub fn next_argument<'a>(piece: &Piece, args: &'a [Arg]) -> (Option<&'a Arg>, &'a [Arg])
    ensures argument { option_map (λ a. argument_of a.now) result.0
        ≡ argument_if (wants piece.now) (arguments_of args.now) }
    ensures others { arguments_of result.1.now ≡ others_if (wants piece.now) (arguments_of args.now) }
    ensures parts { arguments_parts args.now
        ≡ parts_if (option_map (λ a. a.now) result.0) ++ arguments_parts result.1.now }
{
    match (piece.wants(), args) {
        (Some(_), [first, others @ ..]) => (Some(first), others),
        _ => (None, args),
    }
}

/// The arguments are as many as the pieces take, and of the kinds that they want.
pub fn are_wanted(pieces: &[Piece], args: &[Arg]) -> bool
    ensures { IsTrue result ↔ AreWanted pieces.now (arguments_of args.now) }
{
    let mut rest = args;
    for piece in pieces {
        if let Some(wanted) = piece.wants() {
            let [first, others @ ..] = rest else {
                return false;
            };
            if kind(first) != wanted {
                return false;
            }
            rest = others;
        }
    }
    rest.is_empty()
}
