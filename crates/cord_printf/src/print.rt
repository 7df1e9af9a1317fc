// Prints.
ghost use Rattle.std.specs.Prelude.{◌≡◌, ◌≢◌, ◌≤◌, length, IfOk, IfErr};
ghost use Rattle.cord_node.specs.Tree.{known};
ghost use Rattle.cord_core.specs.Cord.{text, parts_of, IsCord};
ghost use Rattle.cord_printf.specs.Own.{all_own, arguments_parts, IsPrintedFrom};
ghost use Rattle.cord_printf.specs.PieceText.{printed, first_refusal};
ghost use Rattle.cord_printf.specs.Over.{IsLengthOfPrint, IsPrintOf};
ghost use Rattle.cord_printf.specs.Printing.{arguments_of, IsPrintable, IsRefusedFor};

use crate::arguments::{are_wanted, next_argument};
use crate::output::Output;
use crate::piece_text::show;
use crate::{Arg, Format, PrintError};
use cord_core::Cord;
use cord_io::MAX_LEN;
use std::alloc::Global;

/// The length of the text of a format with its arguments. No text is made and no memory is taken.
///
/// Refused with `WrongArgs` where the arguments aren't those that the format wants; then, from left to right, with
/// `Negative` where an unsigned conversion has a negative number and `BadByte` where `%c` has no byte; then with
/// `TooLong` where the text is longer than `MAX_LEN`.
pub fn sprintf_len(format: &Format, args: &[Arg]) -> Result<u64, PrintError>
    ensures taken { IfOk result (λ _. IsPrintable format.now (arguments_of args.now)) }
    ensures length { IfOk result (λ n. n ≡ length (printed known format.now (arguments_of args.now))) }
    ensures over { IfOk result (IsLengthOfPrint format.now args.now) }
    ensures within_limit { IfOk result (λ n. n ≤ MAX_LEN) }
    ensures refused { IfErr result (IsRefusedFor MAX_LEN format.now (arguments_of args.now)) }
{
    if !are_wanted(format.pieces(), args) {
        return Err(PrintError::WrongArgs);
    }
    let mut total = 0u64;
    let mut rest = args;
    for piece in format.pieces() {
        let place = (args.len() - rest.len()) as u64;
        let (argument, others) = next_argument(piece, rest);
        let shown = show(place, piece, argument)?;
        total = total.saturating_add(shown.len());
        rest = others;
    }
    if total > MAX_LEN {
        return Err(PrintError::TooLong);
    }
    Ok(total)
}

/// The text of a format with its arguments, as a cord that shares theirs.
///
/// Refused as `sprintf_len` is, before memory is taken; `NoMemory` may come in the place of any answer.
pub fn sprintf(alloc: Global, format: &Format, args: &[Arg]) -> Result<Cord, PrintError>
    ensures taken { IfOk result (λ _. IsPrintable format.now (arguments_of args.now)) }
    ensures text { IfOk result (λ c. text c ≡ printed known format.now (arguments_of args.now)) }
    ensures over { IfOk result (IsPrintOf format.now args.now) }
    ensures parts_from { IfOk result (λ c. IsPrintedFrom (all_own format.now (arguments_of args.now))
        (arguments_parts args.now) (parts_of c)) }
    ensures sound { IfOk result IsCord }
    ensures refused { IfErr result (λ e. e ≢ PrintError.NoMemory →
        IsRefusedFor MAX_LEN format.now (arguments_of args.now) e) }
{
    sprintf_len(format, args)?;
    let mut output = Output::new();
    let mut rest = args;
    for piece in format.pieces() {
        let place = (args.len() - rest.len()) as u64;
        let (argument, others) = next_argument(piece, rest);
        let shown = show(place, piece, argument)?;
        output.add_shown(alloc, &shown)?;
        rest = others;
    }
    let cord = output.to_cord(alloc)?;
    Ok(cord)
}
