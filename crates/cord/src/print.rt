// Texts by formats.
ghost use Rattle.std.specs.Prelude.{◌≡◌, IfOk, IfErr, None};
ghost use Rattle.cord_printf.specs.PieceText.{first_refusal};
ghost use Rattle.cord.specs.Prints.{piece_arguments, print_of, AreWanted, IsRefusedFor};
ghost use Rattle.cord.specs.inner.Prints.{IsArgumentFor, AreArgumentsFor};

use crate::Text;
use crate::memory::within_memory;
use cord_io::MAX_LEN;
use cord_printf::{Arg, Format, PrintError, sprintf};
use std::alloc::{AllocError, Global};

/// What a conversion of a format is given.
#[derive(Clone, Copy)]
pub enum TextArg<'a> {
    /// A number.
    Num(i64),
    /// A text, whose tree a print shares.
    Text(&'a Text),
}

impl Text {
    /// The text of a format with its arguments, which shares the trees of theirs.
    ///
    /// Refused with `WrongArgs` where the arguments aren't those that the format wants; then, from left to right, with
    /// `Negative` where an unsigned conversion has a negative number and `BadByte` where `%c` has no byte; then with
    /// `TooLong` where the text would be longer than `MAX_LEN`. `NoMemory` may come in the place of any answer.
    pub fn print(alloc: Global, format: &Format, args: &[TextArg<'_>]) -> Result<Text, PrintError>
        ensures text { IfOk result (λ t. t ≡ print_of format.now args.now) }
        ensures wanted { IfOk result (λ _. AreWanted format.now args.now) }
        ensures taken { IfOk result (λ _. first_refusal 0 format.now (piece_arguments args.now) ≡ None) }
        ensures refused { IfErr result (IsRefusedFor MAX_LEN format.now args.now) }
    {
        let args = cords_of(alloc, args)?;
        let cord = sprintf(alloc, format, &args)?;
        Ok(Text { cord })
    }
}

// The arguments as `sprintf` takes them.
fn cords_of(alloc: Global, args: &[TextArg<'_>]) -> Result<Vec<Arg>, AllocError>
    ensures { IfOk result (λ made. AreArgumentsFor args.now made.items) }
{
    let mut made = Vec::new(alloc);
    for arg in args {
        let arg = cord_of(alloc, arg)?;
        if made.push(arg).is_err() {
            return Err(AllocError);
        }
    }
    Ok(made)
}

// An argument as `sprintf` takes it.
fn cord_of(alloc: Global, arg: &TextArg<'_>) -> Result<Arg, AllocError>
    ensures { IfOk result (IsArgumentFor arg.now) }
{
    match arg {
        TextArg::Num(number) => Ok(Arg::Num(*number)),
        TextArg::Text(text) => {
            let cord = within_memory(text.as_cord().share(alloc))?;
            Ok(Arg::Cord(cord))
        }
    }
}
