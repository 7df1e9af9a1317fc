// Texts of formats with their arguments.
ghost use Rattle.std.specs.Prelude.{◌≡◌, ◌⊎◌, IfOk, IfErr};
ghost use Rattle.cord.specs.Prints as of_texts;
ghost use Rattle.cord_printf.specs.Format.{IsBadAt};
ghost use Rattle.cord_c.specs.Prints.{piece_arguments, IsPrint, IsLongPrint, IsWrongFor, HasBadValue};
ghost use Rattle.cord_c.specs.inner.Prints.{texts_in, IsRefusedPrint};
ghost use denote.RawPtr.{Testable};
ghost use Rattle.core.specs.Ptr.{as_mut_ptr};

use crate::Handle;
use crate::argument::Argument;
use crate::code::{BAD_FORMAT, BAD_VALUE, NO_MEMORY, NULL_POINTER, OK, TOO_LONG, WRONG_ARGUMENTS};
use crate::pointer::either_missing;
use cord::{Format, FormatError, PrintError, Text, TextArg};
use std::alloc::{AllocError, Global};

/// The text of a format with its arguments, which shares the trees of theirs. `BAD_FORMAT` where the bytes are no
/// format, and the offset of what is no conversion goes to `at`; `WRONG_ARGUMENTS` where it takes others; `BAD_VALUE`
/// where one has a value that its conversion doesn't take, and its number, from 0, goes to `at`.
#[unsafe(no_mangle)]
pub extern "C" fn zc_sprintf(
    alloc: Global,
    format: &[u8],
    args: &mut [Argument],
    out: &mut Handle,
    at: &mut u64,
) -> i32
    requires places { Testable (as_mut_ptr out) × Testable (as_mut_ptr at) }
    ensures text { result ≡ OK → IsPrint format.now (piece_arguments args.old) out.new.text }
    ensures kept { (result ≡ OK) ⊎ (out.new.text ≡ out.old.text) }
    ensures too_long { result ≡ TOO_LONG → IsLongPrint format.now (piece_arguments args.old) }
    ensures bad_format { result ≡ BAD_FORMAT → IsBadAt format.now at.new }
    ensures wrong { result ≡ WRONG_ARGUMENTS → IsWrongFor format.now (piece_arguments args.old) }
    ensures bad_value { result ≡ BAD_VALUE → HasBadValue format.now (piece_arguments args.old) at.new }
    ensures at_kept { (result ≡ BAD_FORMAT) ⊎ (result ≡ BAD_VALUE) ⊎ (at.new ≡ at.old) }
    ensures code { (result ≡ OK) ⊎ (result ≡ TOO_LONG) ⊎ (result ≡ NO_MEMORY) ⊎ (result ≡ BAD_FORMAT)
        ⊎ (result ≡ WRONG_ARGUMENTS) ⊎ (result ≡ BAD_VALUE) }
    ensures args { piece_arguments args.new ≡ piece_arguments args.old }
{
    if either_missing(out, at) {
        return NULL_POINTER;
    }
    let Ok(texts) = texts_of(alloc, args) else {
        return NO_MEMORY;
    };
    let Ok(args) = arguments(alloc, args, &texts) else {
        return NO_MEMORY;
    };
    match print(alloc, format, &args) {
        Ok(text) => out.hold_within(alloc, Ok(text)),
        Err(NoPrint::TooLong) => TOO_LONG,
        Err(NoPrint::NoMemory) => NO_MEMORY,
        Err(NoPrint::WrongArguments) => WRONG_ARGUMENTS,
        Err(NoPrint::BadFormat(offset)) => {
            *at = offset;
            BAD_FORMAT
        }
        Err(NoPrint::BadValue(number)) => {
            *at = number;
            BAD_VALUE
        }
    }
}

// Why there is no print: a bad format has the offset of what is no conversion, a bad value the number of its argument.
#[derive(Clone, Copy)]
enum NoPrint {
    TooLong,
    NoMemory,
    BadFormat(u64),
    WrongArguments,
    BadValue(u64),
}

// The texts of arguments once more, which share their trees: those of numbers too. Refused only when out of memory.
fn texts_of(alloc: Global, args: &mut [Argument]) -> Result<Vec<Text>, AllocError>
    ensures texts { IfOk result (λ made. made.items ≡ texts_in args.old) }
    ensures same { piece_arguments args.new ≡ piece_arguments args.old }
    ensures same_texts { texts_in args.new ≡ texts_in args.old }
{
    let mut made = Vec::with_capacity(alloc, args.len())?;
    for place in 0..args.len() {
        let arg = &mut args[place];
        arg.text.read_onto(alloc, &mut made)?;
    }
    Ok(made)
}

// The arguments as a print takes them, whose texts are these. Refused only when out of memory.
fn arguments<'a>(
    alloc: Global,
    args: &[Argument],
    texts: &'a [Text],
) -> Result<Vec<TextArg<'a>>, AllocError>
    requires texts { texts.now ≡ texts_in args.now }
    ensures made { IfOk result (λ made. of_texts.piece_arguments made.items ≡ piece_arguments args.now) }
{
    let mut made = Vec::with_capacity(alloc, args.len())?;
    for (place, text) in texts.iter().enumerate() {
        let arg = args[place].with(text);
        made.push(arg)?;
    }
    Ok(made)
}

// The text of a format with these arguments, or why there is none.
fn print(alloc: Global, format: &[u8], args: &[TextArg<'_>]) -> Result<Text, NoPrint>
    ensures text { IfOk result (IsPrint format.now (of_texts.piece_arguments args.now)) }
    ensures refused { IfErr result (IsRefusedPrint format.now (of_texts.piece_arguments args.now)) }
{
    let format = match Format::parse(alloc, format) {
        Ok(format) => format,
        Err(FormatError::BadFormat(offset)) => return Err(NoPrint::BadFormat(offset as u64)),
        Err(FormatError::NoMemory) => return Err(NoPrint::NoMemory),
    };
    match Text::print(alloc, &format, args) {
        Ok(text) => Ok(text),
        Err(PrintError::TooLong) => Err(NoPrint::TooLong),
        Err(PrintError::NoMemory) => Err(NoPrint::NoMemory),
        Err(PrintError::WrongArgs) => Err(NoPrint::WrongArguments),
        Err(PrintError::Negative(number)) => Err(NoPrint::BadValue(number)),
        Err(PrintError::BadByte(number)) => Err(NoPrint::BadValue(number)),
    }
}
