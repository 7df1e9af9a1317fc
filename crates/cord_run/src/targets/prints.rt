// Prints of what names hold.
ghost use Rattle.std.specs.Prelude.{◌≡◌, ◌≤◌, IfErr, IfOk, Ok, map};
ghost use Rattle.cord_meaning.specs.Formats.{format_text};
ghost use Rattle.cord_run.specs.inner.{within, and_then, length_of, lengths_of, plain_of, IsFaultOver, IsOver};
ghost use Rattle.cord_run.specs.inner.{IsTextOver, Table, argument_in};

use crate::stops::Stop;
use crate::store::Store;
use crate::store::cords::shared;
use cord_core::Cord;
use cord_io::MAX_LEN;
use cord_printf::{Arg, Format, sprintf, sprintf_len};
use cord_script::Argument;
use std::alloc::{AllocError, Global};

/// The cord that a format prints with these arguments, which shares theirs. Refused with the fault of the first
/// argument that is refused, or else with `TooLong`, or with `NoMemory`.
pub(crate) fn print(
    alloc: Global,
    store: &Store,
    format: &Format,
    arguments: &[Argument],
) -> Result<Cord, Stop>
    ensures made { IfOk result (IsTextOver store.now.entries.items (λ s. format_text s format.now arguments.now)) }
    ensures refused { IfErr result (IsFaultOver store.now.entries.items
        (λ s. and_then (format_text s format.now arguments.now) (λ t. within MAX_LEN t))) }
{
    let args = arguments_of(alloc, store, arguments)?;
    Ok(sprintf(alloc, format, &args)?)
}

/// The length of what `print` makes, or the same refusal.
pub(crate) fn print_length(
    alloc: Global,
    store: &Store,
    format: &Format,
    arguments: &[Argument],
) -> Result<u64, Stop>
    ensures reported { IfOk result (λ len. (len ≤ MAX_LEN) × ((t : Table) →
        IsOver (lengths_of t) store.now.entries.items → length_of (and_then
        (format_text (plain_of t store.now.entries.items) format.now arguments.now) (λ x. within MAX_LEN x))
        ≡ Ok len)) }
    ensures refused { IfErr result (IsFaultOver store.now.entries.items
        (λ s. and_then (format_text s format.now arguments.now) (λ t. within MAX_LEN t))) }
{
    let args = arguments_of(alloc, store, arguments)?;
    Ok(sprintf_len(format, &args)?)
}

// The arguments of a print, of which cords are shared.
fn arguments_of(
    alloc: Global,
    store: &Store,
    arguments: &[Argument],
) -> Result<Vec<Arg>, AllocError>
    ensures made { IfOk result (λ args. args.items ≡ map (λ argument. argument_in store.now.entries.items argument)
        arguments.now) }
{
    let mut args = Vec::with_capacity(alloc, arguments.len())?;
    for argument in arguments {
        args.push(argument_of(alloc, store, argument)?)?;
    }
    Ok(args)
}

// One of them.
fn argument_of(alloc: Global, store: &Store, argument: &Argument) -> Result<Arg, AllocError>
    ensures made { IfOk result (λ arg. arg ≡ argument_in store.now.entries.items argument.now) }
{
    match argument {
        Argument::Number(number) => Ok(Arg::Num(store.value_of(number))),
        Argument::Cord(name) => {
            let cord = shared(alloc, store, name)?;
            Ok(Arg::Cord(cord))
        }
    }
}
