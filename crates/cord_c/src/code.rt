//! The codes that calls give, which the header names too.
ghost use Rattle.std.specs.Prelude.{◌≡◌, ◌⊎◌, ◌↔◌};
ghost use Rattle.cord_core.specs.Refusals.{IsRefusal};

use cord::CordError;

/// The call did what it says.
pub const OK: i32 = 0;

/// The text would be longer than the longest that there is.
pub const TOO_LONG: i32 = 1;

/// Memory was refused.
pub const NO_MEMORY: i32 = 2;

/// There is no such place.
pub const PAST_END: i32 = 5;

/// The bytes lie in a file.
pub const IN_FILE: i32 = 6;

/// A pointer was null.
pub const NULL_POINTER: i32 = 9;

/// The bytes are no format.
pub const BAD_FORMAT: i32 = 10;

/// A format takes other arguments: another number of them, or others' kinds.
pub const WRONG_ARGUMENTS: i32 = 11;

/// An argument's value is none that its conversion takes.
pub const BAD_VALUE: i32 = 12;

/// The place that a search gives where it found none.
pub const NOT_FOUND: u64 = u64::MAX;

/// The code of a call that was refused as too long or as out of memory.
pub(crate) fn code_of(refusal: CordError) -> i32
    requires { IsRefusal refusal }
    ensures code { (result ≡ TOO_LONG) ⊎ (result ≡ NO_MEMORY) }
    ensures cause { (result ≡ TOO_LONG) ↔ (refusal ≡ CordError.TooLong) }
{
    match refusal {
        CordError::TooLong => TOO_LONG,
        _ => NO_MEMORY,
    }
}
