// Why a format or a print is refused.
ghost use Rattle.std.specs.Prelude.{◌≡◌};
ghost use Rattle.cord_printf.specs.declared.errors.PrintError.TheVariants.{NoMemory};

use std::alloc::AllocError;
use thiserror::Error;

/// Why bytes are no format.
#[derive(Clone, Copy, Debug, PartialEq, Eq, Error)]
pub enum FormatError {
    /// The offset of the first `%` that stands after whole pieces and begins no conversion.
    #[error("no conversion begins at byte {0} of the format")]
    BadFormat(usize),
    /// Memory was refused.
    #[error("out of memory")]
    NoMemory,
}

/// Why a print is refused. Arguments are counted from 0.
#[derive(Clone, Copy, Debug, PartialEq, Eq, Error)]
pub enum PrintError {
    /// The number of arguments, or the kind of one, isn't what the format wants.
    #[error("the arguments aren't those that the format wants")]
    WrongArgs,
    /// An unsigned conversion has a negative argument.
    #[error("argument {0} is negative")]
    Negative(u64),
    /// The argument of `%c` isn't a byte.
    #[error("argument {0} is no byte")]
    BadByte(u64),
    /// The text would be longer than `MAX_LEN`.
    #[error("the text is too long")]
    TooLong,
    /// Memory was refused.
    #[error("out of memory")]
    NoMemory,
}

impl From<AllocError> for PrintError {
    ghost from_gives = { λ _ e. e ≡ NoMemory };

    fn from(_error: AllocError) -> PrintError {
        PrintError::NoMemory
    }
}
