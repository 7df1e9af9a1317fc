//! Formats: texts with conversions, after C's printf.
#![tactic(auto)]

mod arguments;
mod conversions;
mod digits;
mod errors;
mod format;
mod laws;
mod output;
mod piece_text;
mod pieces;
mod print;
mod reading;

pub use arguments::Arg;
pub use errors::{FormatError, PrintError};
pub use format::Format;
pub use laws::{
    bytes_are_format_or_bad, digits_write_their_number, formats_have_one_reading, limits_are,
    refused_formats_are_none,
};
pub use pieces::{ArgKind, Flags, Literal, Piece, Radix};
pub use print::{sprintf, sprintf_len};

/// The greatest width and the greatest precision of a conversion.
pub const MAX_WIDTH: u16 = 9_999;
