// Why a script is refused.
ghost use Rattle.std.specs.Prelude.{◌≡◌};
ghost use Rattle.cord_script.specs.Refusals.{code_of, text_of};
ghost use Rattle.cord_script.specs.declared.refusals.RefusalKind.TheVariants.{NoMemory};

use std::alloc::{AllocError, AllocFailed};

/// What is wrong with a script; the comments give the code and the text of each.
#[derive(Clone, Copy, Debug, PartialEq, Eq)]
pub enum RefusalKind {
    /// 1, `script too big`: more than 1,048,576 bytes or 65,536 lines.
    TooBig,
    /// 2, `quote not closed`: a line ends inside quotes.
    Unterminated,
    /// 3, `bad escape`: a backslash inside quotes that begins no escape.
    BadEscape,
    /// 4, `unknown statement`: the first word of a line is no statement's word.
    UnknownStatement,
    /// 5, `wrong number of words`: a statement with too few or too many words or arguments.
    WrongCount,
    /// 6, `bad name`: a word that is no name, function, relation or path where one is wanted.
    BadName,
    /// 7, `bad number`: a number operand that is quoted or is no numeral.
    BadNumber,
    /// 8, `unknown name`: an operand that no earlier line assigns.
    UnknownName,
    /// 9, `wrong kind`: a name of another kind, or a plain word where a quoted one is wanted.
    WrongKind,
    /// 10, `bad format`: the format of a `sprintf` isn't one.
    BadFormat,
    /// 11, `loops too deep`: a block that would be the ninth open one.
    TooDeep,
    /// 12, `end without repeat`: an `end` where no block is open.
    EndAlone,
    /// 13, `repeat without end`: a `repeat` that the script doesn't close.
    MissingEnd,
    /// 14, `too many`: more than 256 names or 64 paths.
    TooMany,
    /// 15, `text too long`: a quoted word of more than 65,535 bytes.
    LiteralTooLong,
    /// 16, `no memory`: memory was refused; this says nothing of the script.
    NoMemory,
    /// 17, `else without if`: an `else` where the innermost block is no `if` or had its `else`.
    ElseAlone,
    /// 18, `if without end`: an `if` that the script doesn't close.
    MissingIfEnd,
}

impl RefusalKind {
    /// The number of the kind, 1 to 18.
    pub fn code(self) -> u8
        ensures { result ≡ code_of self }
    {
        match self {
            RefusalKind::TooBig => 1,
            RefusalKind::Unterminated => 2,
            RefusalKind::BadEscape => 3,
            RefusalKind::UnknownStatement => 4,
            RefusalKind::WrongCount => 5,
            RefusalKind::BadName => 6,
            RefusalKind::BadNumber => 7,
            RefusalKind::UnknownName => 8,
            RefusalKind::WrongKind => 9,
            RefusalKind::BadFormat => 10,
            RefusalKind::TooDeep => 11,
            RefusalKind::EndAlone => 12,
            RefusalKind::MissingEnd => 13,
            RefusalKind::TooMany => 14,
            RefusalKind::LiteralTooLong => 15,
            RefusalKind::NoMemory => 16,
            RefusalKind::ElseAlone => 17,
            RefusalKind::MissingIfEnd => 18,
        }
    }

    /// The text that a program prints for the kind.
    pub fn text(self) -> &'static str
        ensures { result.now ≡ text_of self }
    {
        match self {
            RefusalKind::TooBig => "script too big",
            RefusalKind::Unterminated => "quote not closed",
            RefusalKind::BadEscape => "bad escape",
            RefusalKind::UnknownStatement => "unknown statement",
            RefusalKind::WrongCount => "wrong number of words",
            RefusalKind::BadName => "bad name",
            RefusalKind::BadNumber => "bad number",
            RefusalKind::UnknownName => "unknown name",
            RefusalKind::WrongKind => "wrong kind",
            RefusalKind::BadFormat => "bad format",
            RefusalKind::TooDeep => "loops too deep",
            RefusalKind::EndAlone => "end without repeat",
            RefusalKind::MissingEnd => "repeat without end",
            RefusalKind::TooMany => "too many",
            RefusalKind::LiteralTooLong => "text too long",
            RefusalKind::NoMemory => "no memory",
            RefusalKind::ElseAlone => "else without if",
            RefusalKind::MissingIfEnd => "if without end",
        }
    }
}

impl From<AllocError> for RefusalKind {
    ghost from_gives = { λ _ kind. kind ≡ NoMemory };

    fn from(_error: AllocError) -> RefusalKind {
        Self::NoMemory
    }
}

impl<T: Drop> From<AllocFailed<T>> for RefusalKind {
    ghost from_gives = { λ _ kind. kind ≡ NoMemory };

    fn from(_failed: AllocFailed<T>) -> RefusalKind {
        AllocError.into()
    }
}

/// The line, counted from 1, and what is wrong there; line 0 is the script as a whole.
#[derive(Clone, Copy, Debug, PartialEq, Eq)]
pub struct Refusal {
    pub line: u32,
    pub kind: RefusalKind,
}
