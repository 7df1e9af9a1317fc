// How a run ends.
ghost use Rattle.std.specs.Prelude.{◌≡◌, codes};
ghost use Rattle.cord_meaning.specs.Faults.{text_of};

/// Why a statement can't be run: a fault ends the run at its line.
#[derive(Clone, Copy, Debug, PartialEq, Eq)]
pub enum FaultKind {
    /// A number below 0 stands for an index, a count or an unsigned argument.
    Negative,
    /// A number that isn't from 0 to 255 stands for a byte.
    BadByte,
    /// An index is at or past the end of a text.
    OutOfRange,
    /// No file has this path.
    NoFile,
    /// A text would be longer than the limit.
    TooLong,
    /// A sum or difference is outside i64.
    Overflow,
    /// A turn would be one more than the loops of a run may begin.
    TooManyTurns,
}

impl FaultKind {
    /// The text that the program prints for this fault.
    pub fn text(self) -> &'static str
        ensures { result.now ≡ text_of self }
    {
        match self {
            FaultKind::Negative => "negative number",
            FaultKind::BadByte => "byte out of range",
            FaultKind::OutOfRange => "index out of range",
            FaultKind::NoFile => "no such file",
            FaultKind::TooLong => "too long",
            FaultKind::Overflow => "overflow",
            FaultKind::TooManyTurns => "too many turns",
        }
    }
}

/// How a run ends. The number is the line, 0 outside any statement.
#[derive(Clone, Copy, Debug, PartialEq, Eq)]
pub enum End {
    /// All statements were run.
    Done,
    /// A statement met a fault.
    Fault(u32, FaultKind),
    /// Memory was refused.
    NoMemory(u32),
    /// A file couldn't be read.
    ReadFailed(u32),
    /// The sink couldn't be written to.
    WriteFailed(u32),
}
