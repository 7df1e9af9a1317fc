// Why an operation stops a run, and what a refusal of a call on cords, files or prints is to one.
ghost use Rattle.std.specs.Prelude.{◌≡◌};
ghost use Rattle.cord_run.specs.declared.stops.Stop.TheVariants.{Fault, NoMemory};
ghost use Rattle.cord_run.specs.inner.{stop_of_cord, stop_of_file, stop_of_print};

use cord_file::FileError;
use cord_io::CordError;
use cord_meaning::FaultKind;
use cord_printf::PrintError;
use std::alloc::AllocError;

/// Why an operation stops a run.
#[derive(Drop)]
pub(crate) enum Stop {
    /// The operation met a fault.
    Fault(FaultKind),
    /// Memory was refused.
    NoMemory,
    /// The files failed.
    ReadFailed,
    /// The sink did not take what was put.
    WriteFailed,
}

/// A stop, and the line of its operation: 0 before the first one.
#[derive(Drop)]
pub(crate) struct StopAt {
    pub(crate) line: u32,
    pub(crate) reason: Stop,
}

impl From<AllocError> for Stop {
    ghost from_gives = { λ _ stop. stop ≡ NoMemory };

    fn from(_error: AllocError) -> Stop {
        Stop::NoMemory
    }
}

impl From<FaultKind> for Stop {
    ghost from_gives = { λ kind stop. stop ≡ Fault kind };

    fn from(kind: FaultKind) -> Stop {
        Stop::Fault(kind)
    }
}

impl From<CordError> for Stop {
    ghost from_gives = { λ error stop. stop ≡ stop_of_cord error };

    fn from(error: CordError) -> Stop {
        match error {
            CordError::NoMemory => Stop::NoMemory,
            CordError::TooLong => Stop::Fault(FaultKind::TooLong),
            CordError::ReadFailed => Stop::ReadFailed,
            CordError::WriteFailed => Stop::WriteFailed,
        }
    }
}

impl From<FileError> for Stop {
    ghost from_gives = { λ error stop. stop ≡ stop_of_file error };

    // A script that is read names no more paths than can be open, so there are never too many; then there would be no
    // memory.
    fn from(error: FileError) -> Stop {
        match error {
            FileError::NoFile => Stop::Fault(FaultKind::NoFile),
            FileError::TooLong => Stop::Fault(FaultKind::TooLong),
            FileError::ReadFailed => Stop::ReadFailed,
            FileError::TooManyFiles | FileError::NoMemory => Stop::NoMemory,
        }
    }
}

impl From<PrintError> for Stop {
    ghost from_gives = { λ error stop. stop ≡ stop_of_print error };

    // A script that is read gives each format the arguments that it wants, so none is wrong; then there would be no
    // memory.
    fn from(error: PrintError) -> Stop {
        match error {
            PrintError::Negative(_) => Stop::Fault(FaultKind::Negative),
            PrintError::BadByte(_) => Stop::Fault(FaultKind::BadByte),
            PrintError::TooLong => Stop::Fault(FaultKind::TooLong),
            PrintError::WrongArgs | PrintError::NoMemory => Stop::NoMemory,
        }
    }
}
