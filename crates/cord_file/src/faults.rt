// What goes wrong with a file.
ghost use Rattle.std.specs.Prelude.{◌≡◌};
ghost use Rattle.cord_file.specs.Faults.{file_error_of, opening_error};
ghost use Rattle.cord_file.specs.declared.faults.FileError.TheVariants.{NoMemory, ReadFailed};

use cord_io::{CordError, OpenFault, ReadFault};
use std::alloc::{AllocError, AllocFailed};
use thiserror::Error;

/// Why a call on files was refused.
#[derive(Clone, Copy, Debug, Drop, PartialEq, Eq, Error)]
pub enum FileError {
    /// There is no file at the path.
    #[error("no such file")]
    NoFile,
    /// The file is longer than a cord can be.
    #[error("too long")]
    TooLong,
    /// The device failed while a file was opened or read.
    #[error("read failed")]
    ReadFailed,
    /// As many other paths are open as can be.
    #[error("too many files")]
    TooManyFiles,
    /// A growth or a copy found no memory.
    #[error("no memory")]
    NoMemory,
}

impl From<AllocError> for FileError {
    ghost from_gives = { λ _ e. e ≡ NoMemory };

    fn from(_error: AllocError) -> FileError {
        FileError::NoMemory
    }
}

impl<T: Drop> From<AllocFailed<T>> for FileError {
    ghost from_gives = { λ _ e. e ≡ NoMemory };

    fn from(_failed: AllocFailed<T>) -> FileError {
        AllocError.into()
    }
}

impl From<OpenFault> for FileError {
    ghost from_gives = { λ fault e. e ≡ opening_error fault };

    fn from(fault: OpenFault) -> FileError {
        match fault {
            OpenFault::NotFound => FileError::NoFile,
            OpenFault::Failed => FileError::ReadFailed,
        }
    }
}

impl From<ReadFault> for FileError {
    ghost from_gives = { λ _ e. e ≡ ReadFailed };

    fn from(_fault: ReadFault) -> FileError {
        FileError::ReadFailed
    }
}

impl From<CordError> for FileError {
    ghost from_gives = { λ error e. e ≡ file_error_of error };

    fn from(error: CordError) -> FileError {
        match error {
            CordError::NoMemory => FileError::NoMemory,
            CordError::TooLong => FileError::TooLong,
            CordError::ReadFailed | CordError::WriteFailed => FileError::ReadFailed,
        }
    }
}
