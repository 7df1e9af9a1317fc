//! Why a command isn't done.
use cord::CordError;
use std::alloc::AllocError;
use thiserror::Error;

/// Why a command isn't done. The text stays as it was.
#[derive(Clone, Copy, Debug, Error)]
pub enum Refusal {
    #[error("no such command")]
    NoSuchCommand,
    #[error("a number is wanted")]
    NoNumber,
    #[error("OLD/NEW is wanted")]
    NoSlash,
    #[error("past the end")]
    PastEnd,
    #[error("not found")]
    NotFound,
    #[error("nothing to undo")]
    NothingToUndo,
    #[error("nothing to redo")]
    NothingToRedo,
    #[error(transparent)]
    Memory(#[from(alloc)] AllocError),
    #[error(transparent)]
    Library(#[from] CordError),
}
