//! Named files and functions as sources: a table of sources that only grows, which cords can be made over.
#![tactic(auto)]

mod blocks;
mod cords;
mod faults;
mod files;
mod functions;
mod limits;
mod opening;
mod reading;
mod slots;
mod sources;

pub use faults::FileError;
pub use limits::limits_are;
pub use sources::Sources;

/// The greatest number of paths that are open at a time.
pub const MAX_FILES: usize = 64;

/// The greatest length of a short file, in bytes: `Sources::from_file` reads it whole.
pub const SHORT_FILE: u64 = 131_072;
