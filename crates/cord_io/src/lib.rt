//! Limits, errors and devices: files to read from, sources of bytes and sinks to write to.
#![tactic(auto)]

mod cut;
mod disk;
mod failures;
mod faults;
mod fuse_files;
mod fuse_sink;
mod given;
mod limits;
mod machine;
mod memory;
mod memory_sink;
mod opened;
mod reader;
mod reading;
mod sources;
mod span;
mod standard;
mod tally;
mod trace;
mod writer;
mod writing;

pub use cut::CutFiles;
pub use disk::DiskFiles;
pub use faults::{CordError, OpenFault, ReadFault, WriteFault};
pub use fuse_files::FuseFiles;
pub use fuse_sink::FuseSink;
pub use given::reports_what_the_machine_gave;
pub use limits::limits_are;
pub use memory::{MemFiles, keeps_what_was_added};
pub use memory_sink::MemSink;
pub use reading::{FileNo, Files};
pub use sources::{Source, SourceId};
pub use standard::StdSink;
pub use writing::Sink;

/// The greatest length of a cord, in bytes: 2^40 - 1.
pub const MAX_LEN: u64 = 1_099_511_627_775;

/// The greatest depth of a cord: the steps from its root to its deepest leaf.
pub const MAX_DEPTH: u32 = 60;
