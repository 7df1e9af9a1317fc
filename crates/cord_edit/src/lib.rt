//! Texts that are edited at a place which moves now and then, as an editor's: a gap buffer over cords.
#![tactic(auto)]

mod buffer;
mod gap;
mod parted;

pub use buffer::EditBuffer;
