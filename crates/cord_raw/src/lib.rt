//! A buffer of bytes in raw memory: blocks of 128 bytes, each an allocation of its own, chained by raw pointers.
//! Callers see a list of bytes. No byte moves while a buffer grows.
#![tactic(auto)]

mod block;
mod buffer;
mod chain;
mod limits;
mod raw;
mod text;

pub use buffer::RawBuf;
pub use limits::limits_are;
pub use raw::Raw;
