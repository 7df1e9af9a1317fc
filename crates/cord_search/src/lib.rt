//! Fetching bytes, comparing cords and finding bytes and cords in them, after `CORD_fetch`, `CORD_chr`, `CORD_rchr`,
//! `CORD_cmp`, `CORD_ncmp` and `CORD_str` of `cord.h` of the Boehm collector's distribution.
#![tactic(auto)]

mod bytes;
mod last;
mod limits;
mod order;
mod periods;
mod pieces;
mod shared_parts;
mod slices;
mod span_order;
mod spans;
mod substring;

pub use bytes::{chr, fetch, rchr};
pub use last::rstr;
pub use limits::limits_are;
pub use order::{cmp, ncmp};
pub use spans::cord_span_at;
pub use substring::{MOST_BYTES, find_bytes, find_bytes_in, str, str_in};

/// The most bytes of a run or of a function part that are looked at together, but for the windows of `str`.
pub(crate) const PIECE_LEN: usize = 512;
