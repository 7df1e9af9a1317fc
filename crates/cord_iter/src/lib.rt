//! Walks over the bytes of cords, forwards and backwards, and output of cords to sinks, after `CORD_iter5`,
//! `CORD_riter4` and `CORD_put` of `cord.h` of the Boehm collector's distribution.
#![tactic(auto)]

mod backward;
mod collect;
mod forward;
mod output;
mod pieces;
mod visitor;

pub use backward::{riter, riter4};
pub use collect::to_vec;
pub use forward::{iter, iter5};
pub use output::put;
pub use pieces::put_all;
pub use visitor::Visitor;

/// The most bytes of a short run, or of a short function part, that are handed over at once.
pub(crate) const PIECE_LEN: usize = 512;

/// The most bytes of a longer function part that are put at once: some blocks of a file, so that few of them are asked
/// for twice.
pub(crate) const PAGE_LEN: usize = 4_096;

/// The most bytes of a long run or function part that are put at once: a buffer that has room for no more is passed
/// over.
pub(crate) const BLOCK_LEN: usize = 131_072;
