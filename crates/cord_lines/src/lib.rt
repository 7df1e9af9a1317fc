//! Lines of a text by number.
#![tactic(auto)]

mod around;
mod blocks;
mod counting;
mod cutting;
mod editor;
mod index;
mod reading;
mod renewing;

pub use editor::LineEditor;
pub use index::LineIndex;
