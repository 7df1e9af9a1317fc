//! The words of a statement after its first: names, texts, paths, numbers and arguments of formats.
#![tactic(auto)]

mod keys;
mod names;
mod operands;
mod sequences;
mod shared;

pub use keys::{bucket_of, key_of};
pub use names::{Name, Names, Path, Text};
pub use operands::{Argument, Arguments, Function, Number, Relation};
pub use sequences::Sequence;
pub use shared::Shared;
