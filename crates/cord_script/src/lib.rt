//! Scripts: from bytes to statements.
#![tactic(auto)]

mod blocks;
mod context;
mod diagnosis;
mod errors;
mod fields;
mod following;
mod formats;
mod grammar;
mod kinds;
mod laws;
mod limits;
mod line;
mod names;
mod numerals;
mod parser;
mod refusals;
mod remaining_words;
mod statements;
mod table;
mod verbs;
mod words;

pub use cord_operands::{
    Argument, Arguments, Function, Name, Names, Number, Path, Relation, Shared, Text, bucket_of,
    key_of,
};
pub use cord_syntax::{Script, Statement};
pub use laws::{
    branches_change_no_script, bytes_are_one_script, bytes_are_read_or_have_an_error,
    bytes_have_one_error, read_scripts_have_no_error, worked_examples_hold,
};
pub use limits::limits_are;
pub use parser::parse;
pub use refusals::{Refusal, RefusalKind};

/// The greatest number of bytes of a script.
pub const MAX_SCRIPT: usize = 1_048_576;
/// The greatest number of lines of a script.
pub const MAX_LINES: u32 = 65_536;
/// The greatest number of names of a script, of all kinds together.
pub const MAX_NAMES: usize = 256;
/// The greatest number of distinct paths of a script.
pub const MAX_PATHS: usize = 64;
/// The greatest number of blocks inside each other.
pub const MAX_BLOCKS: usize = 8;
/// The greatest number of bytes of a quoted word, its escapes resolved.
pub const MAX_TEXT: usize = 65_535;
/// The greatest number of bytes of a name.
pub const MAX_NAME: usize = 32;
/// The greatest number of bytes of a path.
pub const MAX_PATH: usize = 4_095;
/// The least number of cords of a `catn`.
pub const MIN_PARTS: usize = 2;
/// The greatest number of cords of a `catn`.
pub const MAX_PARTS: usize = 16;
