//! The library of cords under one roof: `Text`, a cord over no files that is seen as its bytes alone, and the names
//! that users need of the crates below.
//!
//! A text that is kept in memory:
//!
//! ```rust greeted
//! use cord::{CordError, Text};
//! use std::alloc::Global;
//!
//! /// "hello, NAME", and that once more without its first word. No byte is copied for the second one.
//! pub fn greeted(alloc: Global, name: &str) -> Result<(Text, Text), CordError> {
//!     let hello = Text::from_str(alloc, "hello, ")?;
//!     let greeted = hello.append_bytes(alloc, name.as_bytes())?;
//!     let rest = greeted.remove(alloc, 0, hello.len())?;
//!     Ok((greeted, rest))
//! }
//! ```
//!
//! A text over a file, which is read where it is looked at:
//!
//! ```rust total_of
//! use cord::{Cord, FileError, Files, Position, Sources, str, to_vec};
//! use std::alloc::Global;
//!
//! /// The digits after the first "total " in the file at `path`, none where that stands nowhere.
//! pub fn total_of<F: Files>(
//!     alloc: Global,
//!     sources: &mut Sources<F>,
//!     path: &str,
//! ) -> Result<Vec<u8>, FileError> {
//!     let text = sources.lazy(alloc, path)?;
//!     let word = Cord::from_bytes(alloc, b"total ")?;
//!     let Some(place) = str(&text, 0, &word, sources)? else {
//!         return Ok(Vec::new(alloc));
//!     };
//!     let start = place + word.len();
//!     let mut position = Position::set(&text, start);
//!     let mut count = 0;
//!     while position.is_valid() && position.fetch(sources)?.is_ascii_digit() {
//!         position.next();
//!         count += 1;
//!     }
//!     let digits = text.substr(alloc, start, count)?;
//!     let digits = to_vec(alloc, &digits, sources)?;
//!     Ok(digits)
//! }
//! ```
//!
//! `put`, `to_vec`, `str`, `Position::fetch` and the other calls that look at the bytes of a cord ask that it fits the
//! source that they are given, and some that a place lies inside it. A cord that `Sources` made fits them, as the
//! clause `fits` of those calls says, and what `cat`, `substr` and the others make of cords that fit does too, by their
//! clause `over`.
#![tactic(auto)]

mod builder;
mod chunks;
mod chunks_back;
mod count;
mod doubling;
mod edit;
mod editor;
mod hash;
mod join;
mod lines;
mod make;
mod memory;
mod no_source;
mod order;
mod output;
mod print;
mod search;
mod show;
mod sink;
mod text;
mod tree;

pub use builder::TextBuilder;
pub use chunks::{Chunk, Chunks};
pub use chunks_back::ChunksBack;
pub use cord_core::{Cord, Node};
pub use cord_ec::ExtCord;
pub use cord_file::{FileError, Sources};
pub use cord_io::{
    CordError, CutFiles, DiskFiles, FileNo, Files, FuseFiles, FuseSink, MAX_DEPTH, MAX_LEN,
    MemFiles, MemSink, OpenFault, ReadFault, Sink, Source, SourceId, StdSink, WriteFault,
};
pub use cord_iter::{Visitor, iter, iter5, put, riter, riter4, to_vec};
pub use cord_pos::{Position, Span};
pub use cord_printf::{Arg, Format, FormatError, PrintError, sprintf, sprintf_len};
pub use cord_search::{
    MOST_BYTES, chr, cmp, fetch, find_bytes, find_bytes_in, ncmp, rchr, rstr, str, str as find,
    str_in,
};
pub use doubling::repeated;
pub use editor::TextEditor;
pub use lines::Lines;
pub use no_source::NoSource;
pub use print::TextArg;
pub use sink::TextSink;
pub use text::Text;
