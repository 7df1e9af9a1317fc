//! Cords for programs in C: each exported function is one call of the library. The header is `include/zomtsje.h`.
#![tactic(auto)]

mod argument;
mod chunks;
mod code;
mod copy;
mod edit;
mod editing;
mod editor;
mod extend;
mod extensible;
mod find;
mod handle;
mod hash;
mod lazy;
mod lazy_make;
mod lazy_part;
mod limits;
mod line_index;
mod lines;
mod list;
mod loan;
mod make;
mod pointer;
mod position;
mod print;
mod queries;
mod referent;
mod scan;
mod walk;

pub use argument::Argument;
pub use chunks::{CHUNK, Chunks};
pub use code::{
    BAD_FORMAT, BAD_VALUE, IN_FILE, NO_MEMORY, NOT_FOUND, NULL_POINTER, OK, PAST_END, TOO_LONG,
    WRONG_ARGUMENTS,
};
pub use editor::Editor;
pub use extensible::{Extensible, ROOM};
pub use handle::Handle;
pub use lazy::LazyHandle;
pub use limits::limits_are;
pub use line_index::Lines;
pub use loan::Loan;
pub use position::{Position, WINDOW};
