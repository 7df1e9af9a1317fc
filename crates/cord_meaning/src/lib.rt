//! What a script means: the run of its statements over plain lists of bytes, defined apart from any code that runs it.
#![tactic(auto)]

mod ends;
mod examples;
mod laws;
mod limits;

pub use ends::{End, FaultKind};
pub use examples::{
    examples_are_computed, examples_of_searches_are_computed, examples_with_blocks_are_computed,
    right_ends_are_faithful, wrong_ends_are_not_faithful,
};
pub use laws::{
    every_run_ends, functions_are_sources, limits_only_refuse, paths_follow_blocks,
    read_scripts_are_closed, runs_are_unrolled, runs_follow_paths, what_was_run_stays,
};
pub use limits::limits_are;

/// The greatest number of turns that all loops of a run begin together.
pub const MAX_TURNS: u64 = 1_000_000;
