//! The program `cordsh` as a library: what its words ask for, over any devices and over those of the machine.
#![tactic(auto)]

mod machine;
mod outcome;
mod program;
mod reader;
mod words;

pub use machine::{Ran, run_on_machine};
pub use outcome::{Outcome, report};
pub use program::drive;
