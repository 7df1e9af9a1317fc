//! Runs scripts on cords.
#![tactic(auto)]

mod checks;
mod control;
mod expressions;
mod laws;
mod limits;
mod loops;
mod runner;
mod statements;
mod stops;
mod store;
mod targets;

pub use cord_meaning::{End, FaultKind};
pub use laws::plans_fail_where_their_scripts_do;
pub use limits::runs_have_few_files;
pub use runner::{run, run_text, run_unplanned};
