//! Calls that are refused memory at most once, at a place that whoever runs the test names: each leaves its arguments
//! as they were, and serves when it is made again.
mod answers;
mod cords;
mod extensible;
pub(super) mod files;
mod gaps;
mod iteration;
pub(super) mod nodes;
pub(super) mod plans;
mod prints;
pub(super) mod raw;
mod runs;
pub(super) mod scripts;
pub(super) mod sources;
