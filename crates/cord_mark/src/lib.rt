//! Marks: a mark stands for the parts of a text, none of which it holds, and two that are one mark stand
//! for the same parts.
#![tactic(auto)]

mod mark;

pub use mark::Mark;
