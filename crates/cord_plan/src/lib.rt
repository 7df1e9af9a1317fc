//! Plans: what a run of a script makes, of what it computes the length alone, and in which order.
//!
//! `plans`, `operations` and `expressions` are what a plan consists of. `flow` finds which names each line reads and
//! which are read later; `planner` chooses by it what stands for each operand, and makes the operations. `plan_text`
//! writes a plan as text. `laws`, `meaning` and their like state what holds of all plans.
#![tactic(auto)]

mod edits;
mod examples;
mod expression_laws;
mod expressions;
mod flow;
mod jumps;
mod laws;
mod limits;
mod meaning;
mod operations;
mod pair_laws;
mod plan_text;
mod planner;
mod plans;

pub use edits::{Edit, OwnRange, Replacement};
pub use examples::{plans_are_computed, runs_of_plans_are_computed};
pub use expression_laws::{
    defining_expressions_mean_their_lines, flattened_cats_mean_the_nested, measures_are_lengths,
    subs_over_cats_are_resolved_by_lengths,
};
pub use expressions::{Expr, Members};
pub use laws::{
    dead_targets_are_not_built, fixed_points_report_what_is_read, no_cat_stands_in_a_cat,
    plans_are_one, what_is_read_later_is_one,
};
pub use limits::limits_are;
pub use meaning::{
    planned_scripts_keep_the_meaning, planned_scripts_meet_the_conditions, plans_keep_the_meaning,
    trivial_plans_keep_the_meaning,
};
pub use operations::{Made, Operation};
pub use pair_laws::{
    pairs_are_planned, pairs_leave_their_name_out, replacements_keep_expressions_small,
};
pub use planner::plan;
pub use plans::Plan;

/// The greatest number of parts of an expression that an operand was replaced in.
pub const MAX_EXPR_PARTS: u32 = 64;
