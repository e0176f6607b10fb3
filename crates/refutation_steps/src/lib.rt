// The check of a refutation's steps: one step, and the list of them.
#![tactic(auto)]

pub mod one_step;
pub mod step_list;
