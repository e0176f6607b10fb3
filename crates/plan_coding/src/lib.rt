// An assignment as a plan, and a plan as an assignment.
#![tactic(auto)]

pub mod counting;
pub mod decoding;
pub mod encoding;
