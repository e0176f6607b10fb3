// A refutation's file: lists of four-byte numbers, and steps in their frames.
#![tactic(auto)]

pub mod numbers;
pub mod steps;
