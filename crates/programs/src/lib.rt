// What the commands print: the formula's text in pieces, and the line of a verdict.
#![tactic(auto)]

pub mod arguments;
pub mod dimacs;
pub mod printing;
pub mod system;
pub mod verdicts;
