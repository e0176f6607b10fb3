// The tables that the formula and the checks look things up in, prepared from the bytes of a book: its
// runs and their places, the chains of runs that follow a run, and which segments meet at a node.
#![tactic(auto)]

pub mod chains;
pub mod meets;
pub mod places;
pub mod preparing;
pub mod ready;
