// Where things lie: the formula's variables, their blocks, and a plan's moves.
#![tactic(auto)]

pub mod blocks;
pub mod counter;
pub mod moves;
pub mod numbering;
