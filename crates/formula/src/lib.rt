// The formula: its families, the clauses of a cap, one walk over them, and the judgement of an assignment
// by that walk.
#![tactic(auto)]

pub mod counting;
pub mod families;
pub mod judging;
pub mod walk;
