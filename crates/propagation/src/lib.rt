// The step rule: the clauses that hints may name, and unit propagation by hints.
#![tactic(auto)]

pub mod clause_table;
pub mod hints;
