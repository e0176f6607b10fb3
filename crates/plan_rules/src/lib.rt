// The six plan rules: 1 to 5 train by train, rule 6 by sections, and the judgement of a plan by all.
#![tactic(auto)]

pub mod apart;
pub mod judging;
pub mod rules;
