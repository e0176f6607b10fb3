// Sections: the label of each segment under a set of borders.
#![tactic(auto)]

pub mod labels;
