// Questions to a book: its track, its trains' calls, and scans of its segments.
#![tactic(auto)]

pub mod calls;
pub mod scans;
pub mod track;
