// The reader of a book: the content of each kind of frame, and the frames in their order.
#![tactic(auto)]

pub mod content;
pub mod reading;
