// The book by value: document 01's records as structs, with counts. The specification's segments,
// joins and calls are these very structs; a train's place and the book's rows are, there, lists of
// the length that stands beside the array here. And why an input is refused, by name.
#![tactic(auto)]

pub mod refusals;

pub use refusals::Refusal;

// The limits of document 01, and T's of document 02, each once in code: the contracts of the functions
// that test them tie them to the specification's. MAX_CALLS is a train's, MAX_REACH the greatest l and k.
pub const MAX_NODES: usize = 96;

pub const MAX_SEGMENTS: usize = 64;

pub const MAX_JOINS: usize = 128;

pub const MAX_TRAINS: usize = 8;

pub const MAX_CALLS: usize = 4;

pub const MAX_INTERVALS: usize = 256;

// The greatest T of an old book.
pub const OLD_INTERVALS: usize = 32;

pub const MAX_TTD: usize = 63;

pub const MAX_REACH: usize = 8;

pub const MAX_RUNS: usize = 256;

// A number for each train.
pub type Counts = [usize; MAX_TRAINS];

// A segment: its two nodes and its TTD.
#[derive(Clone, Copy)]
pub struct Segment {
    pub a: u8,
    pub b: u8,
    pub ttd: u8,
}

// A join of two segments at a node.
#[derive(Clone, Copy)]
pub struct Join {
    pub node: u8,
    pub left: u8,
    pub right: u8,
}

// A train: `place` holds `size` directed segments, rear first.
#[derive(Clone, Copy)]
pub struct Train {
    pub metres: usize,
    pub speed: usize,
    pub departure: usize,
    pub size: usize,
    pub place: [u8; MAX_REACH],
}

// A call of a train on a segment, in the window from `first` to `last`.
#[derive(Clone, Copy)]
pub struct Call {
    pub train: u8,
    pub segment: u8,
    pub first: usize,
    pub last: usize,
}

// A book: each row holds as many entries as its count says, in file order; behind them it is zero.
#[derive(Clone, Copy)]
pub struct Book {
    pub segment_metres: usize,
    pub interval_seconds: usize,
    pub intervals: usize,
    pub node_count: usize,
    pub segment_count: usize,
    pub join_count: usize,
    pub train_count: usize,
    pub call_count: usize,
    pub nodes: [u8; MAX_NODES],
    pub segments: [Segment; MAX_SEGMENTS],
    pub joins: [Join; MAX_JOINS],
    pub trains: [Train; MAX_TRAINS],
    pub calls: [Call; MAX_TRAINS * MAX_CALLS],
}
