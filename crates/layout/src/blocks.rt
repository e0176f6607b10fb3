// A train's variables in an interval lie in a block: its runs, gone, and one claim a segment. A block by
// value says whose it is and the numbers that tell where each variable lies. Assumes nothing.
ghost use Rattle.std.specs.Prelude.{◌≡◌, ◌≤◌, ◌<◌};
ghost use Rattle.tables.specs.Ready.{Counted};
ghost use Rattle.layout.specs.Blocks.{BlockOf};

use crate::numbering::{base_from, first_variable};
use model::{Book, Counts};
use network::track::length_in_segments;

// A block: its train, how many runs the train has and how long it is in segments; its first variable.
#[derive(Clone, Copy, Debug, PartialEq, Eq)]
pub struct Block {
    pub train: usize,
    pub runs: usize,
    pub length: usize,
    pub base: usize,
}

// The block of a train in its first interval.
pub fn train_block(b: Book, counts: Counts, train: usize) -> Block
    requires { Counted b counts × (train < b.train_count) }
    ensures { BlockOf b train 0 result }
{
    let t = b.trains[train];
    let length = length_in_segments(b, t);
    Block {
        train,
        runs: counts[train],
        length,
        base: first_variable(b, counts, train),
    }
}

// The block of the same train in an interval, or behind the last.
pub fn block_at(b: Book, first: Block, interval: usize) -> Block
    requires { BlockOf b first.train 0 first × (interval ≤ b.intervals) }
    ensures { BlockOf b first.train interval result × (result.train ≡ first.train) }
{
    Block {
        base: base_from(first.base, first.runs, b.segment_count, interval),
        ..first
    }
}
