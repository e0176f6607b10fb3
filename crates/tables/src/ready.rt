// A book that passed, with the tables that were prepared from its bytes: what holds of them is said here, once.
// Assumes nothing.
ghost use Rattle.tables.specs.Ready.{RunsReady, ChainsReady, MeetsReady};

use model::{Book, Counts};

// What a plan is judged by: the runs of the book's trains, and what meets.
#[derive(Clone, Copy)]
pub struct Tables<'a> {
    pub book: Book,
    pub counts: Counts,
    pub runs: &'a [u8],
    pub meets: &'a [u8],
    pub ghost runs_ready: { RunsReady book counts runs.now },
    pub ghost meets_ready: { MeetsReady book meets.now },
}

// What the formula is walked by: the same, and the chains of runs.
#[derive(Clone, Copy)]
pub struct FormulaTables<'a> {
    pub book: Book,
    pub counts: Counts,
    pub runs: &'a [u8],
    pub chains: &'a [usize],
    pub meets: &'a [u8],
    pub ghost runs_ready: { RunsReady book counts runs.now },
    pub ghost chains_ready: { ChainsReady book chains.now },
    pub ghost meets_ready: { MeetsReady book meets.now },
}
