// A train's runs, by their numbers in its list. Assumes nothing.
ghost use Rattle.std.specs.Prelude.{◌≡◌, ◌≤◌, ◌<◌, length, replicate};
ghost use Rattle.spec.specs.Lists.{accepted};
ghost use Rattle.spec.specs.Instance.{instance_of};
ghost use Rattle.spec.specs.Held.{held, padded};
ghost use Rattle.spec.specs.Library.{run_asked, ask_run};
ghost use Rattle.listing.specs.Listed.{train_bytes, place_at, start_at};
ghost use Rattle.tables.specs.Tables.{Passed};
ghost use Rattle.tables.specs.Ready.{RunsHeld, RunsReady};
ghost use Rattle.gentupag.specs.Answers.{run_answer};

use crate::answers::{NO_RUN, NO_TRAIN, NOTHING_MISSING, Run};
use listing::{TABLE_BYTES, TRAIN_BYTES};
use model::{Book, Counts};
use network::track::length_in_segments;
use tables::places::{size_of, start_of};
use tables::preparing::prepare_runs;

// An answer without a run: a refusal, or what is missing.
fn without_run(number: usize, detail: usize, missing: usize, runs: usize) -> Run
    ensures { result ≡ record { number = number; detail = detail; missing = missing; runs = runs; place = 0; length = 0; path = replicate 16 0 } }
{
    Run {
        number,
        detail,
        missing,
        runs,
        place: 0,
        length: 0,
        path: [0u8; 16],
    }
}

// The directed segments of a train's run, with zeros behind.
fn path_of(runs: &[u8], run: usize, size: usize) -> [u8; 16]
    requires { (length runs.now ≡ train_bytes) × (run < 256) × (size ≤ 16) }
    ensures { result ≡ padded 16 0 (place_at runs.now (start_at run) size) }
{
    let base = start_of(run);
    let mut path = [0u8; 16];
    path[..size].copy_from_slice(&runs[base..base + size]);
    path
}

// A run of a train that has n runs, by the train's table.
fn run_among(b: Book, train: usize, n: usize, runs: &[u8], run: usize) -> Run
    requires { Passed b × (train < b.train_count) × (n ≡ (instance_of (held b)).runs train) × RunsHeld (held b) train runs.now }
    ensures { result ≡ run_answer (accepted (run_asked (held b) train run)) }
{
    if n <= run {
        return without_run(0, 0, NO_RUN, n);
    }
    let place = length_in_segments(b, b.trains[train]);
    let size = size_of(runs, run);
    let path = path_of(runs, run, size);
    Run {
        number: 0,
        detail: 0,
        missing: NOTHING_MISSING,
        runs: n,
        place,
        length: size,
        path,
    }
}

// A run of a train, by the table of a book.
fn run_for(b: Book, counts: Counts, runs: &[u8], train: usize, run: usize) -> Run
    requires { RunsReady b counts runs.now }
    ensures { result ≡ run_answer (accepted (run_asked (held b) train run)) }
{
    if b.train_count <= train {
        return without_run(0, 0, NO_TRAIN, 0);
    }
    let part = train * TRAIN_BYTES;
    run_among(
        b,
        train,
        counts[train],
        &runs[part..part + TRAIN_BYTES],
        run,
    )
}

// A run of a train of the book that the bytes hold.
pub fn run_of(book: &[u8], train: usize, run: usize) -> Run
    ensures { result ≡ run_answer (ask_run book.now train run) }
{
    let mut runs = [0u8; TABLE_BYTES];
    match prepare_runs(book, &mut runs) {
        Ok(read) => run_for(read.book, read.counts, &runs, train, run),
        Err(refusal) => without_run(refusal.number(), refusal.detail(), NOTHING_MISSING, 0),
    }
}
