// What a book says: its counts, and the runs of its trains.
ghost use Rattle.std.specs.Prelude.{◌≡◌, ◌<◌, length};
ghost use Rattle.listing.specs.Listed.{table_bytes};
ghost use Rattle.tables.specs.Tables.{all_chains};

use listing::{ENTRY_BYTES, TABLE_BYTES};
use model::{Counts, MAX_RUNS, MAX_TRAINS, Refusal};
use programs::printing::{print_decimal, print_text};
use reader::reading::read_book;
use std::rt::HostRuntime;
use tables::chains::{ALL_CHAINS, chain_trains};
use tables::preparing::prepare_runs;

// A number in decimal, and a byte behind it.
fn print_number(rt: &HostRuntime, n: usize, end: u8) {
    print_decimal(rt, n as u64);
    let behind = [end];
    print_text(rt, &behind);
}

fn print_refusal(rt: &HostRuntime, refusal: Refusal) {
    print_number(rt, refusal.number(), b' ');
    print_number(rt, refusal.detail(), b'\n');
}

// How many nodes, segments, joins, trains and calls a book has, or its refusal.
pub fn print_counts(rt: &HostRuntime, s: &[u8]) {
    match read_book(s) {
        Ok(read) => {
            let b = read.book;
            print_text(rt, b"accepted ");
            print_number(rt, b.node_count, b' ');
            print_number(rt, b.segment_count, b' ');
            print_number(rt, b.join_count, b' ');
            print_number(rt, b.train_count, b' ');
            print_number(rt, b.call_count, b'\n');
        }
        Err(refusal) => print_refusal(rt, refusal),
    }
}

// A path of n directed segments.
fn print_path(rt: &HostRuntime, path: &[u8], n: usize) {
    for d in path.iter().take(n) {
        print_number(rt, usize::from(*d), b' ');
    }
}

// The run whose entry in the tables of all trains is number `at`: its directed segments, the first run
// that follows it, and the next run that starts where it does.
fn print_run(rt: &HostRuntime, at: usize, runs: &[u8], chains: &[usize])
    requires { (at < 2048) × (length runs.now ≡ table_bytes) × (length chains.now ≡ all_chains) }
{
    let entry = at * ENTRY_BYTES;
    print_path(
        rt,
        &runs[entry + 1..entry + ENTRY_BYTES],
        usize::from(runs[entry]),
    );
    print_text(rt, b"| ");
    print_number(rt, chains[2 * at], b' ');
    print_number(rt, chains[2 * at + 1], b'\n');
}

fn print_head(rt: &HostRuntime, train: usize, n: usize) {
    print_text(rt, b"train ");
    print_number(rt, train, b':');
    print_text(rt, b" ");
    print_number(rt, n, b' ');
    print_text(rt, b"runs\n");
}

// A train of n runs.
fn print_train(rt: &HostRuntime, train: usize, n: usize, runs: &[u8], chains: &[usize])
    requires { (train < 8) × (length runs.now ≡ table_bytes) × (length chains.now ≡ all_chains) }
{
    print_head(rt, train, n);
    for run in 0..n.min(MAX_RUNS) {
        print_run(rt, train * MAX_RUNS + run, runs, chains);
    }
}

// The first n trains.
fn print_trains(rt: &HostRuntime, n: usize, counts: Counts, runs: &[u8], chains: &[usize])
    requires { (length runs.now ≡ table_bytes) × (length chains.now ≡ all_chains) }
{
    for train in 0..n.min(MAX_TRAINS) {
        print_train(rt, train, counts[train], runs, chains);
    }
}

// The run list of each train of a book, or its refusal.
pub fn print_runs(rt: &HostRuntime, s: &[u8]) {
    let mut runs = [0u8; TABLE_BYTES];
    let mut chains = [0usize; ALL_CHAINS];
    match prepare_runs(s, &mut runs) {
        Ok(read) => {
            chain_trains(read.book, read.counts, &runs, &mut chains);
            print_trains(rt, read.book.train_count, read.counts, &runs, &chains);
        }
        Err(refusal) => print_refusal(rt, refusal),
    }
}
